// Where a law that fails in the magma of a file fails first.
ghost use Rattle.std.specs.Prelude.{◌≡◌, ◌≤◌, Some, IsSome, IfOk, OnOk};
ghost use Rattle.etp_theory.specs.Trees.{ops, bound, law_ops};
ghost use Rattle.etp_theory.specs.LawNumbers.{law_numbered};
ghost use Rattle.etp_term.specs.Terms.{tree_of};
ghost use Rattle.etp_term.specs.Laws.{equation_of};
ghost use Rattle.etp_laws.specs.Listing.{Listed};
ghost use Rattle.etp_matrix.specs.Magmas.{IsShape};
ghost use Rattle.etp_linear.specs.Magmas.{IsLinearMagma};
ghost use Rattle.etp_linear.specs.Linears as Linears;
ghost use Rattle.etp_matrix.specs.Magmas.{IsMatrixMagma};
ghost use Rattle.etp_matrix.specs.Linears as Matrices;
ghost use Rattle.etp_rules.specs.Rules.{rules_of};
ghost use Rattle.etp_items.specs.Bodies.{body_of, table, linear, matrix, rules, linear_in, matrix_in, weight_of};
ghost use Rattle.etp_check.specs.Checks.{HasRules, IsRuleMagma};
ghost use Rattle.etp_evidence.specs.Failing.{FailsIn, FailsInBody, IsFailureLine, IsBodyFailure, Appends};

use etp_check::{CheckRefusal, system_of};
use etp_items::{Body, LinearBody, MatrixBody, RulesBody, TableBody};
use etp_laws::Laws;
use etp_linear::Linear;
use etp_matrix::MatrixLinear;
use etp_pairs::{Judged, judge_terms};
use etp_print::{
    append_linear_failure, append_matrix_failure, append_rules_failure, append_table_failure,
};
use etp_profile::table_of;
use etp_rules::RuleSystem;
use etp_table::Verdict;
use etp_term::Law;
use etp_text::Text;
use std::alloc::{AllocError, Global};

/// Appends where the law of this number, which fails in the magma of a body, fails first.
pub(crate) fn append_failure(
    alloc: Global,
    text: &mut Text,
    laws: &Laws,
    body: &Body,
    number: u32,
) -> Result<(), AllocError>
    requires { FailsInBody laws.now.equations (body_of body.now) number }
    ensures { OnOk result (Appends text.old text.new
        (IsBodyFailure laws.now.equations (body_of body.now) number)) }
{
    match body {
        Body::Proof(_) => unreachable!(),
        Body::Table(body) => append_in_table(alloc, text, laws, body, number),
        Body::Linear(body) => append_in_linear(text, laws, body, number),
        Body::Matrix(body) => append_in_matrix(text, laws, body, number),
        Body::Rules(body) => append_in_rules(alloc, text, laws, body, number),
    }
}

fn append_in_table(
    alloc: Global,
    text: &mut Text,
    laws: &Laws,
    body: &TableBody,
    number: u32,
) -> Result<(), AllocError>
    requires { FailsIn laws.now.equations (table body.now.size body.now.entries) number }
    ensures { OnOk result (Appends text.old text.new
        (IsFailureLine laws.now.equations (table body.now.size body.now.entries) number)) }
{
    let table = table_of(alloc, body)?;
    match table.first_failure(listed(laws, number)) {
        Verdict::Holds { .. } => unreachable!(),
        Verdict::Fails { point, left, right } => {
            append_table_failure(text, number, &point, left, right)
        }
    }
}

fn append_in_linear(
    text: &mut Text,
    laws: &Laws,
    body: &LinearBody,
    number: u32,
) -> Result<(), AllocError>
    requires { FailsIn laws.now.equations (linear (linear_in body.now)) number }
    ensures { OnOk result (Appends text.old text.new
        (IsFailureLine laws.now.equations (linear (linear_in body.now)) number)) }
{
    let linear = linear_of(body);
    match linear.first_failure(listed(laws, number)) {
        None => unreachable!(),
        Some(failure) => append_linear_failure(text, number, &failure),
    }
}

fn append_in_matrix(
    text: &mut Text,
    laws: &Laws,
    body: &MatrixBody,
    number: u32,
) -> Result<(), AllocError>
    requires { FailsIn laws.now.equations (matrix (matrix_in body.now)) number }
    ensures { OnOk result (Appends text.old text.new
        (IsFailureLine laws.now.equations (matrix (matrix_in body.now)) number)) }
{
    let matrix = matrix_of(body);
    match matrix.first_failure(listed(laws, number)) {
        None => unreachable!(),
        Some(failure) => append_matrix_failure(text, number, body.size, &failure),
    }
}

fn append_in_rules(
    alloc: Global,
    text: &mut Text,
    laws: &Laws,
    body: &RulesBody,
    number: u32,
) -> Result<(), AllocError>
    requires { FailsIn laws.now.equations
        (rules (weight_of body.now) (rules_of body.now.rules)) number }
    ensures { OnOk result (Appends text.old text.new (IsFailureLine laws.now.equations
        (rules (weight_of body.now) (rules_of body.now.rules)) number)) }
{
    let system = rules_in(alloc, body)?;
    let law = listed(laws, number);
    match judge_terms(alloc, &system, &law.left, &law.right)? {
        Judged::OneForm(_) => unreachable!(),
        Judged::TwoForms(left_form, right_form) => {
            append_rules_failure(text, number, &left_form, &right_form)
        }
        Judged::TermLimit => unreachable!(),
        Judged::StepLimit => unreachable!(),
    }
}

/// The rule system of a valid body.
fn rules_in(alloc: Global, body: &RulesBody) -> Result<RuleSystem, AllocError>
    requires some { HasRules (rules_of body.now.rules) }
    requires magma { IsRuleMagma (weight_of body.now) (rules_of body.now.rules) }
    ensures { IfOk result (λ system. system.rules ≡ body.now.rules) }
{
    match system_of(alloc, body) {
        Ok(system) => Ok(system),
        Err(CheckRefusal::Rules(_)) => unreachable!(),
        Err(_) => Err(AllocError),
    }
}

/// The linear magma of a valid body.
fn linear_of(body: &LinearBody) -> Linear
    requires { IsLinearMagma (linear_in body.now) }
    ensures { Linears.magma_of result ≡ linear_in body.now }
{
    match Linear::of(body.ring, body.a, body.b, body.c) {
        Ok(linear) => linear,
        Err(_) => unreachable!(),
    }
}

/// The matrix-linear magma of a valid body.
fn matrix_of(body: &MatrixBody) -> MatrixLinear
    requires { IsMatrixMagma (matrix_in body.now) }
    ensures { Matrices.magma_of result ≡ matrix_in body.now }
{
    let a = body.a.as_slice();
    let b = body.b.as_slice();
    match MatrixLinear::of(body.modulus, body.size, a, b, body.c.as_slice()) {
        Ok(matrix) => matrix,
        Err(_) => unreachable!(),
    }
}

/// The law of a listed number.
fn listed(laws: &Laws, number: u32) -> &Law
    requires { IsSome (law_numbered laws.now.equations number) }
    ensures law { law_numbered laws.now.equations number ≡ Some (equation_of result.now) }
    ensures listed { Listed (equation_of result.now) }
    ensures small { law_ops (equation_of result.now) ≤ 5 }
    ensures left_ops { ops (tree_of result.now.left) ≤ 5 }
    ensures right_ops { ops (tree_of result.now.right) ≤ 5 }
    ensures left_variables { bound (tree_of result.now.left) ≤ 8 }
    ensures right_variables { bound (tree_of result.now.right) ≤ 8 }
{
    let _order = laws.order();
    match laws.law(number) {
        Some(law) => law,
        None => unreachable!(),
    }
}
