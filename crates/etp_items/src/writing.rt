// The text of a body.
ghost use Rattle.std.specs.Prelude.{◌≡◌, ◌≤◌, IfOk};
ghost use Rattle.etp_rules.specs.Rules.{rules_of};
ghost use Rattle.etp_items.specs.Bodies.{body_of, model, table, linear, linear_in, matrix, matrix_in, rules, weight_of, claims_of};
ghost use Rattle.etp_items.specs.Written.{written_body, HasSize};

use crate::body::{Body, LinearBody, MatrixBody, RulesBody, TableBody};
use crate::claims::writing::append_claims;
use crate::linear::writing::append_linear;
use crate::matrix::writing::append_matrix;
use crate::proof::writing::proof_text;
use crate::rules::writing::append_system;
use crate::table::writing::append_table;
use etp_term::NoMemory;
use etp_text::Text;
use std::alloc::Global;

/// The lines of a body as they are written: words with one space between two, numbers without
/// leading zeros, no blank lines.
pub fn body_text(alloc: Global, body: &Body) -> Result<Text, NoMemory>
    requires { HasSize (body_of body.now) }
    ensures { IfOk result (λ text. text ≡ written_body (body_of body.now)) }
{
    match body {
        Body::Proof(proof) => proof_text(alloc, proof),
        Body::Table(table) => table_text(alloc, table),
        Body::Linear(linear) => linear_text(alloc, linear),
        Body::Matrix(matrix) => matrix_text(alloc, matrix),
        Body::Rules(rules) => rules_text(alloc, rules),
    }
}

fn table_text(alloc: Global, body: &TableBody) -> Result<Text, NoMemory>
    requires { 1 ≤ body.now.size }
    ensures { IfOk result (λ text. text
        ≡ written_body (model (table body.now.size body.now.entries) (claims_of body.now.claims))) }
{
    let mut text = Text::empty(alloc);
    append_table(&mut text, body.size, body.entries.as_slice())?;
    append_claims(&mut text, &body.claims)?;
    Ok(text)
}

fn linear_text(alloc: Global, body: &LinearBody) -> Result<Text, NoMemory>
    ensures { IfOk result (λ text. text ≡ written_body
        (model (linear (linear_in body.now)) (claims_of body.now.claims))) }
{
    let mut text = Text::empty(alloc);
    append_linear(&mut text, body)?;
    append_claims(&mut text, &body.claims)?;
    Ok(text)
}

fn matrix_text(alloc: Global, body: &MatrixBody) -> Result<Text, NoMemory>
    requires { 1 ≤ body.now.size }
    ensures { IfOk result (λ text. text ≡ written_body
        (model (matrix (matrix_in body.now)) (claims_of body.now.claims))) }
{
    let mut text = Text::empty(alloc);
    append_matrix(&mut text, body)?;
    append_claims(&mut text, &body.claims)?;
    Ok(text)
}

fn rules_text(alloc: Global, body: &RulesBody) -> Result<Text, NoMemory>
    ensures { IfOk result (λ text. text ≡ written_body
        (model (rules (weight_of body.now) (rules_of body.now.rules)) (claims_of body.now.claims))) }
{
    let mut text = Text::empty(alloc);
    append_system(&mut text, body)?;
    append_claims(&mut text, &body.claims)?;
    Ok(text)
}
