// Whether all critical pairs of a system have one normal form each, place by place.
ghost use Rattle.std.specs.Prelude.{◌≡◌, ◌≤◌, ◌+◌, ◌++◌, ◌∷◌, [], IfOk, IfErr, length};
ghost use Rattle.etp_theory.specs.Trees.{ops};
ghost use Rattle.etp_theory.specs.Overlaps.{IsConvergent};
ghost use Rattle.etp_term.specs.Terms.{tree_of};
ghost use Rattle.etp_term.specs.Positions.{position_of};
ghost use Rattle.etp_rules.specs.Rules.{rules_of};
ghost use Rattle.etp_rules.specs.Weighing.{weight_of};
ghost use Rattle.etp_pairs.specs.Refusals.{IsRefused};
ghost use Rattle.etp_pairs.specs.Among.{AllPass, IsRefusedAmong, IsPartOf};
ghost use Rattle.etp_pairs.specs.Among.{OfOuter, InPart, AtPosition, AtPlace};

use crate::judging::{Judged, judge_terms};
use crate::pairing::{copied, overlap};
use crate::refusal::PairsRefusal;
use etp_rules::RuleSystem;
use etp_term::{NoMemory, Position, Side, Term};
use std::alloc::Global;

/// Whether the two results of every critical pair have one normal form (Knuth and Bendix 1970, Huet
/// 1980), or the first overlap at which they don't.
pub fn convergent(alloc: Global, system: &RuleSystem) -> Result<(), PairsRefusal>
    ensures ok { IfOk result (λ _.
        IsConvergent (weight_of system.now.weights) (rules_of system.now.rules)) }
    ensures err { IfErr result (λ refusal. IsRefused (rules_of system.now.rules) refusal) }
{
    for at in 0..system.count() {
        check_outer(alloc, system, at + 1)?;
    }
    Ok(())
}

/// Whether all overlaps of the outer rule pass.
fn check_outer(alloc: Global, system: &RuleSystem, outer: u32) -> Result<(), PairsRefusal>
    ensures ok { IfOk result (λ _. AllPass (rules_of system.now.rules) (OfOuter outer)) }
    ensures err { IfErr result (λ refusal.
        IsRefusedAmong (rules_of system.now.rules) (OfOuter outer) refusal) }
{
    match system.rule(outer) {
        None => Ok(()),
        Some(rule) => {
            let root = Position::root(alloc);
            check_part(alloc, system, outer, &root, &rule.left)?;
            Ok(())
        }
    }
}

/// Whether all overlaps inside the part of the outer left side at the position pass.
fn check_part(
    alloc: Global,
    system: &RuleSystem,
    outer: u32,
    position: &Position,
    part: &Term,
) -> Result<(), PairsRefusal>
    requires part { IsPartOf (rules_of system.now.rules) outer (position_of position.now)
        (tree_of part.now) }
    requires short { length position.now + ops (tree_of part.now) ≤ 12 }
    ensures ok { IfOk result (λ _.
        AllPass (rules_of system.now.rules) (InPart outer (position_of position.now))) }
    ensures err { IfErr result (λ refusal. IsRefusedAmong (rules_of system.now.rules)
        (InPart outer (position_of position.now)) refusal) }
{
    match part {
        Term::Var(_) => Ok(()),
        Term::Op(l, r) => {
            check_position(alloc, system, outer, position)?;
            let on_left = below(alloc, position, Side::L)?;
            check_part(alloc, system, outer, &on_left, l.get())?;
            let on_right = below(alloc, position, Side::R)?;
            check_part(alloc, system, outer, &on_right, r.get())?;
            Ok(())
        }
    }
}

/// The position one side further down.
fn below(alloc: Global, position: &Position, side: Side) -> Result<Position, NoMemory>
    requires { length position.now ≤ 12 }
    ensures { IfOk result (λ p. p ≡ position.now ++ side ∷ []) }
{
    let mut longer = copied(alloc, position)?;
    longer.push(side)?;
    Ok(longer)
}

/// Whether all overlaps of the outer rule at the position pass.
fn check_position(
    alloc: Global,
    system: &RuleSystem,
    outer: u32,
    position: &Position,
) -> Result<(), PairsRefusal>
    ensures ok { IfOk result (λ _.
        AllPass (rules_of system.now.rules) (AtPosition outer (position_of position.now))) }
    ensures err { IfErr result (λ refusal. IsRefusedAmong (rules_of system.now.rules)
        (AtPosition outer (position_of position.now)) refusal) }
{
    for at in 0..system.count() {
        check_place(alloc, system, outer, position, at + 1)?;
    }
    Ok(())
}

/// Whether the overlap of the two rules at the position passes, where there is one.
fn check_place(
    alloc: Global,
    system: &RuleSystem,
    outer: u32,
    position: &Position,
    inner: u32,
) -> Result<(), PairsRefusal>
    ensures ok { IfOk result (λ _.
        AllPass (rules_of system.now.rules) (AtPlace outer (position_of position.now) inner)) }
    ensures err { IfErr result (λ refusal. IsRefusedAmong (rules_of system.now.rules)
        (AtPlace outer (position_of position.now) inner) refusal) }
{
    let Some(pair) = overlap(alloc, system, outer, position, inner)? else {
        return Ok(());
    };
    let judged = judge_terms(alloc, system, &pair.left, &pair.right)?;
    let position = pair.position;
    match judged {
        Judged::OneForm(_) => Ok(()),
        Judged::TwoForms(left_form, right_form) => Err(PairsRefusal::Unjoinable {
            outer,
            position,
            inner,
            left_form,
            right_form,
        }),
        Judged::TermLimit => Err(PairsRefusal::TermLimit {
            outer,
            position,
            inner,
        }),
        Judged::StepLimit => Err(PairsRefusal::StepLimit {
            outer,
            position,
            inner,
        }),
    }
}
