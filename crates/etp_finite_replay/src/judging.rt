ghost use Rattle.std.specs.Prelude.{◌≡◌, ◌<◌, ◌-◌, ◌↔◌, IsTrue, IfErr, OnOk, IsSome, Some, length, slice_get};
ghost use Rattle.etp_theory.specs.Sameness.{Same};
ghost use Rattle.etp_theory.specs.LawNumbers.{law_numbered};
ghost use Rattle.etp_term.specs.Laws.{equation_of};
ghost use Rattle.etp_laws.specs.Listing.{IsTheList};
ghost use Rattle.etp_replay.specs.Validity.{law_at, IsOtherLaw};
ghost use Rattle.etp_replay.specs.declared.refusal.ReplayRefusal as Replays;
ghost use Rattle.etp_cancel.specs.FiniteMagmas.{FiniteImplies};
ghost use Rattle.etp_finite_body.specs.FiniteBodies.{finite_proof_of};
ghost use Rattle.etp_finite_replay.specs.FiniteValidity.{IsValidFinite, IsFiniteRefused};

use crate::refusal::FiniteReplayRefusal;
use crate::replaying::replay_lemmas;
use etp_finite_body::FiniteProof;
use etp_laws::{Laws, Numbered};
use etp_replay::ReplayRefusal;
use etp_term::Law;
use std::alloc::Global;

/// Replays a proof for finite magmas. Numbers count listed laws; in every finite magma in which the
/// hypothesis of a valid proof holds, its goal holds.
pub fn replay_finite(
    alloc: Global,
    laws: &Laws,
    proof: &FiniteProof,
) -> Result<(), FiniteReplayRefusal>
    requires hypothesis { IsSome (law_numbered laws.now.equations proof.now.hypothesis) }
    requires goal { IsSome (law_numbered laws.now.equations proof.now.goal) }
    requires lemmas { 0 < length proof.now.lemmas }
    ensures valid { OnOk result (IsValidFinite laws.now.equations (finite_proof_of proof.now)) }
    ensures implied { OnOk result (FiniteImplies (law_at laws.now.equations proof.now.hypothesis)
        (law_at laws.now.equations proof.now.goal)) }
    ensures err { IfErr result (IsFiniteRefused laws.now (finite_proof_of proof.now)) }
{
    let hypothesis = listed(laws, proof.hypothesis);
    let found = replay_lemmas(alloc, hypothesis, proof.lemmas.as_slice())?;
    compare_goal(laws, proof.goal, last_of(found.as_slice()))
}

fn last_of(laws: &[Law]) -> &Law
    requires { 0 < length laws.now }
    ensures { slice_get laws.now (length laws.now - 1) ≡ Some result.now }
{
    match laws.last() {
        Some(law) => law,
        None => unreachable!(),
    }
}

/// The law of a listed number.
fn listed(laws: &Laws, number: u32) -> &Law
    requires { IsSome (law_numbered laws.now.equations number) }
    ensures law { equation_of result.now ≡ law_at laws.now.equations number }
    ensures list { IsTheList laws.now.order laws.now.equations }
{
    match laws.law(number) {
        Some(law) => law,
        None => unreachable!(),
    }
}

/// Whether the law is the one of this number.
fn compare_goal(laws: &Laws, goal: u32, last: &Law) -> Result<(), FiniteReplayRefusal>
    requires listed { IsSome (law_numbered laws.now.equations goal) }
    requires list { IsTheList laws.now.order laws.now.equations }
    ensures ok { OnOk result (Same (equation_of last.now) (law_at laws.now.equations goal)) }
    ensures err { IfErr result (λ r. (t : Replays.ReplayRefusal)
        × (r ≡ FiniteReplayRefusal.Replay t)
        × IsOtherLaw laws.now (equation_of last.now) (law_at laws.now.equations goal) t) }
{
    let found = laws.number(last);
    if !is_number(found, goal) {
        return Err(FiniteReplayRefusal::Replay(ReplayRefusal::GoalDiffers { found }));
    }
    Ok(())
}

fn is_number(found: Numbered, number: u32) -> bool
    ensures { IsTrue result ↔ (found ≡ Numbered.Is number) }
{
    match found {
        Numbered::Is(n) => n == number,
        _ => false,
    }
}
