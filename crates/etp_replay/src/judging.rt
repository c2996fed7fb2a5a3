ghost use Rattle.std.specs.Prelude.{◌≡◌, ◌<◌, ◌⊎◌, ◌↔◌, IsTrue, IfOk, IfErr, OnOk, IsSome, All, length, map};
ghost use Rattle.etp_theory.specs.Sameness.{Same};
ghost use Rattle.etp_theory.specs.Derivations.{Derives};
ghost use Rattle.etp_theory.specs.Proofs.{conclusion, AllDerived};
ghost use Rattle.etp_term.specs.Laws.{equation_of};
ghost use Rattle.etp_laws.specs.Listing.{IsTheList};
ghost use Rattle.etp_theory.specs.LawNumbers.{law_numbered};
ghost use Rattle.etp_proof.specs.Lemmas.{lemma_of};
ghost use Rattle.etp_replay.specs.Lines.{cites_of};
ghost use Rattle.etp_replay.specs.Validity.{law_at, IsValid, IsRefused, IsOtherLaw};

use crate::refusal::ReplayRefusal;
use crate::replaying::replay_lemmas;
use etp_laws::{Laws, Numbered};
use etp_match::Bindings;
use etp_proof::{Lemma, Proof};
use etp_term::{Law, NoMemory};
use std::alloc::Global;

/// Replays a proof whose cited files prove the laws numbered `cited` from the same hypothesis.
/// Numbers count listed laws; a valid proof derives its goal from its hypothesis where it derives
/// the cited laws (Birkhoff 1935).
pub fn replay<'p>(
    alloc: Global,
    laws: &'p Laws,
    proof: &'p Proof,
    cited: &[u32],
) -> Result<(), ReplayRefusal>
    requires hypothesis { IsSome (law_numbered laws.now.equations proof.now.hypothesis) }
    requires goal { IsSome (law_numbered laws.now.equations proof.now.goal) }
    requires lemmas { 0 < length proof.now.lemmas }
    requires cites { length cited.now ≡ length proof.now.cites }
    requires cited { All (λ n. IsSome (law_numbered laws.now.equations n)) cited.now }
    ensures valid { OnOk result (IsValid laws.now.equations proof.now cited.now) }
    ensures derived { OnOk result (AllDerived (law_at laws.now.equations proof.now.hypothesis)
        (map (law_at laws.now.equations) cited.now)
        → Derives (law_at laws.now.equations proof.now.hypothesis)
        (law_at laws.now.equations proof.now.goal)) }
    ensures err { IfErr result (λ r. IsRefused laws.now proof.now cited.now r) }
{
    let hypothesis = listed(laws, proof.hypothesis);
    let cites = cited_laws(alloc, laws, cited)?;
    let mut bindings = Bindings::empty(alloc)?;
    let lemmas = proof.lemmas.as_slice();
    replay_lemmas(hypothesis, cites.as_slice(), lemmas, &mut bindings)?;
    let last = &lemmas[lemmas.len() - 1];
    compare_goal(alloc, laws, proof.goal, last)?;
    Ok(())
}

/// The law of a listed number.
fn listed(laws: &Laws, number: u32) -> &Law
    requires { IsSome (law_numbered laws.now.equations number) }
    ensures law { equation_of result.now ≡ law_at laws.now.equations number }
    ensures list { IsTheList laws.now.order laws.now.equations }
{
    match laws.law(number) {
        Some(law) => law,
        None => unreachable!(),
    }
}

/// The laws of listed numbers.
fn cited_laws<'p>(alloc: Global, laws: &'p Laws, cited: &[u32]) -> Result<Vec<&'p Law>, NoMemory>
    requires { All (λ n. IsSome (law_numbered laws.now.equations n)) cited.now }
    ensures { IfOk result (λ cites.
        cites_of cites.items ≡ map (law_at laws.now.equations) cited.now) }
{
    let mut cites = Vec::with_capacity(alloc, cited.len())?;
    for number in cited {
        cites.push(listed(laws, *number))?;
    }
    Ok(cites)
}

/// Whether the lemma concludes the law of this number.
fn compare_goal(alloc: Global, laws: &Laws, goal: u32, last: &Lemma) -> Result<(), ReplayRefusal>
    requires listed { IsSome (law_numbered laws.now.equations goal) }
    requires list { IsTheList laws.now.order laws.now.equations }
    ensures ok { OnOk result (Same (conclusion (lemma_of last.now))
        (law_at laws.now.equations goal)) }
    ensures err { IfErr result (λ r. (r ≡ ReplayRefusal.NoMemory)
        ⊎ IsOtherLaw laws.now (conclusion (lemma_of last.now)) (law_at laws.now.equations goal) r) }
{
    let conclusion = last.conclusion(alloc)?;
    let found = laws.number(&conclusion);
    if !is_number(found, goal) {
        return Err(ReplayRefusal::GoalDiffers { found });
    }
    Ok(())
}

fn is_number(found: Numbered, number: u32) -> bool
    ensures { IsTrue result ↔ (found ≡ Numbered.Is number) }
{
    match found {
        Numbered::Is(n) => n == number,
        _ => false,
    }
}
