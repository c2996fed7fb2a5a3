ghost use Rattle.std.specs.Prelude.{◌≡◌, ◌≤◌, ◌∷◌, [], IfOk, IsSome, length, map, max};
ghost use Rattle.etp_theory.specs.Trees.{bound};
ghost use Rattle.etp_theory.specs.LawNumbers.{law_numbered};
ghost use Rattle.etp_term.specs.Laws.{equation_of};
ghost use Rattle.etp_proof.specs.Lemmas.{lemma_of};
ghost use Rattle.etp_laws.specs.Listing.{IsTheList};
ghost use Rattle.etp_laws.specs.LawLists.{HasVariables};
ghost use Rattle.etp_replay.specs.Validity.{law_at, IsValid};
ghost use Rattle.etp_search.specs.Spaces.{IsSearchable};
ghost use Rattle.etp_search.specs.Programs.{space_of};
ghost use Rattle.etp_search.specs.Outcomes.{IsOutcome};
ghost use Rattle.etp_search.specs.Searched.{space_for, IsAnswer, IfFound, IfNothing, IsFewest, AllAreLonger, IsNamed};

use crate::levels::{Outcome, Quest, search};
use crate::space::Space;
use etp_laws::Laws;
use etp_proof::{Cites, Lemma, Lemmas, Proof};
use etp_term::{Law, NoMemory};
use std::alloc::Global;

/// What a search for a shortest proof finds: the proof, that there is none, or that at a number of
/// steps from the end there are too many terms to go on.
#[derive(Drop)]
pub enum Searched {
    Found(Proof),
    Nothing,
    Budget { level: u32 },
}

/// Looks for a shortest proof of one lemma from the law numbered `hypothesis` alone, from the left to
/// the right side of the law numbered `goal`, over the terms in that law's variables with at most
/// `leaves` leaves, of at most `steps` steps.
pub fn shortest(
    alloc: Global,
    laws: &Laws,
    hypothesis: u32,
    goal: u32,
    leaves: u8,
    steps: u8,
) -> Result<Searched, NoMemory>
    requires order { laws.now.order ≡ 4 }
    requires hypothesis { IsSome (law_numbered laws.now.equations hypothesis) }
    requires goal { IsSome (law_numbered laws.now.equations goal) }
    requires leaves { (1 ≤ leaves) × (leaves ≤ 6) }
    requires steps { steps ≤ 12 }
    ensures answer { IfOk result (IsAnswer (space_for laws.now.equations hypothesis goal leaves)
        (law_at laws.now.equations goal) steps) }
    ensures named { IfOk result (λ s. IfFound s (IsNamed hypothesis goal)) }
    ensures valid { IfOk result (λ s. IfFound s (λ p. IsValid laws.now.equations p [])) }
    ensures fewest { IfOk result (λ s. IfFound s
        (IsFewest (space_for laws.now.equations hypothesis goal leaves)
        (law_at laws.now.equations goal))) }
    ensures none { IfOk result (λ s. IfNothing s
        (AllAreLonger (space_for laws.now.equations hypothesis goal leaves)
        (law_at laws.now.equations goal) steps)) }
    ensures variables { HasVariables (law_at laws.now.equations goal)
        (space_for laws.now.equations hypothesis goal leaves).variables }
{
    let space = space_between(laws, hypothesis, goal, leaves);
    let goal_law = listed(laws, goal);
    let quest = Quest {
        space,
        goal: goal_law,
        steps,
    };
    match search(alloc, quest)? {
        Outcome::Reached(lemma) => {
            let proof = proof_of(alloc, hypothesis, goal, lemma)?;
            Ok(Searched::Found(proof))
        }
        Outcome::Nothing => Ok(Searched::Nothing),
        Outcome::Budget { level } => Ok(Searched::Budget {
            level: level as u32,
        }),
    }
}

/// The law of a listed number.
fn listed(laws: &Laws, number: u32) -> &Law
    requires { IsSome (law_numbered laws.now.equations number) }
    ensures law { equation_of result.now ≡ law_at laws.now.equations number }
    ensures list { IsTheList laws.now.order laws.now.equations }
{
    match laws.law(number) {
        Some(law) => law,
        None => unreachable!(),
    }
}

/// How many variables a listed law has.
fn variables_of(laws: &Laws, number: u32) -> u8
    requires order { laws.now.order ≡ 4 }
    requires listed { IsSome (law_numbered laws.now.equations number) }
    ensures exact { HasVariables (law_at laws.now.equations number) result }
    ensures bound { result ≡ max (bound (law_at laws.now.equations number).left)
        (bound (law_at laws.now.equations number).right) }
    ensures few { result ≤ 6 }
{
    let _order = laws.order();
    match laws.variables(number) {
        Some(count) => count,
        None => unreachable!(),
    }
}

/// The terms to look at, and the law to rewrite by.
fn space_between<'l>(laws: &'l Laws, hypothesis: u32, goal: u32, leaves: u8) -> Space<'l>
    requires order { laws.now.order ≡ 4 }
    requires hypothesis { IsSome (law_numbered laws.now.equations hypothesis) }
    requires goal { IsSome (law_numbered laws.now.equations goal) }
    requires leaves { leaves ≤ 6 }
    ensures space { space_of result ≡ space_for laws.now.equations hypothesis goal leaves }
    ensures searchable { IsSearchable (space_of result) }
    ensures variables { HasVariables (law_at laws.now.equations goal)
        (space_for laws.now.equations hypothesis goal leaves).variables }
{
    let _known = variables_of(laws, hypothesis);
    Space {
        law: listed(laws, hypothesis),
        variables: variables_of(laws, goal),
        leaves,
    }
}

/// The proof of one lemma, from the one listed law to the other.
fn proof_of(alloc: Global, hypothesis: u32, goal: u32, lemma: Lemma) -> Result<Proof, NoMemory>
    ensures lemmas { IfOk result (λ p. map lemma_of p.lemmas ≡ lemma_of lemma ∷ []) }
    ensures named { IfOk result (IsNamed hypothesis goal) }
{
    let mut lemmas = Lemmas::empty(alloc);
    lemmas.push(lemma)?;
    Ok(Proof {
        hypothesis,
        goal,
        cites: Cites::empty(alloc),
        lemmas,
    })
}
