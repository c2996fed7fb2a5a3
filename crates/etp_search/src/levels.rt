ghost use Rattle.std.specs.Prelude.{◌≡◌, ◌<◌, ◌≤◌, ◌+◌, ◌↔◌, ◌∷◌, [], ℕ, IsTrue, IfOk, OnOk, Some, None, length, slice_get};
ghost use Rattle.etp_theory.specs.Trees.{Tree};
ghost use Rattle.etp_theory.specs.Proofs.{ProofStep, last_term};
ghost use Rattle.etp_term.specs.Terms.{tree_of};
ghost use Rattle.etp_term.specs.Laws.{equation_of};
ghost use Rattle.etp_proof.specs.Lemmas.{step_of, lemma_of};
ghost use Rattle.etp_search.specs.Spaces.{IsSearchable, IsSearchTerm, AreNeighbours, IsWithin};
ghost use Rattle.etp_search.specs.Shortest.{IsUndecided};
ghost use Rattle.etp_search.specs.Sets.{IsJoined};
ghost use Rattle.etp_search.specs.Programs.{space_of};
ghost use Rattle.etp_search.specs.Levels.{StandsIn, IsGrown, IsLevel, IsBeside, IsLeastIn, IsNearestStep};
ghost use Rattle.etp_search.specs.Outcomes.{unmoved, pushed, IsSteppedOn, IsOutcomeFrom, IsOutcome};

use crate::expanding::add_neighbours;
use crate::nearest::nearest_step;
use crate::space::Space;
use crate::terms::Terms;
use etp_proof::{Lemma, Step, Steps};
use etp_term::{Law, NoMemory, Term};
use std::alloc::Global;

/// The most terms within some number of steps of the end with which a search goes on.
const MOST: u32 = 200000;

/// What is looked for: steps by a space's law from the left side of a goal to its right side.
#[derive(Clone, Copy)]
pub(crate) struct Quest<'l> {
    pub(crate) space: Space<'l>,
    pub(crate) goal: &'l Law,
    pub(crate) steps: u8,
}

/// What a search comes to.
#[derive(Drop)]
pub(crate) enum Outcome {
    Reached(Lemma),
    Nothing,
    Budget { level: u8 },
}

/// Whether the term is the end, and one of the space.
fn is_end(space: Space, term: &Term, end: &Term) -> bool
    ensures { IsTrue result
        ↔ IsWithin (space_of space.entry) (tree_of end.now) 0 (tree_of term.now) }
{
    space.has(term) && term.same_term(end)
}

/// The end alone, where it is a term of the space; else nothing.
fn end_level(alloc: Global, space: Space, end: &Term) -> Result<Terms, NoMemory>
    ensures level { IfOk result (λ seen.
        IsLevel (space_of space.entry) (tree_of end.now) 0 0 (length seen) seen) }
    ensures few { IfOk result (λ seen. length seen ≤ 1) }
{
    let mut seen = Terms::empty(alloc);
    if !space.has(end) {
        return Ok(seen);
    }
    let end = end.copy(alloc)?;
    seen.add(alloc, end)?;
    Ok(seen)
}

/// A copy of the term at a place.
fn copy_at(alloc: Global, seen: &Terms, at: u32) -> Result<Term, NoMemory>
    requires { at < length seen.now }
    ensures { IfOk result (λ t. slice_get seen.now at ≡ Some (tree_of t)) }
{
    let Some(term) = seen.get(at) else {
        unreachable!()
    };
    let copy = term.copy(alloc)?;
    Ok(copy)
}

/// Adds the neighbours of the terms from place `start` on, until there are more than `MOST` terms.
fn grow(alloc: Global, space: Space, start: u32, seen: &mut Terms) -> Result<(), NoMemory>
    requires space { IsSearchable (space_of space) }
    requires order { start ≤ length seen.old }
    requires terms { (t : Tree) → StandsIn seen.old 0 (length seen.old) t
        → IsSearchTerm (space_of space) t }
    ensures { OnOk result (IsJoined
        (IsBeside (space_of space.entry) seen.old start (length seen.old)) 200000
        seen.old seen.new) }
{
    let stop = seen.len();
    for at in start..stop {
        if seen.len() > MOST {
            return Ok(());
        }
        let term = copy_at(alloc, seen, at)?;
        add_neighbours(alloc, space, &term, MOST, seen)?;
    }
    Ok(())
}

/// No steps from a term.
fn no_steps(alloc: Global, from: &Term) -> Result<Lemma, NoMemory>
    ensures { IfOk result (λ l. lemma_of l ≡ unmoved (tree_of from.now)) }
{
    let start = from.copy(alloc)?;
    let steps = Steps::empty(alloc);
    Ok(Lemma { start, steps })
}

/// The lemma with one step more.
fn with_step(mut lemma: Lemma, step: Step) -> Result<Lemma, NoMemory>
    requires { length lemma.steps < 4294967295 }
    ensures { IfOk result (λ l. lemma_of l ≡ pushed (lemma_of lemma) (step_of step)) }
{
    lemma.steps.push(step)?;
    Ok(lemma)
}

/// The steps, and behind them the one to the least neighbour of their last term among the terms from
/// place `start` on and before `stop`.
fn stepped_on(
    alloc: Global,
    space: Space,
    seen: &Terms,
    start: u32,
    stop: u32,
    lemma: Lemma,
) -> Result<Lemma, NoMemory>
    requires space { IsSearchable (space_of space) }
    requires order { start ≤ stop }
    requires stop { stop ≤ length seen.now }
    requires terms { (t : Tree) → StandsIn seen.now 0 stop t → IsSearchTerm (space_of space) t }
    requires some { IsLeastIn (AreNeighbours (space_of space) (last_term (lemma_of lemma).start
        (lemma_of lemma).steps)) seen.now start stop None → ⊥ }
    requires room { length lemma.steps < 4294967295 }
    ensures { IfOk result (λ l. IsSteppedOn (space_of space.entry) seen.now start stop
        (lemma_of lemma) (lemma_of l)) }
{
    match nearest_step(alloc, space, seen, start, stop, lemma.last_term())? {
        Some(step) => {
            let longer = with_step(lemma, step)?;
            Ok(longer)
        }
        None => unreachable!(),
    }
}

/// Goes on from a level: the terms seen are those within `level` steps of the end, and the neighbours
/// of those from place `start` on are still to be looked at.
fn search_on(
    alloc: Global,
    quest: Quest,
    level: u8,
    start: u32,
    seen: &mut Terms,
) -> Result<Outcome, NoMemory>
    requires space { IsSearchable (space_of quest.space) }
    requires level { IsLevel (space_of quest.space) (tree_of quest.goal.now.right) level start
        (length seen.old) seen.old }
    requires undecided { (k : ℕ) → k ≤ level
        → IsUndecided (space_of quest.space) (equation_of quest.goal.now) k }
    requires steps { level ≤ quest.steps }
    ensures grown { OnOk result (IsGrown seen.old seen.new) }
    ensures outcome { IfOk result (IsOutcomeFrom (space_of quest.entry.space)
        (equation_of quest.entry.goal.now) quest.entry.steps level) }
{
    if level == quest.steps {
        return Ok(Outcome::Nothing);
    }
    let stop = seen.len();
    let left = &quest.goal.left;
    if let Some(step) = nearest_step(alloc, quest.space, seen, start, stop, left)? {
        let nowhere = no_steps(alloc, left)?;
        let lemma = with_step(nowhere, step)?;
        return Ok(Outcome::Reached(lemma));
    }
    grow(alloc, quest.space, start, seen)?;
    if seen.len() > MOST {
        return Ok(Outcome::Budget { level: level + 1 });
    }
    match search_on(alloc, quest, level + 1, stop, seen)? {
        Outcome::Reached(lemma) => {
            let lemma = stepped_on(alloc, quest.space, seen, start, stop, lemma)?;
            Ok(Outcome::Reached(lemma))
        }
        Outcome::Nothing => Ok(Outcome::Nothing),
        Outcome::Budget { level: spent } => Ok(Outcome::Budget { level: spent }),
    }
}

/// Looks for the shortest steps, level by level from the right side of the goal on.
pub(crate) fn search(alloc: Global, quest: Quest) -> Result<Outcome, NoMemory>
    requires space { IsSearchable (space_of quest.space) }
    ensures { IfOk result (IsOutcome (space_of quest.entry.space)
        (equation_of quest.entry.goal.now) quest.entry.steps) }
{
    if is_end(quest.space, &quest.goal.left, &quest.goal.right) {
        let lemma = no_steps(alloc, &quest.goal.left)?;
        return Ok(Outcome::Reached(lemma));
    }
    let mut seen = end_level(alloc, quest.space, &quest.goal.right)?;
    let outcome = search_on(alloc, quest, 0, 0, &mut seen)?;
    Ok(outcome)
}
