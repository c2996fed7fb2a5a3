ghost use Rattle.std.specs.Prelude.{◌≡◌, ◌≢◌, ◌⊎◌, ◌≤◌, IfOk, IfSome, None, MatchOption, length};
ghost use Rattle.std.specs.Option.{option_copied, option_map};
ghost use Rattle.std.specs.declared.cmp.Ordering.TheVariants.{Greater};
ghost use Rattle.etp_theory.specs.Trees.{Tree, leaves};
ghost use Rattle.etp_term.specs.Terms.{tree_of};
ghost use Rattle.etp_term.specs.Laws.{equation_of};
ghost use Rattle.etp_proof.specs.Lemmas.{step_of};
ghost use Rattle.etp_search.specs.Spaces.{IsSearchable, IsSearchTerm, IsStepOf, AreNeighbours};
ghost use Rattle.etp_search.specs.Shortest.{term_cmp};
ghost use Rattle.etp_search.specs.Programs.{space_of};
ghost use Rattle.etp_search.specs.Levels.{StandsIn, IsLeastIn, IsLesser, IsPlacedStep, IsNearestStep};

use crate::leading::{find_place, leads};
use crate::order::compare;
use crate::space::Space;
use crate::terms::Terms;
use etp_match::Bindings;
use etp_proof::Step;
use etp_term::{Law, NoMemory, Position, Term};
use std::alloc::Global;

/// The lesser of the two, the first one where they are equal.
fn lesser<'t>(one: &'t Term, other: &'t Term) -> &'t Term
    requires one { leaves (tree_of one.now) ≤ 64 }
    requires other { leaves (tree_of other.now) ≤ 64 }
    ensures either { (tree_of result.now ≡ tree_of one.now)
        ⊎ (tree_of result.now ≡ tree_of other.now) }
    ensures one { term_cmp (tree_of result.now) (tree_of one.now) ≢ Greater }
    ensures other { term_cmp (tree_of result.now) (tree_of other.now) ≢ Greater }
{
    if compare(one, other).is_gt() {
        return other;
    }
    one
}

/// The term where a step leads to it and it is less than the least so far; else that one.
fn nearer<'t>(
    from: &'t Term,
    least: Option<&'t Term>,
    term: &'t Term,
    law: &Law,
    bindings: &mut Bindings<'t>,
) -> Option<&'t Term>
    requires least { IfSome least (λ t. leaves (tree_of t.now) ≤ 64) }
    requires term { leaves (tree_of term.now) ≤ 64 }
    ensures { IsLesser (equation_of law.now) (tree_of from.now)
        (option_map tree_of (option_copied least.entry)) (tree_of term.now)
        (option_map tree_of (option_copied result)) }
{
    if !leads(from, term, law, bindings) {
        return least;
    }
    match least {
        None => Some(term),
        Some(other) => Some(lesser(other, term)),
    }
}

/// The least neighbour of a term among those from place `start` on and before `stop`.
fn nearest<'t>(
    alloc: Global,
    space: Space,
    seen: &'t Terms,
    start: u32,
    stop: u32,
    from: &'t Term,
) -> Result<Option<&'t Term>, NoMemory>
    requires space { IsSearchable (space_of space) }
    requires order { start ≤ stop }
    requires stop { stop ≤ length seen.now }
    requires terms { (t : Tree) → StandsIn seen.now 0 stop t → IsSearchTerm (space_of space) t }
    ensures { IfOk result (λ o. IsLeastIn (AreNeighbours (space_of space.entry) (tree_of from.now))
        seen.now start stop (option_map tree_of (option_copied o))) }
{
    if !space.has(from) {
        return Ok(None);
    }
    let mut bindings = Bindings::empty(alloc)?;
    let mut least = None;
    for at in start..stop {
        let Some(term) = seen.get(at) else {
            unreachable!()
        };
        least = nearer(from, least, term, space.law, &mut bindings);
    }
    Ok(least)
}

/// The step from the one term to the other, at its first place.
fn step_to(alloc: Global, law: &Law, from: &Term, to: &Term) -> Result<Step, NoMemory>
    requires step { IsStepOf (equation_of law.now) (tree_of from.now) (tree_of to.now) }
    requires narrow { leaves (tree_of from.now) ≤ 64 }
    ensures { IfOk result (λ x. IsPlacedStep (equation_of law.now) (tree_of from.now)
        (tree_of to.now) (step_of x)) }
{
    let mut bindings = Bindings::empty(alloc)?;
    let mut position = Position::root(alloc);
    let reversed = find_place(from, to, law, &mut position, &mut bindings)?;
    let to = to.copy(alloc)?;
    Ok(Step {
        to,
        line: 0,
        cited: false,
        reversed,
        position,
    })
}

/// The step to the least neighbour of a term among those from place `start` on and before `stop`.
pub(crate) fn nearest_step(
    alloc: Global,
    space: Space,
    seen: &Terms,
    start: u32,
    stop: u32,
    from: &Term,
) -> Result<Option<Step>, NoMemory>
    requires space { IsSearchable (space_of space) }
    requires order { start ≤ stop }
    requires stop { stop ≤ length seen.now }
    requires terms { (t : Tree) → StandsIn seen.now 0 stop t → IsSearchTerm (space_of space) t }
    ensures { IfOk result (λ o. MatchOption o
        (IsLeastIn (AreNeighbours (space_of space.entry) (tree_of from.now)) seen.now start stop None)
        (λ x. IsNearestStep (space_of space.entry) seen.now start stop (tree_of from.now)
        (step_of x))) }
{
    match nearest(alloc, space, seen, start, stop, from)? {
        None => Ok(None),
        Some(to) => Ok(Some(step_to(alloc, space.law, from, to)?)),
    }
}
