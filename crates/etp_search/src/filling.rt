ghost use Rattle.std.specs.Prelude.{◌≡◌, ◌<◌, ◌≤◌, ◌+◌, ℕ, IfOk, OnOk, MatchOption};
ghost use Rattle.etp_theory.specs.Trees.{Occurs, leaves, var, op};
ghost use Rattle.etp_theory.specs.Substitutions.{apply};
ghost use Rattle.etp_term.specs.Terms.{tree_of};
ghost use Rattle.etp_search.specs.Sets.{IsJoined};
ghost use Rattle.etp_search.specs.Programs.{space_of};
ghost use Rattle.etp_search.specs.Filling.{at_one, IsOpen, IsFilled};

use crate::space::Space;
use crate::terms::Terms;
use etp_term::{NoMemory, Term};
use sqlite_items::Boxed;
use std::alloc::Global;

/// The first slot of a term: a variable from 64 on.
fn first_slot(slotted: &Term) -> Option<u8>
    ensures { MatchOption result ((v : ℕ) → Occurs v (tree_of slotted.now) → v < 64)
        (λ x. (64 ≤ x) × Occurs x (tree_of slotted.now)) }
{
    match slotted {
        Term::Var(v) => { if *v < 64 { None } else { Some(*v) } }
        Term::Op(l, r) => match first_slot(l.get()) {
            Some(slot) => Some(slot),
            None => first_slot(r.get()),
        },
    }
}

/// A copy of the term with another one in the place of the slot.
pub(crate) fn put(alloc: Global, slotted: &Term, slot: u8, inner: &Term) -> Result<Term, NoMemory>
    ensures { IfOk result
        (λ t. tree_of t ≡ apply (at_one slot (tree_of inner.now)) (tree_of slotted.now)) }
{
    match slotted {
        Term::Var(v) => {
            if *v == slot {
                inner.copy(alloc)
            } else {
                Ok(Term::Var(*v))
            }
        }
        Term::Op(l, r) => {
            let left = put(alloc, l.get(), slot, inner)?;
            let right = put(alloc, r.get(), slot, inner)?;
            Ok(Term::Op(Boxed::new(alloc, left)?, Boxed::new(alloc, right)?))
        }
    }
}

/// Adds the terms of the space that a term with slots becomes, until there are more than `most`. A slot
/// is filled by each variable, and by an operation of itself and the new slot `next`.
pub(crate) fn fill(
    alloc: Global,
    space: Space,
    most: u32,
    slotted: &Term,
    next: u8,
    found: &mut Terms,
) -> Result<(), NoMemory>
    requires variables { space.variables ≤ 64 }
    requires slots { IsOpen space.variables next (tree_of slotted.now) }
    requires next { 64 ≤ next }
    requires room { next + space.leaves ≤ 192 + leaves (tree_of slotted.now) }
    ensures { OnOk result (IsJoined (IsFilled (space_of space.entry) (tree_of slotted.now)) most
        found.old found.new) }
{
    if found.len() > most {
        return Ok(());
    }
    if slotted.leaves() > space.leaves as u32 {
        return Ok(());
    }
    let Some(slot) = first_slot(slotted) else {
        let term = slotted.copy(alloc)?;
        found.add(alloc, term)?;
        return Ok(());
    };
    for variable in 0..space.variables {
        let closed = put(alloc, slotted, slot, &Term::Var(variable))?;
        fill(alloc, space, most, &closed, next, found)?;
    }
    let left = Boxed::new(alloc, Term::Var(slot))?;
    let right = Boxed::new(alloc, Term::Var(next))?;
    let wider = put(alloc, slotted, slot, &Term::Op(left, right))?;
    fill(alloc, space, most, &wider, next + 1, found)?;
    Ok(())
}
