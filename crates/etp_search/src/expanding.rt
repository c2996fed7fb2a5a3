ghost use Rattle.std.specs.Prelude.{◌≡◌, ◌<◌, ◌≤◌, ◌↔◌, ℕ, IfOk, OnOk, Contains};
ghost use Rattle.etp_theory.specs.Trees.{Tree, op};
ghost use Rattle.etp_theory.specs.Substitutions.{apply};
ghost use Rattle.etp_term.specs.Terms.{tree_of};
ghost use Rattle.etp_match.specs.Bindings.{partial_of};
ghost use Rattle.etp_search.specs.Spaces.{IsSearchable, IsSearchTerm, AreNeighbours};
ghost use Rattle.etp_search.specs.Sets.{IsJoined};
ghost use Rattle.etp_search.specs.Programs.{space_of};
ghost use Rattle.etp_search.specs.Plugging.{reading_of, IsBelow, IsContext, plugged, value_or_slot, IsReplacedBy, IsSteppedTo};

use crate::filling::{fill, put};
use crate::space::Space;
use crate::terms::Terms;
use etp_match::Bindings;
use etp_term::{NoMemory, Term};
use sqlite_items::Boxed;
use std::alloc::Global;

/// The variable that stands for the place of a subterm.
const HOLE: u8 = 255;

/// The sides of a law, in the order in which a step reads them.
#[derive(Clone, Copy)]
pub(crate) struct Reading<'l> {
    pub(crate) left: &'l Term,
    pub(crate) right: &'l Term,
}

/// The pattern with the values of its variables; a variable without one becomes a slot.
fn instance(alloc: Global, pattern: &Term, bindings: &Bindings) -> Result<Term, NoMemory>
    requires { IsBelow 64 (tree_of pattern.now) }
    ensures { IfOk result (λ t.
        tree_of t ≡ apply (value_or_slot (partial_of bindings.now)) (tree_of pattern.now)) }
{
    match pattern {
        Term::Var(v) => match bindings.get(*v) {
            Some(value) => value.copy(alloc),
            None => Ok(Term::Var(*v + 64)),
        },
        Term::Op(l, r) => {
            let left = instance(alloc, l.get(), bindings)?;
            let right = instance(alloc, r.get(), bindings)?;
            Ok(Term::Op(Boxed::new(alloc, left)?, Boxed::new(alloc, right)?))
        }
    }
}

/// Adds the terms of the space to which the reading leads in the hole, until there are more than
/// `most`.
fn add_reading(
    alloc: Global,
    space: Space,
    most: u32,
    reading: Reading,
    term: &Term,
    context: &Term,
    found: &mut Terms,
) -> Result<(), NoMemory>
    requires variables { space.variables ≤ 64 }
    requires leaves { space.leaves ≤ 64 }
    requires right { IsBelow 64 (tree_of reading.right.now) }
    requires term { IsBelow space.variables (tree_of term.now) }
    requires context { IsContext space.variables (tree_of context.now) }
    ensures { OnOk result (IsJoined (IsReplacedBy (space_of space.entry) (reading_of reading.entry)
        (tree_of context.now) (tree_of term.now)) most found.old found.new) }
{
    let mut bindings = Bindings::empty(alloc)?;
    if !bindings.matches(reading.left, term) {
        return Ok(());
    }
    let inner = instance(alloc, reading.right, &bindings)?;
    let slotted = put(alloc, context, HOLE, &inner)?;
    fill(alloc, space, most, &slotted, 128, found)?;
    Ok(())
}

/// Adds the terms of the space to which a step leads in the hole, until there are more than `most`.
fn add_steps(
    alloc: Global,
    space: Space,
    most: u32,
    term: &Term,
    context: &Term,
    found: &mut Terms,
) -> Result<(), NoMemory>
    requires variables { space.variables ≤ 64 }
    requires leaves { space.leaves ≤ 64 }
    requires left { IsBelow 64 (tree_of space.law.now.left) }
    requires right { IsBelow 64 (tree_of space.law.now.right) }
    requires term { IsBelow space.variables (tree_of term.now) }
    requires context { IsContext space.variables (tree_of context.now) }
    ensures { OnOk result (IsJoined (IsSteppedTo (space_of space.entry) (tree_of context.now)
        (tree_of term.now)) most found.old found.new) }
{
    let law = space.law;
    let forwards = Reading {
        left: &law.left,
        right: &law.right,
    };
    let backwards = Reading {
        left: &law.right,
        right: &law.left,
    };
    add_reading(alloc, space, most, forwards, term, context, found)?;
    add_reading(alloc, space, most, backwards, term, context, found)?;
    if let Term::Op(l, r) = term {
        let left = around(alloc, context, Term::Var(HOLE), r.get().copy(alloc)?)?;
        add_steps(alloc, space, most, l.get(), &left, found)?;
        let right = around(alloc, context, l.get().copy(alloc)?, Term::Var(HOLE))?;
        add_steps(alloc, space, most, r.get(), &right, found)?;
    }
    Ok(())
}

/// The context with an operation in its hole.
fn around(alloc: Global, context: &Term, left: Term, right: Term) -> Result<Term, NoMemory>
    ensures { IfOk result (λ t.
        tree_of t ≡ plugged (tree_of context.now) (op (tree_of left) (tree_of right))) }
{
    let inner = Term::Op(Boxed::new(alloc, left)?, Boxed::new(alloc, right)?);
    put(alloc, context, HOLE, &inner)
}

/// Adds the neighbours of a term of the space, until there are more than `most` terms.
pub fn add_neighbours(
    alloc: Global,
    space: Space,
    term: &Term,
    most: u32,
    found: &mut Terms,
) -> Result<(), NoMemory>
    requires space { IsSearchable (space_of space) }
    requires term { IsSearchTerm (space_of space) (tree_of term.now) }
    ensures { OnOk result (IsJoined (AreNeighbours (space_of space.entry) (tree_of term.now)) most
        found.old found.new) }
{
    let context = Term::Var(HOLE);
    add_steps(alloc, space, most, term, &context, found)?;
    Ok(())
}

/// The neighbours of a term of the space: all terms of the space to which a step by the law leads,
/// from left to right or from right to left.
pub fn neighbours(alloc: Global, space: Space, term: &Term) -> Result<Terms, NoMemory>
    requires space { IsSearchable (space_of space) }
    requires term { IsSearchTerm (space_of space) (tree_of term.now) }
    ensures { IfOk result (λ found. (t : Tree) → Contains found t
        ↔ AreNeighbours (space_of space.entry) (tree_of term.now) t) }
{
    let mut found = Terms::empty(alloc);
    add_neighbours(alloc, space, term, u32::MAX, &mut found)?;
    Ok(found)
}
