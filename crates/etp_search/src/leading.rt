ghost use Rattle.std.specs.Prelude.{◌≡◌, ◌≤◌, ◌+◌, ◌↔◌, ℕ, Bool, [], IsTrue, IfOk, MatchOption, length};
ghost use Rattle.etp_theory.specs.Trees.{leaves, var, op};
ghost use Rattle.etp_theory.specs.Proofs.{as_read};
ghost use Rattle.etp_term.specs.Terms.{tree_of};
ghost use Rattle.etp_term.specs.Laws.{equation_of};
ghost use Rattle.etp_term.specs.Positions.{position_of};
ghost use Rattle.etp_search.specs.Spaces.{IsStepOf};
ghost use Rattle.etp_search.specs.Shortest.{IsFirstPlace};
ghost use Rattle.etp_search.specs.Leading.{sides, IsRootStep, IsPlacedBelow};

use etp_match::Bindings;
use etp_term::{Law, NoMemory, Position, Side, Term};

/// The two operands of an operation.
#[derive(Clone, Copy)]
struct Operands<'t> {
    left: &'t Term,
    right: &'t Term,
}

/// The operands of the term; None where it is a variable.
fn operands_of<'t>(term: &'t Term) -> Option<Operands<'t>>
    ensures { MatchOption result ((v : ℕ) × (tree_of term.now ≡ var v))
        (λ p. tree_of term.now ≡ op (tree_of p.left.now) (tree_of p.right.now)) }
{
    match term {
        Term::Var(_) => None,
        Term::Op(l, r) => Some(Operands {
            left: l.get(),
            right: r.get(),
        }),
    }
}

/// Whether a substitution takes the two sides to the two terms. What is bound before doesn't count.
fn fits<'t>(
    left: &Term,
    right: &Term,
    from: &'t Term,
    to: &'t Term,
    bindings: &mut Bindings<'t>,
) -> bool
    ensures { IsTrue result ↔ IsRootStep (sides (tree_of left.now) (tree_of right.now))
        (tree_of from.now) (tree_of to.now) }
{
    bindings.clear();
    if !bindings.matches(left, from) {
        return false;
    }
    bindings.matches(right, to)
}

/// Whether a step at the root leads from the one term to the other, and then whether it is reversed:
/// only where none leads from left to right.
fn root_direction<'t>(
    from: &'t Term,
    to: &'t Term,
    law: &Law,
    bindings: &mut Bindings<'t>,
) -> Option<bool>
    ensures { MatchOption result
        ((r : Bool) → IsRootStep (as_read r (equation_of law.now)) (tree_of from.now)
        (tree_of to.now) → ⊥)
        (λ r. IsFirstPlace (equation_of law.now) (tree_of from.now) (tree_of to.now) [] r) }
{
    if fits(&law.left, &law.right, from, to, bindings) {
        return Some(false);
    }
    if fits(&law.right, &law.left, from, to, bindings) {
        return Some(true);
    }
    None
}

/// Whether a step by the law, from left to right or from right to left, leads from the one term to
/// the other.
pub(crate) fn leads<'t>(
    from: &'t Term,
    to: &'t Term,
    law: &Law,
    bindings: &mut Bindings<'t>,
) -> bool
    ensures { IsTrue result
        ↔ IsStepOf (equation_of law.now) (tree_of from.now) (tree_of to.now) }
{
    if let Some(_) = root_direction(from, to, law, bindings) {
        return true;
    }
    let Some(mine) = operands_of(from) else {
        return false;
    };
    let Some(theirs) = operands_of(to) else {
        return false;
    };
    if !mine.right.same_term(theirs.right) {
        return mine.left.same_term(theirs.left) && leads(mine.right, theirs.right, law, bindings);
    }
    if leads(mine.left, theirs.left, law, bindings) {
        return true;
    }
    mine.left.same_term(theirs.left) && leads(mine.right, theirs.right, law, bindings)
}

/// Whether a step in the left part leads from the one operation to the other.
fn leads_in_left<'t>(
    mine: Operands<'t>,
    theirs: Operands<'t>,
    law: &Law,
    bindings: &mut Bindings<'t>,
) -> bool
    ensures { IsTrue result ↔ ((tree_of mine.entry.right.now
        ≡ tree_of theirs.entry.right.now)
        × IsStepOf (equation_of law.now) (tree_of mine.entry.left.now)
        (tree_of theirs.entry.left.now)) }
{
    mine.right.same_term(theirs.right) && leads(mine.left, theirs.left, law, bindings)
}

/// Goes down to the first place of the step, and says whether it is reversed there.
pub(crate) fn find_place<'t>(
    from: &'t Term,
    to: &'t Term,
    law: &Law,
    position: &mut Position,
    bindings: &mut Bindings<'t>,
) -> Result<bool, NoMemory>
    requires step { IsStepOf (equation_of law.now) (tree_of from.now) (tree_of to.now) }
    requires room { length position.old + leaves (tree_of from.now) ≤ 65 }
    ensures { IfOk result (λ reversed. IsPlacedBelow (equation_of law.now) (tree_of from.now)
        (tree_of to.now) (position_of position.old) (position_of position.new) reversed) }
{
    if let Some(reversed) = root_direction(from, to, law, bindings) {
        return Ok(reversed);
    }
    let Some(mine) = operands_of(from) else {
        unreachable!()
    };
    let Some(theirs) = operands_of(to) else {
        unreachable!()
    };
    if leads_in_left(mine, theirs, law, bindings) {
        position.push(Side::L)?;
        let reversed = find_place(mine.left, theirs.left, law, position, bindings)?;
        return Ok(reversed);
    }
    position.push(Side::R)?;
    let reversed = find_place(mine.right, theirs.right, law, position, bindings)?;
    Ok(reversed)
}
