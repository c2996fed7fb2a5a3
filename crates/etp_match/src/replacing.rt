ghost use Rattle.std.specs.Prelude.{IfOk};
ghost use Rattle.etp_term.specs.Terms.{tree_of};
ghost use Rattle.etp_term.specs.Positions.{position_of};
ghost use Rattle.etp_match.specs.Replacing.{IsReplaced};

use etp_term::{NoMemory, Position, Side, Term};
use sqlite_items::Boxed;
use std::alloc::Global;

/// A copy of the term with `inner` at the position; None where the position isn't in the term.
pub fn replace_at(
    alloc: Global,
    term: &Term,
    position: &Position,
    inner: Term,
) -> Result<Option<Term>, NoMemory>
    ensures { IfOk result
        (λ o. IsReplaced (position_of position.now) (tree_of term.now) (tree_of inner) o) }
{
    let replaced = replaced(alloc, term, position.as_slice(), inner)?;
    Ok(replaced)
}

fn replaced(
    alloc: Global,
    term: &Term,
    sides: &[Side],
    inner: Term,
) -> Result<Option<Term>, NoMemory>
    ensures { IfOk result
        (λ o. IsReplaced (position_of sides.now) (tree_of term.now) (tree_of inner) o) }
{
    match sides.split_first() {
        None => Ok(Some(inner)),
        Some((side, rest)) => match (term, side) {
            (Term::Var(_), Side::L) => Ok(None),
            (Term::Var(_), Side::R) => Ok(None),
            (Term::Op(l, r), Side::L) => match replaced(alloc, l.get(), rest, inner)? {
                None => Ok(None),
                Some(left) => {
                    let right = r.get().copy(alloc)?;
                    Ok(Some(Term::Op(Boxed::new(alloc, left)?, Boxed::new(alloc, right)?)))
                }
            },
            (Term::Op(l, r), Side::R) => match replaced(alloc, r.get(), rest, inner)? {
                None => Ok(None),
                Some(right) => {
                    let left = l.get().copy(alloc)?;
                    Ok(Some(Term::Op(Boxed::new(alloc, left)?, Boxed::new(alloc, right)?)))
                }
            },
        },
    }
}
