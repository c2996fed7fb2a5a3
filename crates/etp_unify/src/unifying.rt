ghost use Rattle.std.specs.Prelude.{IfOk};
ghost use Rattle.etp_term.specs.Terms.{tree_of};
ghost use Rattle.etp_unify.specs.Unifying.{IsUnified};

use crate::solving::{Pair, solve};
use crate::values::subst_of;
use etp_match::{Bindings, Subst};
use etp_term::{NoMemory, Term};
use std::alloc::Global;

/// A most general substitution that makes two terms equal, or that there is none at all.
#[derive(Drop)]
pub enum Unified {
    Most(Subst),
    Never,
}

/// Whether some substitution makes both terms equal, and then a most general one. It has values for
/// variables of both alone, in which only such variables stand, and none of those with a value.
pub fn unify(alloc: Global, s: &Term, t: &Term) -> Result<Unified, NoMemory>
    ensures { IfOk result (λ u. IsUnified (tree_of s.now) (tree_of t.now) u) }
{
    let mut bindings = Bindings::empty(alloc)?;
    let pairs = vec![in alloc; Pair { left: s, right: t }]?;
    if solve(&mut bindings, pairs)? {
        Ok(Unified::Most(subst_of(alloc, &bindings)?))
    } else {
        Ok(Unified::Never)
    }
}
