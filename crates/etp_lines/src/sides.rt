// Terms in the lines of bodies.
ghost use Rattle.std.specs.Prelude.{◌≤◌, length, IfOk, MatchOption};
ghost use Rattle.etp_theory.specs.Trees.{Tree};
ghost use Rattle.etp_term.specs.Terms.{tree_of};
ghost use Rattle.etp_lines.specs.Sides.{SpellsSide};

use etp_term::{NoMemory, Term};
use etp_text::{TextRefusal, read_term};
use std::alloc::{AllocError, Global};

/// The term that a text spells; None where it spells none of at most 255 leaves.
pub(crate) fn read_side(alloc: Global, text: &[u8]) -> Result<Option<Term>, NoMemory>
    requires { length text.now ≤ 4096 }
    ensures { IfOk result (λ o. MatchOption o ((t : Tree) → SpellsSide text.now t → ⊥)
        (λ t. SpellsSide text.now (tree_of t))) }
{
    match read_term(alloc, text) {
        Ok(term) => Ok(Some(term)),
        Err(TextRefusal::NoMemory) => Err(AllocError),
        Err(_) => Ok(None),
    }
}
