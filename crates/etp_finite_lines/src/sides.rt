// Terms in the lines that cancel.
ghost use Rattle.std.specs.Prelude.{◌≡◌, ◌≤◌, ◌↔◌, ℕ, IsTrue, length, IfOk, MatchOption};
ghost use Rattle.etp_theory.specs.Trees.{Tree};
ghost use Rattle.etp_term.specs.Terms.{tree_of};
ghost use Rattle.etp_lines.specs.Sides.{SpellsSide};
ghost use Rattle.etp_finite_lines.specs.CancelLines.{NamesVariable};

use etp_term::{NoMemory, Term};
use etp_text::{TextRefusal, read_term, write_term};
use std::alloc::{AllocError, Global};

/// The term that a text spells; None where it spells none of at most 255 leaves.
pub(crate) fn read_side(alloc: Global, text: &[u8]) -> Result<Option<Term>, NoMemory>
    requires { length text.now ≤ 4096 }
    ensures { IfOk result (λ o. MatchOption o ((t : Tree) → SpellsSide text.now t → ⊥)
        (λ t. SpellsSide text.now (tree_of t))) }
{
    match read_term(alloc, text) {
        Ok(term) => Ok(Some(term)),
        Err(TextRefusal::NoMemory) => Err(AllocError),
        Err(_) => Ok(None),
    }
}

/// The variable that the word names; None where it names none of the 64.
pub(crate) fn variable_word(alloc: Global, word: &[u8]) -> Result<Option<u8>, NoMemory>
    requires { length word.now ≤ 4096 }
    ensures { IfOk result (λ o. MatchOption o ((v : ℕ) → NamesVariable word.now v → ⊥)
        (NamesVariable word.now)) }
{
    let Some(term) = read_side(alloc, word)? else {
        return Ok(None);
    };
    let Term::Var(variable) = &term else {
        return Ok(None);
    };
    let name = write_term(alloc, &term)?;
    if are_same(name.as_slice(), word) {
        return Ok(Some(*variable));
    }
    Ok(None)
}

fn are_same(word: &[u8], other: &[u8]) -> bool
    ensures { IsTrue result ↔ (word.now ≡ other.now) }
{
    word == other
}
