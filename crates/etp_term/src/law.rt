ghost use Rattle.std.specs.Prelude.{◌≡◌, ◌≤◌, ◌++◌, IfOk, OnOk};
ghost use Rattle.etp_theory.specs.Trees.{ops, law_word};
ghost use Rattle.etp_theory.specs.Orders.{law_cmp};
ghost use Rattle.etp_term.specs.Terms.{tree_of};
ghost use Rattle.etp_term.specs.Laws.{equation_of};

use crate::term::Term;
use crate::word::Word;
use std::alloc::{AllocError, Global};
use std::cmp::Ordering;

/// A law: the equation of two terms, read for all values of its variables.
#[derive(Drop)]
pub struct Law {
    pub left: Term,
    pub right: Term,
}

impl Law {
    /// An equal law.
    pub fn copy(&self, alloc: Global) -> Result<Law, AllocError>
        ensures { IfOk result (λ law. law ≡ self.now) }
    {
        Ok(Law {
            left: self.left.copy(alloc)?,
            right: self.right.copy(alloc)?,
        })
    }

    /// The law's variables from left to right through both sides.
    pub fn word(&self, alloc: Global) -> Result<Word, AllocError>
        ensures { IfOk result (λ word. word ≡ law_word (equation_of self.now)) }
    {
        let mut word = Word::empty(alloc);
        self.left.append_word(&mut word)?;
        self.right.append_word(&mut word)?;
        Ok(word)
    }

    /// The order of laws: by the operations of both sides, then the left side's shape, then the
    /// right side's, then the word.
    pub fn law_cmp(&self, other: &Law) -> Ordering
        requires left { ops (tree_of self.now.left) ≤ 65535 }
        requires right { ops (tree_of self.now.right) ≤ 65535 }
        requires other_left { ops (tree_of other.now.left) ≤ 65535 }
        requires other_right { ops (tree_of other.now.right) ≤ 65535 }
        ensures { result ≡ law_cmp (equation_of self.now) (equation_of other.now) }
    {
        let mine = self.left.ops() + self.right.ops();
        let theirs = other.left.ops() + other.right.ops();
        let by_left = self.left.shape_cmp(&other.left);
        let by_right = self.right.shape_cmp(&other.right);
        let left_word = self.left.word_cmp(&other.left);
        let right_word = self.right.word_cmp(&other.right);
        mine.cmp(&theirs)
            .then(by_left.then(by_right.then(left_word.then(right_word))))
    }
}
