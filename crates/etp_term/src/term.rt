ghost use Rattle.std.specs.Prelude.{◌≡◌, ◌<◌, ◌≤◌, ◌+◌, ◌++◌, ◌^◌, ◌↔◌, IsTrue, IfOk, OnOk, OnErr, MatchOption, None, Some, length, min};
ghost use Rattle.std.specs.Ordering.{nat_cmp};
ghost use Rattle.std.specs.Cmp.Lexicographic.{slice_cmp};
ghost use Rattle.etp_theory.specs.Trees.{ops, leaves, shape_of, word_of};
ghost use Rattle.etp_theory.specs.Positions.{sub_at};
ghost use Rattle.etp_theory.specs.Orders.{shape_cmp};
ghost use Rattle.etp_term.specs.Growth.{BeginsWith};
ghost use Rattle.etp_term.specs.Terms.{tree_of};
ghost use Rattle.etp_term.specs.Positions.{position_of};

use crate::position::{Position, Side};
use crate::word::Word;
use sqlite_items::Boxed;
use std::alloc::{AllocError, Global};
use std::cmp::Ordering;

/// A term over one binary operation: a variable by its number, or the operation of two terms.
#[derive(Drop)]
pub enum Term {
    Var(u8),
    Op(Boxed<Term>, Boxed<Term>),
}

/// The order of two shapes, and the operations of each.
#[derive(Clone, Copy)]
struct ShapeOrder {
    mine: u32,
    theirs: u32,
    order: Ordering,
}

impl Term {
    /// How many operations the term has; 65536 stands for 65536 and more.
    pub fn ops(&self) -> u32
        ensures { result ≡ min (ops (tree_of self.now)) 65536 }
    {
        match self {
            Term::Var(_) => 0,
            Term::Op(l, r) => (l.get().ops() + r.get().ops() + 1).min(65536),
        }
    }

    /// How many places of variables the term has; 65536 stands for 65536 and more.
    pub fn leaves(&self) -> u32
        ensures { result ≡ min (leaves (tree_of self.now)) 65536 }
    {
        match self {
            Term::Var(_) => 1,
            Term::Op(l, r) => (l.get().leaves() + r.get().leaves()).min(65536),
        }
    }

    /// The order of the two terms' shapes: by operations, then the left part, then the right part.
    pub fn shape_cmp(&self, other: &Term) -> Ordering
        requires mine { ops (tree_of self.now) ≤ 65535 }
        requires theirs { ops (tree_of other.now) ≤ 65535 }
        ensures { result ≡ shape_cmp (shape_of (tree_of self.now)) (shape_of (tree_of other.now)) }
    {
        self.shape_order(other).order
    }

    fn shape_order(&self, other: &Term) -> ShapeOrder
        requires mine { ops (tree_of self.now) ≤ 65535 }
        requires theirs { ops (tree_of other.now) ≤ 65535 }
        ensures mine { result.mine ≡ ops (tree_of self.now) }
        ensures theirs { result.theirs ≡ ops (tree_of other.now) }
        ensures order { result.order ≡ shape_cmp (shape_of (tree_of self.now)) (shape_of (tree_of other.now)) }
    {
        match (self, other) {
            (Term::Var(_), Term::Var(_)) => ShapeOrder {
                mine: 0,
                theirs: 0,
                order: Ordering::Equal,
            },
            (Term::Var(_), Term::Op(_, _)) => ShapeOrder {
                mine: 0,
                theirs: other.ops(),
                order: Ordering::Less,
            },
            (Term::Op(_, _), Term::Var(_)) => ShapeOrder {
                mine: self.ops(),
                theirs: 0,
                order: Ordering::Greater,
            },
            (Term::Op(a, b), Term::Op(c, d)) => {
                let left = a.get().shape_order(c.get());
                let right = b.get().shape_order(d.get());
                let mine = left.mine + right.mine + 1;
                let theirs = left.theirs + right.theirs + 1;
                ShapeOrder {
                    mine,
                    theirs,
                    order: mine.cmp(&theirs).then(left.order.then(right.order)),
                }
            }
        }
    }

    /// The order of the words of two terms of one shape: variable by variable, from left to right.
    pub(crate) fn word_cmp(&self, other: &Term) -> Ordering
        ensures { shape_of (tree_of self.now) ≡ shape_of (tree_of other.now)
            → result ≡ slice_cmp nat_cmp (word_of (tree_of self.now))
            (word_of (tree_of other.now)) }
    {
        match (self, other) {
            (Term::Var(v), Term::Var(w)) => v.cmp(w),
            (Term::Op(a, b), Term::Op(c, d)) => a
                .get()
                .word_cmp(c.get())
                .then(b.get().word_cmp(d.get())),
            _ => Ordering::Equal,
        }
    }

    /// Appends the term's variables, from left to right. After an error a part of them may stand behind
    /// what stood before.
    pub(crate) fn append_word(&self, word: &mut Word) -> Result<(), AllocError>
        ensures ok { OnOk result (word.new ≡ word.old ++ word_of (tree_of self.now)) }
        ensures err { OnErr result (BeginsWith word.new word.old) }
    {
        match self {
            Term::Var(v) => word.append(*v),
            Term::Op(l, r) => {
                l.get().append_word(word)?;
                r.get().append_word(word)
            }
        }
    }

    /// Whether both are one term, variables included.
    pub fn same_term(&self, other: &Term) -> bool
        ensures { IsTrue result ↔ (tree_of self.now ≡ tree_of other.now) }
    {
        match (self, other) {
            (Term::Var(v), Term::Var(w)) => *v == *w,
            (Term::Op(a, b), Term::Op(c, d)) => a.get().same_term(c.get())
                && b.get().same_term(d.get()),
            _ => false,
        }
    }

    /// An equal term.
    pub fn copy(&self, alloc: Global) -> Result<Term, AllocError>
        ensures { IfOk result (λ t. t ≡ self.now) }
    {
        match self {
            Term::Var(v) => Ok(Term::Var(*v)),
            Term::Op(l, r) => {
                let left = l.get().copy(alloc)?;
                let right = r.get().copy(alloc)?;
                Ok(Term::Op(Boxed::new(alloc, left)?, Boxed::new(alloc, right)?))
            }
        }
    }

    /// The subterm at a position; None where the position isn't in the term.
    pub fn at(&self, position: &Position) -> Option<&Term>
        ensures { MatchOption result (sub_at (position_of position.now) (tree_of self.now) ≡ None)
            (λ t. sub_at (position_of position.now) (tree_of self.now) ≡ Some (tree_of t.now)) }
    {
        self.below(position.as_slice())
    }

    fn below(&self, sides: &[Side]) -> Option<&Term>
        ensures { MatchOption result (sub_at (position_of sides.now) (tree_of self.now) ≡ None)
            (λ t. sub_at (position_of sides.now) (tree_of self.now) ≡ Some (tree_of t.now)) }
    {
        match sides.split_first() {
            None => Some(self),
            Some((side, rest)) => match (self, side) {
                (Term::Var(_), Side::L) => None,
                (Term::Var(_), Side::R) => None,
                (Term::Op(l, _), Side::L) => l.get().below(rest),
                (Term::Op(_, r), Side::R) => r.get().below(rest),
            },
        }
    }
}
