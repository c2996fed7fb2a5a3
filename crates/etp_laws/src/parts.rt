ghost use Rattle.std.specs.Prelude.{◌≡◌, ◌≤◌, ◌+◌, ◌*◌, ◌++◌, length};
ghost use Rattle.std.specs.Ordering.{nat_cmp, ordering_then};
ghost use Rattle.etp_theory.specs.Trees.{ops, shape_ops, word_of};
ghost use Rattle.etp_theory.specs.Trees as Theory;
ghost use Rattle.etp_term.specs.Terms.{tree_of};
ghost use Rattle.etp_laws.specs.Places.{shape_rank, oriented};
ghost use Rattle.etp_laws.specs.Places;
ghost use Rattle.etp_laws.specs.Enumeration.{shapes};

use crate::counts::{pairs_below, shapes_of};
use crate::letters::Letters;
use etp_term::Term;
use std::cmp::Ordering;

/// Which of a term and its dual is meant.
#[derive(Clone, Copy)]
pub enum Orientation {
    /// The term itself.
    AsWritten,
    /// Its dual, in which the two sides of each operation are exchanged.
    Mirrored,
}

/// A shape: its operations, and how many shapes of as many operations stand before it.
#[derive(Clone, Copy)]
pub struct ShapePlace {
    pub ops: u32,
    pub place: u32,
}

impl ShapePlace {
    /// The order of the two shapes.
    pub fn order(&self, other: &ShapePlace) -> Ordering
        ensures { result ≡ ordering_then (nat_cmp self.now.ops other.now.ops) (nat_cmp self.now.place other.now.place) }
    {
        self.ops.cmp(&other.ops).then(self.place.cmp(&other.place))
    }

    /// The shape whose parts have these shapes.
    fn joined(&self, right: &ShapePlace) -> ShapePlace
        requires ops { self.now.ops + right.now.ops ≤ 4 }
        requires left { self.now.place ≤ 42 }
        requires right { right.now.place ≤ 42 }
        ensures ops { result.ops ≡ self.now.ops + right.now.ops + 1 }
        ensures place { result.place
            ≡ Places.pairs_below (self.now.ops + right.now.ops) self.now.ops
            + (self.now.place * length (shapes right.now.ops) + right.now.place) }
    {
        let ops = self.ops + right.ops;
        ShapePlace {
            ops: ops + 1,
            place: pairs_below(ops, self.ops) + (self.place * shapes_of(right.ops) + right.place),
        }
    }
}

/// The shape of a term in this orientation.
pub fn shape_of(term: &Term, orientation: Orientation) -> ShapePlace
    requires { ops (tree_of term.now) ≤ 5 }
    ensures ops { result.ops ≡ shape_ops (Theory.shape_of (oriented orientation (tree_of term.now))) }
    ensures place { result.place ≡ shape_rank (Theory.shape_of (oriented orientation (tree_of term.now))) }
    ensures size { result.ops ≡ ops (tree_of term.now) }
    ensures small { result.place ≤ 42 }
{
    match term {
        Term::Var(_) => ShapePlace { ops: 0, place: 0 },
        Term::Op(l, r) => {
            let left = shape_of(l.get(), orientation);
            let right = shape_of(r.get(), orientation);
            match orientation {
                Orientation::AsWritten => left.joined(&right),
                Orientation::Mirrored => right.joined(&left),
            }
        }
    }
}

/// Appends the variables of a term in this orientation.
fn append_word(term: &Term, orientation: Orientation, word: &mut Letters)
    requires { length word.old + ops (tree_of term.now) ≤ 7 }
    ensures word { word.new ≡ word.old ++ word_of (oriented orientation (tree_of term.now)) }
    ensures len { length word.new ≡ length word.old + ops (tree_of term.now) + 1 }
{
    match term {
        Term::Var(v) => word.push(*v),
        Term::Op(l, r) => match orientation {
            Orientation::AsWritten => {
                append_word(l.get(), orientation, word);
                append_word(r.get(), orientation, word);
            }
            Orientation::Mirrored => {
                append_word(r.get(), orientation, word);
                append_word(l.get(), orientation, word);
            }
        },
    }
}

/// The variables of a term in this orientation.
pub fn letters_of(term: &Term, orientation: Orientation) -> Letters
    requires { ops (tree_of term.now) ≤ 7 }
    ensures word { result ≡ word_of (oriented orientation (tree_of term.now)) }
    ensures len { length result ≡ ops (tree_of term.now) + 1 }
{
    let mut word = Letters::new();
    append_word(term, orientation, &mut word);
    word
}
