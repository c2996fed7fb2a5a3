ghost use Rattle.std.specs.Prelude.{◌≡◌, ◌<◌, ◌^◌, ◌++◌, IfOk, OnOk, length, map, flat_map};
ghost use Rattle.etp_theory.specs.Trees.{shape_leaves, shape_ops};
ghost use Rattle.etp_theory.specs.Orders.{shape_cmp};
ghost use Rattle.etp_term.specs.Terms.{tree_of};
ghost use Rattle.etp_laws.specs.Shapes.{shape_from, sides_from};
ghost use Rattle.etp_laws.specs.Enumeration.{filled, joined, shapes, pairs_from};

use etp_term::Term;
use sqlite_items::{Boxed, Items};
use std::alloc::{AllocError, Global};
use std::cmp::Ordering;

/// A term without its variables' names.
#[derive(Drop)]
pub enum Shape {
    Leaf,
    Fork(Boxed<Shape>, Boxed<Shape>),
}

/// The shapes of a law's two sides.
#[derive(Drop)]
pub struct Sides {
    pub left: Shape,
    pub right: Shape,
}

impl Shape {
    pub fn leaves(&self) -> usize
        requires { shape_leaves (shape_from self.now) < 2 ^ 64 }
        ensures { result ≡ shape_leaves (shape_from self.now) }
    {
        match self {
            Shape::Leaf => 1,
            Shape::Fork(a, b) => a.get().leaves() + b.get().leaves(),
        }
    }

    fn ops(&self) -> usize
        requires { shape_ops (shape_from self.now) < 2 ^ 64 }
        ensures { result ≡ shape_ops (shape_from self.now) }
    {
        match self {
            Shape::Leaf => 0,
            Shape::Fork(a, b) => a.get().ops() + b.get().ops() + 1,
        }
    }

    /// By operations, then the left part, then the right part.
    pub fn shape_cmp(&self, other: &Shape) -> Ordering
        requires mine { shape_ops (shape_from self.now) < 2 ^ 64 }
        requires theirs { shape_ops (shape_from other.now) < 2 ^ 64 }
        ensures { result ≡ shape_cmp (shape_from self.now) (shape_from other.now) }
    {
        match (self, other) {
            (Shape::Leaf, Shape::Leaf) => Ordering::Equal,
            (Shape::Leaf, Shape::Fork(_, _)) => Ordering::Less,
            (Shape::Fork(_, _), Shape::Leaf) => Ordering::Greater,
            (Shape::Fork(a, b), Shape::Fork(c, d)) => {
                let by_ops = self.ops().cmp(&other.ops());
                let by_left = a.get().shape_cmp(c.get());
                let by_right = b.get().shape_cmp(d.get());
                by_ops.then(by_left.then(by_right))
            }
        }
    }

    pub fn copy(&self, alloc: Global) -> Result<Shape, AllocError>
        ensures { IfOk result (λ f. f ≡ self.now) }
    {
        match self {
            Shape::Leaf => Ok(Shape::Leaf),
            Shape::Fork(a, b) => {
                let left = a.get().copy(alloc)?;
                let right = b.get().copy(alloc)?;
                Ok(Shape::Fork(Boxed::new(alloc, left)?, Boxed::new(alloc, right)?))
            }
        }
    }

    /// The term of this shape with the word's variables at its leaves.
    pub fn filled(&self, alloc: Global, word: &[u8]) -> Result<Term, AllocError>
        requires { length word.now ≡ shape_leaves (shape_from self.now) }
        ensures { IfOk result (λ t. tree_of t ≡ filled (shape_from self.now) word.now) }
    {
        match self {
            Shape::Leaf => Ok(Term::Var(word[0])),
            Shape::Fork(a, b) => {
                let middle = a.get().leaves();
                let left = a.get().filled(alloc, &word[..middle])?;
                let right = b.get().filled(alloc, &word[middle..])?;
                Ok(Term::Op(Boxed::new(alloc, left)?, Boxed::new(alloc, right)?))
            }
        }
    }
}

/// Appends the pairs of `left` with each of `rights`.
fn append_pairs_with(
    alloc: Global,
    pairs: &mut Items<Sides>,
    left: &Shape,
    rights: &[Shape],
) -> Result<(), AllocError>
    ensures { OnOk result (map sides_from pairs.new
        ≡ map sides_from pairs.old ++ map (λ b. (shape_from left.now, b))
        (map shape_from rights.now)) }
{
    for right in rights {
        pairs.push(Sides {
            left: left.copy(alloc)?,
            right: right.copy(alloc)?,
        })?;
    }
    Ok(())
}

/// Appends the pairs of each of `lefts` with each of `rights`.
fn append_pairs(
    alloc: Global,
    pairs: &mut Items<Sides>,
    lefts: &[Shape],
    rights: &[Shape],
) -> Result<(), AllocError>
    ensures { OnOk result (map sides_from pairs.new
        ≡ map sides_from pairs.old ++ flat_map (λ a. map (λ b. (a, b)) (map shape_from rights.now))
        (map shape_from lefts.now)) }
{
    for left in lefts {
        append_pairs_with(alloc, pairs, left, rights)?;
    }
    Ok(())
}

/// The operation of each pair.
fn forks(alloc: Global, pairs: &[Sides]) -> Result<Items<Shape>, AllocError>
    ensures { IfOk result (λ fs. map shape_from fs ≡ map joined (map sides_from pairs.now)) }
{
    let mut forks = Items::new(alloc);
    for pair in pairs {
        let left = pair.left.copy(alloc)?;
        let right = pair.right.copy(alloc)?;
        forks.push(Shape::Fork(Boxed::new(alloc, left)?, Boxed::new(alloc, right)?))?;
    }
    Ok(forks)
}

/// The shapes of this many operations, in order.
#[cycle(shapes)]
pub fn shapes(alloc: Global, ops: usize) -> Result<Items<Shape>, AllocError>
    requires { ops < 256 }
    ensures { IfOk result (λ fs. map shape_from fs ≡ shapes ops) }
{
    if ops == 0 {
        let mut shapes = Items::new(alloc);
        shapes.push(Shape::Leaf)?;
        return Ok(shapes);
    }
    let pairs = pairs(alloc, ops - 1)?;
    let shapes = forks(alloc, pairs.as_slice())?;
    Ok(shapes)
}

/// The pairs of shapes of this many operations together, in order.
#[cycle(shapes)]
pub fn pairs(alloc: Global, ops: usize) -> Result<Items<Sides>, AllocError>
    requires { ops < 256 }
    ensures { IfOk result (λ ps. map sides_from ps ≡ pairs_from shapes ops) }
{
    let mut pairs = Items::new(alloc);
    for i in 0..ops + 1 {
        let lefts = shapes(alloc, i)?;
        let rights = shapes(alloc, ops - i)?;
        append_pairs(alloc, &mut pairs, lefts.as_slice(), rights.as_slice())?;
    }
    Ok(pairs)
}
