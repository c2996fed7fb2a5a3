// Terms whose parts may be shared, and matching in them.
ghost use Rattle.std.specs.Prelude.{◌≡◌, IfOk, min};
ghost use Rattle.etp_theory.specs.Trees.{var, op, leaves};
ghost use Rattle.etp_theory.specs.Substitutions.{apply};
ghost use Rattle.etp_theory.specs.Strategy.{same, read, matcher};
ghost use Rattle.etp_term.specs.Terms.{tree_of};
ghost use Rattle.etp_rules.specs.Nodes.{tree_in, tree_read};
ghost use Rattle.etp_rules.specs.Fitting.{fits, agrees};

use etp_term::{NoMemory, Term};
use sqlite_items::Boxed;
use std::alloc::Global;
use std::marker::Model;
use std::rc::Rc;

/// A term whose parts may be shared, with the count of its leaves.
#[cycle(node)]
#[derive(Drop)]
pub(crate) struct Node {
    /// How many leaves the term has; 65536 stands for 65536 and more.
    count: u32,
    parts: Parts,
}

/// What a term is at its root.
#[cycle(node)]
#[derive(Drop)]
pub(crate) enum Parts {
    Var(u8),
    Op(Rc<Node>, Rc<Node>),
}

impl Model for Node {
    ghost use Rattle.std.specs.Prelude.{◌≡◌, min};
    ghost use Rattle.etp_theory.specs.Trees.{Tree, leaves, ops};
    ghost use Rattle.etp_rules.specs.Coding.{tree_coded};

    ghost Value = { Tree };

    ghost coded = { tree_coded };

    ghost use Rattle.etp_rules.specs.Nodes.{tree_in};

    ghost view = { λ n. tree_in n.parts };

    ghost invariant = { λ n. n.count ≡ min (leaves (tree_in n.parts)) 65536 };

    ghost size = { ops };

    ghost use Rattle.std.proofs.Common.{arith};

    ghost size_decreases = { λ n h. Prim.grind (arith) };
}

impl Node {
    /// What the term is at its root.
    pub(crate) fn parts(&self) -> &Parts
        ensures { tree_in result.now ≡ self.now }
    {
        &self.parts
    }

    /// How many places of variables the term has; 65536 stands for 65536 and more.
    pub(crate) fn leaves(&self) -> u32
        ensures { result ≡ min (leaves self.now) 65536 }
    {
        self.count
    }

    /// Whether both are one term.
    pub(crate) fn same(&self, other: &Node) -> bool
        ensures { result ≡ same self.now other.now }
    {
        match (&self.parts, &other.parts) {
            (Parts::Var(v), Parts::Var(w)) => *v == *w,
            (Parts::Op(a, b), Parts::Op(c, d)) => a.same(c) && b.same(d),
            _ => false,
        }
    }

    /// The term with parts of its own.
    pub(crate) fn term(&self, alloc: Global) -> Result<Term, NoMemory>
        ensures { IfOk result (λ t. tree_of t ≡ self.now) }
    {
        match &self.parts {
            Parts::Var(v) => Ok(Term::Var(*v)),
            Parts::Op(l, r) => {
                let left = l.term(alloc)?;
                let right = r.term(alloc)?;
                Ok(Term::Op(Boxed::new(alloc, left)?, Boxed::new(alloc, right)?))
            }
        }
    }
}

/// The variable as a term with shared parts.
pub(crate) fn variable(alloc: Global, variable: u8) -> Result<Rc<Node>, NoMemory>
    ensures { IfOk result (λ t. t.value ≡ var variable) }
{
    let node = Node {
        count: 1,
        parts: Parts::Var(variable),
    };
    let made = Rc::new(alloc, node)?;
    Ok(made)
}

/// The operation of two terms, which become its parts.
pub(crate) fn operation(
    alloc: Global,
    left: Rc<Node>,
    right: Rc<Node>,
) -> Result<Rc<Node>, NoMemory>
    ensures { IfOk result (λ t. t.value ≡ op left.value right.value) }
{
    let node = Node {
        count: (left.leaves() + right.leaves()).min(65536),
        parts: Parts::Op(left, right),
    };
    let made = Rc::new(alloc, node)?;
    Ok(made)
}

/// The term as one with shared parts.
pub(crate) fn shared(alloc: Global, term: &Term) -> Result<Rc<Node>, NoMemory>
    ensures { IfOk result (λ t. t.value ≡ tree_of term.now) }
{
    match term {
        Term::Var(v) => {
            let made = variable(alloc, *v)?;
            Ok(made)
        }
        Term::Op(l, r) => {
            let left = shared(alloc, l.get())?;
            let right = shared(alloc, r.get())?;
            let made = operation(alloc, left, right)?;
            Ok(made)
        }
    }
}

/// What stands in the term where the variable of the pattern stands first.
pub(crate) fn read<'a>(pattern: &Term, term: &'a Rc<Node>, variable: u8) -> Option<&'a Rc<Node>>
    ensures { tree_read result ≡ read (tree_of pattern.now) term.now.value variable }
{
    match pattern {
        Term::Var(v) => { if *v == variable { Some(term) } else { None } }
        Term::Op(a, b) => match &term.as_ref().parts {
            Parts::Var(_) => None,
            Parts::Op(c, d) => match read(a.get(), c, variable) {
                Some(found) => Some(found),
                None => read(b.get(), d, variable),
            },
        },
    }
}

/// Whether the pattern matches the term.
pub(crate) fn matches(pattern: &Term, term: &Rc<Node>) -> bool
    ensures { result ≡ same
        (apply (matcher (tree_of pattern.now) term.now.value) (tree_of pattern.now)) term.now.value }
{
    let matching = fits(pattern, term);
    matching
}

/// Whether the two parts of each operation match, and agree on the variables of both.
fn fits(pattern: &Term, term: &Rc<Node>) -> bool
    ensures { result ≡ fits (tree_of pattern.now) term.now.value }
{
    match pattern {
        Term::Var(_) => true,
        Term::Op(a, b) => match &term.as_ref().parts {
            Parts::Var(_) => false,
            Parts::Op(c, d) => fits(a.get(), c)
                && fits(b.get(), d)
                && agrees(a.get(), c, b.get(), d),
        },
    }
}

/// Whether what stands for the variables of `part` is what stands for them in the earlier pattern,
/// where that has them.
fn agrees(pattern: &Term, term: &Rc<Node>, part: &Term, at: &Rc<Node>) -> bool
    ensures { result ≡ agrees (tree_of pattern.now) term.now.value (tree_of part.now) at.now.value }
{
    match part {
        Term::Var(v) => match read(pattern, term, *v) {
            Some(found) => found.same(at),
            None => true,
        },
        Term::Op(a, b) => match &at.as_ref().parts {
            Parts::Var(_) => true,
            Parts::Op(c, d) => agrees(pattern, term, a.get(), c)
                && agrees(pattern, term, b.get(), d),
        },
    }
}

/// How many leaves the side has, with what its variables stand for in the term; 65536 stands for
/// 65536 and more.
pub(crate) fn leaves_under(pattern: &Term, term: &Rc<Node>, side: &Term) -> u32
    ensures { result ≡ min
        (leaves (apply (matcher (tree_of pattern.now) term.now.value) (tree_of side.now))) 65536 }
{
    match side {
        Term::Var(v) => match read(pattern, term, *v) {
            Some(found) => found.leaves(),
            None => 1,
        },
        Term::Op(a, b) => (leaves_under(pattern, term, a.get())
            + leaves_under(pattern, term, b.get())).min(65536),
    }
}
