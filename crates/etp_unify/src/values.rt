//! Terms under values that may have variables with values themselves, and that lead to no variable
//! inside its own value.

ghost use Rattle.std.specs.Prelude.{◌≡◌, IsTrue, IfOk, OnOk, length, None, false};
ghost use Rattle.etp_theory.specs.Substitutions.{apply};
ghost use Rattle.etp_term.specs.Terms.{tree_of};
ghost use Rattle.etp_match.specs.Bindings.{partial_of};
ghost use Rattle.etp_unify.specs.Triangular.{solution, IsTriangular, HasSmallVariables};
ghost use Rattle.etp_unify.specs.Triangular.{HasSolution, IsPut};
ghost use Rattle.etp_unify.specs.Values.{IsEnd, StandsIn, AreWithout, counted, AreCounted, AreWithin};

use etp_match::{Bindings, Subst};
use etp_term::{NoMemory, Term};
use sqlite_items::Boxed;
use std::alloc::Global;

/// So many leaves are not built.
pub(crate) const MANY_LEAVES: u64 = 4294967296;

/// Where a term leads: an operation, or a variable without a value.
pub(crate) fn end_of<'t>(bindings: &Bindings<'t>, term: &'t Term) -> &'t Term
    requires { IsTriangular bindings.now }
    ensures { IsEnd (partial_of bindings.now) (tree_of term.now) (tree_of result.now) }
{
    let mut end = term;
    loop {
        match end {
            Term::Op(_, _) => return end,
            Term::Var(v) => match bindings.get(*v) {
                Some(value) => end = value,
                None => return end,
            },
        }
    }
}

/// Whether a variable without a value stands in the term, once all values are put in.
pub(crate) fn stands_in(bindings: &Bindings, variable: u8, term: &Term) -> bool
    requires triangular { IsTriangular bindings.now }
    requires free { (partial_of bindings.now).value variable ≡ None }
    ensures yes { IsTrue result → StandsIn bindings.now variable (tree_of term.now) }
    ensures no { result ≡ false → StandsIn bindings.now variable (tree_of term.now) → ⊥ }
{
    let mut without = [false; 256];
    stands_below(bindings, variable, term, &mut without)
}

/// The same, where `without` marks variables whose values are known to be without it. So each
/// value is looked through once at most.
fn stands_below(bindings: &Bindings, variable: u8, term: &Term, without: &mut [bool]) -> bool
    requires triangular { IsTriangular bindings.now }
    requires free { (partial_of bindings.now).value variable ≡ None }
    requires size { length without.old ≡ 256 }
    requires marked { AreWithout bindings.now variable without.old }
    ensures yes { IsTrue result → StandsIn bindings.now variable (tree_of term.now) }
    ensures no { result ≡ false → StandsIn bindings.now variable (tree_of term.now) → ⊥ }
    ensures marked { AreWithout bindings.now variable without.new }
{
    match term {
        Term::Op(l, r) => stands_below(bindings, variable, l.get(), without)
            || stands_below(bindings, variable, r.get(), without),
        Term::Var(v) => {
            if *v == variable {
                return true;
            }
            if without[*v as usize] {
                return false;
            }
            match bindings.get(*v) {
                None => false,
                Some(value) => {
                    if stands_below(bindings, variable, value, without) {
                        return true;
                    }
                    without[*v as usize] = true;
                    false
                }
            }
        }
    }
}

/// How many leaves the term has once all values are put in, up to `MANY_LEAVES`.
/// `known` has 0 for a variable, or how many its value has. So each value is counted once at most.
fn leaves_below(bindings: &Bindings, term: &Term, known: &mut [u64]) -> u64
    requires triangular { IsTriangular bindings.now }
    requires size { length known.old ≡ 256 }
    requires counted { AreCounted bindings.now known.old }
    ensures count { result ≡ counted bindings.now (tree_of term.now) }
    ensures counted { AreCounted bindings.now known.new }
{
    match term {
        Term::Op(l, r) => {
            let left = leaves_below(bindings, l.get(), known);
            let right = leaves_below(bindings, r.get(), known);
            (left + right).min(MANY_LEAVES)
        }
        Term::Var(v) => match bindings.get(*v) {
            None => 1,
            Some(value) => {
                let before = known[*v as usize];
                if before != 0 {
                    return before;
                }
                let count = leaves_below(bindings, value, known);
                known[*v as usize] = count;
                count
            }
        },
    }
}

/// The term with all values put in, those in the values too.
fn resolved(alloc: Global, bindings: &Bindings, term: &Term) -> Result<Term, NoMemory>
    requires { IsTriangular bindings.now }
    ensures { IfOk result (λ t. tree_of t ≡ apply (solution bindings.now) (tree_of term.now)) }
{
    match term {
        Term::Op(l, r) => {
            let left = resolved(alloc, bindings, l.get())?;
            let right = resolved(alloc, bindings, r.get())?;
            Ok(Term::Op(Boxed::new(alloc, left)?, Boxed::new(alloc, right)?))
        }
        Term::Var(v) => match bindings.get(*v) {
            Some(value) => resolved(alloc, bindings, value),
            None => Ok(Term::Var(*v)),
        },
    }
}

/// How many leaves all variables have together once all values are put in, up to `MANY_LEAVES`.
pub(crate) fn leaves_of_all(bindings: &Bindings) -> u64
    requires { IsTriangular bindings.now }
    ensures { AreWithin bindings.now 256 result }
{
    let mut known = [0; 256];
    let mut count = 0;
    for v in 0..=255u8 {
        count = (count + leaves_below(bindings, &Term::Var(v), &mut known)).min(MANY_LEAVES);
    }
    count
}

/// Gives the variable its value with all values put in, where it has one.
fn put_resolved(
    alloc: Global,
    bindings: &Bindings,
    variable: u8,
    subst: &mut Subst,
) -> Result<(), NoMemory>
    requires triangular { IsTriangular bindings.now }
    requires free { (partial_of subst.old).value variable ≡ None }
    ensures { OnOk result (IsPut bindings.now variable subst.old subst.new) }
{
    if let Some(value) = bindings.get(variable) {
        let term = resolved(alloc, bindings, value)?;
        subst.bind(variable, term)?;
    }
    Ok(())
}

/// The substitution that the values stand for.
pub(crate) fn subst_of(alloc: Global, bindings: &Bindings) -> Result<Subst, NoMemory>
    requires triangular { IsTriangular bindings.now }
    requires small { HasSmallVariables bindings.now }
    ensures { IfOk result (λ m. HasSolution bindings.now m) }
{
    let mut subst = Subst::empty(alloc)?;
    for v in 0..=255u8 {
        put_resolved(alloc, bindings, v, &mut subst)?;
    }
    Ok(subst)
}
