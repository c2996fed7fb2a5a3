//! Pairs of terms that are to be made equal, one variable after the other.

ghost use Rattle.std.specs.Prelude.{◌≡◌, IfOk};
ghost use Rattle.etp_match.specs.Bindings.{partial_of};
ghost use Rattle.etp_unify.specs.Triangular.{IsTriangular, HasSmallVariables};
ghost use Rattle.etp_unify.specs.Solving.{IsNext, IsOutcome};

use crate::values::{MANY_LEAVES, end_of, leaves_of_all, stands_in};
use etp_match::Bindings;
use etp_term::{NoMemory, Term};
use std::alloc::AllocError;

/// Two terms that are to be made equal.
#[derive(Clone, Copy)]
pub(crate) struct Pair<'t> {
    pub left: &'t Term,
    pub right: &'t Term,
}

/// A variable without a value, and another term that is to be its value.
#[derive(Clone, Copy)]
struct Difference<'t> {
    variable: u8,
    value: &'t Term,
}

impl<'t> Difference<'t> {
    fn of(variable: u8, value: &'t Term) -> Difference<'t>
        ensures { result ≡ record { variable = variable; value = value.entry } }
    {
        Difference { variable, value }
    }
}

/// Gives values to variables until all pairs are equal under them; false where nothing makes them
/// equal. Values that come to `MANY_LEAVES` once all are put in are refused at once: they wouldn't
/// be built, and to compare them may take as long as to build them.
pub(crate) fn solve<'t>(bindings: &mut Bindings<'t>, pairs: Vec<Pair<'t>>) -> Result<bool, NoMemory>
    requires triangular { IsTriangular bindings.old }
    requires small { HasSmallVariables bindings.old }
    ensures { IfOk result (IsOutcome pairs.entry.items bindings.old bindings.new) }
{
    let mut left = pairs;
    loop {
        let Some(difference) = next_difference(bindings, &mut left)? else {
            return Ok(true);
        };
        if stands_in(bindings, difference.variable, difference.value) {
            return Ok(false);
        }
        bindings.bind(difference.variable, difference.value);
        if leaves_of_all(bindings) == MANY_LEAVES {
            return Err(AllocError);
        }
    }
}

/// Takes pairs off, up to the first in which a variable stands against another term.
fn next_difference<'t>(
    bindings: &Bindings<'t>,
    pairs: &mut Vec<Pair<'t>>,
) -> Result<Option<Difference<'t>>, NoMemory>
    requires { IsTriangular bindings.now }
    ensures { IfOk result (IsNext (partial_of bindings.now) pairs.old.items pairs.new.items) }
{
    while let Some(pair) = pairs.pop() {
        let left = end_of(bindings, pair.left);
        let right = end_of(bindings, pair.right);
        match (left, right) {
            (Term::Op(a, b), Term::Op(c, d)) => {
                let left = b.get();
                let right = d.get();
                pairs.push(Pair { left, right })?;
                let left = a.get();
                let right = c.get();
                pairs.push(Pair { left, right })?;
            }
            (Term::Var(v), Term::Var(w)) => {
                if *v != *w {
                    return Ok(Some(Difference::of(*v, right)));
                }
            }
            (Term::Var(v), Term::Op(_, _)) => return Ok(Some(Difference::of(*v, right))),
            (Term::Op(_, _), Term::Var(w)) => return Ok(Some(Difference::of(*w, left))),
        }
    }
    Ok(None)
}
