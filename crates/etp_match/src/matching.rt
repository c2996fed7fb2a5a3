ghost use Rattle.std.specs.Prelude.{◌≡◌, IfOk, OnErr};
ghost use Rattle.etp_term.specs.Terms.{tree_of};
ghost use Rattle.etp_term.specs.Positions.{position_of};
ghost use Rattle.etp_match.specs.Bindings.{partial_of};
ghost use Rattle.etp_match.specs.Matching.{IsMatched, IsOutcome, NoneMatches, IsFirstMisfit};

use crate::subst::{Binding, Subst};
use crate::table::Bindings;
use etp_term::{NoMemory, Position, Side, Term};
use std::alloc::{AllocError, Global};

/// Whether some extension of a substitution takes the pattern to the term; where none does, the
/// position of the first misfit, a root before its left part and the left part before the right.
#[derive(Drop)]
pub enum Matched {
    Yes,
    No { position: Position },
}

/// Extends the substitution by values for the pattern's new variables, so that it takes the
/// pattern to the term. After `No` and after want of memory it is as before.
pub fn match_onto(
    alloc: Global,
    pattern: &Term,
    term: &Term,
    subst: &mut Subst,
) -> Result<Matched, NoMemory>
    ensures ok { IfOk result (λ m.
        IsMatched (tree_of pattern.now) (tree_of term.now) subst.old subst.new m) }
    ensures err { OnErr result (subst.new ≡ subst.old) }
{
    match outcome_of(alloc, pattern, term, subst)? {
        Outcome::Fits { values } => {
            subst.append(values)?;
            Ok(Matched::Yes)
        }
        Outcome::Misfit { position } => Ok(Matched::No { position }),
    }
}

/// What a match adds to a substitution, or where there is none.
#[derive(Drop)]
enum Outcome {
    Fits { values: Vec<Binding> },
    Misfit { position: Position },
}

fn outcome_of(
    alloc: Global,
    pattern: &Term,
    term: &Term,
    subst: &Subst,
) -> Result<Outcome, NoMemory>
    ensures { IfOk result (λ t. IsOutcome (tree_of pattern.now) (tree_of term.now) subst.now t) }
{
    let mut bindings = Bindings::of(alloc, subst)?;
    let known = bindings.len();
    if bindings.matches(pattern, term) {
        let values = bindings.copied_from(alloc, known)?;
        return Ok(Outcome::Fits { values });
    }
    let position = first_misfit(alloc, pattern, term, &mut bindings)?;
    Ok(Outcome::Misfit { position })
}

/// The first position at which a pattern that doesn't match is amiss: in the left part where that
/// doesn't match, else in the right part, down to a variable.
fn first_misfit<'t>(
    alloc: Global,
    pattern: &Term,
    term: &'t Term,
    bindings: &mut Bindings<'t>,
) -> Result<Position, NoMemory>
    requires { NoneMatches (tree_of pattern.now) (tree_of term.now) (partial_of bindings.old) }
    ensures { IfOk result (λ p. IsFirstMisfit (partial_of bindings.old) (tree_of pattern.now)
        (tree_of term.now) (position_of p)) }
{
    let mut position = Position::root(alloc);
    let mut inner = pattern;
    let mut subterm = term;
    loop {
        let Term::Op(a, b) = inner else {
            return Ok(position);
        };
        let Term::Op(c, d) = subterm else {
            return Ok(position);
        };
        if position.len() == u32::MAX {
            return Err(AllocError);
        }
        let left = a.get();
        let there = c.get();
        if bindings.matches(left, there) {
            position.push(Side::R)?;
            inner = b.get();
            subterm = d.get();
        } else {
            position.push(Side::L)?;
            inner = left;
            subterm = there;
        }
    }
}
