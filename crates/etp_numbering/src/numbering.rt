// Variables numbered anew, in the order in which they first come through two terms.
ghost use Rattle.std.specs.Prelude.{◌≡◌, ◌≤◌, ◌+◌, ◌++◌, ◌==◌, IfOk, OnOk, length, position};
ghost use Rattle.etp_theory.specs.Trees.{word_of, leaves};
ghost use Rattle.etp_term.specs.Terms.{tree_of};
ghost use Rattle.etp_laws.specs.Occurrences.{seen_after, seen_all};
ghost use Rattle.etp_numbering.specs.Numbering.{AreApart, AreNumberedAnew, HaveFew};
ghost use Rattle.etp_numbering.specs.Numbering as Numbering;

use etp_term::Term;
use sqlite_items::Boxed;
use std::alloc::{AllocError, Global};

/// Two terms whose variables are numbered anew.
#[derive(Drop)]
pub struct Numbered {
    pub first: Term,
    pub second: Term,
}

/// Both terms with their variables numbered in the order in which they first come, through the first
/// term and then the second.
pub fn number_anew(alloc: Global, first: &Term, second: &Term) -> Result<Numbered, AllocError>
    ensures numbered { IfOk result
        (AreNumberedAnew (tree_of first.now) (tree_of second.now)) }
    ensures few { IfOk result
        (HaveFew (leaves (tree_of first.now) + leaves (tree_of second.now))) }
{
    let variables = variables_of(alloc, first, second)?;
    let first = numbered_in(alloc, variables.as_slice(), first)?;
    let second = numbered_in(alloc, variables.as_slice(), second)?;
    Ok(Numbered { first, second })
}

/// The variables of the first term and then those of the second, each once, as they first come.
pub fn variables_of(alloc: Global, first: &Term, second: &Term) -> Result<Vec<u8>, AllocError>
    ensures variables { IfOk result (λ seen.
        seen.items ≡ Numbering.variables_of (tree_of first.now) (tree_of second.now)) }
    ensures few { IfOk result (λ seen. length seen.items ≤ 256) }
{
    let mut seen = Vec::new(alloc);
    note_all(&mut seen, first)?;
    note_all(&mut seen, second)?;
    Ok(seen)
}

// Adds the term's variables that weren't seen, as they come.
fn note_all(seen: &mut Vec<u8>, term: &Term) -> Result<(), AllocError>
    requires { AreApart seen.old.items }
    ensures seen { OnOk result
        (seen.new.items ≡ seen_all seen.old.items (word_of (tree_of term.now))) }
    ensures apart { OnOk result (AreApart seen.new.items) }
{
    match term {
        Term::Var(v) => note(seen, *v),
        Term::Op(l, r) => {
            note_all(seen, l.get())?;
            note_all(seen, r.get())
        }
    }
}

// Adds a variable where it wasn't seen.
fn note(seen: &mut Vec<u8>, variable: u8) -> Result<(), AllocError>
    requires { AreApart seen.old.items }
    ensures seen { OnOk result (seen.new.items ≡ seen_after seen.old.items variable) }
    ensures apart { OnOk result (AreApart seen.new.items) }
{
    match position_of(seen.as_slice(), variable) {
        Some(_) => Ok(()),
        None => {
            seen.push(variable)?;
            Ok(())
        }
    }
}

// The first place of a variable.
fn position_of(variables: &[u8], variable: u8) -> Option<usize>
    ensures { result ≡ position (λ x. x == variable) variables.now }
{
    variables.iter().position(|x| *x == variable)
}

// The place of a variable in a list that has it.
fn place_in(variables: &[u8], variable: u8) -> u8
    requires { length variables.now ≤ 256 }
    ensures { result ≡ Numbering.place_in variables.now variable }
{
    position_of(variables, variable).unwrap_or(0) as u8
}

/// The term with each variable replaced by its place in the list.
pub fn numbered_in(alloc: Global, variables: &[u8], term: &Term) -> Result<Term, AllocError>
    requires { length variables.now ≤ 256 }
    ensures { IfOk result (λ t. tree_of t
        ≡ Numbering.numbered_in variables.now (tree_of term.now)) }
{
    match term {
        Term::Var(v) => Ok(Term::Var(place_in(variables, *v))),
        Term::Op(l, r) => {
            let left = numbered_in(alloc, variables, l.get())?;
            let right = numbered_in(alloc, variables, r.get())?;
            Ok(Term::Op(Boxed::new(alloc, left)?, Boxed::new(alloc, right)?))
        }
    }
}
