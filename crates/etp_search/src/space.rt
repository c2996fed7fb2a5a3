ghost use Rattle.std.specs.Prelude.{◌↔◌, IsTrue};
ghost use Rattle.etp_term.specs.Terms.{tree_of};
ghost use Rattle.etp_search.specs.Spaces.{IsSearchable, IsSearchTerm};
ghost use Rattle.etp_search.specs.Programs.{space_of};
ghost use Rattle.etp_search.specs.Plugging.{IsBelow};

use etp_term::{Law, Term};

/// A law to rewrite by, read from left to right and from right to left, and terms to look at: those
/// in the variables below `variables` with at most `leaves` places of variables.
#[derive(Clone, Copy)]
pub struct Space<'l> {
    pub law: &'l Law,
    pub variables: u8,
    pub leaves: u8,
}

impl<'l> Space<'l> {
    /// Whether it can be searched: at most 64 variables and 64 leaves, and a law in variables below 64.
    pub fn is_searchable(self) -> bool
        ensures { IsTrue result ↔ IsSearchable (space_of self.entry) }
    {
        if self.variables > 64 {
            return false;
        }
        if self.leaves > 64 {
            return false;
        }
        is_below(&self.law.left, 64) && is_below(&self.law.right, 64)
    }

    /// Whether the term is one of the terms to look at.
    pub fn has(self, term: &Term) -> bool
        ensures { IsTrue result ↔ IsSearchTerm (space_of self.entry) (tree_of term.now) }
    {
        term.leaves() <= self.leaves as u32 && is_below(term, self.variables)
    }
}

/// Whether the term's variables are below a number.
fn is_below(term: &Term, number: u8) -> bool
    ensures { IsTrue result ↔ IsBelow number (tree_of term.now) }
{
    match term {
        Term::Var(v) => *v < number,
        Term::Op(l, r) => is_below(l.get(), number) && is_below(r.get(), number),
    }
}
