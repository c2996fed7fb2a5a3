ghost use Rattle.std.specs.Prelude.{◌≡◌, ◌≢◌, ◌<◌, ◌++◌, [], OnOk, length, slice_get, Contains, AllPairs};
ghost use Rattle.std.specs.Option.{option_copied, option_map};
ghost use Rattle.etp_term.specs.Terms.{tree_of};
ghost use Rattle.etp_search.specs.Sets.{polish, IsOneMore};

use etp_term::{NoMemory, Term};
use indexmap::IndexMap;
use std::alloc::{AllocError, Global};
use std::marker::Model;

/// A set of terms, in the order in which they came. Each is found by the hash of its Polish notation.
#[derive(Drop)]
pub struct Terms {
    kept: IndexMap<Vec<u8>, Term>,
}

impl Model for Terms {
    ghost use Rattle.std.specs.Prelude.{◌≢◌, ◌<◌, ◌^◌, AllPairs, List, length};
    ghost use Rattle.std.specs.Coded.{coded_list};
    ghost use Rattle.etp_theory.specs.Trees.{Tree};
    ghost use Rattle.etp_search.specs.Sets.{terms_of, AreKept};
    ghost use Rattle.etp_search.specs.Coding.{coded_tree};

    ghost Value = { List Tree };

    ghost coded = { coded_list coded_tree };

    ghost view = { λ s. terms_of s.kept.entries };

    ghost invariant = { λ s. AreKept s.kept.entries × (length s.kept.entries < 2 ^ 32) × AllPairs (λ t u. t ≢ u) (terms_of s.kept.entries) };
}

impl Terms {
    /// The set without terms. It takes no memory; the allocator serves later growth.
    pub fn empty(alloc: Global) -> Terms
        ensures { result ≡ [] }
    {
        Terms {
            kept: IndexMap::new(alloc),
        }
    }

    /// How many terms there are.
    pub fn len(&self) -> u32
        ensures count { result ≡ length self.now }
        ensures different { AllPairs (λ s t. s ≢ t) self.now }
    {
        self.kept.len() as u32
    }

    /// The term at a place counted from 0; None where the place isn't below the length.
    pub fn get(&self, at: u32) -> Option<&Term>
        ensures { option_map tree_of (option_copied result) ≡ slice_get self.now at }
    {
        match self.kept.get_index(at as usize) {
            Some((_, term)) => Some(term),
            None => None,
        }
    }

    /// Puts the term last where it isn't there. More than 4294967295 terms are want of memory.
    pub fn add(&mut self, alloc: Global, term: Term) -> Result<(), NoMemory>
        ensures { OnOk result (IsOneMore (tree_of term) self.old self.new) }
    {
        let mut word = Vec::with_capacity(alloc, 16)?;
        append_word(&term, &mut word)?;
        if self.kept.contains_key(word.as_slice()) {
            return Ok(());
        }
        if self.kept.len() >= u32::MAX as usize {
            return Err(AllocError);
        }
        self.kept.insert(word, term)?;
        Ok(())
    }
}

/// Appends the Polish notation of the term.
fn append_word(term: &Term, word: &mut Vec<u8>) -> Result<(), NoMemory>
    ensures { OnOk result (word.new.items ≡ word.old.items ++ polish (tree_of term.now)) }
{
    match term {
        Term::Var(v) => {
            word.push(0)?;
            word.push(*v)?;
            Ok(())
        }
        Term::Op(l, r) => {
            word.push(1)?;
            append_word(l.get(), word)?;
            append_word(r.get(), word)
        }
    }
}
