ghost use Rattle.std.specs.Prelude.{◌≡◌, ◌<◌, ◌++◌, ◌∷◌, [], true, OnOk, OnErr, length, slice_get};
ghost use Rattle.std.specs.Option.{option_copied};
ghost use Rattle.etp_finite_body.specs.Growing.{ends_in_steps, with_last_step};

use etp_proof::{Lemma, Step};
use etp_term::{NoMemory, Term};
use std::alloc::{AllocError, Global};
use std::marker::Model;

/// A lemma of a finite proof.
#[derive(Drop)]
pub enum FiniteLemma {
    /// A start and steps from it.
    Steps(Lemma),
    /// From an equation whose one side is the inner term put for the variable in the outer one, and
    /// whose other side is the variable: the same with the two terms exchanged.
    Cancel {
        line: u32,
        variable: u8,
        outer: Term,
        inner: Term,
    },
}

/// Lemmas of a finite proof, in order.
#[derive(Drop)]
pub struct FiniteLemmas {
    lemmas: Vec<FiniteLemma>,
}

impl Model for FiniteLemmas {
    ghost use Rattle.std.specs.Prelude.{List, length, ◌<◌, ◌^◌};
    ghost use Rattle.std.specs.Coded.{codes};
    ghost use Rattle.etp_term.specs.contracts.term.Term as term;
    ghost use Rattle.etp_finite_body.specs.declared.lemmas.FiniteLemma.{FiniteLemma};

    ghost Value = { List FiniteLemma };

    ghost coded = { Prim.hlevel (codes, term.the_row.coded) };

    ghost view = { λ l. l.lemmas.items };

    ghost invariant = { λ l. length l.lemmas.items < 2 ^ 32 };
}

impl FiniteLemmas {
    /// No lemmas. It takes no memory; the allocator serves later growth.
    pub fn empty(alloc: Global) -> FiniteLemmas
        ensures { result ≡ [] }
    {
        FiniteLemmas {
            lemmas: Vec::new(alloc),
        }
    }

    /// How many lemmas there are.
    pub fn len(&self) -> u32
        ensures { result ≡ length self.now }
    {
        self.lemmas.len() as u32
    }

    /// The lemma at a place counted from 0; None where the place isn't below the length.
    pub fn get(&self, at: u32) -> Option<&FiniteLemma>
        ensures { option_copied result ≡ slice_get self.now at }
    {
        self.lemmas.get(at as usize)
    }

    /// Appends a lemma.
    pub fn push(&mut self, lemma: FiniteLemma) -> Result<(), NoMemory>
        requires { length self.old < 4294967295 }
        ensures ok { OnOk result (self.new ≡ self.old ++ lemma ∷ []) }
        ensures err { OnErr result (self.new ≡ self.old) }
    {
        self.lemmas.push(lemma)?;
        Ok(())
    }

    /// Whether the last lemma may have more steps.
    pub(crate) fn ends_in_steps(&self) -> bool
        ensures { result ≡ ends_in_steps self.now }
    {
        match self.as_slice().last() {
            Some(FiniteLemma::Steps(_)) => true,
            Some(FiniteLemma::Cancel { .. }) => false,
            None => false,
        }
    }

    /// Appends a step to the last lemma. A lemma of more than 4294967295 steps is want of memory
    /// too.
    pub(crate) fn push_step(&mut self, step: Step) -> Result<(), NoMemory>
        requires { ends_in_steps self.old ≡ true }
        ensures ok { OnOk result (self.new ≡ with_last_step self.old step) }
        ensures err { OnErr result (self.new ≡ self.old) }
    {
        let last = self.lemmas.len() - 1;
        match &mut self.lemmas[last] {
            FiniteLemma::Steps(lemma) => push_to(lemma, step),
            FiniteLemma::Cancel { .. } => unreachable!(),
        }
    }

    /// All lemmas.
    pub fn as_slice(&self) -> &[FiniteLemma]
        ensures value { result.now ≡ self.now }
        ensures few { length self.now < 4294967296 }
    {
        self.lemmas.as_slice()
    }
}

fn push_to(lemma: &mut Lemma, step: Step) -> Result<(), NoMemory>
    ensures ok { OnOk result (lemma.new ≡ record lemma.old { steps = lemma.old.steps ++ step ∷ [] }) }
    ensures err { OnErr result (lemma.new ≡ lemma.old) }
{
    if lemma.steps.len() == u32::MAX {
        return Err(AllocError);
    }
    lemma.steps.push(step)
}
