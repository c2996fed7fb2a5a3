ghost use Rattle.std.specs.Prelude.{◌≡◌, ◌<◌, ◌++◌, ◌∷◌, [], IfOk, OnOk, OnErr, length, map, slice_get};
ghost use Rattle.std.specs.Option.{option_copied};
ghost use Rattle.etp_theory.specs.Proofs.{last_term, conclusion};
ghost use Rattle.etp_term.specs.Terms.{tree_of};
ghost use Rattle.etp_term.specs.Laws.{equation_of};
ghost use Rattle.etp_proof.specs.Lemmas.{step_of, lemma_of};
ghost use Rattle.etp_proof.specs.Growing.{with_last_step};

use crate::label::Cites;
use etp_term::{Law, NoMemory, Position, Term};
use std::alloc::{AllocError, Global};
use std::marker::Model;

/// A step of a lemma from the term before it to the term `to`, at a position, by an equation. The
/// line 0 is the hypothesis, and line k the conclusion of lemma k, which must be an earlier one; of
/// a step that is `cited` the line is the place of a cite, counted from 1. A step that is
/// `reversed` reads the equation from right to left.
#[derive(Drop)]
pub struct Step {
    pub to: Term,
    pub line: u32,
    pub cited: bool,
    pub reversed: bool,
    pub position: Position,
}

/// The steps of a lemma, in order.
#[derive(Drop)]
pub struct Steps {
    steps: Vec<Step>,
}

impl Model for Steps {
    ghost use Rattle.std.specs.Prelude.{List, length, ◌<◌, ◌^◌};
    ghost use Rattle.std.specs.Coded.{codes};
    ghost use Rattle.etp_term.specs.contracts.term.Term as term;
    ghost use Rattle.etp_proof.specs.declared.proof.Step.{Step};

    ghost Value = { List Step };

    ghost coded = { Prim.hlevel (codes, term.the_row.coded) };

    ghost view = { λ s. s.steps.items };

    ghost invariant = { λ s. length s.steps.items < 2 ^ 32 };
}

impl Steps {
    /// No steps. It takes no memory; the allocator serves later growth.
    pub fn empty(alloc: Global) -> Steps
        ensures { result ≡ [] }
    {
        Steps {
            steps: Vec::new(alloc),
        }
    }

    /// How many steps there are.
    pub fn len(&self) -> u32
        ensures { result ≡ length self.now }
    {
        self.steps.len() as u32
    }

    /// The step at a place counted from 0; None where the place isn't below the length.
    pub fn get(&self, at: u32) -> Option<&Step>
        ensures { option_copied result ≡ slice_get self.now at }
    {
        self.steps.get(at as usize)
    }

    /// Appends a step.
    pub fn push(&mut self, step: Step) -> Result<(), NoMemory>
        requires { length self.old < 4294967295 }
        ensures ok { OnOk result (self.new ≡ self.old ++ step ∷ []) }
        ensures err { OnErr result (self.new ≡ self.old) }
    {
        self.steps.push(step)?;
        Ok(())
    }

    /// All steps.
    pub fn as_slice(&self) -> &[Step]
        ensures value { result.now ≡ self.now }
        ensures few { length self.now < 4294967296 }
    {
        self.steps.as_slice()
    }
}

/// A start and steps from it; the conclusion is the equation of the start and the last term.
#[derive(Drop)]
pub struct Lemma {
    pub start: Term,
    pub steps: Steps,
}

impl Lemma {
    /// The term after the last step, or the start where there is none.
    pub fn last_term(&self) -> &Term
        ensures { tree_of result.now ≡ last_term (tree_of self.now.start)
            (map step_of self.now.steps) }
    {
        match self.steps.as_slice().last() {
            Some(step) => &step.to,
            None => &self.start,
        }
    }

    /// The conclusion: the equation of the start and the last term.
    pub fn conclusion(&self, alloc: Global) -> Result<Law, NoMemory>
        ensures { IfOk result (λ law. equation_of law ≡ conclusion (lemma_of self.now)) }
    {
        Ok(Law {
            left: self.start.copy(alloc)?,
            right: self.last_term().copy(alloc)?,
        })
    }
}

/// Lemmas, in order.
#[derive(Drop)]
pub struct Lemmas {
    lemmas: Vec<Lemma>,
}

impl Model for Lemmas {
    ghost use Rattle.std.specs.Prelude.{List, length, ◌<◌, ◌^◌};
    ghost use Rattle.std.specs.Coded.{codes};
    ghost use Rattle.etp_term.specs.contracts.term.Term as term;
    ghost use Rattle.etp_proof.specs.declared.proof.Lemma.{Lemma};

    ghost Value = { List Lemma };

    ghost coded = { Prim.hlevel (codes, term.the_row.coded) };

    ghost view = { λ l. l.lemmas.items };

    ghost invariant = { λ l. length l.lemmas.items < 2 ^ 32 };
}

impl Lemmas {
    /// No lemmas. It takes no memory; the allocator serves later growth.
    pub fn empty(alloc: Global) -> Lemmas
        ensures { result ≡ [] }
    {
        Lemmas {
            lemmas: Vec::new(alloc),
        }
    }

    /// How many lemmas there are.
    pub fn len(&self) -> u32
        ensures { result ≡ length self.now }
    {
        self.lemmas.len() as u32
    }

    /// The lemma at a place counted from 0; None where the place isn't below the length.
    pub fn get(&self, at: u32) -> Option<&Lemma>
        ensures { option_copied result ≡ slice_get self.now at }
    {
        self.lemmas.get(at as usize)
    }

    /// Appends a lemma.
    pub fn push(&mut self, lemma: Lemma) -> Result<(), NoMemory>
        requires { length self.old < 4294967295 }
        ensures ok { OnOk result (self.new ≡ self.old ++ lemma ∷ []) }
        ensures err { OnErr result (self.new ≡ self.old) }
    {
        self.lemmas.push(lemma)?;
        Ok(())
    }

    /// Appends a step to the last lemma. A lemma of more than 4294967295 steps is want of memory
    /// too.
    pub fn push_step(&mut self, step: Step) -> Result<(), NoMemory>
        requires { 0 < length self.old }
        ensures ok { OnOk result (self.new ≡ with_last_step self.old step) }
        ensures err { OnErr result (self.new ≡ self.old) }
    {
        let last = self.lemmas.len() - 1;
        let lemma = &mut self.lemmas[last];
        if lemma.steps.len() == u32::MAX {
            return Err(AllocError);
        }
        lemma.steps.push(step)
    }

    /// All lemmas.
    pub fn as_slice(&self) -> &[Lemma]
        ensures value { result.now ≡ self.now }
        ensures few { length self.now < 4294967296 }
    {
        self.lemmas.as_slice()
    }
}

/// A proof that the law numbered `hypothesis` implies the law numbered `goal`: the last lemma
/// concludes the goal, by the hypothesis, earlier lemmas, and the laws that the cited proofs prove
/// from the same hypothesis.
#[derive(Drop)]
pub struct Proof {
    pub hypothesis: u32,
    pub goal: u32,
    pub cites: Cites,
    pub lemmas: Lemmas,
}
