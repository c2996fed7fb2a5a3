// The lemmas of a proof for finite magmas, one after another.
ghost use Rattle.std.specs.Prelude.{◌≡◌, ◌<◌, ◌⊎◌, ◌++◌, ◌∷◌, [], IfOk, OnOk, IfErr, MatchOption, None, Some, length, map};
ghost use Rattle.etp_theory.specs.Proofs.{line_equation, named_equation, IsRightStep, AreRightSteps};
ghost use Rattle.etp_term.specs.Terms.{tree_of};
ghost use Rattle.etp_term.specs.Laws.{equation_of};
ghost use Rattle.etp_proof.specs.Lemmas.{step_of, lemma_of};
ghost use Rattle.etp_replay.specs.Replay.{IsMissing, IsFoundRefused, IsStepRefused, IsLemmaRefused};
ghost use Rattle.etp_cancel.specs.Cancelling.{by_cancel, finite_conclusions, IsRightCancel, IsRightFiniteLemma, AreRightFiniteLemmas};
ghost use Rattle.etp_finite_body.specs.FiniteBodies.{finite_lemma_of};
ghost use Rattle.etp_finite_replay.specs.Known.{hypothesis_in, earlier_in, cancel_in};
ghost use Rattle.etp_finite_replay.specs.FiniteReplay.{IsFiniteLemmaRefused, IsFirstWrongLemma};

use crate::concluding::conclusion;
use crate::putting::cancels;
use crate::refusal::FiniteReplayRefusal;
use etp_finite_body::FiniteLemma;
use etp_proof::{Lemma, Step};
use etp_replay::{ReplayRefusal, StepCheck, check_step};
use etp_term::{Law, NoMemory, Term};
use sqlite_items::at;
use std::alloc::Global;

/// What a lemma may name: the hypothesis, and the conclusions of the lemmas before it.
#[derive(Clone, Copy)]
struct Known<'p> {
    hypothesis: &'p Law,
    earlier: &'p [Law],
}

/// The number of a lemma, and that of a step in it.
#[derive(Clone, Copy)]
struct Place {
    lemma: u32,
    step: u32,
}

/// A line that cancels, with its terms.
#[derive(Clone, Copy)]
struct CancelParts<'p> {
    line: u32,
    variable: u8,
    outer: &'p Term,
    inner: &'p Term,
}

impl<'p> Known<'p> {
    fn line(&self, number: u32) -> Option<&'p Law>
        ensures { MatchOption result (line_equation (hypothesis_in self.now)
            (earlier_in self.now) number ≡ None)
            (λ law. line_equation (hypothesis_in self.now) (earlier_in self.now) number
            ≡ Some (equation_of law.now)) }
    {
        if number == 0 {
            return Some(self.hypothesis);
        }
        at(self.earlier, number as usize - 1)
    }

    /// The equation that the step names, where there is one; a finite proof cites no files.
    fn named(&self, step: &Step) -> Option<&'p Law>
        ensures { MatchOption result (named_equation (hypothesis_in self.now) []
            (earlier_in self.now) (step_of step.now) ≡ None)
            (λ law. named_equation (hypothesis_in self.now) [] (earlier_in self.now)
            (step_of step.now) ≡ Some (equation_of law.now)) }
    {
        if step.cited {
            return None;
        }
        self.line(step.line)
    }

    fn replay_step(
        &self,
        alloc: Global,
        place: Place,
        from: &Term,
        step: &Step,
    ) -> Result<(), ReplayRefusal>
        ensures ok { OnOk result (IsRightStep (hypothesis_in self.now) [] (earlier_in self.now)
            (tree_of from.now) (step_of step.now)) }
        ensures err { IfErr result (λ r. (r ≡ ReplayRefusal.NoMemory)
            ⊎ IsStepRefused (hypothesis_in self.now) [] (earlier_in self.now) (tree_of from.now)
            (step_of step.now) place.lemma place.step r) }
    {
        match self.named(step) {
            None => Err(missing(place, step)),
            Some(law) => {
                let check = check_step(alloc, from, law, step)?;
                outcome(place, check)
            }
        }
    }

    fn replay_steps(&self, alloc: Global, number: u32, lemma: &Lemma) -> Result<(), ReplayRefusal>
        ensures ok { OnOk result (AreRightSteps (hypothesis_in self.now) [] (earlier_in self.now)
            (tree_of lemma.now.start) (map step_of lemma.now.steps)) }
        ensures err { IfErr result (λ r. (r ≡ ReplayRefusal.NoMemory)
            ⊎ IsLemmaRefused (hypothesis_in self.now) [] (earlier_in self.now)
            (lemma_of lemma.now) number r) }
    {
        let mut from = &lemma.start;
        for (at, step) in lemma.steps.as_slice().iter().enumerate() {
            let place = Place {
                lemma: number,
                step: at as u32 + 1,
            };
            self.replay_step(alloc, place, from, step)?;
            from = &step.to;
        }
        Ok(())
    }

    /// Replays a line that cancels, which is step 0 of its lemma.
    fn replay_cancel(&self, number: u32, c: CancelParts<'_>) -> Result<(), FiniteReplayRefusal>
        ensures ok { OnOk result (IsRightCancel (hypothesis_in self.now) (earlier_in self.now)
            (cancel_in c.entry)) }
        ensures err { IfErr result (IsFiniteLemmaRefused (hypothesis_in self.now)
            (earlier_in self.now) (by_cancel (cancel_in c.entry)) number) }
    {
        let Some(law) = self.line(c.line) else {
            return Err(FiniteReplayRefusal::Replay(ReplayRefusal::Reference {
                lemma: number,
                step: 0,
                line: c.line,
            }));
        };
        if !cancels(law, c.variable, c.outer, c.inner) {
            return Err(FiniteReplayRefusal::CancelDiffers { lemma: number });
        }
        Ok(())
    }

    fn replay(
        &self,
        alloc: Global,
        number: u32,
        lemma: &FiniteLemma,
    ) -> Result<(), FiniteReplayRefusal>
        ensures ok { OnOk result (IsRightFiniteLemma (hypothesis_in self.now)
            (earlier_in self.now) (finite_lemma_of lemma.now)) }
        ensures err { IfErr result (λ r. (r ≡ FiniteReplayRefusal.NoMemory)
            ⊎ IsFiniteLemmaRefused (hypothesis_in self.now) (earlier_in self.now)
            (finite_lemma_of lemma.now) number r) }
    {
        match lemma {
            FiniteLemma::Steps(lemma) => match self.replay_steps(alloc, number, lemma) {
                Ok(()) => Ok(()),
                Err(refusal) => Err(FiniteReplayRefusal::of(refusal)),
            },
            FiniteLemma::Cancel {
                line,
                variable,
                outer,
                inner,
            } => self.replay_cancel(
                number,
                CancelParts {
                    line: *line,
                    variable: *variable,
                    outer,
                    inner,
                },
            ),
        }
    }
}

/// The refusal of a step that names no equation.
fn missing(place: Place, step: &Step) -> ReplayRefusal
    ensures { IsMissing place.lemma place.step (step_of step.now) result }
{
    let Place {
        lemma,
        step: number,
    } = place;
    if step.cited {
        ReplayRefusal::Citation {
            lemma,
            step: number,
            cite: step.line,
        }
    } else {
        ReplayRefusal::Reference {
            lemma,
            step: number,
            line: step.line,
        }
    }
}

/// The refusal of a step by what was found of it.
fn outcome(place: Place, check: StepCheck) -> Result<(), ReplayRefusal>
    ensures ok { OnOk result (check ≡ StepCheck.Right) }
    ensures err { IfErr result (λ r. IsFoundRefused place.lemma place.step check r) }
{
    let Place { lemma, step } = place;
    match check {
        StepCheck::Right => Ok(()),
        StepCheck::NoPlace => Err(ReplayRefusal::NoPlace { lemma, step }),
        StepCheck::OutsideChanged => Err(ReplayRefusal::OutsideChanged { lemma, step }),
        StepCheck::NoMatch => Err(ReplayRefusal::NoMatch { lemma, step }),
    }
}

fn append(laws: &mut Vec<Law>, law: Law) -> Result<(), NoMemory>
    ensures { OnOk result (laws.new.items ≡ laws.old.items ++ law ∷ []) }
{
    laws.push(law)?;
    Ok(())
}

/// The conclusions of the lemmas, each of which is right over the conclusions of those before it.
pub(crate) fn replay_lemmas(
    alloc: Global,
    hypothesis: &Law,
    lemmas: &[FiniteLemma],
) -> Result<Vec<Law>, FiniteReplayRefusal>
    requires { length lemmas.now < 4294967296 }
    ensures right { OnOk result (AreRightFiniteLemmas (equation_of hypothesis.now) []
        (map finite_lemma_of lemmas.now)) }
    ensures found { IfOk result (λ found. map equation_of found.items
        ≡ finite_conclusions (map finite_lemma_of lemmas.now)) }
    ensures many { IfOk result (λ found. length found.items ≡ length lemmas.now) }
    ensures err { IfErr result (λ r. (r ≡ FiniteReplayRefusal.NoMemory)
        ⊎ IsFirstWrongLemma (equation_of hypothesis.now) (map finite_lemma_of lemmas.now) r) }
{
    let mut earlier = Vec::with_capacity(alloc, lemmas.len())?;
    for (at, lemma) in lemmas.iter().enumerate() {
        let known = Known {
            hypothesis,
            earlier: earlier.as_slice(),
        };
        known.replay(alloc, at as u32 + 1, lemma)?;
        let law = conclusion(alloc, lemma)?;
        append(&mut earlier, law)?;
    }
    Ok(earlier)
}
