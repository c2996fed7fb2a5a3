ghost use Rattle.std.specs.Prelude.{◌≡◌, ◌<◌, [], OnOk, IfErr, MatchOption, length, map};
ghost use Rattle.etp_theory.specs.Proofs.{line_equation, cited_equation, named_equation, IsRightStep, AreRightSteps, AreRightLemmas};
ghost use Rattle.etp_term.specs.Terms.{tree_of};
ghost use Rattle.etp_term.specs.Laws.{equation_of};
ghost use Rattle.etp_proof.specs.Lemmas.{step_of, lemma_of};
ghost use Rattle.etp_replay.specs.Lines.{sides_of, cites_of, hypothesis_in, cites_in, earlier_in};
ghost use Rattle.etp_replay.specs.Replay.{IsMissing, IsFoundRefused, IsStepRefused, IsLemmaRefused, IsFirstWrong};

use crate::checking::{Sides, StepCheck, test_step};
use crate::refusal::ReplayRefusal;
use etp_match::Bindings;
use etp_proof::{Lemma, Step};
use etp_term::{Law, Term};
use sqlite_items::at;

/// What the steps of a lemma may name.
#[derive(Clone, Copy)]
struct Lines<'c, 'p> {
    hypothesis: &'p Law,
    cites: &'c [&'p Law],
    earlier: &'p [Lemma],
}

/// The number of a lemma, and that of a step in it.
#[derive(Clone, Copy)]
struct Place {
    lemma: u32,
    step: u32,
}

impl<'c, 'p> Lines<'c, 'p> {
    /// The equation that the step names, where there is one.
    fn named(&self, step: &Step) -> Option<Sides<'p>>
        ensures { MatchOption result (named_equation (hypothesis_in self.now) (cites_in self.now)
            (earlier_in self.now) (step_of step.now) ≡ None)
            (λ sides. named_equation (hypothesis_in self.now) (cites_in self.now)
            (earlier_in self.now) (step_of step.now) ≡ Some (sides_of sides)) }
    {
        if step.cited {
            return self.cited(step.line);
        }
        self.line(step.line)
    }

    fn cited(&self, number: u32) -> Option<Sides<'p>>
        ensures { MatchOption result (cited_equation (cites_in self.now) number ≡ None)
            (λ sides. cited_equation (cites_in self.now) number ≡ Some (sides_of sides)) }
    {
        if number == 0 {
            return None;
        }
        match at(self.cites, number as usize - 1) {
            None => None,
            Some(law) => Some(Sides::of(*law)),
        }
    }

    fn line(&self, number: u32) -> Option<Sides<'p>>
        ensures { MatchOption result (line_equation (hypothesis_in self.now)
            (earlier_in self.now) number ≡ None)
            (λ sides. line_equation (hypothesis_in self.now) (earlier_in self.now) number
            ≡ Some (sides_of sides)) }
    {
        if number == 0 {
            return Some(Sides::of(self.hypothesis));
        }
        match at(self.earlier, number as usize - 1) {
            None => None,
            Some(lemma) => Some(Sides::concluded(lemma)),
        }
    }

    fn replay_step(
        &self,
        place: Place,
        from: &'p Term,
        step: &'p Step,
        bindings: &mut Bindings<'p>,
    ) -> Result<(), ReplayRefusal>
        ensures ok { OnOk result (IsRightStep (hypothesis_in self.now) (cites_in self.now)
            (earlier_in self.now) (tree_of from.now) (step_of step.now)) }
        ensures err { IfErr result (λ r.
            IsStepRefused (hypothesis_in self.now) (cites_in self.now) (earlier_in self.now)
            (tree_of from.now) (step_of step.now) place.lemma place.step r) }
    {
        match self.named(step) {
            None => Err(missing(place, step)),
            Some(sides) => {
                let check = test_step(sides.read_as(step.reversed), from, step, bindings);
                outcome(place, check)
            }
        }
    }

    fn replay_lemma(
        &self,
        number: u32,
        lemma: &'p Lemma,
        bindings: &mut Bindings<'p>,
    ) -> Result<(), ReplayRefusal>
        ensures ok { OnOk result (AreRightSteps (hypothesis_in self.now) (cites_in self.now)
            (earlier_in self.now) (tree_of lemma.now.start) (map step_of lemma.now.steps)) }
        ensures err { IfErr result (λ r.
            IsLemmaRefused (hypothesis_in self.now) (cites_in self.now) (earlier_in self.now)
            (lemma_of lemma.now) number r) }
    {
        let mut from = &lemma.start;
        for (at, step) in lemma.steps.as_slice().iter().enumerate() {
            let place = Place {
                lemma: number,
                step: at as u32 + 1,
            };
            self.replay_step(place, from, step, bindings)?;
            from = &step.to;
        }
        Ok(())
    }
}

/// The refusal of a step that names no equation.
fn missing(place: Place, step: &Step) -> ReplayRefusal
    ensures { IsMissing place.lemma place.step (step_of step.now) result }
{
    let Place {
        lemma,
        step: number,
    } = place;
    if step.cited {
        ReplayRefusal::Citation {
            lemma,
            step: number,
            cite: step.line,
        }
    } else {
        ReplayRefusal::Reference {
            lemma,
            step: number,
            line: step.line,
        }
    }
}

/// The refusal of a step by what was found of it.
fn outcome(place: Place, check: StepCheck) -> Result<(), ReplayRefusal>
    ensures ok { OnOk result (check ≡ StepCheck.Right) }
    ensures err { IfErr result (λ r. IsFoundRefused place.lemma place.step check r) }
{
    let Place { lemma, step } = place;
    match check {
        StepCheck::Right => Ok(()),
        StepCheck::NoPlace => Err(ReplayRefusal::NoPlace { lemma, step }),
        StepCheck::OutsideChanged => Err(ReplayRefusal::OutsideChanged { lemma, step }),
        StepCheck::NoMatch => Err(ReplayRefusal::NoMatch { lemma, step }),
    }
}

/// Replays the lemmas in order, each over the conclusions of those before it.
pub(crate) fn replay_lemmas<'c, 'p>(
    hypothesis: &'p Law,
    cites: &'c [&'p Law],
    lemmas: &'p [Lemma],
    bindings: &mut Bindings<'p>,
) -> Result<(), ReplayRefusal>
    requires { length lemmas.now < 4294967296 }
    ensures ok { OnOk result (AreRightLemmas (equation_of hypothesis.now) (cites_of cites.now) []
        (map lemma_of lemmas.now)) }
    ensures err { IfErr result (λ r.
        IsFirstWrong (equation_of hypothesis.now) (cites_of cites.now)
        (map lemma_of lemmas.now) r) }
{
    for (at, lemma) in lemmas.iter().enumerate() {
        let lines = Lines {
            hypothesis,
            cites,
            earlier: &lemmas[..at],
        };
        lines.replay_lemma(at as u32 + 1, lemma, bindings)?;
    }
    Ok(())
}
