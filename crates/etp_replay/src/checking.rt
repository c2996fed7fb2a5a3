ghost use Rattle.std.specs.Prelude.{◌≡◌, ◌↔◌, IsTrue, IsSome, IfOk};
ghost use Rattle.etp_theory.specs.Positions.{sub_at};
ghost use Rattle.etp_theory.specs.Proofs.{AgreeOutside, as_read, conclusion};
ghost use Rattle.etp_term.specs.Terms.{tree_of};
ghost use Rattle.etp_term.specs.Laws.{equation_of};
ghost use Rattle.etp_term.specs.Positions.{position_of};
ghost use Rattle.etp_proof.specs.Lemmas.{lemma_of};
ghost use Rattle.etp_replay.specs.Lines.{sides_of};
ghost use Rattle.etp_replay.specs.Steps.{IsStepCheck};

use etp_match::Bindings;
use etp_proof::{Lemma, Step};
use etp_term::{Law, NoMemory, Side, Term};
use std::alloc::Global;

/// Whether a step is right; else the first of the three tests that fails.
#[derive(Clone, Copy)]
pub enum StepCheck {
    /// It is right.
    Right,
    /// The position isn't in both terms.
    NoPlace,
    /// The terms differ outside the position.
    OutsideChanged,
    /// No substitution takes the equation's sides to the two subterms.
    NoMatch,
}

/// The two sides of an equation.
#[derive(Clone, Copy)]
pub(crate) struct Sides<'p> {
    pub(crate) left: &'p Term,
    pub(crate) right: &'p Term,
}

impl<'p> Sides<'p> {
    pub(crate) fn of(law: &'p Law) -> Sides<'p>
        ensures { sides_of result ≡ equation_of law.now }
    {
        Sides {
            left: &law.left,
            right: &law.right,
        }
    }

    /// The sides of the lemma's conclusion.
    pub(crate) fn concluded(lemma: &'p Lemma) -> Sides<'p>
        ensures { sides_of result ≡ conclusion (lemma_of lemma.now) }
    {
        Sides {
            left: &lemma.start,
            right: lemma.last_term(),
        }
    }

    /// The sides from left to right, or from right to left where they are `reversed`.
    pub(crate) fn read_as(self, reversed: bool) -> Sides<'p>
        ensures { sides_of result ≡ as_read reversed (sides_of self.entry) }
    {
        if reversed {
            return Sides {
                left: self.right,
                right: self.left,
            };
        }
        self
    }
}

/// Whether the step from a term is right by this equation; its line isn't looked at.
pub fn check_step<'p>(
    alloc: Global,
    from: &'p Term,
    equation: &Law,
    step: &'p Step,
) -> Result<StepCheck, NoMemory>
    ensures { IfOk result
        (λ c. IsStepCheck (as_read step.now.reversed (equation_of equation.now))
        (position_of step.now.position) (tree_of from.now) (tree_of step.now.to) c) }
{
    let mut bindings = Bindings::empty(alloc)?;
    let sides = Sides::of(equation).read_as(step.reversed);
    Ok(test_step(sides, from, step, &mut bindings))
}

/// Whether the step is right by the equation as it reads it. What is bound before doesn't count.
pub(crate) fn test_step<'p>(
    sides: Sides,
    from: &'p Term,
    step: &'p Step,
    bindings: &mut Bindings<'p>,
) -> StepCheck
    ensures { IsStepCheck (sides_of sides.entry) (position_of step.now.position) (tree_of from.now)
        (tree_of step.now.to) result }
{
    match (from.at(&step.position), step.to.at(&step.position)) {
        (Some(before), Some(after)) => {
            if !agree_outside(from, &step.to, step.position.as_slice()) {
                return StepCheck::OutsideChanged;
            }
            bindings.clear();
            if !bindings.matches(sides.left, before) {
                return StepCheck::NoMatch;
            }
            if !bindings.matches(sides.right, after) {
                return StepCheck::NoMatch;
            }
            StepCheck::Right
        }
        _ => StepCheck::NoPlace,
    }
}

/// Whether both terms agree outside a position that both have.
fn agree_outside(from: &Term, to: &Term, sides: &[Side]) -> bool
    ensures { IsSome (sub_at (position_of sides.now) (tree_of from.now))
        → IsSome (sub_at (position_of sides.now) (tree_of to.now))
        → (IsTrue result ↔ AgreeOutside (position_of sides.now) (tree_of from.now)
        (tree_of to.now)) }
{
    match sides.split_first() {
        None => true,
        Some((side, rest)) => match (from, to, side) {
            (Term::Op(a, b), Term::Op(c, d), Side::L) => agree_outside(a.get(), c.get(), rest)
                && b.get().same_term(d.get()),
            (Term::Op(a, b), Term::Op(c, d), Side::R) => agree_outside(b.get(), d.get(), rest)
                && a.get().same_term(c.get()),
            _ => false,
        },
    }
}
