// What a lemma concludes.
ghost use Rattle.std.specs.Prelude.{◌≡◌, IfOk};
ghost use Rattle.etp_term.specs.Laws.{equation_of};
ghost use Rattle.etp_cancel.specs.Cancelling.{finite_conclusion};
ghost use Rattle.etp_finite_body.specs.FiniteBodies.{finite_lemma_of};

use crate::putting::put_for;
use etp_finite_body::FiniteLemma;
use etp_term::{Law, NoMemory, Term};
use std::alloc::Global;

/// What the lemma concludes: its start and its last term, or the outer term put for the variable in
/// the inner one, and the variable.
pub fn conclusion(alloc: Global, lemma: &FiniteLemma) -> Result<Law, NoMemory>
    ensures { IfOk result (λ law. equation_of law
        ≡ finite_conclusion (finite_lemma_of lemma.now)) }
{
    match lemma {
        FiniteLemma::Steps(lemma) => lemma.conclusion(alloc),
        FiniteLemma::Cancel {
            variable,
            outer,
            inner,
            ..
        } => Ok(Law {
            left: put_for(alloc, *variable, outer, inner)?,
            right: Term::Var(*variable),
        }),
    }
}
