ghost use Rattle.std.specs.Prelude.{◌≡◌};
ghost use Rattle.etp_closure.specs.Facts.{fact_of};
ghost use Rattle.etp_finite_body.specs.FiniteBodies.{finite_body_of};
ghost use Rattle.etp_finite_check.specs.FiniteChecks.{fact_said};

use etp_closure::Fact;
use etp_finite_body::FiniteBody;
use indexmap::IndexMap;

/// A body that was accepted, with the fact that it states.
#[derive(Drop)]
pub(crate) struct Kept {
    pub(crate) body: FiniteBody,
    pub(crate) fact: Fact,
    ghost said: { fact_of fact ≡ fact_said (finite_body_of body) },
}

/// The files that stand, by name and in order.
pub(crate) type Files = IndexMap<Vec<u8>, Kept>;
