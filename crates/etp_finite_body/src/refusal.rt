use etp_reading::BodyRefusal;
use thiserror::Error;

/// Why lines aren't a body about finite magmas.
#[derive(Clone, Copy, Debug, PartialEq, Eq, Error)]
pub enum FiniteBodyRefusal {
    /// They begin a rule system, or a linear magma over the integers, which have no finite carrier.
    #[error("infinite")]
    Infinite,
    /// Their form, or a law number that isn't listed.
    #[error("no body")]
    Body(BodyRefusal),
}
