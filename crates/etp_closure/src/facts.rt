use etp_bits::Numbers;

/// What one file says about laws by their numbers.
#[derive(Drop)]
pub enum Fact {
    /// The hypothesis implies the goal, and the dual of the one the dual of the other.
    Implies { hypothesis: u32, goal: u32 },
    /// No law of `holds` implies a law of `fails`, and so for their duals.
    Refutes { holds: Numbers, fails: Numbers },
}

/// What a list of facts says of a pair of laws.
#[derive(Clone, Copy, Debug, PartialEq, Eq)]
pub enum Answer {
    /// The second law is reached from the first.
    Implied,
    /// It isn't reached, and some refuting pair covers the pair.
    Refuted,
    /// Neither.
    Unsettled,
}

/// How many laws have an answer as the second of a pair, for one law as the first.
#[derive(Clone, Copy, Debug, PartialEq, Eq)]
pub struct RowCounts {
    pub implied: u32,
    pub refuted: u32,
}
