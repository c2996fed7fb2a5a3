// How a completion ends.
use etp_items::RulesBody;
use etp_rules::RuleList;
use etp_term::{Position, Term};

/// What has two sides that are to be joined.
#[derive(Drop)]
pub enum Origin {
    /// The law of this number.
    Law(u32),
    /// The overlap of two rules, which are numbered from 1, at a position of the outer rule's left
    /// side.
    Pair {
        outer: u32,
        position: Position,
        inner: u32,
    },
}

/// How a completion ends.
#[derive(Drop)]
pub enum Completed {
    /// The rules are convergent and the target's sides have two normal forms: the rules, the law as
    /// the one that holds, and the target as the one that fails.
    Done(RulesBody),
    /// The rules are convergent and both sides of the target have this normal form.
    Joined {
        rules: RuleList,
        form: Term,
    },
    /// The first weight out of range: 0, 1, 2 for what counts the left part, the right part, and
    /// what is added.
    WeightRange {
        which: u8,
    },
    /// Neither of the two normal forms is above the other.
    Unorientable {
        origin: Origin,
        left: Term,
        right: Term,
    },
    /// One of the two normal forms has more than 12 operations.
    SideTooLarge {
        origin: Origin,
        left: Term,
        right: Term,
    },
    /// The walk of the left side, else that of the right side, comes to a term of more than 512
    /// leaves.
    TermLimit {
        origin: Origin,
    },
    /// The walk of the left side, else that of the right side, has more than 100000 steps.
    StepLimit {
        origin: Origin,
    },
    /// There are 64 rules and one more is wanted.
    Budget {
        origin: Origin,
    },
}
