ghost use Rattle.std.specs.Prelude.{◌≡◌, ◌≢◌, ◌⊎◌};
ghost use Rattle.etp_check.specs.declared.refusal.CheckRefusal.TheVariants.{NoMemory};
ghost use Rattle.etp_check.specs.Claimed.{claim_refused};

use etp_canonical::ClaimRefusal;
use etp_linear::LinearRefusal;
use etp_matrix::MatrixRefusal;
use etp_pairs::PairsRefusal;
use etp_replay::ReplayRefusal;
use etp_rules::RulesRefusal;
use etp_table::TableRefusal;
use etp_term::Term;
use std::alloc::AllocError;
use std::fmt;
use thiserror::Error;

/// Why a body is refused. What is said of one law is said of a rule system's, law by law, those that
/// are to hold first, and the walk of the left side before that of the right.
#[derive(Drop, Error)]
pub enum CheckRefusal {
    /// The first offence of a proof; it is never want of memory.
    #[error("the proof isn't valid")]
    Replay(ReplayRefusal),
    /// The first offence of a table and its claims; it is never want of memory.
    #[error("the table isn't valid")]
    Table(TableRefusal),
    /// The first offence of a linear magma and its claims.
    #[error("the linear magma isn't valid")]
    Linear(LinearRefusal),
    /// The first offence of a matrix-linear magma and its claims.
    #[error("the matrix-linear magma isn't valid")]
    Matrix(MatrixRefusal),
    /// The first offence of a weight and its rules.
    #[error("the rules aren't allowed")]
    Rules(RulesRefusal),
    /// The first critical pair that doesn't join; it is never want of memory.
    #[error("the rules aren't convergent")]
    Pairs(PairsRefusal),
    /// The sides of a law that is to hold have these two normal forms.
    #[error("law {law} is to hold and fails")]
    HoldsFails {
        law: u32,
        left_form: Term,
        right_form: Term,
    },
    /// Both sides of a law that is to fail have this normal form.
    #[error("law {law} is to fail and holds")]
    FailsHolds {
        law: u32,
        form: Term,
    },
    /// The walk of a side of the law comes to a term of more than 512 leaves.
    #[error("a side of law {law} passes the term limit")]
    TermLimit {
        law: u32,
    },
    /// The walk of a side of the law has more than 100000 steps.
    #[error("a side of law {law} passes the step limit")]
    StepLimit {
        law: u32,
    },
    /// Want of memory.
    #[error("out of memory")]
    NoMemory,
}

impl fmt::Debug for CheckRefusal {
    fn fmt<W: fmt::Write>(&self, f: &mut fmt::Formatter<W>) -> fmt::Result {
        fmt::Display::fmt(self, f)
    }
}

impl From<AllocError> for CheckRefusal {
    ghost from_gives = { λ _ e. e ≡ NoMemory };

    fn from(_error: AllocError) -> CheckRefusal {
        CheckRefusal::NoMemory
    }
}

impl CheckRefusal {
    // Want of memory is always the outermost refusal.
    pub(crate) fn of(refusal: ReplayRefusal) -> CheckRefusal
        ensures { ((result ≡ CheckRefusal.NoMemory) × (refusal ≡ ReplayRefusal.NoMemory))
            ⊎ ((result ≡ CheckRefusal.Replay refusal) × (refusal ≢ ReplayRefusal.NoMemory)) }
    {
        match refusal {
            ReplayRefusal::NoMemory => CheckRefusal::NoMemory,
            offence => CheckRefusal::Replay(offence),
        }
    }

    pub(crate) fn of_table(refusal: TableRefusal) -> CheckRefusal
        ensures { ((result ≡ CheckRefusal.NoMemory) × (refusal ≡ TableRefusal.NoMemory))
            ⊎ ((result ≡ CheckRefusal.Table refusal) × (refusal ≢ TableRefusal.NoMemory)) }
    {
        match refusal {
            TableRefusal::NoMemory => CheckRefusal::NoMemory,
            offence => CheckRefusal::Table(offence),
        }
    }

    pub(crate) fn of_pairs(refusal: PairsRefusal) -> CheckRefusal
        ensures { ((result ≡ CheckRefusal.NoMemory) × (refusal ≡ PairsRefusal.NoMemory))
            ⊎ ((result ≡ CheckRefusal.Pairs refusal) × (refusal ≢ PairsRefusal.NoMemory)) }
    {
        match refusal {
            PairsRefusal::NoMemory => CheckRefusal::NoMemory,
            offence => CheckRefusal::Pairs(offence),
        }
    }

    pub(crate) fn of_claim(refusal: ClaimRefusal) -> CheckRefusal
        ensures { result ≡ claim_refused refusal }
    {
        match refusal {
            ClaimRefusal::HoldsFails {
                law,
                left_form,
                right_form,
            } => CheckRefusal::HoldsFails {
                law,
                left_form,
                right_form,
            },
            ClaimRefusal::FailsHolds { law, form } => CheckRefusal::FailsHolds { law, form },
            ClaimRefusal::TermLimit { law } => CheckRefusal::TermLimit { law },
            ClaimRefusal::StepLimit { law } => CheckRefusal::StepLimit { law },
            ClaimRefusal::NoMemory => CheckRefusal::NoMemory,
        }
    }
}
