// The claims that lines make.
ghost use Rattle.std.specs.Prelude.{◌≡◌, IfOk, OnErr};
ghost use Rattle.etp_lines.specs.Said.{claim_line_of};
ghost use Rattle.etp_items.specs.Work.{OpensClaims, TakesInClaims};

use crate::body::Claims;
use etp_bits::Numbers;
use etp_lines::ClaimLine;
use etp_term::NoMemory;
use std::alloc::Global;

/// Claims as far as their lines have been read.
#[derive(Drop)]
pub(crate) struct ClaimsWork {
    /// Whether a line with laws that are to fail stands.
    pub failing: bool,
    pub claims: Claims,
}

impl ClaimsWork {
    /// Claims with their first line, which is to have laws that hold.
    pub(crate) fn open(alloc: Global, said: ClaimLine) -> Option<ClaimsWork>
        ensures { OpensClaims (claim_line_of said) result }
    {
        match said {
            ClaimLine::Holds(holds) => Some(ClaimsWork {
                failing: false,
                claims: Claims {
                    holds,
                    fails: Numbers::empty(alloc),
                },
            }),
            ClaimLine::Fails(_) => None,
        }
    }

    /// Takes what the next line says, where that may stand.
    pub(crate) fn take(&mut self, said: ClaimLine) -> Result<bool, NoMemory>
        ensures ok { IfOk result (TakesInClaims self.old (claim_line_of said) self.new) }
        ensures err { OnErr result (self.new ≡ self.old) }
    {
        match said {
            ClaimLine::Holds(holds) => {
                if self.failing {
                    return Ok(false);
                }
                self.claims.holds.append(holds.as_slice())?;
            }
            ClaimLine::Fails(fails) => {
                self.claims.fails.append(fails.as_slice())?;
                self.failing = true;
            }
        }
        Ok(true)
    }
}
