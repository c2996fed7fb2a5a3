// A magma and its claims, as far as their lines have been read.
ghost use Rattle.std.specs.Prelude.{◌≡◌, None, IfOk, OnErr};
ghost use Rattle.std.specs.Option.{option_map};
ghost use Rattle.etp_items.specs.Bodies.{body_of};
ghost use Rattle.etp_lines.specs.BodyLines.{claim_line};
ghost use Rattle.etp_lines.specs.Said.{line_of, claim_line_of};
ghost use Rattle.etp_items.specs.Work.{Takes, IsWhole};
ghost use Rattle.etp_items.specs.declared.work.Work.TheVariants as Works;

use crate::body::Body;
use crate::claims::work::ClaimsWork;
use crate::magma::MagmaWork;
use etp_lines::{ClaimLine, Line};
use etp_term::NoMemory;
use std::alloc::Global;

/// A magma and its claims, as far as their lines have been read.
#[derive(Drop)]
pub(crate) struct ModelWork {
    pub magma: MagmaWork,
    pub claims: Option<ClaimsWork>,
}

impl ModelWork {
    /// Takes what the next line says, where that may stand.
    pub(crate) fn take(&mut self, alloc: Global, said: Line) -> Result<bool, NoMemory>
        ensures ok { IfOk result (Takes (Works.Model self.old) (line_of said) (Works.Model self.new)) }
        ensures err { OnErr result (self.new ≡ self.old) }
    {
        match said {
            Line::Proof(_) | Line::Table(_) | Line::Linear(_) | Line::Matrix(_) | Line::Rules(_) =>
                {
                    if self.claims.is_some() {
                        return Ok(false);
                    }
                    self.magma.take(said)
                }
            Line::Claim(said) => match &mut self.claims {
                Some(claims) => claims.take(said),
                None => Ok(self.open_claims(alloc, said)),
            },
        }
    }

    /// Takes the first claim, where the magma is told.
    fn open_claims(&mut self, alloc: Global, said: ClaimLine) -> bool
        requires { self.old.claims ≡ None }
        ensures { Takes (Works.Model self.old) (claim_line (claim_line_of said)) (Works.Model self.new) result }
    {
        if !self.magma.is_told() {
            return false;
        }
        self.claims = ClaimsWork::open(alloc, said);
        self.claims.is_some()
    }

    /// The body, where laws are to fail.
    pub(crate) fn into_body(self) -> Option<Body>
        ensures { IsWhole (Works.Model self) (option_map body_of result) }
    {
        let ModelWork { magma, claims } = self;
        let claims = claims?;
        if !claims.failing {
            return None;
        }
        Some(magma.into_body(claims.claims))
    }
}
