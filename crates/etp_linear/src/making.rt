ghost use Rattle.std.specs.Prelude.{◌≡◌, IfOk, IfErr};
ghost use Rattle.etp_linear.specs.Magmas.{IsLinearMagma};
ghost use Rattle.etp_linear.specs.Linears.{magma_of};
ghost use Rattle.etp_linear.specs.Judgements.{IsOutOfRange};

use crate::linear::Linear;
use crate::parts::{Ring, Which};
use crate::refusal::LinearRefusal;

impl Linear {
    /// The magma with these coefficients.
    pub fn of(ring: Ring, a: i64, b: i64, c: i64) -> Result<Linear, LinearRefusal>
        ensures ok { IfOk result (λ linear. magma_of linear ≡ record { ring = ring; a = a; b = b; c = c }) }
        ensures in_range { IfOk result (λ linear. IsLinearMagma (magma_of linear)) }
        ensures err { IfErr result (λ r. IsOutOfRange (record { ring = ring; a = a; b = b; c = c }) r) }
    {
        if let Ring::Modulo(0) = ring {
            return Err(out_of_range(Which::Modulus, 0));
        }
        if !ring.allows(a) {
            return Err(out_of_range(Which::A, a));
        }
        if !ring.allows(b) {
            return Err(out_of_range(Which::B, b));
        }
        if !ring.allows(c) {
            return Err(out_of_range(Which::C, c));
        }
        Ok(Linear { ring, a, b, c })
    }
}

fn out_of_range(which: Which, value: i64) -> LinearRefusal
    ensures { result ≡ LinearRefusal.Coefficient which value }
{
    LinearRefusal::Coefficient { which, value }
}
