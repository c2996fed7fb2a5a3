ghost use Rattle.std.specs.Prelude.{◌≡◌, ◌↔◌, IsTrue, ◌≢◌, ◌+ℤ◌, ◌*ℤ◌, ◌+◌, ◌%◌, ◌<◌, ◌^◌};
ghost use Rattle.etp_linear.specs.Magmas.{inside, reduced, IsCoefficient};
ghost use Rattle.etp_linear.specs.Values.{one};
ghost use Rattle.etp_linear.specs.Walks.{CanAdd, CanMultiply};
ghost use Rattle.etp_linear.specs.declared.parts.Ring.TheVariants.{Modulo};

use crate::parts::Ring;

impl Ring {
    /// Whether the number may be a coefficient.
    pub(crate) fn allows(self, value: i64) -> bool
        requires { self ≢ Modulo 0 }
        ensures { IsTrue result ↔ IsCoefficient self value }
    {
        match self {
            Ring::Integers => -1000000 <= value && value <= 1000000,
            Ring::Modulo(m) => 0 <= value && value < m as i64,
        }
    }

    /// The number one, which is 0 modulo 1.
    pub(crate) fn one(self) -> i128
        requires { self ≢ Modulo 0 }
        ensures { result ≡ one self }
    {
        match self {
            Ring::Integers => 1,
            Ring::Modulo(m) => if m == 1 { 0 } else { 1 },
        }
    }

    /// The sum.
    pub(crate) fn plus(self, x: i128, y: i128) -> i128
        requires { CanAdd self x y }
        ensures { result ≡ reduced self (x +ℤ y) }
    {
        match self {
            Ring::Integers => x + y,
            Ring::Modulo(m) => sum_below(x as u64, y as u64, m as u64) as i128,
        }
    }

    /// The product.
    pub(crate) fn times(self, x: i128, y: i128) -> i128
        requires { CanMultiply self x y }
        ensures { result ≡ reduced self (x *ℤ y) }
    {
        match self {
            Ring::Integers => x * y,
            Ring::Modulo(m) => ((x as u64 * y as u64) % m as u64) as i128,
        }
    }
}

/// The sum of two numbers below the modulus, modulo it.
fn sum_below(x: u64, y: u64, modulus: u64) -> u64
    requires small { modulus < 2 ^ 32 }
    requires x_below { x < modulus }
    requires y_below { y < modulus }
    ensures { result ≡ (x + y) % modulus }
{
    let sum = x + y;
    if sum < modulus { sum } else { sum - modulus }
}
