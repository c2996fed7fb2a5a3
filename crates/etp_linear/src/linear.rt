ghost use Rattle.etp_linear.specs.Magmas.{IsLinearMagma};

use crate::parts::Ring;

/// A linear magma: x ◇ y = a x + b y + c.
#[derive(Clone, Copy, Debug)]
pub struct Linear {
    pub(crate) ring: Ring,
    pub(crate) a: i64,
    pub(crate) b: i64,
    pub(crate) c: i64,
    ghost in_range: { IsLinearMagma (record { ring = ring; a = a; b = b; c = c }) },
}
