ghost use Rattle.etp_linear.specs.Magmas.{inside as belongs, times as product};
ghost use Rattle.etp_linear.specs.Linears.{magma_of};
ghost use Rattle.etp_linear.specs.Sound.{stays, keeps};

use crate::linear::Linear;
use etp_theory::Magma;

impl Magma for Linear {
    type Value = i128;

    ghost inside = { λ m. belongs (magma_of m).ring };

    ghost times = { λ m. product (magma_of m) };

    ghost closed = { stays };

    ghost sound = { keeps };
}
