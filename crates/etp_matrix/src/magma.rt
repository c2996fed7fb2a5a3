ghost use Rattle.etp_matrix.specs.Magmas.{inside as belongs, times as operation};
ghost use Rattle.etp_matrix.specs.Linears.{magma_of};
ghost use Rattle.etp_matrix.specs.Sound.{stays, keeps};

use crate::matrix_linear::MatrixLinear;
use etp_theory::Magma;

impl Magma for MatrixLinear {
    type Value = [u32; 4];

    ghost inside = { λ m. belongs (magma_of m) };

    ghost times = { λ m. operation (magma_of m) };

    ghost closed = { stays };

    ghost sound = { keeps };
}
