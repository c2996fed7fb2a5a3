ghost use Rattle.std.specs.Prelude.{ℕ, ◌≡◌, ◌≤◌, ◌*◌, take, slice_index};
ghost use Rattle.etp_matrix.specs.Magmas.{IsMatrixMagma};

/// A matrix-linear magma: x ◇ y = A x + B y + c, where x, y and c are vectors of numbers modulo a number.
#[derive(Clone, Copy, Debug)]
pub struct MatrixLinear {
    pub(crate) modulus: u32,
    pub(crate) size: u8,
    /// Row by row, with as many numbers to a row as the size says.
    pub(crate) a: [u32; 16],
    pub(crate) b: [u32; 16],
    pub(crate) c: [u32; 4],
    ghost in_range: { IsMatrixMagma
        (record {
          modulus = modulus;
          size = size;
          a = take (size * size) a;
          b = take (size * size) b;
          c = take size c;
        }) },
    ghost past_size: { (i : ℕ) → size ≤ i → slice_index c i ≡ 0 },
}
