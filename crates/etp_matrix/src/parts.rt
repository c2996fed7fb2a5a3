/// Which of the matrices A and B and the vector c.
#[derive(Clone, Copy, Debug)]
pub enum Part {
    A,
    B,
    C,
}

/// A failing assignment, with the values of both sides.
#[derive(Clone, Copy, Debug)]
pub struct MatrixFailure {
    /// The variable that is a unit vector while all others are zero, and the place of its 1; None where
    /// all are zero.
    pub at: Option<(u8, u8)>,
    /// With 0 past the size.
    pub left: [u32; 4],
    /// With 0 past the size.
    pub right: [u32; 4],
}

/// A vector, with 0 past the size.
pub(crate) type Vector = [u32; 4];

/// A matrix, column by column.
pub(crate) type Columns = [Vector; 4];

/// A matrix for each variable: place i has that of variable i.
pub(crate) type Matrices = [Columns; 8];
