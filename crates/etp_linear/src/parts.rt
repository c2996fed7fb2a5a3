/// What the values of a linear magma are.
#[derive(Clone, Copy, Debug)]
pub enum Ring {
    /// The integers.
    Integers,
    /// 0 to the number less one, with sums and products modulo the number.
    Modulo(u32),
}

/// What is out of range.
#[derive(Clone, Copy, Debug)]
pub enum Which {
    Modulus,
    A,
    B,
    C,
}

/// The linear form of a term: place i has the coefficient of variable i.
#[derive(Clone, Copy, Debug)]
pub struct Form {
    pub coefficients: [i128; 8],
    pub constant: i128,
}

/// A failing assignment, with the values of both sides.
#[derive(Clone, Copy, Debug)]
pub struct LinearFailure {
    /// The variable that is 1 while all others are 0; None where all are 0.
    pub variable: Option<u8>,
    pub left: i128,
    pub right: i128,
}
