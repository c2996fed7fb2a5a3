/// An assignment: the values of the variables 0, 1 and so on. Places past the variables are 0 in the
/// points that this crate makes.
#[derive(Clone, Copy, Debug)]
pub struct Point {
    pub values: [u8; 8],
    pub variables: u8,
}

/// What was found of a law in a table.
#[derive(Clone, Copy, Debug)]
pub enum Verdict {
    /// None of the assignments that were looked at fails.
    Holds { looked_at: u64 },
    /// The first failing assignment, with the values of both sides there.
    Fails { point: Point, left: u8, right: u8 },
}
