use thiserror::Error;

/// Why lines aren't a body: a fault of their form, the first by line; else the first law number
/// that isn't listed. Lines count from 1.
#[derive(Clone, Copy, Debug, PartialEq, Eq, Error)]
pub enum BodyRefusal {
    /// The line has more than 4096 bytes, or isn't blank and can't stand in its place.
    #[error("bad line {line}")]
    BadLine { line: u32 },
    /// The number isn't that of a listed law.
    #[error("unknown law {number} in line {line}")]
    UnknownLaw { line: u32, number: u32 },
    /// There are more than 200000 lines; the line is the first one too many.
    #[error("too many lines")]
    TooManyLines { line: u32 },
    /// The lines end before the body does, or aren't closed; the line is the one behind the last.
    #[error("unfinished at {line}")]
    Unfinished { line: u32 },
}
