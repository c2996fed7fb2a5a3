use etp_bits::Numbers;
use etp_linear::Ring;
use etp_proof::Proof;
use etp_rules::RuleList;

/// What the lines of a file say.
#[derive(Drop)]
pub enum Body {
    /// A proof of one law from another by rewriting.
    Proof(Proof),
    /// An operation table that is to be a model of laws.
    Table(TableBody),
    /// A linear magma that is to be a model of laws.
    Linear(LinearBody),
    /// A matrix-linear magma that is to be a model of laws.
    Matrix(MatrixBody),
    /// A rule system whose normal forms are to be a model of laws.
    Rules(RulesBody),
}

/// An operation table, its entries row by row, and what it is to show.
#[derive(Drop)]
pub struct TableBody {
    pub size: u8,
    pub entries: Numbers,
    pub claims: Claims,
}

/// A linear magma, x ◇ y = a x + b y + c, and what it is to show. No number is in a range yet.
#[derive(Drop)]
pub struct LinearBody {
    pub ring: Ring,
    pub a: i64,
    pub b: i64,
    pub c: i64,
    pub claims: Claims,
}

/// A matrix-linear magma, x ◇ y = A x + B y + c over vectors of `size` numbers modulo the modulus, the
/// matrices row by row, and what it is to show. No number is in a range yet.
#[derive(Drop)]
pub struct MatrixBody {
    pub modulus: u32,
    pub size: u8,
    pub a: Numbers,
    pub b: Numbers,
    pub c: Numbers,
    pub claims: Claims,
}

/// A rule system, the weight that its rules are to lower, and what it is to show. The weight is in no
/// range yet.
#[derive(Drop)]
pub struct RulesBody {
    /// How often the left part counts, how often the right part counts, and how much is added.
    pub weight: [u32; 3],
    pub rules: RuleList,
    pub claims: Claims,
}

/// The numbers of the laws that are to hold in a magma, and of those that are to fail there.
#[derive(Drop)]
pub struct Claims {
    pub holds: Numbers,
    pub fails: Numbers,
}
