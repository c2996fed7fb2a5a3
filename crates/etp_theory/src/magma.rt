//! Magmas that a program has as values, and what holds in them.
ghost use Rattle.std.specs.Prelude.{◌≡◌, Bool, IsTrue};
ghost use Rattle.etp_theory.specs.Trees.{Equation};
ghost use Rattle.etp_theory.specs.Derivations.{Derives};
ghost use Rattle.etp_theory.specs.Magmas.{IsClosed, Holds};

/// A set with one binary operation: a test of the carrier, and an operation that stays in it.
pub trait Magma {
    /// The values that the test and the operation speak of.
    type Value;

    /// Whether the value belongs to the carrier.
    ghost inside: { Self → Self.Value → Bool };

    /// The operation.
    ghost times: { Self → Self.Value → Self.Value → Self.Value };

    /// The operation stays in the carrier.
    ghost closed: { (m : Self) → IsClosed (inside m) (times m) };

    /// What is derived from a law that holds holds too; the lemma `sound` of `specs/Sound.antt`
    /// gives it from `closed`.
    ghost sound: { (m : Self) (e f : Equation) → Holds (inside m) (times m) e.left e.right
        → Derives e f → Holds (inside m) (times m) f.left f.right };
}

/// What is derived from a law that holds in the magma holds there too.
pub fn keeps_derived<M: Magma>(magma: &M)
    ensures { (e f : Equation) → Holds (M.inside magma.now) (M.times magma.now) e.left e.right
        → Derives e f → Holds (M.inside magma.now) (M.times magma.now) f.left f.right }
{}
