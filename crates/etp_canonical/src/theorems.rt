// What holds of all rules and claims.
ghost use Rattle.etp_canonical.specs.Theorems.{CanonicalTheorems};

/// Claims are judged right or have one first offence.
pub fn canonical_theorems()
    ensures { CanonicalTheorems }
{}
