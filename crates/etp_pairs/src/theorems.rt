// What holds of all rules and their critical pairs.
ghost use Rattle.etp_pairs.specs.Theorems.{PairsTheorems};

/// A place has one critical pair at most. A convergent system isn't refused, and any other one has
/// one refusal.
pub fn pairs_theorems()
    ensures { PairsTheorems }
{}
