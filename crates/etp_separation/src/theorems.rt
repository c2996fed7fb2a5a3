// Facts about finite magmas.
ghost use Rattle.etp_separation.specs.Theorems.{SeparationTheorems};

/// A valid proof implies its goal in every finite magma. A table, and a linear magma with a modulus,
/// separate each law that holds there from each law that fails.
pub fn separation_theorems()
    ensures { SeparationTheorems }
{}
