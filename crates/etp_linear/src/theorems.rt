ghost use Rattle.etp_linear.specs.Theorems.{LinearTheorems};

/// A law holds in a linear magma exactly where its sides have one form; laws are judged in one way.
pub fn linear_theorems()
    ensures { LinearTheorems }
{}
