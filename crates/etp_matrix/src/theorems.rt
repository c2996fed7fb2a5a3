ghost use Rattle.etp_matrix.specs.Theorems.{MatrixTheorems};

/// A law holds in a matrix-linear magma exactly where its sides have one form; laws are judged in one way.
pub fn matrix_theorems()
    ensures { MatrixTheorems }
{}
