// What holds of all finite magmas, and one proof that cancels.
ghost use Rattle.etp_cancel.specs.Examples.{CancelExamples};
ghost use Rattle.etp_cancel.specs.Theorems.{CancelTheorems};

/// A map of a finite carrier into itself that has a left inverse is one to one, so it takes every
/// value: what a proof that cancels concludes holds in every finite magma of its hypothesis.
pub fn cancel_theorems()
    ensures { CancelTheorems }
{}

/// A proof of one line, and lines that are wrong.
pub fn cancel_examples()
    ensures { CancelExamples }
{}
