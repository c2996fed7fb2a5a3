ghost use Rattle.etp_check.specs.WrittenBodies.{WrittenTheorems};

/// A right body that was read is written in short lines, and these, read again, are the body.
pub fn written_theorems()
    ensures { WrittenTheorems }
{}
