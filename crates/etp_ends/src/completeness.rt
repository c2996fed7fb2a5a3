// Valid files are accepted.
ghost use Rattle.etp_ends.specs.Completeness.{CompletenessTheorems};

/// A valid file with a free name has no other reply than that it is accepted. So where the text of a
/// session is written to its end, such a file is accepted in it.
pub fn completeness_theorems()
    ensures { CompletenessTheorems }
{}
