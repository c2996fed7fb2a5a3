// What holds of all completions.
ghost use Rattle.etp_completed.specs.Theorems.{CompletionTheorems};
ghost use Rattle.etp_completed.specs.Acceptance.{AcceptanceTheorems};

/// A problem has one answer, and each rule to which its rounds come is derived.
pub fn completion_theorems()
    ensures { CompletionTheorems }
{}

/// The body that a completion ends with is valid, so its check refuses it for want of memory alone.
pub fn acceptance_theorems()
    ensures { AcceptanceTheorems }
{}
