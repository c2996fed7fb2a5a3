//! The printed ledger, read as a session, gives the same files.
#![tactic(auto)]

ghost use Rattle.etp_printed.specs.Printed.{PrintedTheorems};

/// What stands in a session stands again after the session that its printed ledger is.
pub fn printed_theorems()
    ensures { PrintedTheorems }
{}
