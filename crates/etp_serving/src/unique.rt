// A session has one text.
ghost use Rattle.std.specs.Prelude.{◌≡◌, ℕ, List, Bool, Some};
ghost use Rattle.std.specs.declared.option.Option.{Option};
ghost use Rattle.etp_reply.specs.Shelves.{known};
ghost use Rattle.etp_serving.specs.Protocols.{ledger_protocol};
ghost use Rattle.etp_serving.specs.Sessions.{IsSession};

/// A session over bytes and a shelf that tells what it keeps has one text: two texts that it may
/// have are equal, and both have a refusal line or neither has.
pub fn one_text()
    ensures { (limit : ℕ) (kept : List ℕ → Option (List ℕ)) (bytes text other : List ℕ)
        (refused also : Bool)
        → IsSession (ledger_protocol (known limit (Some kept))) bytes text refused
        → IsSession (ledger_protocol (known limit (Some kept))) bytes other also
        → (text ≡ other) × (refused ≡ also) }
{}
