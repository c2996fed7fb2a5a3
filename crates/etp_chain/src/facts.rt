ghost use Rattle.std.specs.Prelude.{◌≡◌, List, length, slice_get};
ghost use Rattle.std.specs.Option.{option_map};
ghost use Rattle.etp_theory.specs.Reach.{Fact as FactOf};
ghost use Rattle.etp_closure.specs.Facts.{fact_of};

use etp_closure::Fact;

/// A list of facts, one a file.
pub trait Facts {
    /// What the files say, in order.
    ghost said: { Self → List FactOf };

    /// How many files there are.
    fn count(&self) -> u32
        ensures { result ≡ length (said self.now) };

    /// The fact of a file, counted from 0.
    fn fact(&self, at: u32) -> Option<&Fact>
        ensures { option_map (λ fact. fact_of fact.now) result ≡ slice_get (said self.now) at };
}
