// A generator of files.
ghost use Rattle.std.specs.Prelude.{◌≡◌, [], IfOk, OnErr};
ghost use Rattle.etp_items.specs.Bodies.{proof, proof_of};
ghost use Rattle.etp_check.specs.Checks.{IsValidBody};
ghost use Rattle.etp_gen.specs.Draws as Draws;
ghost use Rattle.etp_gen.specs.Files.{IsGenerated};

use crate::draws::{draw_from, draw_values};
use crate::instances::prove_instance;
use etp_laws::Laws;
use etp_proof::Proof;
use etp_term::NoMemory;
use std::alloc::Global;
use std::marker::Model;

/// A generator of files, seen as the state of its draws. A generator that was started with a seed
/// gives the files of that seed's script, one after the other.
#[derive(Drop)]
pub struct Generator {
    state: u32,
}

impl Model for Generator {
    ghost use Rattle.std.specs.Prelude.{ℕ, ◌<◌};

    ghost Value = { ℕ };

    ghost view = { λ g. g.state };

    ghost invariant = { λ g. g.state < 65537 };
}

impl Generator {
    /// The generator before its first file.
    pub fn start(seed: u32) -> Generator
        ensures { result ≡ Draws.start seed }
    {
        Generator {
            state: seed % 65536,
        }
    }

    /// The next file: a proof from a drawn law of an instance of it, by that instance at the root.
    pub fn next_file(&mut self, alloc: Global, laws: &Laws) -> Result<Proof, NoMemory>
        ensures file { IfOk result
            (λ file. IsGenerated laws.now.equations self.old (proof_of file) self.new) }
        ensures valid { IfOk result
            (λ file. IsValidBody laws.now.equations (proof (proof_of file)) []) }
        ensures err { OnErr result (self.new ≡ self.old) }
    {
        let _order = laws.order();
        let _count = laws.count();
        let drawn = draw_from(self.state);
        let hypothesis = 1 + drawn % 4694;
        let Some(law) = laws.law(hypothesis) else {
            unreachable!()
        };
        let Some(variables) = laws.variables(hypothesis) else {
            unreachable!()
        };
        let values = draw_values(drawn, variables);
        let file = prove_instance(alloc, laws, hypothesis, law, &values.values)?;
        self.state = values.after;
        Ok(file)
    }
}
