//! Example sessions: files drawn from a seed, each with a valid proof of one step.
#![tactic(auto)]

ghost use Rattle.etp_gen.specs.Examples.{GeneratorExamples};
ghost use Rattle.etp_gen.specs.Theorems.{GeneratorTheorems};

mod draws;
mod generator;
mod instances;
mod script;

pub use generator::Generator;
pub use script::{append_file_name, generate};

/// Generated files are valid and read again as they are, a seed gives one script, and no two files of
/// it have one name.
pub fn generator_theorems()
    ensures { GeneratorTheorems }
{}

/// Draws, a file and a script that compute.
pub fn generator_examples()
    ensures { GeneratorExamples }
{}
