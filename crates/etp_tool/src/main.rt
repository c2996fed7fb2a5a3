//! The program: its words, standard input, standard output and the working folder are handed to
//! `run`, whose answer is the status.
#![tactic(auto)]

mod folder;
mod input;
mod name;
mod output;
mod words;

use folder::FolderShelf;
use input::InputSource;
use output::OutputSink;
use std::io;
use std::process::ExitCode;
use words::run_words;

fn main(rt: HostRuntime) -> ExitCode {
    let mut source = InputSource::new(rt.stdin());
    let mut sink = OutputSink::new(io::writer(&rt));
    let mut shelf = FolderShelf::new(&rt);
    ExitCode::from(run_words(&rt, &mut source, &mut sink, &mut shelf))
}
