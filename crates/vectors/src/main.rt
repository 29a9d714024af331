// Runs document 01's numbers and 000's printed tables, and compares. What it prints is held to the file stdout. All that signs runs by each engine
// (02, item 3) and prints the same lines.
#![tactic(auto)]

mod blocks;
mod histograms;
mod machines;
mod print;
mod printed;
mod signatures;
mod spdus;

use signature::Engine;
use std::io::{Print, Stdout};

// Where a run prints, and the engine that signs in it.
#[derive(Clone, Copy)]
pub(crate) struct Run {
    pub(crate) output: Stdout,
    pub(crate) engine: Engine,
}

fn signed(run: Run) {
    signatures::run(run);
    blocks::run(run);
    spdus::run(run);
}

fn main(rt: HostRuntime) {
    let output = rt.stdout();
    let _ = output.println("signed by the look-up");
    signed(Run {
        output,
        engine: Engine::Table,
    });
    let _ = output.println("signed by the bit shift");
    signed(Run {
        output,
        engine: Engine::Shift,
    });
    let _ = output.println("with no signature");
    histograms::run(output);
    machines::run(output);
}
