// The session program with the signatures by the bit shift of 000 Figures D.3 and D.5 alone: for approval people, who follow it without a table.
// It prints what `portbench` prints.
#![tactic(auto)]

ghost use Rattle.std.specs.Prelude.{◌≡◌};

use signature::Engine;

fn engine() -> Engine
    ensures { result ≡ Engine.Shift }
{
    Engine::Shift
}

fn main(rt: HostRuntime) {
    session_program::run(
        rt.stdin(),
        rt.stdout(),
        rt.stderr(),
        engine(),
        b"plainbench: standard input cannot be read\n",
    );
}
