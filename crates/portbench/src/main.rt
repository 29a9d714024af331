// The session program with the signatures by a look-up in 000's tables.
#![tactic(auto)]

ghost use Rattle.std.specs.Prelude.{◌≡◌};

use signature::Engine;

fn engine() -> Engine
    ensures { result ≡ Engine.Table }
{
    Engine::Table
}

fn main(rt: HostRuntime) {
    session_program::run(
        rt.stdin(),
        rt.stdout(),
        rt.stderr(),
        engine(),
        b"portbench: standard input cannot be read\n",
    );
}
