// One port: new, with accepted parameters, after a turn; and what a call says.
ghost use Rattle.std.specs.Prelude.{◌≡◌};
ghost use Rattle.bench.specs.Ports as ports;

use crate::turns::{accepted, begun, first_live};
use crate::{Bench, PORT_COUNT, Port, Reply, Setting, Turned};
use answer::Answer;
use block::Params;
use histogram::BIN_COUNT;
use scl::Mark;

// A port with no accepted parameters.
#[tactic(auto, unfolding(crate::specs::Ports::new_port))]
pub(crate) fn new_port() -> Port
    ensures { result ≡ ports.new_port }
{
    Port {
        setting: Setting {
            params: block::no_params(),
            running: false,
            unused: [0u8; 7],
        },
        live: first_live(0),
        bins: [0u32; BIN_COUNT],
    }
}

// No port runs.
#[tactic(auto, unfolding(crate::specs::Ports::new_bench))]
pub fn new_bench() -> Bench
    ensures { result ≡ ports.new_bench }
{
    Bench {
        ports: [new_port(); PORT_COUNT],
    }
}

#[tactic(auto, unfolding(crate::specs::Ports::accepted_port))]
pub(crate) fn accepted_port(p: Port, params: Params, at: u32) -> Port
    ensures { result ≡ ports.accepted_port p params at }
{
    Port {
        setting: accepted(p.setting, params),
        live: begun(p.live, at),
        bins: [0u32; BIN_COUNT],
    }
}

// The port with what a turn changes.
#[tactic(auto, unfolding(crate::specs::Ports::stored))]
pub(crate) fn stored(p: Port, turned: Turned) -> Port
    ensures { result ≡ ports.stored p turned }
{
    Port {
        live: turned.live,
        bins: histogram::raised(p.bins, turned.bin),
        ..p
    }
}

// What a call says of a turn.
#[tactic(auto, unfolding(crate::specs::Ports::said))]
pub(crate) fn said(turned: Turned) -> Reply
    ensures { result ≡ ports.said turned }
{
    Reply {
        answer: Ok(()),
        master: turned.master,
        device: turned.device,
        master_releases: turned.live.master.released,
        device_releases: turned.live.device.released,
    }
}

// What a call says that hands on nothing.
#[tactic(auto, unfolding(crate::specs::Ports::silent))]
pub(crate) fn silent(answer: Answer) -> Reply
    ensures { result ≡ ports.silent answer }
{
    Reply {
        answer,
        master: Mark::Nothing,
        device: Mark::Nothing,
        master_releases: false,
        device_releases: false,
    }
}
