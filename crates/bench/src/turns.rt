// One port's turn: what an accepted block and what a happening make of it.
ghost use Rattle.std.specs.Prelude.{◌≡◌};
ghost use Rattle.bench.specs.Ports as ports;

use crate::{Live, Setting, Turned};
use block::Params;
use histogram::Totals;
use samples::{tallied, turn_master};
use scl::Happening;

// What an accepted block makes of a setting, with these parameters; from the old one, as `begun`, so that what a block keeps would have its place.
pub fn accepted(setting: Setting, params: Params) -> Setting
    ensures { result ≡ ports.accepted setting params }
{
    Setting {
        params,
        running: true,
        ..setting
    }
}

// Both ends in their first state, no sample.
pub(crate) fn first_live(at: u32) -> Live
    ensures { result ≡ ports.first_live at }
{
    Live {
        totals: Totals::from(histogram::cleared()),
        device: fs_device::first(at),
        master: fs_master::first(at),
        unused: 0,
    }
}

// What an accepted block makes of the rest of a port but its bins, with this reading.
pub fn begun(live: Live, at: u32) -> Live
    ensures { result ≡ ports.begun live at }
{
    Live {
        unused: live.unused,
        ..first_live(at)
    }
}

// A happening at a port.
#[tactic(auto, unfolding(crate::specs::Ports::turn_of))]
pub fn turn(setting: Setting, live: Live, happening: Happening) -> Turned
    ensures { result ≡ ports.turn_of setting live happening }
{
    let w = setting.params.FSP_WatchdogTime;
    let of_master = turn_master(live.master, w, happening);
    let of_device = fs_device::step(live.device, w, happening);
    let counted = tallied(live.totals, w, of_master.t);
    Turned {
        live: Live {
            totals: counted.unwrap_or(live.totals),
            device: of_device.device,
            master: of_master.master,
            ..live
        },
        elapsed: of_master.elapsed,
        bin: counted.and(of_master.t.map(|t| histogram::bin(w, t))),
        master: of_master.mark,
        device: of_device.mark,
    }
}
