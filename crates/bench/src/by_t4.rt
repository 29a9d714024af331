// The turn that nearly every record of a session takes: a response in time, by T4, that is a sample, at a port whose FS-Device is unchanged. It is
// written apart, beside `turn`, for the compiler alone: a loop that tells it first stores what T4 and a sample change and keeps the rest where it
// is. proofs/Regulars.antt: it is what `turn` does.
ghost use Rattle.std.specs.Prelude.{◌≡◌};
ghost use Rattle.bench.specs.Regular as regulars;

use crate::{Live, Setting, Turned};
use scl::{Happening, Mark, Response};

fn is_regular_response(setting: Setting, live: Live, at: u32, f: Response) -> bool
    ensures { result ≡ regulars.is_regular_response setting live at f }
{
    let w = setting.params.FSP_WatchdogTime;
    let m = live.master;
    let unchanged = fs_device::unchanged(live.device, w, Happening::Response(at, f));
    let releases = !(f.SDset | m.setSD_C);
    let counts = samples::counts(live.totals, w, scl::elapsed(at, m.start));
    fs_master::is_regular(m, w, at, f) & unchanged & releases & counts
}

// Whether a happening makes such a turn.
#[tactic(auto, unfolding(crate::specs::Regular::is_regular))]
pub fn is_regular(setting: Setting, live: Live, happening: Happening) -> bool
    ensures { result ≡ regulars.is_regular setting live happening }
{
    match happening {
        Happening::Response(at, f) => is_regular_response(setting, live, at, f),
        _ => false,
    }
}

fn regular_response(setting: Setting, live: Live, at: u32, f: Response) -> Turned
    ensures { result ≡ regulars.regular_response setting live at f }
{
    let w = setting.params.FSP_WatchdogTime;
    let m = live.master;
    let t = scl::elapsed(at, m.start);
    let counted = samples::tallied(live.totals, w, Some(t));
    let master = fs_master::regular(m, at, f);
    Turned {
        live: Live {
            totals: counted.unwrap_or(live.totals),
            master,
            ..live
        },
        elapsed: t,
        bin: counted.map(|_| histogram::bin(w, t)),
        master: scl::mark_of(true, master.released),
        device: scl::mark_of(false, live.device.released),
    }
}

fn still(live: Live) -> Turned
    ensures { result ≡ regulars.still live }
{
    Turned {
        live,
        elapsed: 0,
        bin: None,
        master: Mark::Nothing,
        device: Mark::Nothing,
    }
}

// That turn; where the happening makes another, nothing that it does.
#[tactic(auto, unfolding(crate::specs::Regular::regular_of))]
pub fn regular(setting: Setting, live: Live, happening: Happening) -> Turned
    ensures { result ≡ regulars.regular_of setting live happening }
{
    match happening {
        Happening::Response(at, f) => regular_response(setting, live, at, f),
        _ => still(live),
    }
}
