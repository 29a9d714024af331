// Which responses are samples, and how long each took (01, "The histogram and the trend"; 02, item 2).
#![tactic(auto)]

ghost use Rattle.std.specs.Prelude.{◌≡◌, Some, is_some};
ghost use Rattle.samples.specs.Tallied as tally;

use fs_master::Master;
use histogram::Totals;
use scl::{Happening, Mark};

// What a happening does at an FS-Master. `elapsed`: the time in ms since the count that is awaited was first sent, once the watchdog has been looked at.
// `t`: that time, where a response has come that led to a release.
#[derive(Clone, Copy)]
pub struct MasterTurn {
    pub master: Master,
    pub mark: Mark,
    pub elapsed: u32,
    pub t: Option<u32>,
}

// A happening at the FS-Master of a port whose watchdog time is w.
pub fn turn_master(m: Master, w: u16, happening: Happening) -> MasterTurn
    ensures { result ≡ tally.master_turn_of m w happening }
{
    let after = fs_master::step(m, w, happening);
    let releases = scl::is_fresh(after.mark);
    let t = scl::elapsed(scl::reading(happening), after.sent);
    MasterTurn {
        master: after.master,
        mark: after.mark,
        elapsed: t,
        t: releases.then_some(t),
    }
}

// The totals with the time t of a response that led to a release, where it is at most w and counted.
#[tactic(auto, unfolding(crate::specs::Tallied::tallied_by))]
pub fn tallied(totals: Totals, w: u16, t: Option<u32>) -> Option<Totals>
    ensures { result ≡ tally.tallied_by totals w t }
{
    let t = t?;
    if t <= u32::from(w) {
        histogram::totalled(totals, t as u16)
    } else {
        None
    }
}

// Whether the time t of a response that led to a release is counted.
#[tactic(auto, unfolding(crate::specs::Tallied::tallied_by, histogram::specs::Counted::totalled_of))]
pub fn counts(totals: Totals, w: u16, t: u32) -> bool
    ensures { result ≡ is_some (tally.tallied_by totals w (Some t)) }
{
    (t <= u32::from(w)) & !histogram::reached(totals.total)
}
