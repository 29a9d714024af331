// One happening at the FS-Device. Why it is no instance of a generic form with the FS-Master's: fs_master, src/calls.rt.
ghost use Rattle.std.specs.Prelude.{◌≡◌};
ghost use Rattle.fs_device.specs.Calls as calls;

use crate::{Device, Outcome, Row};
use scl::{Check, Happening, Request};

#[tactic(auto, unfolding(crate::specs::Calls::quiet))]
fn quiet(d: Device, watchdog: Option<Row>, old: bool) -> Outcome
    ensures { result ≡ calls.quiet d watchdog old }
{
    Outcome {
        device: d,
        watchdog,
        arrival: None,
        check: None,
        old,
        passed: false,
        mark: scl::mark_of(false, d.released),
    }
}

#[tactic(auto, unfolding(crate::specs::Calls::arrived))]
fn arrived(d: Device, watchdog: Option<Row>, at: u32, q: Request, failed: Option<Check>) -> Outcome
    ensures { result ≡ calls.arrived d watchdog at q failed }
{
    let CommErr = scl::is_failure(failed);
    let row = d.arrival_row(CommErr);
    let after = d.admitted(q).acted(row, at, q.setSD, CommErr);
    Outcome {
        device: after,
        watchdog,
        arrival: Some(row),
        check: failed,
        old: false,
        passed: !CommErr,
        mark: scl::mark_of(true, after.released),
    }
}

#[tactic(auto, unfolding(crate::specs::Calls::received))]
fn received(d: Device, watchdog: Option<Row>, at: u32, q: Request) -> Outcome
    ensures { result ≡ calls.received d watchdog at q }
{
    let old = d.is_old(q);
    if d.is_admitted(q, old) {
        arrived(d, watchdog, at, q, d.checked(q))
    } else {
        quiet(d, watchdog, old)
    }
}

// The device once its watchdog has been looked at, which led to this row.
#[tactic(auto, unfolding(crate::specs::Calls::watched_by))]
fn watched(d: Device, watchdog: Option<Row>, at: u32) -> Device
    ensures { result ≡ calls.watched_by d watchdog at }
{
    match watchdog {
        Some(row) => d.acted(row, at, false, false),
        None => d,
    }
}

// A happening at a device whose watchdog time is w.
#[tactic(auto, unfolding(crate::specs::Calls::step_of, crate::specs::Calls::clocked, crate::specs::Calls::watched))]
pub fn step(d: Device, w: u16, happening: Happening) -> Outcome
    ensures { result ≡ calls.step_of d w happening }
{
    let at = scl::reading(happening);
    let watchdog = d.watchdog_row(w, at);
    let device = watched(d, watchdog, at);
    match happening {
        Happening::Request(_, q) => received(device, watchdog, at, q),
        _ => quiet(device, watchdog, false),
    }
}

// Whether a happening leaves the device as it is: no SPDU came for it and its watchdog is not over.
#[tactic(auto, unfolding(crate::specs::Calls::unchanged))]
pub fn unchanged(d: Device, w: u16, happening: Happening) -> bool
    ensures { result ≡ calls.unchanged d w happening }
{
    let over = d.runs & scl::expired(scl::reading(happening), d.DTimer, w);
    !matches!(happening, Happening::Request(..)) & !over
}
