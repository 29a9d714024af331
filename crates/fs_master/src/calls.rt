// One happening at the FS-Master. fs_device has the like of each function for its own machine, rows and SPDU. One generic form would take a trait
// of the seven guards and actions that they call, each with its law, and an Outcome over it that both machines' theorems unfold: no plainer.
ghost use Rattle.std.specs.Prelude.{◌≡◌};
ghost use Rattle.fs_master.specs.Table38 as table38;
ghost use Rattle.fs_master.specs.Calls as calls;

use crate::table38::has_faults;
use crate::{Master, Outcome, Row};
use scl::{Check, Happening, Response};

#[tactic(auto, unfolding(crate::specs::Calls::quiet))]
fn quiet(m: Master, watchdog: Option<Row>, old: bool) -> Outcome
    ensures { result ≡ calls.quiet m watchdog old }
{
    Outcome {
        master: m,
        watchdog,
        arrival: None,
        check: None,
        old,
        passed: false,
        sent: m.start,
        mark: scl::mark_of(false, m.released),
    }
}

#[tactic(auto, unfolding(crate::specs::Calls::arrived))]
fn arrived(
    m: Master,
    watchdog: Option<Row>,
    at: u32,
    f: Response,
    old: bool,
    failed: Option<Check>,
) -> Outcome
    requires { old ≡ table38.is_old m f }
    ensures { result ≡ calls.arrived m watchdog at f failed }
{
    let MCommErr = scl::is_failure(failed);
    let row = m.arrival_row(has_faults(MCommErr, f));
    let after = m.admitted(f).acted(row, at, f.SDset);
    Outcome {
        master: after,
        watchdog,
        arrival: Some(row),
        check: failed,
        old,
        passed: !MCommErr,
        sent: m.start,
        mark: scl::mark_of(true, after.released),
    }
}

#[tactic(auto, unfolding(crate::specs::Calls::received))]
fn received(m: Master, watchdog: Option<Row>, at: u32, f: Response) -> Outcome
    ensures { result ≡ calls.received m watchdog at f }
{
    let old = m.is_old(f);
    if m.is_admitted(f, old) {
        arrived(m, watchdog, at, f, old, m.checked(f))
    } else {
        quiet(m, watchdog, old)
    }
}

// The master once its watchdog has been looked at, which led to this row. Inlined, as are `watchdog_row` and `acted`: which row it was is then tested once.
#[inline(always)]
#[tactic(auto, unfolding(crate::specs::Calls::watched_by))]
fn watched(m: Master, watchdog: Option<Row>, at: u32) -> Master
    ensures { result ≡ calls.watched_by m watchdog at }
{
    match watchdog {
        Some(row) => m.acted(row, at, false),
        None => m,
    }
}

// A happening at a master whose watchdog time is w.
#[tactic(auto, unfolding(crate::specs::Calls::step_of, crate::specs::Calls::clocked, crate::specs::Calls::operated, crate::specs::Calls::watched))]
pub fn step(m: Master, w: u16, happening: Happening) -> Outcome
    ensures { result ≡ calls.step_of m w happening }
{
    let at = scl::reading(happening);
    let watchdog = m.watchdog_row(w, at);
    let master = watched(m, watchdog, at);
    match happening {
        Happening::Response(_, f) => received(master, watchdog, at, f),
        Happening::Request(_, _) | Happening::Clock(_) => quiet(master, watchdog, false),
        Happening::Operator(_, setSD_C, ChFAck_C) => {
            quiet(master.signalled(setSD_C, ChFAck_C), watchdog, false)
        }
    }
}
