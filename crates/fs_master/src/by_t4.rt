// The call that nearly every response makes: in time, by T4, with nothing wrong. It is written apart, beside `step`, for the compiler alone: the
// loop of a session tells it first and stores what T4 changes, with no other row in between. proofs/Regulars.antt: it is what `step` does.
ghost use Rattle.std.specs.Prelude.{◌≡◌};
ghost use Rattle.fs_master.specs.Table38 as table38;
ghost use Rattle.fs_master.specs.Regular as regulars;

use crate::Master;
use scl::Response;

// Whether it is one, at a master whose watchdog time is w.
#[tactic(auto, unfolding(crate::specs::Regular::is_regular))]
pub fn is_regular(m: Master, w: u16, at: u32, f: Response) -> bool
    ensures { result ≡ regulars.is_regular m w at f }
{
    let over = m.runs & scl::expired(at, m.MTimer, w);
    let waits = matches!(m.state, 2 | 5);
    let sound = f.signature_holds & f.port_holds & m.is_expected(f);
    let wrong = f.all_zero | f.DCommErr | f.DTimeout | m.is_old(f);
    !over & waits & sound & !wrong
}

// What it makes of the master.
pub fn regular(m: Master, at: u32, f: Response) -> Master
    ensures { result ≡ table38.t4 (table38.admitted m f) at f.SDset }
{
    m.admitted(f).t4(at, f.SDset)
}
