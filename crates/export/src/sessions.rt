// A session (crate session): records of octets, fed in chunks, and the lines of text. Why reading stopped is a number here.
ghost use Rattle.std.specs.Prelude.{◌≡◌, length};
ghost use Rattle.session.specs.Run as runs;
ghost use Rattle.export.specs.Sessions as told;

use crate::signatures::engine_of;
use record::NoRecord;
use session::{Fed, State};

#[repr(C)]
#[derive(Clone, Copy)]
pub struct FedTold {
    pub state: State,
    pub used: usize,
    pub written: usize,
    pub stop: u8,
    pub unused: [u8; 7],
}

// No `From`: neither type of the conversion is this crate's.
fn stop_number(stop: Option<NoRecord>) -> u8
    ensures { result ≡ told.stop_number_of stop }
{
    match stop {
        None => 0,
        Some(NoRecord::Bad) => 1,
        Some(NoRecord::Cut) => 2,
        Some(NoRecord::End) => 3,
    }
}

impl From<Fed> for FedTold {
    ghost from_gives = { λ f t. t ≡ told.fed_told f };

    fn from(fed: Fed) -> FedTold {
        FedTold {
            state: fed.state,
            used: fed.used,
            written: fed.written,
            stop: stop_number(fed.stop),
            unused: [0; 7],
        }
    }
}

#[unsafe(no_mangle)]
pub extern "C" fn whakelouna_session_start() -> State
    ensures { result ≡ runs.start }
{
    session::start()
}

// Uses the whole records of a chunk, and writes their lines at the front of out.
#[unsafe(no_mangle)]
pub extern "C" fn whakelouna_session_feed(
    shift: bool,
    st: State,
    s: &[u8],
    out: &mut [u8],
) -> FedTold
    ensures value { result ≡ told.fed_told (runs.fed_of st s.now (length out.old)) }
    ensures out_after { out.new ≡ runs.fed_text st s.now out.old }
{
    FedTold::from(session::feed(engine_of(shift), st, s, out))
}

// Writes what is printed at the end, where some octets are left or none are, at the front of out, and returns how many octets that is.
#[unsafe(no_mangle)]
pub extern "C" fn whakelouna_session_finish(st: State, some: bool, out: &mut [u8]) -> usize
    ensures value { result ≡ length (runs.finish_text st some (length out.old)) }
    ensures out_after { out.new ≡ runs.fronted (runs.finish_text st some (length out.old)) out.old }
{
    session::finish(st, some, out)
}
