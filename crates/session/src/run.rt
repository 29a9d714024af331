// A run over chunks of octets.
ghost use Rattle.std.specs.Prelude.{◌≡◌, ℕ, ◌+◌, ◌<◌, ◌≤◌, Some, Err, length, drop};
ghost use Rattle.io.specs.Counts.{IsPrefixLen};
ghost use Rattle.record.specs.Format.{form};
ghost use Rattle.session.specs.Run as runs;
ghost use Rattle.session.specs.Text as lines;
ghost use Rattle.bench.specs.Columns as columns;

use crate::calling::act_of;
use crate::text::{port_lines, put};
use crate::{Fed, State};
use answer::Refusal;
use bench::{Act, BIN_COUNT, PORT_COUNT};
use lines::LINE_ROOM;
use record::{NoRecord, read_record};
use signature::{Engine, Signing};

// Room for what is printed at the end.
const CLOSING_ROOM: usize = 1152;

// No record has been read.
pub fn start() -> State
    ensures { result ≡ runs.start }
{
    State {
        bench: bench::new_bench(),
        records: 0,
        refused: 0,
    }
}

// The line of a refusal.
fn say(out: &mut [u8], at: usize, number: u64, refusal: Refusal) -> usize
    requires { at + lines.line_room ≤ length out.old }
    ensures written { lines.Written out.old at (runs.line_for number (Err refusal)) result out.new }
    ensures at_most_a_line { result ≤ at + lines.line_room }
{
    let line = lines::refusal_line(number, refusal.number());
    put(out, at, line.as_octets())
}

// Why reading stops at a position; none where a whole record is there.
fn stop_at(s: &[u8], at: usize) -> Option<NoRecord>
    ensures { result ≡ runs.stop_of (form (drop at s.now)) }
{
    read_record(s, at).err()
}

// One more in the bin that a turn of the port at k raises, if it raises one.
fn raise(bins: &mut [[u32; BIN_COUNT]; PORT_COUNT], k: usize, bin: Option<usize>)
    requires place { k < 8 }
    requires is_bin { (i : ℕ) → bin ≡ Some i → columns.IsBin i }
    ensures { bins.new ≡ columns.raised_at bins.old k bin }
{
    if let Some(i) = bin {
        bins[k][i] = bins[k][i].wrapping_add(1);
    }
}

// Reads the whole records of s, and writes the lines of those that are refused at the front of out. It takes at most as many records as out
// has room for lines, of 64 octets each.
pub fn feed(engine: Engine, st: State, s: &[u8], out: &mut [u8]) -> Fed
    ensures value { result ≡ runs.fed_of st s.now (length out.old) }
    ensures out_after { out.new ≡ runs.fed_text st s.now out.old }
    ensures used_in_bounds { result.used ≤ length s.now }
    ensures written_in_bounds { IsPrefixLen result.written out.new }
{
    let short = signature::table_for::<u16>(engine);
    let long = signature::table_for::<u32>(engine);
    let signing = Signing {
        engine,
        short: &short,
        long: &long,
    };
    let mut settings = bench::settings_of(st.bench);
    let mut lives = bench::lives_of(st.bench);
    let mut bins = bench::all_bins_of(st.bench);
    let mut refused = st.refused;
    let room = out.len() / LINE_ROOM;
    let mut left = room;
    let mut at = 0;
    let mut written = 0;
    // A `for` would need a count beside it: how many records were taken is wanted behind the loop.
    while left > 0 {
        let Ok(found) = read_record(s, at) else {
            break;
        };
        let place = bench::place_of(found.port);
        let k = place.unwrap_or(0);
        let setting = settings[k];
        let octets = &s[found.start..found.next];
        let act = act_of(&signing, place.is_none(), setting, found, octets);
        at = found.next;
        left -= 1;
        match act {
            Err(refusal) => {
                refused = refused.saturating_add(1);
                let number = st.records.saturating_add((room - left) as u64);
                written = say(out, written, number, refusal);
            }
            Ok(Act::Accepted(params)) => {
                settings[k] = bench::accepted(setting, params);
                lives[k] = bench::begun(lives[k], found.clock);
                bins[k] = [0; BIN_COUNT];
            }
            Ok(Act::Happens(happening)) => {
                // Nearly every record's turn is told first, for the compiler (bench, src/by_t4.rt).
                if bench::is_regular(setting, lives[k], happening) {
                    let turned = bench::regular(setting, lives[k], happening);
                    lives[k] = turned.live;
                    raise(&mut bins, k, turned.bin);
                } else {
                    let turned = bench::turn(setting, lives[k], happening);
                    lives[k] = turned.live;
                    raise(&mut bins, k, turned.bin);
                }
            }
        }
    }
    let state = State {
        bench: bench::packed(settings, lives, bins),
        records: st.records.saturating_add((room - left) as u64),
        refused,
    };
    Fed {
        state,
        used: at,
        written,
        stop: stop_at(s, at),
    }
}

fn thirteen(out: &mut [u8], some: bool, records: u64) -> usize
    requires { lines.line_room ≤ length out.old }
    ensures written { lines.Written out.old 0 (runs.thirteen_line some records) result out.new }
    ensures at_most_a_line { result ≤ lines.line_room }
{
    if some {
        say(out, 0, records.saturating_add(1), Refusal::Record)
    } else {
        0
    }
}

fn close(st: State, some: bool, out: &mut [u8]) -> usize
    requires { lines.closing_room ≤ length out.old }
    ensures written { lines.Written out.old 0 (runs.closing st some) result out.new }
    ensures at_most_its_room { result ≤ lines.closing_room }
{
    let a = thirteen(out, some, st.records);
    let refused = st.refused.saturating_add(u64::from(some));
    let line = lines::summary_line(st.records, refused);
    let b = put(out, a, line.as_octets());
    port_lines(out, b, st.bench)
}

// The end of a session, where octets are left that are no whole record (`some`) or none are. It writes what is printed at the end to the front
// of out, and answers how many octets that is; where out has fewer than 1,152 octets it writes nothing.
pub fn finish(st: State, some: bool, out: &mut [u8]) -> usize
    ensures value { result ≡ length (runs.finish_text st some (length out.old)) }
    ensures out_after { out.new ≡ runs.fronted (runs.finish_text st some (length out.old)) out.old }
    ensures written_in_bounds { IsPrefixLen result out.new }
{
    if out.len() < CLOSING_ROOM {
        return 0;
    }
    close(st, some, out)
}
