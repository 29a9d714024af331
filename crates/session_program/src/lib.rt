// Reads a session from standard input, in chunks, and prints what it comes to (document 01, "The session program"). `portbench` and `plainbench`
// are this with an engine each. What is right is in the contracts of `session`; here it is proved that no step goes wrong, that the run ends, that
// each read has room, what each chunk comes to and what is kept of it, that reading goes on as long as it may, and what `finish` makes of the last
// chunk.
#![tactic(auto)]

ghost use Rattle.std.specs.Prelude.{◌≡◌, ◌-◌, ◌<◌, ◌≤◌, ltb, length, take, IfOk};
ghost use Rattle.record.specs.Format.{most_octets};
ghost use Rattle.session.specs.Run as runs;
ghost use Rattle.session_program.specs.Kept as kept;

use record::NoRecord;
use session::State;
use signature::Engine;
use std::io;
use std::io::{Print, Read, Stderr, Stdin, Stdout};

// What the program gives a run. `unreadable` goes to standard error where standard input cannot be read.
#[derive(Clone, Copy)]
struct Program<'a> {
    input: Stdin,
    output: Stdout,
    errors: Stderr,
    engine: Engine,
    unreadable: &'a [u8],
}

// Where a chunk leaves the run, and at its end the run itself. No Result: a chunk whose read or write failed is one of the run too, so `Read` and
// `Ran` speak of one type for all three, and both programs end alike after each.
#[derive(Clone, Copy)]
pub enum Going {
    // There is more to read.
    On,
    // The input has ended, or what is left is no record.
    Over,
    // A read or a write failed.
    Stopped,
}

// After a chunk. `left`: how many octets that are no whole record stand behind those that were read. No slice of them: they stand at the front of the
// fixed buffer of `run`, which is lent whole for the next chunk, and the definitions under `Ended`, which `run` promises, name `left`.
//
// What room the buffers have is said by the three functions that need it, and by no type over both: those definitions speak of one buffer, before and
// after, and must-fail/buffer_of_100.edit makes a buffer that is too small.
#[derive(Clone, Copy)]
struct Chunk {
    state: State,
    left: usize,
    going: Going,
}

// Copies what stands before `to` and is not used to the front.
fn keep(state: State, buf: &mut [u8], from: usize, to: usize, going: Going) -> Chunk
    requires from_le_to { from ≤ to }
    requires to_in_bounds { to ≤ length buf.old }
    ensures chunk { result ≡ record { state = state; left = to - from; going = going } }
    ensures to_front { buf.new ≡ kept.to_front from (to - from) buf.old }
{
    buf.copy_within(from..to, 0);
    Chunk {
        state,
        left: to - from,
        going,
    }
}

// Where a read or a write failed, nothing is kept.
fn stopped(state: State) -> Chunk
    ensures { result ≡ kept.stopped state }
{
    Chunk {
        state,
        left: 0,
        going: Going::Stopped,
    }
}

// Uses the whole records of buf's octets before `to`, and copies what is left to the front. A call of `feed` that is out of room has used a
// record at least, since there is room for a line.
fn use_records(program: Program, st: State, buf: &mut [u8], to: usize, out: &mut [u8]) -> Chunk
    requires to_in_bounds { to ≤ length buf.old }
    requires line_room_in_bounds { runs.line_room ≤ length out.old }
    ensures { kept.Used st (take to buf.old) result buf.new }
{
    let mut state = st;
    let mut from: usize = 0;
    loop {
        let fed = session::feed(program.engine, state, &buf[from..to], out);
        state = fed.state;
        from += fed.used;
        if program.output.write_all(&out[..fed.written]).is_err() {
            return stopped(st);
        }
        match fed.stop {
            None => {}
            Some(NoRecord::Bad) => return keep(state, buf, from, to, Going::Over),
            // `Cut | End` in one arm was tried: the proof didn't close, for want of a name for which of the two came.
            Some(NoRecord::Cut) => return keep(state, buf, from, to, Going::On),
            Some(NoRecord::End) => return keep(state, buf, from, to, Going::On),
        }
    }
}

// What `read` answered after it put octets behind those that are left from the last chunk. There was room for one, so none are the end.
fn use_read(
    program: Program,
    last: Chunk,
    buf: &mut [u8],
    got: io::Result<usize>,
    out: &mut [u8],
) -> Chunk
    requires left_in_bounds { last.left < length buf.old }
    requires moved { IfOk got (λ n. n ≤ length buf.old - last.left) }
    requires line_room_in_bounds { runs.line_room ≤ length out.old }
    ensures { kept.Brought last got buf.old result buf.new }
{
    match got {
        Err(_) => {
            let _ = program.errors.write_all(program.unreadable);
            stopped(last.state)
        }
        Ok(0) => Chunk {
            going: Going::Over,
            ..last
        },
        Ok(n) => use_records(program, last.state, buf, last.left + n, out),
    }
}

// One read, behind the octets that are left from the last.
fn read_chunk(program: Program, last: Chunk, buf: &mut [u8], out: &mut [u8]) -> Chunk
    requires left_in_bounds { last.left < length buf.old }
    requires line_room_in_bounds { runs.line_room ≤ length out.old }
    ensures { kept.Read last (take last.left buf.old) result buf.new }
{
    let mut reader = program.input;
    let got = reader.read(&mut buf[last.left..]);
    use_read(program, last, buf, got, out)
}

// Where octets are left, they are a 13.
fn finish(output: Stdout, last: Chunk, out: &mut [u8])
    ensures { out.new ≡ runs.fronted (runs.finish_text last.state (ltb 0 last.left) (length out.old)) out.old }
{
    let n = session::finish(last.state, last.left > 0, out);
    let _ = output.write_all(&out[..n]);
}

// Nothing says that the input ends, and a loop has to: so it has a number of turns that no run uses up. The last chunk is
// returned so that the contract can speak of it.
fn run_in(program: Program, buf: &mut [u8], out: &mut [u8]) -> Chunk
    requires most_octets_in_bounds { most_octets ≤ length buf.old }
    requires closing_room_in_bounds { runs.closing_room ≤ length out.old }
    ensures { kept.Ran result buf.new out.new }
{
    let mut last = Chunk {
        state: session::start(),
        left: 0,
        going: Going::On,
    };
    for _ in 0..u64::MAX {
        last = read_chunk(program, last, buf, out);
        match last.going {
            Going::On => {}
            Going::Over => {
                finish(program.output, last, out);
                return last;
            }
            Going::Stopped => return last,
        }
    }
    last
}

// Runs a session, with the signatures by `engine`, and says how it ended. `unreadable` goes to standard error where standard input cannot be read.
pub fn run(input: Stdin, output: Stdout, errors: Stderr, engine: Engine, unreadable: &[u8]) -> Going
    ensures { kept.Ended result }
{
    let mut buf = [0u8; 65536];
    let mut out = [0u8; 262144];
    let program = Program {
        input,
        output,
        errors,
        engine,
        unreadable,
    };
    run_in(program, &mut buf, &mut out).going
}
