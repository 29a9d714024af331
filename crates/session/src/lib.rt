// A session: records of octets, each a call on the bench, and the lines of text that it comes to (document 01, "The session program").
//
// A program starts with `start`, hands on each chunk of octets to `feed` together with what the last call left of the chunk before, prints
// what it wrote, and at the end of the input, or where a record is bad, prints what `finish` writes.
#![tactic(auto)]

mod calling;
mod run;
mod text;

use bench::Bench;
use record::NoRecord;
pub use run::{feed, finish, start};

// How far a session has come: the bench, the whole records and those refused.
#[repr(C)]
#[derive(Clone, Copy)]
pub struct State {
    pub bench: Bench,
    pub records: u64,
    pub refused: u64,
}

// After a chunk: how many of its octets are used up, how many were written, and why no whole record stands behind those that are used up: `Bad` is
// a 13, and so is `Cut` where no chunk follows. None: a whole record stands there, for whose line there is no room.
//
// `used` and `written` are lengths and no slices: C reads both (`FedTold` in export), and clauses of `feed` name them, `used_in_bounds` and
// `written_in_bounds`.
#[derive(Clone, Copy)]
pub struct Fed {
    pub state: State,
    pub used: usize,
    pub written: usize,
    pub stop: Option<NoRecord>,
}
