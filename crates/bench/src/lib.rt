// The bench: eight ports, and every call on them (document 01). A call takes whatever it is given and has an answer; one that is refused
// changes nothing and writes nothing.
//
// What a call asks of its port (acts.rt) and what a happening makes of it (turns.rt) are each worked out in one place, by value. A call stores what
// comes out; so does whoever keeps the ports in columns (columns.rt) and has many happenings for them, as a session does.
#![tactic(auto)]

mod acts;
mod at_port;
mod by_t4;
mod calls;
mod columns;
mod ends;
mod handing;
mod images;
mod shown;
mod turns;

pub use acts::{clock_act, operator_act, parameters_act, place_of, spdu_act};
use answer::Answer;
pub use at_port::new_bench;
use block::Params;
pub use by_t4::{is_regular, regular};
pub use calls::{clock, operator, receive_request, receive_response, set_parameters};
pub use columns::{all_bins_of, lives_of, packed, settings_of};
use fs_device::Device;
use fs_master::Master;
pub use handing::{hand_on, handed_on};
pub use histogram::BIN_COUNT;
use histogram::Totals;
pub use images::{build_response, compose, other_part, spdu_part, split};
use scl::{Happening, Mark};
pub use shown::{bins_of, bins_told, device_of, device_told, master_of, master_told, trend_of};
pub use turns::{accepted, begun, turn};

pub const PORT_COUNT: usize = 8;

// What only an accepted block changes. `running`: parameters have been accepted; C reads it beside `params` (include/whakelouna.h), so this is no Option.
// `unused` here and below stands where there would be padding: 0 in a new bench, and no call touches it, so that two benches that are the same are so octet
// for octet.
#[repr(C)]
#[derive(Clone, Copy)]
pub struct Setting {
    pub params: Params,
    pub running: bool,
    pub unused: [u8; 7],
}

// What a happening changes: both ends, and all of the histogram but its bins. `turn`, `is_regular` and `regular` take it beside the setting, and no struct
// of both: a session keeps the two in columns (`settings_of`, `lives_of`) and would make that struct for each record, which is no plainer.
#[repr(C)]
#[derive(Clone, Copy)]
pub struct Live {
    pub device: Device,
    pub master: Master,
    pub unused: u32,
    pub totals: Totals,
}

// A port.
#[repr(C)]
#[derive(Clone, Copy)]
pub struct Port {
    pub setting: Setting,
    pub live: Live,
    pub bins: [u32; BIN_COUNT],
}

// Ports 1 to 8.
#[repr(C)]
#[derive(Clone, Copy)]
pub struct Bench {
    pub ports: [Port; PORT_COUNT],
}

// What a call with a reading that is not refused asks of the port that it addresses.
#[derive(Clone, Copy)]
pub enum Act {
    // To accept these parameters.
    Accepted(Params),
    // To let this happen.
    Happens(Happening),
}

// What a happening makes of a port: what it changes, the time in ms since the count that the FS-Master awaits was first sent (0 where `regular` changes
// nothing), the bin that it raises, if any, and what each end hands on.
#[derive(Clone, Copy)]
pub struct Turned {
    pub live: Live,
    pub elapsed: u32,
    pub bin: Option<usize>,
    pub master: Mark,
    pub device: Mark,
}

// What a call says: its answer, and for each end what is handed on and whether the end releases after the call. In a refusal nothing is
// handed on and nothing is said to be released: the definitions `silent` and `said` have the marks beside either answer, and so has C.
#[derive(Clone, Copy)]
pub struct Reply {
    pub answer: Answer,
    pub master: Mark,
    pub device: Mark,
    pub master_releases: bool,
    pub device_releases: bool,
}

// The bench after a call.
#[derive(Clone, Copy)]
pub struct BenchAfter {
    pub bench: Bench,
    pub reply: Reply,
}

// An end of a port.
#[derive(Clone, Copy)]
pub enum End {
    Master,
    Device,
}

// The bins of a port with their total and the frozen mark.
#[derive(Clone, Copy)]
pub struct Bins {
    pub bins: [u32; BIN_COUNT],
    pub total: u32,
    pub frozen: bool,
}
