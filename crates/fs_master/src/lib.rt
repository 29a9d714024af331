// The FS-Master's SCL machine: 000 Table 38.
#![tactic(auto)]

mod by_t4;
mod calls;
mod table38;

pub use by_t4::{is_regular, regular};
pub use calls::step;
pub use table38::{first, row_number};

// 000's variables under their names, between two calls. `state` is 000's number: 2, 5 or 7. setSD_C and ChFAck_C are the operator signals as
// they hold. Of the previous SPDU, if there was one: the DCount_i that it carried and the one awaited of it. MTimer is the reading of its last
// restart, and `runs` says whether there was one; `start` is the reading from which a sample's time runs. `released`: PDin is in use. Both counts
// are u16, so that no octet of the struct is padding. C reads the struct (include/whakelouna.h): `previous` stands beside both counts and `runs`
// beside MTimer, neither is an Option, and `state` is no enum.
#[repr(C)]
#[derive(Clone, Copy)]
pub struct Master {
    pub MTimer: u32,
    pub start: u32,
    pub carried: u16,
    pub awaited: u16,
    pub state: u8,
    pub MCount: u8,
    pub setSD: bool,
    pub SDset_S: bool,
    pub ChFAckReq: bool,
    pub ChFAckReq_S: bool,
    pub ChFAck_C_e: bool,
    pub setSD_C: bool,
    pub ChFAck_C: bool,
    pub previous: bool,
    pub runs: bool,
    pub released: bool,
}

// The rows that act, with 000's numbers.
#[derive(Clone, Copy, Debug, PartialEq, Eq)]
pub enum Row {
    T4 = 4,
    T7 = 7,
    T8 = 8,
    T11 = 11,
    T12 = 12,
    T13 = 13,
    T14 = 14,
}

// What a call did at the FS-Master: the watchdog's row, then the row of the SPDU that came, the check that failed first, whether the SPDU was
// old and whether it passed, from which reading a sample's time runs once the watchdog has been looked at, and what is handed on.
// `old` and `passed` are no part of `arrival`: the theorem `passes_as` and C name them.
#[derive(Clone, Copy)]
pub struct Outcome {
    pub master: Master,
    pub watchdog: Option<Row>,
    pub arrival: Option<Row>,
    pub check: Option<scl::Check>,
    pub old: bool,
    pub passed: bool,
    pub sent: u32,
    pub mark: scl::Mark,
}
