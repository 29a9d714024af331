// The FS-Device's SCL machine: 000 Table 40.
#![tactic(auto)]

mod calls;
mod table40;

pub use calls::{step, unchanged};
pub use table40::{first, row_number};

// 000's variables under their names, between two calls. `state` is 000's number: 21, 24 or 26. MCount is that of the last SPDU admitted; DTimer
// is the reading of its last restart, and `runs` says whether there was one. `released`: PDout is in use. `responded`: a response has been
// prepared; before it the outgoing SPDU is zeros. Both counts of errors are u16, so that no octet of the struct is padding. C reads the struct
// (include/whakelouna.h): `runs` stands beside DTimer and is no Option, and `state` is no enum.
#[repr(C)]
#[derive(Clone, Copy)]
pub struct Device {
    pub DTimer: u32,
    pub CommErrCount: u16,
    pub TimeoutCount: u16,
    pub state: u8,
    pub SDcycles: u8,
    pub DCount_i: u8,
    pub MCount: u8,
    pub DCommErr: bool,
    pub DTimeout: bool,
    pub SDset: bool,
    pub setSD_DC: bool,
    pub ChFAckReq_DC: bool,
    pub runs: bool,
    pub released: bool,
    pub responded: bool,
}

// The rows that act, with 000's numbers.
#[derive(Clone, Copy, Debug, PartialEq, Eq)]
pub enum Row {
    T22 = 22,
    T25 = 25,
    T28 = 28,
    T29 = 29,
    T30 = 30,
    T31 = 31,
}

// What a call did at the FS-Device: the watchdog's row, then the row of the SPDU that came, the check that failed first, whether the SPDU was
// old and whether it passed its checks, and what is handed on. `old` and `passed` are no part of `arrival`: the theorem `passed_is` and C name them.
#[derive(Clone, Copy)]
pub struct Outcome {
    pub device: Device,
    pub watchdog: Option<Row>,
    pub arrival: Option<Row>,
    pub check: Option<scl::Check>,
    pub old: bool,
    pub passed: bool,
    pub mark: scl::Mark,
}
