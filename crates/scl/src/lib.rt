// What both SCL machines share: elapsed time, the fields of an SPDU that they see, what can happen at a port, and what a call says of it.
#![tactic(auto)]

ghost use Rattle.std.specs.Prelude.{◌≡◌};
ghost use Rattle.scl.specs.Time.{elapsed_of, expired_of};
ghost use Rattle.scl.specs.Counts.{count_after, inverted};
ghost use Rattle.scl.specs.Happenings.{reading_of, mark_number_of, check_number_of, check_of, is_failure, mark_of, is_fresh};

// What an FS-Master reads of a received SPDU: its length, and its fields (000 Table 32). `unused` is where there would be padding: 0.
#[repr(C)]
#[derive(Clone, Copy)]
pub struct Response {
    pub length: usize,
    pub DCount_i: u8,
    pub SDset: bool,
    pub DCommErr: bool,
    pub DTimeout: bool,
    pub port_holds: bool,
    pub signature_holds: bool,
    pub all_zero: bool,
    pub unused: u8,
}

// What an FS-Device reads of a received SPDU (000 Table 31), in the same way.
#[repr(C)]
#[derive(Clone, Copy)]
pub struct Request {
    pub length: usize,
    pub MCount: u8,
    pub setSD: bool,
    pub ChFAckReq: bool,
    pub port_holds: bool,
    pub signature_holds: bool,
    pub all_zero: bool,
    pub unused: u16,
}

// What a call hands on at an end: process octets of this SPDU, safe values, or nothing because release goes on or because the call was refused.
// The numbers are those outside (`mark_number`).
#[derive(Clone, Copy, Debug, PartialEq, Eq)]
pub enum Mark {
    Fresh = 0,
    GoesOn = 1,
    Safe = 2,
    Nothing = 3,
}

// What happens at a port from outside (01), each with its clock reading: an SPDU received as FS-Master, one received as FS-Device, a clock
// reading alone, the operator signals setSD_C and ChFAck_C.
#[derive(Clone, Copy)]
pub enum Happening {
    Response(u32, Response),
    Request(u32, Request),
    Clock(u32),
    Operator(u32, bool, bool),
}

// A check of a received SPDU, with its number outside (`check_number`).
#[derive(Clone, Copy, Debug, PartialEq, Eq)]
pub enum Check {
    Signature = 1,
    Port = 2,
    Count = 3,
}

#[tactic(auto, unfolding(crate::specs::Time::elapsed_of))]
pub fn elapsed(now: u32, since: u32) -> u32
    ensures { result ≡ elapsed_of now since }
{
    now.wrapping_sub(since)
}

// Whether a watchdog time of w ms is over.
pub fn expired(now: u32, since: u32, w: u16) -> bool
    ensures { result ≡ expired_of now since w }
{
    (w as u32) < elapsed(now, since)
}

// The clock reading that a happening carries.
pub fn reading(happening: Happening) -> u32
    ensures { result ≡ reading_of happening }
{
    match happening {
        Happening::Response(at, _) => at,
        Happening::Request(at, _) => at,
        Happening::Clock(at) => at,
        Happening::Operator(at, _, _) => at,
    }
}

// The count that follows: 1 after 7.
pub fn count_after(count: u8) -> u8
    ensures { result ≡ count_after count }
{
    let next = count % 8 + 1;
    if next == 8 { 1 } else { next }
}

// A count's mirror, its three bits inverted.
pub fn inverted_count(count: u8) -> u8
    ensures { result ≡ inverted count }
{
    7 - count % 8
}

// The check that failed first, if one did.
pub fn first_failed(signature: bool, port: bool, count: bool) -> Option<Check>
    ensures { result ≡ check_of signature port count }
{
    if !signature {
        return Some(Check::Signature);
    }
    if !port {
        return Some(Check::Port);
    }
    if !count {
        return Some(Check::Count);
    }
    None
}

// MCommErr and CommErr: one failed. This function and `is_fresh` are public, and the definitions of their names and edits name them.
pub fn is_failure(check: Option<Check>) -> bool
    ensures { result ≡ is_failure check }
{
    check.is_some()
}

// What an end hands on, after a call in which an SPDU led to a row or not.
pub fn mark_of(admitted: bool, released: bool) -> Mark
    ensures { result ≡ mark_of admitted released }
{
    if !released {
        return Mark::Safe;
    }
    if admitted { Mark::Fresh } else { Mark::GoesOn }
}

pub fn is_fresh(mark: Mark) -> bool
    ensures { result ≡ is_fresh mark }
{
    mark == Mark::Fresh
}

pub fn mark_number(mark: Mark) -> u8
    ensures { result ≡ mark_number_of mark }
{
    mark as u8
}

// 0 where none failed. A function, as rows and checks come in an Option and Rust lets no crate write a `From` of one for u8; `mark_number` is one
// too, as a call tells it beside these.
pub fn check_number(check: Option<Check>) -> u8
    ensures { result ≡ check_number_of check }
{
    check.map_or(0, |check| check as u8)
}
