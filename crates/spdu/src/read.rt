// Reading a received SPDU.
ghost use Rattle.std.specs.Prelude.{◌≡◌, ◌+◌, ◌≤◌, get_or, length};
ghost use Rattle.ranges.specs.Fields.{safety_octets};
ghost use Rattle.spdu.specs.Signature.{by_engine, replaced};
ghost use Rattle.spdu.specs.Places as places;
ghost use Rattle.spdu.specs.Fields as fields;

use block::Params;
use scl::{Request, Response};
use signature::Signing;

// How many process octets an SPDU of n octets has.
pub(crate) fn process_octets(mode: u8, n: usize) -> usize
    ensures { result ≡ places.process_octets mode n }
{
    n.saturating_sub(ranges::safety_octets(mode) as usize)
}

fn octet(s: &[u8], at: usize) -> u8
    ensures { result ≡ get_or s.now at 0 }
{
    s.get(at).copied().unwrap_or(0)
}

// The signature that the contents compute, before a zero is replaced.
// Each width has a register of its own type (crate signature), so the modes are two branches.
#[inline(always)]
fn sign(signing: &Signing, mode: u8, contents: &[u8]) -> u32
    ensures { result ≡ by_engine signing.now.engine signing.now.short.now signing.now.long.now mode contents.now }
{
    if mode == 1 {
        signing.sign::<u16>(1, contents) as u32
    } else {
        signing.sign::<u32>(1, contents)
    }
}

pub(crate) fn replace(x: u32) -> u32
    ensures { result ≡ replaced x }
{
    x.max(1)
}

// By `s.iter().all(|&x| x == 0)`, which was tried and proves, it takes some five instructions a record more.
pub(crate) fn all_zero(s: &[u8]) -> bool
    ensures { result ≡ places.is_all_zero s.now }
{
    for x in s {
        if *x != 0 {
            return false;
        }
    }
    true
}

// What an SPDU carries behind its process octets; `control` is the status octet of a response.
#[derive(Clone, Copy)]
struct Trailer {
    port: u8,
    control: u8,
    signature_holds: bool,
}

// The signature that an SPDU carries, from `at` on: 2 behind the process octets. Where all its octets are there they are read at once.
// Four arms, as the modes' signatures have two lengths, and an octet that may be missing is read in another way.
fn carried(mode: u8, s: &[u8], at: usize) -> u32
    requires { at ≤ length s.now + 2 }
    ensures { result ≡ places.carried_at mode s.now at }
{
    let octets = if mode == 1 { 2 } else { 4 };
    match (mode == 1, at + octets <= s.len()) {
        (true, true) => u16::from_be_bytes([s[at], s[at + 1]]) as u32,
        (true, false) => u16::from_be_bytes([octet(s, at), octet(s, at + 1)]) as u32,
        (false, true) => u32::from_be_bytes([s[at], s[at + 1], s[at + 2], s[at + 3]]),
        (false, false) => u32::from_be_bytes([
            octet(s, at),
            octet(s, at + 1),
            octet(s, at + 2),
            octet(s, at + 3),
        ]),
    }
}

// Behind `at` process octets. Inlined, so that no place is tested where `at` is worked out from the end.
#[inline(always)]
fn trailer_at<const MODE: u8>(signing: &Signing, s: &[u8], at: usize) -> Trailer
    requires { at ≡ places.process_octets MODE (length s.now) }
    ensures { result ≡ fields.trailer_of (by_engine signing.now.engine signing.now.short.now signing.now.long.now) MODE s.now }
{
    let end = (at + 2).min(s.len());
    Trailer {
        port: octet(s, at),
        control: octet(s, at + 1),
        signature_holds: replace(sign(signing, MODE, &s[..end])) == carried(MODE, s, at + 2),
    }
}

// An SPDU that lacks safety octets, as none does that is configured, has no process octets.
#[inline(always)]
fn trailer_in<const MODE: u8>(signing: &Signing, s: &[u8]) -> Trailer
    ensures { result ≡ fields.trailer_of (by_engine signing.now.engine signing.now.short.now signing.now.long.now) MODE s.now }
{
    let safety = ranges::safety_octets(MODE) as usize;
    if s.len() < safety {
        trailer_at::<MODE>(signing, s, 0)
    } else {
        trailer_at::<MODE>(signing, s, s.len() - safety)
    }
}

// Any mode but 1 reads as 2. Two branches, as the trailers have two lengths and `trailer_in` takes the mode as a constant.
fn trailer_by(signing: &Signing, mode: u8, s: &[u8]) -> Trailer
    ensures { result ≡ fields.trailer_of (by_engine signing.now.engine signing.now.short.now signing.now.long.now) mode s.now }
{
    if mode == 1 {
        trailer_in::<1>(signing, s)
    } else {
        trailer_in::<2>(signing, s)
    }
}

// The fields of an SPDU, whatever its length.
// A Response and a Request have other fields (000 Tables 31 and 32) and other lengths, so each has a function of its own.
pub fn response_fields_by(signing: &Signing, p: Params, s: &[u8]) -> Response
    ensures { result ≡ fields.response_fields (by_engine signing.now.engine signing.now.short.now signing.now.long.now) p s.now }
{
    let t = trailer_by(signing, p.FSP_ProtMode, s);
    let status = t.control;
    Response {
        length: s.len(),
        DCount_i: status / 32 % 8,
        SDset: status / 4 % 2 == 1,
        DCommErr: status / 2 % 2 == 1,
        DTimeout: status % 2 == 1,
        port_holds: t.port == p.FSP_Port,
        signature_holds: t.signature_holds,
        all_zero: all_zero(s),
        unused: 0,
    }
}

// `response_by` and `request_by` say what an SPDU of another length reads as, and C's structs have it: so neither function has an Option.
pub fn read_response_by(signing: &Signing, p: Params, s: &[u8]) -> Response
    ensures { result ≡ fields.response_by (by_engine signing.now.engine signing.now.short.now signing.now.long.now) p s.now }
{
    if s.len() == p.SPDUInLength as usize {
        response_fields_by(signing, p, s)
    } else {
        Response {
            length: s.len(),
            DCount_i: 0,
            SDset: false,
            DCommErr: false,
            DTimeout: false,
            port_holds: false,
            signature_holds: false,
            all_zero: false,
            unused: 0,
        }
    }
}

// The fields of an SPDU, whatever its length.
pub fn request_fields_by(signing: &Signing, p: Params, s: &[u8]) -> Request
    ensures { result ≡ fields.request_fields (by_engine signing.now.engine signing.now.short.now signing.now.long.now) p s.now }
{
    let t = trailer_by(signing, p.FSP_ProtMode, s);
    let control = t.control;
    Request {
        length: s.len(),
        MCount: control / 32 % 8,
        setSD: control / 2 % 2 == 1,
        ChFAckReq: control % 2 == 1,
        port_holds: t.port == p.FSP_Port,
        signature_holds: t.signature_holds,
        all_zero: all_zero(s),
        unused: 0,
    }
}

pub fn read_request_by(signing: &Signing, p: Params, s: &[u8]) -> Request
    ensures { result ≡ fields.request_by (by_engine signing.now.engine signing.now.short.now signing.now.long.now) p s.now }
{
    if s.len() == p.SPDUOutLength as usize {
        request_fields_by(signing, p, s)
    } else {
        Request {
            length: s.len(),
            MCount: 0,
            setSD: false,
            ChFAckReq: false,
            port_holds: false,
            signature_holds: false,
            all_zero: false,
            unused: 0,
        }
    }
}
