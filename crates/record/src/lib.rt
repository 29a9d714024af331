// The records of a session (document 01, "The session program"): reading one.
#![tactic(auto)]

ghost use Rattle.std.specs.Prelude.{◌≡◌, true, ◌+◌, ◌^◌, ◌≤◌, ◌<◌, length};
ghost use Rattle.record.specs.Format as format;

// What a record brings to its port: parameters, an SPDU received as FS-Master, a clock reading, an operator's bits.
#[derive(Clone, Copy, Debug, PartialEq, Eq)]
pub enum Kind {
    Block,
    Response,
    Clock,
    Operator,
}

impl TryFrom<u8> for Kind {
    type Error = NoRecord;

    ghost try_from_gives = { λ n r. r ≡ format.kind_read n };

    fn try_from(number: u8) -> Result<Kind, NoRecord> {
        match number {
            1 => Ok(Kind::Block),
            2 => Ok(Kind::Response),
            3 => Ok(Kind::Clock),
            4 => Ok(Kind::Operator),
            _ => Err(NoRecord::Bad),
        }
    }
}

// A whole record. Its octets stand from start to next, which is past it. No slice of them: the definition `record_by`, which `read_record` promises, has
// both places, and reading goes on at next.
#[derive(Clone, Copy, Debug, PartialEq, Eq)]
pub struct Record {
    pub kind: Kind,
    pub port: u8,
    pub clock: u32,
    pub start: usize,
    pub next: usize,
}

// Why no whole record stands at a position.
#[derive(Clone, Copy, Debug, PartialEq, Eq)]
pub enum NoRecord {
    // A bad mark, kind, length or operator octet.
    Bad,
    // The octets end before the record does.
    Cut,
    // There are no octets.
    End,
}

// What stands at a position; past the end, nothing.
pub fn read_record(s: &[u8], at: usize) -> Result<Record, NoRecord>
    ensures { result ≡ format.record_at s.now at }
{
    if s.len() <= at {
        return Err(NoRecord::End);
    }
    read_first(&s[at..], at)
}

// What s begins with, s standing at position p.
fn read_first(s: &[u8], p: usize) -> Result<Record, NoRecord>
    requires { p + length s.now < 2 ^ 64 }
    ensures { result ≡ format.record_by (format.form s.now) s.now p }
{
    if s.is_empty() {
        return Err(NoRecord::End);
    }
    if s.len() < 9 {
        return Err(NoRecord::Cut);
    }
    let kind = read_head(s)?;
    let size = size(s);
    if s.len() < size {
        return Err(NoRecord::Cut);
    }
    if !octet_holds(kind, s) {
        return Err(NoRecord::Bad);
    }
    Ok(Record {
        kind,
        port: s[3],
        clock: u32::from_be_bytes([s[4], s[5], s[6], s[7]]),
        start: p + 9,
        next: p + size,
    })
}

fn size(s: &[u8]) -> usize
    requires { 9 ≤ length s.now }
    ensures { (result ≡ format.size_of s.now) × (result ≤ 264) }
{
    9 + s[8] as usize
}

fn length_holds(kind: Kind, length: u8) -> bool
    ensures { result ≡ format.length_in format.kinds (format.number_of kind) length }
{
    match kind {
        Kind::Block | Kind::Response => true,
        Kind::Clock => length == 0,
        Kind::Operator => length == 1,
    }
}

// Both octets at once, and `&` in read_head: else there are 3 or 4 instructions a record more.
#[tactic(auto, using(crate::proofs::Form::mark_is))]
fn mark_holds(s: &[u8]) -> bool
    requires { 2 ≤ length s.now }
    ensures { result ≡ format.record_mark_holds s.now }
{
    u16::from_be_bytes([s[0], s[1]]) == 0x534C
}

// The kind of a record whose head holds.
fn read_head(s: &[u8]) -> Result<Kind, NoRecord>
    requires { 9 ≤ length s.now }
    ensures { result ≡ format.head_read s.now }
{
    let kind = Kind::try_from(s[2])?;
    if mark_holds(s) & length_holds(kind, s[8]) {
        Ok(kind)
    } else {
        Err(NoRecord::Bad)
    }
}

// Of a record whose head holds and that is not cut short.
fn octet_holds(kind: Kind, s: &[u8]) -> bool
    requires all_there { format.size_of s.now ≤ length s.now }
    requires is_of_kind { format.head_read s.now ≡ Ok kind }
    ensures { result ≡ format.octet_holds s.now }
{
    match kind {
        Kind::Operator => s[9] < 4,
        _ => true,
    }
}
