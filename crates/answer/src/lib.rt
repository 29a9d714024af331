// Document 01's answers, and how a call's rules lead to one.
#![tactic(auto)]

ghost use Rattle.std.specs.Prelude.{◌≡◌};
ghost use Rattle.answer.specs.Answers.{Taken, refusal_number, refusal_offset, number_of, offset_of};
ghost use Rattle.answer.specs.Rules.{refused};

// One case a refusal of document 01's table, in its order. One that names a place in a parameter block holds its offset.
#[derive(Clone, Copy, Debug, PartialEq, Eq)]
pub enum Refusal {
    BlockSize,
    BlockId,
    PortMode,
    NoScl,
    FieldRange(u8),
    Signature(u8),
    Buffer,
    NoPort,
    NotRunning,
    SpduLength,
    NoSamples,
    PortMismatch,
    Record,
}

// A call's answer: TAKEN, or why it is refused.
pub type Answer = Result<(), Refusal>;

impl Refusal {
    // A match, as a case with a value has no `as u8`; and no `From`, as a refusal has two numbers of 8 bits, this one and its offset.
    pub fn number(self) -> u8
        ensures { result ≡ refusal_number self }
    {
        match self {
            Refusal::BlockSize => 1,
            Refusal::BlockId => 2,
            Refusal::PortMode => 3,
            Refusal::NoScl => 4,
            Refusal::FieldRange(_) => 5,
            Refusal::Signature(_) => 6,
            Refusal::Buffer => 7,
            Refusal::NoPort => 8,
            Refusal::NotRunning => 9,
            Refusal::SpduLength => 10,
            Refusal::NoSamples => 11,
            Refusal::PortMismatch => 12,
            Refusal::Record => 13,
        }
    }

    // 0 for numbers other than 5 and 6.
    pub fn offset(self) -> u8
        ensures { result ≡ refusal_offset self }
    {
        match self {
            Refusal::FieldRange(at) | Refusal::Signature(at) => at,
            _ => 0,
        }
    }
}

// The number of an answer, also of one that comes with a value.
pub fn number<T: Copy>(answer: Result<T, Refusal>) -> u8
    ensures { result ≡ number_of answer }
{
    answer.err().map_or(0, |refusal| refusal.number())
}

pub fn offset<T: Copy>(answer: Result<T, Refusal>) -> u8
    ensures { result ≡ offset_of answer }
{
    answer.err().map_or(0, |refusal| refusal.offset())
}

// One rule of a call. `refuse_if(..)?` goes on to the next where the rule is kept, so that the first broken one answers.
pub fn refuse_if(broken: bool, refusal: Refusal) -> Answer
    ensures { result ≡ refused Taken broken refusal }
{
    if broken { Err(refusal) } else { Ok(()) }
}
