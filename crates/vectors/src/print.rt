// Lines of text on standard output. A write that fails shows in the lines that are missing, so its error is passed over.
use answer::Refusal;
use std::fmt;
use std::fmt::Display;
use std::io::{Print, Stdout};

// The pattern of a float; of a NaN, all ones.
#[derive(Clone, Copy, PartialEq)]
pub(crate) struct Pattern(pub(crate) u64);

impl From<f64> for Pattern {
    fn from(x: f64) -> Pattern {
        Pattern(if x.is_nan() { u64::MAX } else { x.to_bits() })
    }
}

impl Display for Pattern {
    fn fmt<W: fmt::Write>(&self, f: &mut fmt::Formatter<W>) -> fmt::Result {
        let pattern = self.0;
        write!(f, "{pattern:016x}")
    }
}

// An answer as it is told, by its number and its offset in a block.
#[derive(Clone, Copy, PartialEq)]
pub(crate) struct Told {
    pub(crate) number: u8,
    pub(crate) offset: u8,
}

impl<T: Copy> From<Result<T, Refusal>> for Told {
    fn from(answer: Result<T, Refusal>) -> Told {
        Told {
            number: answer::number(answer),
            offset: answer::offset(answer),
        }
    }
}

impl Display for Told {
    fn fmt<W: fmt::Write>(&self, f: &mut fmt::Formatter<W>) -> fmt::Result {
        let number = self.number;
        let offset = self.offset;
        write!(f, "number {number} at offset {offset}")
    }
}

// Octets, two digits each.
#[derive(Clone, Copy, PartialEq)]
pub(crate) struct Hex<'a>(pub(crate) &'a [u8]);

impl Display for Hex<'_> {
    fn fmt<W: fmt::Write>(&self, f: &mut fmt::Formatter<W>) -> fmt::Result {
        for octet in self.0 {
            write!(f, "{octet:02x}")?;
        }
        Ok(())
    }
}

// What we compute, beside what it should be. A name serves one call, so a struct of `output` and `name` would be made at each.
pub(crate) fn compared<T: Display + PartialEq + Copy>(
    output: Stdout,
    name: &str,
    ours: T,
    paper: T,
) {
    let _ = print!(output; "{name}: {ours}");
    if ours != paper {
        let _ = print!(output; " DIFFERS from {paper}");
    }
    let _ = output.println("");
}
