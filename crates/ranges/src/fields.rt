// What the ranges of 01 are made of.
ghost use Rattle.std.specs.Prelude.{◌≡◌};
ghost use Rattle.ranges.specs.Fields as fields;

pub fn outside(low: u32, high: u32, x: u32) -> bool
    ensures { result ≡ fields.outside low high x }
{
    !(low..=high).contains(&x)
}

pub(crate) fn neither(a: u8, b: u8, x: u8) -> bool
    ensures { result ≡ fields.neither a b x }
{
    x != a && x != b
}

// A mode is FSP_ProtMode, an octet of `Params` that C reads and lends: each value but 1 reads as 2, and so it is no enum of two.

// The octets of an SPDU that are not process data.
pub fn safety_octets(mode: u8) -> u8
    ensures { result ≡ fields.safety_octets mode }
{
    if mode == 1 { 4 } else { 6 }
}

fn most_process_octets(mode: u8) -> u8
    ensures { result ≡ fields.most_process_octets mode }
{
    if mode == 1 { 3 } else { 25 }
}

// What a block says of one direction: its SPDU's length, and the bits, octets and integers of the process data.
#[derive(Clone, Copy)]
pub struct Described {
    pub length: u8,
    pub bits: u8,
    pub octets: u8,
    pub int16: u8,
    pub int32: u8,
}

impl Described {
    pub(crate) fn length_broken(self, mode: u8, other: u8) -> bool
        ensures { result ≡ fields.length_broken mode other self.length self.octets self.int16 self.int32 }
    {
        let length = u32::from(self.length);
        let safety = u32::from(safety_octets(mode));
        let most = u32::from(most_process_octets(mode));
        let sum = safety
            + u32::from(self.octets)
            + 2 * u32::from(self.int16)
            + 4 * u32::from(self.int32);
        outside(5, 32u32.saturating_sub(u32::from(other)), length)
            || length != sum
            || safety + most < length
    }

    pub(crate) fn bits_broken(self) -> bool
        ensures { result ≡ fields.bits_broken self.bits self.octets }
    {
        8 * u32::from(self.octets) < u32::from(self.bits)
    }
}
