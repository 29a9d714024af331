// The rules in 01's order, a line a rule.
ghost use Rattle.std.specs.Prelude.{◌≡◌};
ghost use Rattle.answer.specs.Answers.{Taken};
ghost use Rattle.answer.specs.Rules.{answer_by};
ghost use Rattle.ranges.specs.Rules.{mode_rules, device_rules, protocol_rules, description_rules, described_rules};

use crate::fields::{Described, neither, outside};
use answer::{Answer, Refusal, refuse_if};

pub fn port_mode(mode: u8) -> Answer
    ensures { result ≡ answer_by Taken (mode_rules mode) }
{
    match mode {
        0..=4 => Err(Refusal::NoScl),
        5..=48 => Err(Refusal::PortMode),
        49..=50 => Ok(()),
        51 => Err(Refusal::NoScl),
        52..=96 => Err(Refusal::PortMode),
        97..=255 => Err(Refusal::PortMode),
    }
}

pub fn device(validation: u8, iq: u8, vendor: u16, device: u32, n: u8, p: u8) -> Answer
    ensures { result ≡ answer_by Taken (device_rules validation iq vendor device n p) }
{
    refuse_if(outside(0, 4, validation.into()), Refusal::FieldRange(3))?;
    refuse_if(neither(0, 5, iq), Refusal::FieldRange(4))?;
    refuse_if(outside(1, 65535, vendor.into()), Refusal::FieldRange(6))?;
    refuse_if(outside(1, 16777215, device), Refusal::FieldRange(8))?;
    refuse_if(outside(0, 63, n.into()), Refusal::FieldRange(12))?;
    refuse_if(outside(0, 63, p.into()), Refusal::FieldRange(13))
}

pub fn protocol(port: u8, version: u8, mode: u8, w: u16) -> Answer
    ensures { result ≡ answer_by Taken (protocol_rules port version mode w) }
{
    refuse_if(outside(1, 255, port.into()), Refusal::FieldRange(22))?;
    refuse_if(outside(1, 255, version.into()), Refusal::FieldRange(25))?;
    refuse_if(neither(1, 2, mode), Refusal::FieldRange(26))?;
    refuse_if(outside(1, 65535, w.into()), Refusal::FieldRange(27))
}

pub fn description(version: u8) -> Answer
    ensures { result ≡ answer_by Taken (description_rules version) }
{
    refuse_if(outside(1, 1, version.into()), Refusal::FieldRange(37))
}

// One direction: an SPDU beside `other` octets of other data, and its bits. LENGTH and BITS are the offsets of the two in the block.
pub fn described<const LENGTH: u8, const BITS: u8>(mode: u8, other: u8, d: Described) -> Answer
    ensures { result ≡ answer_by Taken (described_rules LENGTH BITS mode other d) }
{
    refuse_if(d.length_broken(mode, other), Refusal::FieldRange(LENGTH))?;
    refuse_if(d.bits_broken(), Refusal::FieldRange(BITS))
}
