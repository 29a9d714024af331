// The parameter block: the 48 octets of FSPortConfigList (000 Table 22), read, judged and turned into parameters.
#![tactic(auto)]

ghost use Rattle.std.specs.Prelude.{◌≡◌};
ghost use Rattle.answer.specs.Answers.{Taken};
ghost use Rattle.answer.specs.Rules.{answer_by};
ghost use Rattle.block.specs.Rules.{id_rules, field_rules, agreement_rules, no_params, judged_by, judged};
ghost use Rattle.block.specs.Table22.{parameters_by};

mod octets;

use answer::{Answer, Refusal, refuse_if};
use ranges::Described;
use signature::Engine;

// An accepted block as it stands, under 000's names: all but its ID and the three signatures that are checked. The layers above read
// FSP_Port, FSP_ProtMode, FSP_WatchdogTime (W) and the four lengths: InputDataLength is n, OutputDataLength p, SPDUInLength m, SPDUOutLength o.
// They read no other field; the others are kept so that a caller can be shown the accepted block. The widest stand first, so that no octet is padding.
// The two directions are no type of their own here: C reads this layout.
#[repr(C)]
#[derive(Clone, Copy, Default)]
pub struct Params {
    pub DeviceID: u32,
    pub FSCP_Authenticity1: u32,
    pub FSCP_Authenticity2: u32,
    pub FSP_TechParCRC: u32,
    pub VendorID: u16,
    pub FSP_WatchdogTime: u16,
    pub PortMode: u8,
    pub ValidationBackup: u8,
    pub IQBehavior: u8,
    pub PortCycleTime: u8,
    pub InputDataLength: u8,
    pub OutputDataLength: u8,
    pub FSP_Port: u8,
    pub FSP_ProtVersion: u8,
    pub FSP_ProtMode: u8,
    pub IO_DescVersion: u8,
    pub SPDUInLength: u8,
    pub SPDUOutLength: u8,
    pub TotalOfInBits: u8,
    pub TotalOfInOctets: u8,
    pub TotalOfInInt16: u8,
    pub TotalOfInInt32: u8,
    pub TotalOfOutBits: u8,
    pub TotalOfOutOctets: u8,
    pub TotalOfOutInt16: u8,
    pub TotalOfOutInt32: u8,
}

// The three signatures that are checked.
#[derive(Clone, Copy)]
pub struct Signatures {
    pub FSP_AuthentCRC: u16,
    pub FSP_IO_StructCRC: u16,
    pub FSP_ProtParCRC: u16,
}

// All that stands in a block.
#[derive(Clone, Copy)]
pub struct Block {
    pub ArgBlockID: u16,
    pub params: Params,
    pub signatures: Signatures,
}

impl Block {
    fn id(self) -> Answer
        ensures { result ≡ answer_by Taken (id_rules self) }
    {
        refuse_if(self.ArgBlockID != 0x8001, Refusal::BlockId)
    }

    fn fields(self) -> Answer
        ensures { result ≡ answer_by Taken (field_rules self) }
    {
        let p = self.params;
        ranges::port_mode(p.PortMode)?;
        ranges::device(
            p.ValidationBackup,
            p.IQBehavior,
            p.VendorID,
            p.DeviceID,
            p.InputDataLength,
            p.OutputDataLength,
        )?;
        ranges::protocol(
            p.FSP_Port,
            p.FSP_ProtVersion,
            p.FSP_ProtMode,
            p.FSP_WatchdogTime,
        )?;
        ranges::description(p.IO_DescVersion)?;
        let input = Described {
            length: p.SPDUInLength,
            bits: p.TotalOfInBits,
            octets: p.TotalOfInOctets,
            int16: p.TotalOfInInt16,
            int32: p.TotalOfInInt32,
        };
        let output = Described {
            length: p.SPDUOutLength,
            bits: p.TotalOfOutBits,
            octets: p.TotalOfOutOctets,
            int16: p.TotalOfOutInt16,
            int32: p.TotalOfOutInt32,
        };
        ranges::described::<38, 39>(p.FSP_ProtMode, p.InputDataLength, input)?;
        ranges::described::<43, 44>(p.FSP_ProtMode, p.OutputDataLength, output)
    }

    fn agreement(self, right: Signatures, port: u8) -> Answer
        ensures { result ≡ answer_by Taken (agreement_rules self right port) }
    {
        let found = self.signatures;
        refuse_if(self.params.FSP_Port != port, Refusal::PortMismatch)?;
        refuse_if(
            found.FSP_AuthentCRC != right.FSP_AuthentCRC,
            Refusal::Signature(23),
        )?;
        refuse_if(
            found.FSP_IO_StructCRC != right.FSP_IO_StructCRC,
            Refusal::Signature(29),
        )?;
        refuse_if(
            found.FSP_ProtParCRC != right.FSP_ProtParCRC,
            Refusal::Signature(35),
        )
    }
}

// Judges octets of any length, addressed to any port: the parameters of a block that is accepted, or why it is refused. It takes the short table
// alone and no `Signing`, which would ask a caller for a long table that no block is signed by.
pub fn judge_by(
    engine: Engine,
    short: &[u16; 256],
    octets: &[u8],
    port: u8,
) -> Result<Params, Refusal>
    ensures { result ≡ judged_by (parameters_by engine short.now) octets.now port }
{
    refuse_if(ranges::outside(1, 8, port.into()), Refusal::NoPort)?;
    let Ok(octets) = <&[u8; 48]>::try_from(octets) else {
        return Err(Refusal::BlockSize);
    };
    let b = Block::read(octets);
    b.id()?;
    b.fields()?;
    b.agreement(Signatures::computed(engine, short, octets), port)?;
    Ok(b.params)
}

// The same with tables of its own: what 000 says, whichever the engine.
pub fn judge(engine: Engine, octets: &[u8], port: u8) -> Result<Params, Refusal>
    ensures { result ≡ judged octets.now port }
{
    let short = signature::table_for::<u16>(engine);
    judge_by(engine, &short, octets, port)
}

// The parameters of a port that has none: zeros.
pub fn no_params() -> Params
    ensures { result ≡ no_params }
{
    Params::default()
}
