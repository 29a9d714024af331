// A block of 48 octets, read.
ghost use Rattle.std.specs.Prelude.{◌≡◌, ◌+◌, ◌≤◌};
ghost use Rattle.block.specs.Octets as octets;
ghost use Rattle.block.specs.Table22.{params_of, block_of, parameters_by};
ghost use Rattle.block.specs.Table22 as table22;

use crate::{Block, Params, Signatures};
use signature::{Engine, sign_with};

// Two functions of a line each: `from_be_bytes` is each type's own and takes its own number of octets, so a trait over both would be longer.
fn unsigned16(s: &[u8; 48], at: usize) -> u16
    requires { at + 2 ≤ 48 }
    ensures { result ≡ octets.unsigned16 s.now at }
{
    u16::from_be_bytes([s[at], s[at + 1]])
}

fn unsigned32(s: &[u8; 48], at: usize) -> u32
    requires { at + 4 ≤ 48 }
    ensures { result ≡ octets.unsigned32 s.now at }
{
    u32::from_be_bytes([s[at], s[at + 1], s[at + 2], s[at + 3]])
}

// Three readings of one array, private to the crate: a `From` would be public.
impl Params {
    fn read(s: &[u8; 48]) -> Params
        ensures { result ≡ params_of s.now }
    {
        Params {
            PortMode: s[2],
            ValidationBackup: s[3],
            IQBehavior: s[4],
            PortCycleTime: s[5],
            VendorID: unsigned16(s, 6),
            DeviceID: unsigned32(s, 8),
            InputDataLength: s[12],
            OutputDataLength: s[13],
            FSCP_Authenticity1: unsigned32(s, 14),
            FSCP_Authenticity2: unsigned32(s, 18),
            FSP_Port: s[22],
            FSP_ProtVersion: s[25],
            FSP_ProtMode: s[26],
            FSP_WatchdogTime: unsigned16(s, 27),
            FSP_TechParCRC: unsigned32(s, 31),
            IO_DescVersion: s[37],
            SPDUInLength: s[38],
            TotalOfInBits: s[39],
            TotalOfInOctets: s[40],
            TotalOfInInt16: s[41],
            TotalOfInInt32: s[42],
            SPDUOutLength: s[43],
            TotalOfOutBits: s[44],
            TotalOfOutOctets: s[45],
            TotalOfOutInt16: s[46],
            TotalOfOutInt32: s[47],
        }
    }
}

impl Signatures {
    fn carried(s: &[u8; 48]) -> Signatures
        ensures { result ≡ table22.carried s.now }
    {
        Signatures {
            FSP_AuthentCRC: unsigned16(s, 23),
            FSP_IO_StructCRC: unsigned16(s, 29),
            FSP_ProtParCRC: unsigned16(s, 35),
        }
    }

    // The signatures that the block should carry.
    pub(crate) fn computed(engine: Engine, short: &[u16; 256], s: &[u8; 48]) -> Signatures
        ensures { result ≡ table22.computed (parameters_by engine short.now) s.now }
    {
        Signatures {
            FSP_AuthentCRC: sign_with(engine, short, 0, &s[14..23]),
            FSP_IO_StructCRC: sign_with(engine, short, 0, &s[37..48]),
            FSP_ProtParCRC: sign_with(engine, short, 0, &s[25..35]),
        }
    }
}

impl Block {
    pub(crate) fn read(s: &[u8; 48]) -> Block
        ensures { result ≡ block_of s.now }
    {
        Block {
            ArgBlockID: unsigned16(s, 0),
            params: Params::read(s),
            signatures: Signatures::carried(s),
        }
    }
}
