// The long signature's register: 32 bits.
ghost use Rattle.std.specs.Prelude.{◌≡◌};
ghost use Rattle.gf2.specs.Generators.{generator32};
ghost use Rattle.signature.specs.Lookup.{look_up};
ghost use Rattle.std.proofs.Common.{rules};

use crate::by_shift::long_turn;
use crate::{Register, Signing};

// 000 Table D.7, its first 16 entries.
const TABLE32: [u32; 16] = [
    0x00000000, 0xF4ACFB13, 0x1DF50D35, 0xE959F626, 0x3BEA1A6A, 0xCF46E179, 0x261F175F, 0xD2B3EC4C,
    0x77D434D4, 0x8378CFC7, 0x6A2139E1, 0x9E8DC2F2, 0x4C3E2EBE, 0xB892D5AD, 0x51CB238B, 0xA567D898,
];

// One look-up, of the register alone: its first four bits pick the entry, and the rest shifts left.
fn look_up32(table: &[u32; 16], register: u32) -> u32
    ensures { result ≡ look_up 32 4 table.now register 0 }
{
    table[(register >> 28) as usize] ^ (register << 4)
}

impl Register for u32 {
    type Table = [u32; 16];

    ghost width = { 32 };

    ghost generator = { generator32 };

    ghost index_bits = { 4 };

    ghost number = { λ r. r };

    ghost entries = { λ table. table };

    ghost lent = { λ signing. signing.long.now };

    ghost fits = { Prim.search rules };

    fn table() -> [u32; 16] {
        TABLE32
    }

    fn zeros() -> [u32; 16] {
        [0; 16]
    }

    fn lent<'a>(signing: &'a Signing<'a>) -> &'a [u32; 16] {
        signing.long
    }

    // 000 Figure D.6, half an octet at a time. The octet is added to the register's first eight bits ahead of both look-ups, so that its high half
    // is in the first index and its low half, shifted up by then, in the second.
    fn look_up(table: &[u32; 16], register: u32, x: u8) -> u32 {
        let half = look_up32(table, register ^ ((x as u32) << 24));
        look_up32(table, half)
    }

    fn turn(self, bit: bool) -> u32 {
        long_turn(self, bit)
    }
}
