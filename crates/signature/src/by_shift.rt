// Signing by the bit shift algorithm of 000 Figures D.3 and D.5: all of it.
ghost use Rattle.std.specs.Prelude.{◌≡◌};
ghost use Rattle.gf2.specs.Generators.{generator16, generator32};
ghost use Rattle.signature.specs.Signature.{octet, shift_in, signature};

use crate::Register;

// 000 Figure D.3: one bit into the short register.
pub(crate) fn short_turn(register: u16, bit: bool) -> u16
    ensures { result ≡ shift_in 16 generator16 register bit }
{
    if (register & 0x8000 != 0) != bit {
        (register << 1) ^ 0x4EAB
    } else {
        register << 1
    }
}

// 000 Figure D.5: one bit into the long register.
pub(crate) fn long_turn(register: u32, bit: bool) -> u32
    ensures { result ≡ shift_in 32 generator32 register bit }
{
    if (register & 0x80000000 != 0) != bit {
        (register << 1) ^ 0xF4ACFB13
    } else {
        register << 1
    }
}

// Figures D.3 and D.5: one octet into the register, a turn for each of its bits, the highest first.
pub fn step_by_shift<R: Register>(mut register: R, mut x: u8) -> R
    ensures { R.number result ≡ octet R.width R.generator (R.number register) x }
{
    for _ in 0..8u32 {
        register = register.turn(x & 0x80 != 0);
        x <<= 1;
    }
    register
}

// Octet by octet, from the seed.
pub fn sign_by_shift<R: Register>(seed: R, octets: &[u8]) -> R
    ensures { R.number result ≡ signature R.width R.generator (R.number seed) octets.now }
{
    let mut register = seed;
    for x in octets {
        register = step_by_shift(register, *x);
    }
    register
}
