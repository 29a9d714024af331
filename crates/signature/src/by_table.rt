// Signing by the look-up (000 Figures D.4 and D.6).
ghost use Rattle.std.specs.Prelude.{◌≡◌};
ghost use Rattle.signature.specs.Signature.{octet, signature};
ghost use Rattle.signature.specs.Lookup.{by_table};

use crate::Register;

pub fn sign_by<R: Register>(table: &R::Table, seed: R, octets: &[u8]) -> R
    ensures { R.number result ≡ by_table R.width R.index_bits (R.entries table.now) (R.number seed) octets.now }
{
    let mut register = seed;
    for x in octets {
        register = R::look_up(table, register, *x);
    }
    register
}

pub fn step<R: Register>(register: R, x: u8) -> R
    ensures { R.number result ≡ octet R.width R.generator (R.number register) x }
{
    R::look_up(&R::table(), register, x)
}

pub fn sign<R: Register>(seed: R, octets: &[u8]) -> R
    ensures { R.number result ≡ signature R.width R.generator (R.number seed) octets.now }
{
    sign_by(&R::table(), seed, octets)
}
