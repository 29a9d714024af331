// An engine with the two tables that are lent to it.
ghost use Rattle.std.specs.Prelude.{◌≡◌};
ghost use Rattle.signature.specs.Engines.{octet_by, signed_by};

use crate::{Engine, Register, sign_with, step_with};

// For whoever signs many times: each table is named once. It takes any tables; those of `table_for` serve the engine.
#[derive(Clone, Copy)]
pub struct Signing<'a> {
    pub engine: Engine,
    pub short: &'a [u16; 256],
    pub long: &'a [u32; 16],
}

impl Signing<'_> {
    // One octet into the register, of either signature.
    pub fn step<R: Register>(&self, register: R, x: u8) -> R
        ensures { R.number result ≡ octet_by self.now.engine R.width R.generator R.index_bits (R.entries (R.lent self.now)) (R.number register) x }
    {
        step_with(self.engine, R::lent(self), register, x)
    }

    // Octets, from the seed.
    pub fn sign<R: Register>(&self, seed: R, octets: &[u8]) -> R
        ensures { R.number result ≡ signed_by self.now.engine R.width R.generator R.index_bits (R.entries (R.lent self.now)) (R.number seed) octets.now }
    {
        sign_with(self.engine, R::lent(self), seed, octets)
    }
}
