// Signing by the engine that is chosen. Whoever signs takes the engine and a table that is lent, made once by `table_for`.
//
// The engine is matched here, and is no closure: C gives it as a flag, and it picks among three kinds of step (a table, an octet, all octets).
ghost use Rattle.std.specs.Prelude.{◌≡◌, ◌^◌, replicate};
ghost use Rattle.signature.specs.Engines.{octet_by, signed_by, Serves};

use crate::by_shift::{sign_by_shift, step_by_shift};
use crate::by_table::sign_by;
use crate::{Engine, Register};

// Zeros for Shift: no entry is there to be read by mistake.
pub fn table_for<R: Register>(engine: Engine) -> R::Table
    ensures serves { Serves engine R.width R.generator R.index_bits (R.entries result) }
    ensures zeros_for_shift { engine ≡ Engine.Shift → R.entries result ≡ replicate (2 ^ R.index_bits) 0 }
{
    match engine {
        Engine::Table => R::table(),
        Engine::Shift => R::zeros(),
    }
}

pub fn step_with<R: Register>(engine: Engine, table: &R::Table, register: R, x: u8) -> R
    ensures { R.number result ≡ octet_by engine R.width R.generator R.index_bits (R.entries table.now) (R.number register) x }
{
    match engine {
        Engine::Table => R::look_up(table, register, x),
        Engine::Shift => step_by_shift(register, x),
    }
}

pub fn sign_with<R: Register>(engine: Engine, table: &R::Table, seed: R, octets: &[u8]) -> R
    ensures { R.number result ≡ signed_by engine R.width R.generator R.index_bits (R.entries table.now) (R.number seed) octets.now }
{
    match engine {
        Engine::Table => sign_by(table, seed, octets),
        Engine::Shift => sign_by_shift(seed, octets),
    }
}
