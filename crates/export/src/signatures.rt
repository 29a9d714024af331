// The signatures (crate signature). A table is passed as a pointer. Whatever signs has a parameter `shift`: the engine is Shift, else Table.
ghost use Rattle.std.specs.Prelude.{◌≡◌};
ghost use Rattle.gf2.specs.Generators.{generator16, generator32};
ghost use Rattle.signature.specs.Signature.{octet, signature};
ghost use Rattle.signature.specs.Lookup.{Table, by_table};
ghost use Rattle.export.specs.Told.{engine_of};

use signature::{Engine, Register};

pub(crate) fn engine_of(shift: bool) -> Engine
    ensures { result ≡ engine_of shift }
{
    if shift { Engine::Shift } else { Engine::Table }
}

// Writes the short signature's lookup table.
#[unsafe(no_mangle)]
pub extern "C" fn whakelouna_table16(table: &mut [u16; 256])
    ensures { Table 16 generator16 8 table.new }
{
    *table = u16::table();
}

// Writes the long signature's lookup table.
#[unsafe(no_mangle)]
pub extern "C" fn whakelouna_table32(table: &mut [u32; 16])
    ensures { Table 32 generator32 4 table.new }
{
    *table = u32::table();
}

#[unsafe(no_mangle)]
pub extern "C" fn whakelouna_step16(register: u16, x: u8) -> u16
    ensures { result ≡ octet 16 generator16 register x }
{
    signature::step::<u16>(register, x)
}

#[unsafe(no_mangle)]
pub extern "C" fn whakelouna_step32(register: u32, x: u8) -> u32
    ensures { result ≡ octet 32 generator32 register x }
{
    signature::step::<u32>(register, x)
}

#[unsafe(no_mangle)]
pub extern "C" fn whakelouna_signature16(seed: u16, octets: &[u8]) -> u16
    ensures { result ≡ signature 16 generator16 seed octets.now }
{
    signature::sign::<u16>(seed, octets)
}

#[unsafe(no_mangle)]
pub extern "C" fn whakelouna_signature32(seed: u32, octets: &[u8]) -> u32
    ensures { result ≡ signature 32 generator32 seed octets.now }
{
    signature::sign::<u32>(seed, octets)
}

#[unsafe(no_mangle)]
pub extern "C" fn whakelouna_signature16_by(table: &[u16; 256], seed: u16, octets: &[u8]) -> u16
    ensures { result ≡ by_table 16 8 table.now seed octets.now }
{
    signature::sign_by::<u16>(table, seed, octets)
}

#[unsafe(no_mangle)]
pub extern "C" fn whakelouna_signature32_by(table: &[u32; 16], seed: u32, octets: &[u8]) -> u32
    ensures { result ≡ by_table 32 4 table.now seed octets.now }
{
    signature::sign_by::<u32>(table, seed, octets)
}

#[unsafe(no_mangle)]
pub extern "C" fn whakelouna_step16_by_shift(register: u16, x: u8) -> u16
    ensures { result ≡ octet 16 generator16 register x }
{
    signature::step_by_shift::<u16>(register, x)
}

#[unsafe(no_mangle)]
pub extern "C" fn whakelouna_signature16_by_shift(seed: u16, octets: &[u8]) -> u16
    ensures { result ≡ signature 16 generator16 seed octets.now }
{
    signature::sign_by_shift::<u16>(seed, octets)
}

#[unsafe(no_mangle)]
pub extern "C" fn whakelouna_step32_by_shift(register: u32, x: u8) -> u32
    ensures { result ≡ octet 32 generator32 register x }
{
    signature::step_by_shift::<u32>(register, x)
}

#[unsafe(no_mangle)]
pub extern "C" fn whakelouna_signature32_by_shift(seed: u32, octets: &[u8]) -> u32
    ensures { result ≡ signature 32 generator32 seed octets.now }
{
    signature::sign_by_shift::<u32>(seed, octets)
}
