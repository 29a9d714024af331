// The register that a signature is made in, and what differs between the short one and the long one.
ghost use Rattle.std.specs.Prelude.{◌≡◌, List, ℕ, ◌^◌, replicate};
ghost use Rattle.signature.specs.Signature.{shift_in};
ghost use Rattle.signature.specs.Lookup.{Table, octet_by_table};
ghost use Rattle.signature.specs.Width.{Fits};
ghost use Rattle.signature.specs.declared.signing.Signing.{Signing};

use crate::Signing;

// Over u16 (short.rt) and u32 (long.rt). A look-up and a turn are written at each: a type parameter has no bits, and operators as bounds are no plainer.
pub trait Register: Copy {
    // An entry for each index of a look-up.
    type Table: Drop;

    ghost width: { ℕ };

    ghost generator: { ℕ };

    // The bits of a look-up's index.
    ghost index_bits: { ℕ };

    ghost number: { Self → ℕ };

    ghost entries: { Self.Table → List ℕ };

    // The table of its own that is lent.
    ghost lent: { Signing → Self.Table };

    // The table of 000.
    fn table() -> Self::Table
        ensures { Table width generator index_bits (entries result) };

    // A table that is not to be read.
    fn zeros() -> Self::Table
        ensures { entries result ≡ replicate (2 ^ index_bits) 0 };

    fn lent<'a>(signing: &'a Signing<'a>) -> &'a Self::Table
        ensures { result.now ≡ lent signing.now };

    // One octet into the register by a table.
    fn look_up(table: &Self::Table, register: Self, x: u8) -> Self
        ensures { number result ≡ octet_by_table width index_bits (entries table.now) (number register) x };

    // One bit into the register.
    fn turn(self, bit: bool) -> Self
        ensures { number result ≡ shift_in width generator (number self) bit };

    ghost fits: { Fits width generator index_bits };
}
