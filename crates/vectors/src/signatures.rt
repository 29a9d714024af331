// The signatures of 000 Annex D, against what 000 prints and what an independent program gives.
ghost use Rattle.std.specs.Prelude.{◌≡◌, ◌≤◌, ℕ, if◌then◌else◌, nat_eq};
ghost use Rattle.std.proofs.Common.{refl};
ghost use Rattle.signature.specs.Signature.{octet, signature};
ghost use Rattle.vectors.specs.Compared.{divided, compared_all};

use crate::Run;
use crate::print::compared;
use crate::printed::{TABLE_D4, TABLE_D7};
use signature::{Engine, Register};
use std::io::{Print, Stdout};

// A register whose table 000 prints, an entry in so many hexadecimal digits. A type parameter has no literal and no cast: hence `empty` and `entry`.
trait Printed: Register {
    const DIGITS: usize;

    fn empty() -> Self
        ensures { Self.number result ≡ 0 };

    fn entry(self) -> u32
        ensures { result ≡ Self.number self };

    // `divided` takes the width alone.
    ghost divides: { (x : ℕ) → octet Self.width Self.generator 0 x ≡ divided Self.width x };
}

impl Printed for u16 {
    const DIGITS: usize = 4;

    ghost divides = { λ _. refl };

    fn empty() -> u16 {
        0
    }

    fn entry(self) -> u32 {
        u32::from(self)
    }
}

impl Printed for u32 {
    const DIGITS: usize = 8;

    ghost divides = { λ _. refl };

    fn empty() -> u32 {
        0
    }

    fn entry(self) -> u32 {
        self
    }
}

// By a table of its own, made for the engine.
fn signed<R: Register>(engine: Engine, seed: R, octets: &[u8]) -> R
    ensures { R.number result ≡ signature R.width R.generator (R.number seed) octets.now }
{
    let table = signature::table_for::<R>(engine);
    signature::sign_with(engine, &table, seed, octets)
}

// An entry's division: the octet into an empty register.
fn division<R: Printed>(engine: Engine, x: u8) -> u32
    ensures { result ≡ divided R.width x }
{
    signed(engine, R::empty(), &[x]).entry()
}

// 0 where an entry is printed as its division, else 1, with a line that shows both.
fn misprint(output: Stdout, name: &str, i: usize, printed: u32, ours: u32, digits: usize) -> u64
    ensures { (result ≡ (if nat_eq printed ours then 0 else 1)) × (result ≤ 1) }
{
    if printed == ours {
        return 0;
    }
    let _ = print!(output; "{name}: entry {i} is printed {printed:0digits$x}");
    let _ = output.println(format_args!(", its division is {ours:0digits$x}"));
    1
}

// How many entries were compared with their divisions, and how many of them differ.
#[derive(Clone, Copy)]
struct Compared {
    entries: u64,
    differ: u64,
}

#[tactic(auto, using(crate::proofs::Compared::start, crate::proofs::Compared::again))]
fn compare<R: Printed>(run: Run, name: &str, printed: &[u32; 256]) -> Compared
    ensures { result ≡ compared_all R.width printed.now }
{
    let mut differ = 0;
    for (i, entry) in printed.iter().enumerate() {
        let ours = division::<R>(run.engine, i as u8);
        differ += misprint(run.output, name, i, *entry, ours, R::DIGITS);
    }
    let entries = printed.len() as u64;
    Compared { entries, differ }
}

fn table<R: Printed>(run: Run, name: &str, printed: &[u32; 256]) {
    let Compared { entries, differ } = compare::<R>(run, name, printed);
    let _ = print!(run.output; "{name}: {entries} entries compared with their divisions");
    let _ = run.output.println(format_args!(", {differ} differ"));
}

// 000 Figure A.1: the octets of an instance of Table A.4, and its FSP_IO_StructCRC.
fn figure_a1(run: Run) {
    let octets = [1u8, 7, 13, 2, 1, 0, 3, 0, 0, 0, 0];
    let ours = signed::<u16>(run.engine, 0, &octets);
    compared(run.output, "000 Figure A.1", ours, 0x0952);
}

// The digits 1 to 9, as an independent program has them.
fn digits(run: Run) {
    let octets = b"123456789";
    let ours = signed::<u16>(run.engine, 0, octets);
    compared(run.output, "digits, 16 bits, seed 0", ours, 52901);
    let ours = signed::<u16>(run.engine, 1, octets);
    compared(run.output, "digits, 16 bits, seed 1", ours, 42332);
    let ours = signed::<u32>(run.engine, 0, octets);
    compared(run.output, "digits, 32 bits, seed 0", ours, 1822393512);
    let ours = signed::<u32>(run.engine, 1, octets);
    compared(run.output, "digits, 32 bits, seed 1", ours, 2278983927);
}

// No octets: the seed.
fn nothing(run: Run) {
    let ours = signed::<u16>(run.engine, 1, b"");
    compared(run.output, "no octets, 16 bits, seed 1", ours, 1);
    let ours = signed::<u32>(run.engine, 4294967295, b"");
    compared(
        run.output,
        "no octets, 32 bits, seed 4294967295",
        ours,
        4294967295,
    );
}

pub(crate) fn run(run: Run) {
    table::<u16>(run, "000 Table D.4", &TABLE_D4);
    table::<u32>(run, "000 Table D.7", &TABLE_D7);
    figure_a1(run);
    digits(run);
    nothing(run);
}
