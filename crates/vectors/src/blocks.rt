// Parameter blocks (000 Table 22) and document 01's answers to them. Each is a good block with a change.
use crate::Run;
use crate::print::{Told, compared};
use signature::Engine;

#[derive(Clone, Copy)]
struct Octets([u8; 48]);

// SAFETYCOM at port 1 with the short signature: no other data, and one octet of bits each way. Signatures are left 0.
const SAFETYCOM: Octets = Octets([
    // ArgBlockID, PortMode, Validation&Backup, I/Q behavior, PortCycleTime
    0x80, 0x01, 49, 0, 0, 0,
    // VendorID, DeviceID
    0, 1, 0, 0, 0, 1,
    // InputDataLength, OutputDataLength
    0, 0,
    // FSCP_Authenticity1, FSCP_Authenticity2, FSP_Port, FSP_AuthentCRC
    0, 0, 0, 0, 0, 0, 0, 0, 1, 0, 0,
    // FSP_ProtVersion, FSP_ProtMode, FSP_WatchdogTime, FSP_IO_StructCRC, FSP_TechParCRC, FSP_ProtParCRC
    1, 1, 0, 100, 0, 0, 0, 0, 0, 0, 0, 0,
    // IO_DescVersion, SPDUInLength, TotalOfInBits, TotalOfInOctets, TotalOfInInt16, TotalOfInInt32
    1, 5, 8, 1, 0, 0,
    // SPDUOutLength, TotalOfOutBits, TotalOfOutOctets, TotalOfOutInt16, TotalOfOutInt32
    5, 1, 1, 0, 0,
]);

// An octet of the good block that is changed: its offset, its value, and the number and the offset of the answer.
type Change = (usize, u8, u8, u8);

// Process octets in an SPDU that is as long as they make it: the offset of the SPDU's length, the length, the octets, and the number
// and the offset of the answer.
type Length = (usize, u8, u8, u8, u8);

// Before the block is signed.
const UNDER_RIGHT_SIGNATURES: [Change; 58] = [
    // ArgBlockID 0x0001, 0x8000
    (0, 0, 2, 0),
    (1, 0, 2, 0),
    // PortMode
    (2, 0, 4, 0),
    (2, 4, 4, 0),
    (2, 5, 3, 0),
    (2, 48, 3, 0),
    (2, 49, 0, 0),
    (2, 50, 0, 0),
    (2, 51, 4, 0),
    (2, 52, 3, 0),
    (2, 96, 3, 0),
    (2, 97, 3, 0),
    (2, 255, 3, 0),
    // Validation&Backup
    (3, 4, 0, 0),
    (3, 5, 5, 3),
    // I/Q behavior
    (4, 1, 5, 4),
    (4, 4, 5, 4),
    (4, 5, 0, 0),
    (4, 6, 5, 4),
    // PortCycleTime
    (5, 255, 0, 0),
    // VendorID 0
    (7, 0, 5, 6),
    // DeviceID 16777217, 0
    (8, 1, 5, 8),
    (11, 0, 5, 8),
    // InputDataLength, beside an SPDUInLength of 5
    (12, 27, 0, 0),
    (12, 28, 5, 38),
    (12, 63, 5, 38),
    (12, 64, 5, 12),
    (12, 128, 5, 12),
    // OutputDataLength, beside an SPDUOutLength of 5
    (13, 27, 0, 0),
    (13, 28, 5, 43),
    (13, 63, 5, 43),
    (13, 64, 5, 13),
    (13, 128, 5, 13),
    // FSP_Port, where port 1 is addressed
    (22, 0, 5, 22),
    (22, 2, 12, 0),
    (22, 255, 12, 0),
    // FSP_ProtVersion
    (25, 0, 5, 25),
    (25, 255, 0, 0),
    // FSP_ProtMode; the lengths are those of mode 1
    (26, 0, 5, 26),
    (26, 2, 5, 38),
    (26, 3, 5, 26),
    // FSP_WatchdogTime 0
    (28, 0, 5, 27),
    // IO_DescVersion
    (37, 0, 5, 37),
    (37, 2, 5, 37),
    // SPDUInLength, TotalOfInBits, TotalOfInOctets, TotalOfInInt16, TotalOfInInt32
    (38, 4, 5, 38),
    (38, 6, 5, 38),
    (39, 0, 0, 0),
    (39, 9, 5, 39),
    (40, 0, 5, 38),
    (41, 1, 5, 38),
    (42, 1, 5, 38),
    // SPDUOutLength, TotalOfOutBits, TotalOfOutOctets, TotalOfOutInt16, TotalOfOutInt32
    (43, 4, 5, 43),
    (43, 6, 5, 43),
    (44, 0, 0, 0),
    (44, 9, 5, 44),
    (45, 0, 5, 43),
    (46, 1, 5, 43),
    (47, 1, 5, 43),
];

// After it was signed.
const UNDER_EARLIER_SIGNATURES: [Change; 15] = [
    // PortCycleTime, OutputDataLength: under no signature
    (5, 1, 0, 0),
    (13, 1, 0, 0),
    // FSCP_Authenticity1, FSCP_Authenticity2, FSP_AuthentCRC
    (14, 1, 6, 23),
    (21, 1, 6, 23),
    (23, 0, 6, 23),
    (24, 0, 6, 23),
    // FSP_ProtVersion, FSP_WatchdogTime, FSP_TechParCRC, FSP_ProtParCRC
    (25, 2, 6, 35),
    (28, 101, 6, 35),
    (34, 1, 6, 35),
    (35, 0, 6, 35),
    (36, 0, 6, 35),
    // FSP_IO_StructCRC, which FSP_ProtParCRC covers
    (29, 0, 6, 29),
    (30, 0, 6, 29),
    // TotalOfInBits, TotalOfOutBits
    (39, 7, 6, 29),
    (44, 0, 6, 29),
];

const LENGTHS_16: [Length; 8] = [
    (38, 4, 0, 5, 38),
    (38, 5, 1, 0, 0),
    (38, 7, 3, 0, 0),
    (38, 8, 4, 5, 38),
    (43, 4, 0, 5, 43),
    (43, 5, 1, 0, 0),
    (43, 7, 3, 0, 0),
    (43, 8, 4, 5, 43),
];

const LENGTHS_32: [Length; 6] = [
    (38, 6, 0, 0, 0),
    (38, 31, 25, 0, 0),
    (38, 32, 26, 5, 38),
    (43, 6, 0, 0, 0),
    (43, 31, 25, 0, 0),
    (43, 32, 26, 5, 43),
];

impl Octets {
    // With these octets from an offset on.
    fn with(self, at: usize, octets: &[u8]) -> Octets {
        let mut changed = self.0;
        for (place, octet) in changed.iter_mut().skip(at).zip(octets) {
            *place = *octet;
        }
        Octets(changed)
    }

    // With the right signatures. FSP_ProtParCRC covers FSP_IO_StructCRC and so comes last.
    fn signed(self, engine: Engine) -> Octets {
        let table = signature::table_for::<u16>(engine);
        let authent = signature::sign_with::<u16>(engine, &table, 0, &self.0[14..23]);
        let io_struct = signature::sign_with::<u16>(engine, &table, 0, &self.0[37..48]);
        let block = self
            .with(23, &authent.to_be_bytes())
            .with(29, &io_struct.to_be_bytes());
        let prot_par = signature::sign_with::<u16>(engine, &table, 0, &block.0[25..35]);
        block.with(35, &prot_par.to_be_bytes())
    }
}

// Number and offset, and no Told: a row has both among its numbers, and at nine calls a Told's literal takes four lines where `1, 0` stands.
fn judged(run: Run, name: &str, octets: &[u8], port: u8, number: u8, offset: u8) {
    let answer = block::judge(run.engine, octets, port);
    let paper = Told { number, offset };
    compared(run.output, name, Told::from(answer), paper);
}

// A row of changes a line, each with the block that its change makes.
fn changes<F: Fn(usize, u8) -> Octets>(run: Run, name: &str, rows: &[Change], block: F)
    requires { F.IsAlwaysCallable block }
{
    for &(at, octet, number, offset) in rows {
        let _ = print!(run.output; "octet {at} is {octet}");
        judged(run, name, &block(at, octet).0, 1, number, offset);
    }
}

fn lengths(run: Run, name: &str, rows: &[Length], good: Octets) {
    for &(at, length, octets, number, offset) in rows {
        let block = good.with(at, &[length, 0, octets]).signed(run.engine);
        let _ = print!(run.output; "octet {at} is {length} with process octets {octets}");
        judged(run, name, &block.0, 1, number, offset);
    }
}

fn good(run: Run, name: &str, block: Octets) {
    judged(run, name, &block.signed(run.engine).0, 1, 0, 0);
}

fn modes(run: Run, short: Octets, long: Octets) {
    good(run, "SAFETYCOM, 16 bits", short);
    good(run, "SAFETYCOM, 32 bits", long);
    good(run, "MIXEDSAFETYCOM, 16 bits", short.with(2, &[50]));
    good(run, "MIXEDSAFETYCOM, 32 bits", long.with(2, &[50]));
}

// 01, "Numbers to try" and "The session program".
fn known(run: Run) {
    good(run, "n 27, m 5", SAFETYCOM.with(12, &[27]));
    let block = SAFETYCOM.with(12, &[28]).signed(run.engine);
    judged(run, "n 28, m 5", &block.0, 1, 5, 38);
    judged(run, "48 zero octets", &[0u8; 48], 1, 2, 0);
}

fn sizes_and_ports(run: Run) {
    judged(run, "no octets", b"", 1, 1, 0);
    judged(run, "47 zero octets", &[0u8; 47], 1, 1, 0);
    judged(run, "49 zero octets", &[0u8; 49], 1, 1, 0);
    let block = SAFETYCOM.signed(run.engine);
    judged(run, "port 0", &block.0, 0, 8, 0);
    judged(run, "port 9", &block.0, 9, 8, 0);
    judged(run, "port 2, FSP_Port 1", &block.0, 2, 12, 0);
}

pub(crate) fn run(run: Run) {
    let engine = run.engine;
    // The long signature has two octets more.
    let long = SAFETYCOM.with(26, &[2]).with(38, &[7]).with(43, &[7]);
    modes(run, SAFETYCOM, long);
    known(run);
    sizes_and_ports(run);
    let signed_after = |at, octet| SAFETYCOM.with(at, &[octet]).signed(engine);
    changes(run, "", &UNDER_RIGHT_SIGNATURES, signed_after);
    let signed_before = |at, octet| SAFETYCOM.signed(engine).with(at, &[octet]);
    let name = " under earlier signatures";
    changes(run, name, &UNDER_EARLIER_SIGNATURES, signed_before);
    lengths(run, ", 16 bits", &LENGTHS_16, SAFETYCOM);
    lengths(run, ", 32 bits", &LENGTHS_32, long);
}
