// SPDUs of port 3 with three process octets, as an independent program gives them: built, composed into an image, split from one, and read.
use crate::Run;
use crate::print::{Hex, compared};
use block::Params;
use signature::{Engine, Signing};
use spdu::{Control, Status};
use std::io::Stdout;

// MCount 5, ChFAckReq 1.
const REQUEST_16: [u8; 7] = [0x12, 0x34, 0x56, 0x03, 0xA1, 0xD4, 0x9E];

const REQUEST_32: [u8; 9] = [0x12, 0x34, 0x56, 0x03, 0xA1, 0x82, 0xC4, 0x0B, 0x19];

// MCount 5, setSD 1: zeros for the process octets.
const SAFE_REQUEST: [u8; 7] = [0x00, 0x00, 0x00, 0x03, 0xA2, 0x84, 0xA3];

// DCount_i 2, SDset 1, DTimeout 1.
const RESPONSE_16: [u8; 7] = [0x12, 0x34, 0x56, 0x03, 0x45, 0xB5, 0x69];

const RESPONSE_32: [u8; 9] = [0x12, 0x34, 0x56, 0x03, 0x45, 0x6A, 0xDA, 0xC8, 0xBA];

// DCount_i 4, DTimeout 1: the signature is the generator. Without DTimeout the contents compute 0, and 1 is sent.
const GENERATOR: [u8; 7] = [0x00, 0x03, 0x3A, 0x03, 0x81, 0x4E, 0xAB];

const REPLACED: [u8; 7] = [0x00, 0x03, 0x3A, 0x03, 0x80, 0x00, 0x01];

// REQUEST_16 and RESPONSE_16 with two octets of other data behind them.
const REQUEST_IMAGE: [u8; 9] = [0x12, 0x34, 0x56, 0x03, 0xA1, 0xD4, 0x9E, 0xAA, 0xBB];

const RESPONSE_IMAGE: [u8; 9] = [0x12, 0x34, 0x56, 0x03, 0x45, 0xB5, 0x69, 0xAA, 0xBB];

const OTHER: [u8; 2] = [0xAA, 0xBB];

// The process octets of all but GENERATOR and REPLACED.
const PROCESS: [u8; 3] = [0x12, 0x34, 0x56];

fn params(mode: u8, length: u8) -> Params {
    Params {
        FSP_Port: 3,
        FSP_ProtMode: mode,
        SPDUInLength: length,
        SPDUOutLength: length,
        ..block::no_params()
    }
}

fn with_other_data(p: Params) -> Params {
    Params {
        InputDataLength: 2,
        OutputDataLength: 2,
        ..p
    }
}

fn request(engine: Engine, p: Params, setSD: bool, ChFAckReq: bool, out: &mut [u8]) {
    let short = signature::table_for::<u16>(engine);
    let long = signature::table_for::<u32>(engine);
    let signing = Signing {
        engine,
        short: &short,
        long: &long,
    };
    let control = Control {
        MCount: 5,
        setSD,
        ChFAckReq,
    };
    let _ = spdu::build_request_by(&signing, p, control, &PROCESS, out);
}

fn response(
    engine: Engine,
    p: Params,
    DCount_i: u8,
    SDset: bool,
    DTimeout: bool,
    process: &[u8],
    out: &mut [u8],
) {
    let short = signature::table_for::<u16>(engine);
    let long = signature::table_for::<u32>(engine);
    let signing = Signing {
        engine,
        short: &short,
        long: &long,
    };
    let status = Status {
        DCount_i,
        SDset,
        DCommErr: false,
        DTimeout,
    };
    let _ = spdu::build_response_by(&signing, p, true, status, process, out);
}

fn octets(output: Stdout, name: &str, ours: &[u8], paper: &[u8]) {
    compared(output, name, Hex(ours), Hex(paper));
}

fn requests(run: Run) {
    let mut out = [0u8; 7];
    request(run.engine, params(1, 7), false, true, &mut out);
    octets(run.output, "request, 16 bits", &out, &REQUEST_16);
    request(run.engine, params(1, 7), true, false, &mut out);
    octets(
        run.output,
        "request with setSD, 16 bits",
        &out,
        &SAFE_REQUEST,
    );
    let mut out = [0u8; 9];
    request(run.engine, params(2, 9), false, true, &mut out);
    octets(run.output, "request, 32 bits", &out, &REQUEST_32);
}

fn responses(run: Run) {
    let mut out = [0u8; 7];
    response(run.engine, params(1, 7), 2, true, true, &PROCESS, &mut out);
    octets(run.output, "response, 16 bits", &out, &RESPONSE_16);
    let mut out = [0u8; 9];
    response(run.engine, params(2, 9), 2, true, true, &PROCESS, &mut out);
    octets(run.output, "response, 32 bits", &out, &RESPONSE_32);
}

fn zero_replaced(run: Run) {
    let process = [0x00u8, 0x03, 0x3A];
    let mut out = [0u8; 7];
    response(run.engine, params(1, 7), 4, false, true, &process, &mut out);
    octets(run.output, "response that computes 4EAB", &out, &GENERATOR);
    response(
        run.engine,
        params(1, 7),
        4,
        false,
        false,
        &process,
        &mut out,
    );
    octets(run.output, "response that computes 0", &out, &REPLACED);
}

fn composed(run: Run) {
    let p = with_other_data(params(1, 7));
    let mut image = [0u8; 9];
    let control = Control {
        MCount: 5,
        setSD: false,
        ChFAckReq: true,
    };
    let answer = spdu::compose(run.engine, p, control, &PROCESS, &OTHER, &mut image);
    compared(run.output, "composed, answer", answer::number(answer), 0);
    octets(run.output, "composed", &image, &REQUEST_IMAGE);
}

fn split(output: Stdout) {
    let p = with_other_data(params(1, 7));
    let image = RESPONSE_IMAGE;
    let number = answer::number(spdu::split(p, &image));
    compared(output, "split, answer", number, 0);
    let spdu = spdu::spdu_part(p, &image);
    octets(output, "split, SPDU", spdu, &RESPONSE_16);
    let other = spdu::other_part(p, &image);
    octets(output, "split, other data", other, &OTHER);
    let number = answer::number(spdu::split(p, &image[..8]));
    compared(output, "one octet short, split, answer", number, 7);
}

// What is read, beside what was written: the names follow the reading's.
fn read(output: Stdout, name: &str, found: &[(&str, u8, u8)]) {
    for &(part, ours, paper) in found {
        let _ = print!(output; "{name} read, ");
        compared(output, part, ours, paper);
    }
}

fn response_read(run: Run) {
    let r = spdu::read_response(run.engine, params(1, 7), &RESPONSE_16);
    let found = [
        ("DCount_i", r.DCount_i, 2),
        ("SDset", u8::from(r.SDset), 1),
        ("DCommErr", u8::from(r.DCommErr), 0),
        ("DTimeout", u8::from(r.DTimeout), 1),
        ("port holds", u8::from(r.port_holds), 1),
        ("signature holds", u8::from(r.signature_holds), 1),
        ("all zero", u8::from(r.all_zero), 0),
    ];
    read(run.output, "response", &found);
}

fn request_read(run: Run) {
    let r = spdu::read_request(run.engine, params(2, 9), &REQUEST_32);
    let found = [
        ("MCount", r.MCount, 5),
        ("setSD", u8::from(r.setSD), 0),
        ("ChFAckReq", u8::from(r.ChFAckReq), 1),
        ("port holds", u8::from(r.port_holds), 1),
        ("signature holds", u8::from(r.signature_holds), 1),
        ("all zero", u8::from(r.all_zero), 0),
    ];
    read(run.output, "request", &found);
}

// DTimeout flipped, and the port number of another port.
fn damaged_read(run: Run) {
    let mut spdu = RESPONSE_16;
    spdu[4] = 0x44;
    let r = spdu::read_response(run.engine, params(1, 7), &spdu);
    let found = [("signature holds", u8::from(r.signature_holds), 0)];
    read(run.output, "damaged response", &found);
    spdu[3] = 0x02;
    let r = spdu::read_response(run.engine, params(1, 7), &spdu);
    let found = [("port holds", u8::from(r.port_holds), 0)];
    read(run.output, "damaged response", &found);
}

pub(crate) fn run(run: Run) {
    requests(run);
    responses(run);
    zero_replaced(run);
    composed(run);
    split(run.output);
    response_read(run);
    request_read(run);
    damaged_read(run);
}
