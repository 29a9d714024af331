// Safety PDUs (crate spdu). The two signature tables are passed as pointers.
ghost use Rattle.std.specs.Prelude.{◌≡◌, length};
ghost use Rattle.answer.specs.Answers.{number_of};
ghost use Rattle.spdu.specs.Signature.{by_engine};
ghost use Rattle.spdu.specs.Fields.{response_by, request_by};
ghost use Rattle.spdu.specs.Built.{buffers_hold, built_as, request_built, response_built};
ghost use Rattle.export.specs.Told.{engine_of};

use crate::signatures::engine_of;
use block::Params;
use scl::{Request, Response};
use signature::Signing;
use spdu::{Control, Status};

fn signing_of<'a>(shift: bool, short: &'a [u16; 256], long: &'a [u32; 16]) -> Signing<'a>
    ensures engine { result.engine ≡ engine_of shift }
    ensures short { result.short.now ≡ short.now }
    ensures long { result.long.now ≡ long.now }
{
    Signing {
        engine: engine_of(shift),
        short,
        long,
    }
}

#[unsafe(no_mangle)]
pub extern "C" fn whakelouna_read_response_by(
    shift: bool,
    short: &[u16; 256],
    long: &[u32; 16],
    p: Params,
    octets: &[u8],
) -> Response
    ensures { result ≡ response_by (by_engine (engine_of shift) short.now long.now) p octets.now }
{
    spdu::read_response_by(&signing_of(shift, short, long), p, octets)
}

#[unsafe(no_mangle)]
pub extern "C" fn whakelouna_read_request_by(
    shift: bool,
    short: &[u16; 256],
    long: &[u32; 16],
    p: Params,
    octets: &[u8],
) -> Request
    ensures { result ≡ request_by (by_engine (engine_of shift) short.now long.now) p octets.now }
{
    spdu::read_request_by(&signing_of(shift, short, long), p, octets)
}

// Writes the FS-Master's SPDU and returns the answer's number.
#[unsafe(no_mangle)]
pub extern "C" fn whakelouna_build_request_by(
    shift: bool,
    short: &[u16; 256],
    long: &[u32; 16],
    p: Params,
    MCount: u8,
    setSD: bool,
    ChFAckReq: bool,
    process: &[u8],
    out: &mut [u8],
) -> u8
    ensures value { result ≡ number_of (built_as (buffers_hold p.FSP_ProtMode p.SPDUOutLength (length process.now) (length out.old))) }
    ensures out_after { out.new ≡ request_built (by_engine (engine_of shift) short.now long.now) p MCount setSD ChFAckReq process.now out.old }
{
    answer::number(spdu::build_request_by(
        &signing_of(shift, short, long),
        p,
        Control {
            MCount,
            setSD,
            ChFAckReq,
        },
        process,
        out,
    ))
}

// Writes the FS-Device's SPDU and returns the answer's number.
#[unsafe(no_mangle)]
pub extern "C" fn whakelouna_build_response_by(
    shift: bool,
    short: &[u16; 256],
    long: &[u32; 16],
    p: Params,
    responded: bool,
    DCount_i: u8,
    SDset: bool,
    DCommErr: bool,
    DTimeout: bool,
    process: &[u8],
    out: &mut [u8],
) -> u8
    ensures value { result ≡ number_of (built_as (buffers_hold p.FSP_ProtMode p.SPDUInLength (length process.now) (length out.old))) }
    ensures out_after { out.new ≡ response_built (by_engine (engine_of shift) short.now long.now) p responded DCount_i SDset DCommErr DTimeout process.now out.old }
{
    answer::number(spdu::build_response_by(
        &signing_of(shift, short, long),
        p,
        responded,
        Status {
            DCount_i,
            SDset,
            DCommErr,
            DTimeout,
        },
        process,
        out,
    ))
}
