// The same with tables of its own: what 000 says, whichever the engine, with no table in the contract. Each call lays both tables on the stack.
ghost use Rattle.std.specs.Prelude.{◌≡◌, length};
ghost use Rattle.spdu.specs.Signature.{by_bits, by_engine};
ghost use Rattle.spdu.specs.Fields.{response_by, request_by};
ghost use Rattle.spdu.specs.Built.{built_as, buffers_hold, response_built};
ghost use Rattle.spdu.specs.Image.{composer_holds, composed};

use crate::build::build_response_by;
use crate::control::{Control, Status};
use crate::image::compose_by;
use crate::read::{read_request_by, read_response_by};
use answer::Answer;
use block::Params;
use scl::{Request, Response};
use signature::{Engine, Signing};

// An engine with the tables that serve it: it signs as 000 says.
#[derive(Drop)]
struct Tables {
    engine: Engine,
    short: [u16; 256],
    long: [u32; 16],
    ghost serve: { by_engine engine short long ≡ by_bits },
}

impl Tables {
    #[tactic(auto, using(crate::proofs::Engines::right_method))]
    fn of(engine: Engine) -> Tables
        ensures { result.engine ≡ engine }
    {
        Tables {
            engine,
            short: signature::table_for::<u16>(engine),
            long: signature::table_for::<u32>(engine),
        }
    }

    fn signing(&self) -> Signing<'_>
        ensures { by_engine result.engine result.short.now result.long.now ≡ by_bits }
    {
        Signing {
            engine: self.engine,
            short: &self.short,
            long: &self.long,
        }
    }
}

pub fn read_response(engine: Engine, p: Params, s: &[u8]) -> Response
    ensures { result ≡ response_by by_bits p s.now }
{
    let tables = Tables::of(engine);
    let signing = tables.signing();
    read_response_by(&signing, p, s)
}

pub fn read_request(engine: Engine, p: Params, s: &[u8]) -> Request
    ensures { result ≡ request_by by_bits p s.now }
{
    let tables = Tables::of(engine);
    let signing = tables.signing();
    read_request_by(&signing, p, s)
}

pub fn build_response(
    engine: Engine,
    p: Params,
    responded: bool,
    status: Status,
    process: &[u8],
    out: &mut [u8],
) -> Answer
    ensures value { result ≡ built_as (buffers_hold p.FSP_ProtMode p.SPDUInLength (length process.now) (length out.old)) }
    ensures out_after { out.new ≡ response_built by_bits p responded status.DCount_i status.SDset status.DCommErr status.DTimeout process.now out.old }
{
    let tables = Tables::of(engine);
    let signing = tables.signing();
    build_response_by(&signing, p, responded, status, process, out)
}

pub fn compose(
    engine: Engine,
    p: Params,
    control: Control,
    process: &[u8],
    other: &[u8],
    octets: &mut [u8],
) -> Answer
    ensures value { result ≡ built_as (composer_holds p (length process.now) (length other.now) (length octets.old)) }
    ensures octets_after { octets.new ≡ composed by_bits p control.MCount control.setSD control.ChFAckReq process.now other.now octets.old }
{
    let tables = Tables::of(engine);
    let signing = tables.signing();
    compose_by(&signing, p, control, process, other, octets)
}
