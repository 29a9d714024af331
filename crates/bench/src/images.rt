// The calls on outgoing and incoming octets.
ghost use Rattle.std.specs.Prelude.{◌≡◌};
ghost use Rattle.bench.specs.Methods.{annex_d};
ghost use Rattle.bench.specs.Ports.{port_at};
ghost use Rattle.bench.specs.Images as images;

use crate::Bench;
use crate::shown::running_at;
use answer::Answer;
use signature::Engine;
use spdu::{Control, Status};

// The FS-Master's outgoing image: process octets (zeros where setSD is 1) in an SPDU, other data behind it.
#[tactic(auto, unfolding(crate::specs::Images::compose_answer, crate::specs::Images::composed))]
pub fn compose(
    engine: Engine,
    b: Bench,
    port: u8,
    process: &[u8],
    other: &[u8],
    octets: &mut [u8],
) -> Answer
    ensures value { result ≡ images.compose_answer port (port_at b port) process.now other.now octets.old }
    ensures octets_after { octets.new ≡ images.composed annex_d port (port_at b port) process.now other.now octets.old }
{
    let p = running_at(b, port)?;
    let m = p.live.master;
    let control = Control {
        MCount: m.MCount,
        setSD: m.setSD,
        ChFAckReq: m.ChFAckReq,
    };
    spdu::compose(engine, p.setting.params, control, process, other, octets)
}

// The FS-Device's outgoing SPDU; zeros until its first response.
#[tactic(auto, unfolding(crate::specs::Images::build_answer, crate::specs::Images::response_out))]
pub fn build_response(engine: Engine, b: Bench, port: u8, process: &[u8], out: &mut [u8]) -> Answer
    ensures value { result ≡ images.build_answer port (port_at b port) process.now out.old }
    ensures out_after { out.new ≡ images.response_out annex_d port (port_at b port) process.now out.old }
{
    let p = running_at(b, port)?;
    let d = p.live.device;
    let status = Status {
        DCount_i: d.DCount_i,
        SDset: d.SDset,
        DCommErr: d.DCommErr,
        DTimeout: d.DTimeout,
    };
    spdu::build_response(engine, p.setting.params, d.responded, status, process, out)
}

// TAKEN where the image has the FS-Master's SPDU and the other data.
#[tactic(auto, unfolding(crate::specs::Images::split_answer))]
pub fn split(b: Bench, port: u8, octets: &[u8]) -> Answer
    ensures { result ≡ images.split_answer port (port_at b port) octets.now }
{
    spdu::split(running_at(b, port)?.setting.params, octets)
}

// The parts are two functions that have no refusal, and not one Result of both: of a refused image each is empty, as C is told by their lengths.
#[tactic(auto, unfolding(crate::specs::Images::spdu_part))]
pub fn spdu_part(b: Bench, port: u8, octets: &[u8]) -> &[u8]
    ensures { result.now ≡ images.spdu_part port (port_at b port) octets.now }
{
    running_at(b, port).map_or(&octets[..0], |p| spdu::spdu_part(p.setting.params, octets))
}

#[tactic(auto, unfolding(crate::specs::Images::other_part))]
pub fn other_part(b: Bench, port: u8, octets: &[u8]) -> &[u8]
    ensures { result.now ≡ images.other_part port (port_at b port) octets.now }
{
    running_at(b, port).map_or(&octets[..0], |p| spdu::other_part(p.setting.params, octets))
}
