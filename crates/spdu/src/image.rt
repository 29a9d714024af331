// The SPDU's place in the process data image, and the values handed on.
ghost use Rattle.std.specs.Prelude.{◌≡◌, ◌+◌, length};
ghost use Rattle.spdu.specs.Signature.{by_engine};
ghost use Rattle.spdu.specs.Built.{built_as};
ghost use Rattle.spdu.specs.Image as image;

use crate::build::{buffers_hold, build_request_by};
use crate::control::Control;
use crate::read::{all_zero, process_octets};
use answer::{Answer, Refusal, refuse_if};
use block::Params;
use scl::Mark;
use signature::Signing;

fn composer_holds(p: Params, process: usize, other: usize, octets: usize) -> bool
    ensures { result ≡ image.composer_holds p process other octets }
{
    let o = p.SPDUOutLength as usize;
    let rest = p.OutputDataLength as usize;
    buffers_hold(p.FSP_ProtMode, p.SPDUOutLength, process, o)
        & (other == rest)
        & (octets == o + rest)
}

// The outgoing image of the FS-Master: the SPDU is built in its place, and the other data stands behind it.
pub fn compose_by(
    signing: &Signing,
    p: Params,
    control: Control,
    process: &[u8],
    other: &[u8],
    octets: &mut [u8],
) -> Answer
    ensures value { result ≡ built_as (image.composer_holds p (length process.now) (length other.now) (length octets.old)) }
    ensures octets_after { octets.new ≡ image.composed (by_engine signing.now.engine signing.now.short.now signing.now.long.now) p control.MCount control.setSD control.ChFAckReq process.now other.now octets.old }
{
    let holds = composer_holds(p, process.len(), other.len(), octets.len());
    refuse_if(!holds, Refusal::Buffer)?;
    let (spdu, rest) = octets.split_at_mut(p.SPDUOutLength as usize);
    build_request_by(signing, p, control, process, spdu)?;
    rest.copy_from_slice(other);
    Ok(())
}

fn splitter_holds(p: Params, n: usize) -> bool
    ensures { result ≡ image.splitter_holds p n }
{
    n == p.SPDUInLength as usize + p.InputDataLength as usize
}

// TAKEN, or 7 for an image of a wrong length.
pub fn split(p: Params, octets: &[u8]) -> Answer
    ensures { result ≡ built_as (image.splitter_holds p (length octets.now)) }
{
    refuse_if(!splitter_holds(p, octets.len()), Refusal::Buffer)
}

// The SPDU and the other data; of an image of another length nothing.
fn parts(p: Params, octets: &[u8]) -> (&[u8], &[u8])
    ensures spdu { result.0.now ≡ image.spdu_part p octets.now }
    ensures other { result.1.now ≡ image.other_part p octets.now }
{
    if splitter_holds(p, octets.len()) {
        octets.split_at(p.SPDUInLength as usize)
    } else {
        (&octets[..0], &octets[..0])
    }
}

pub fn spdu_part(p: Params, octets: &[u8]) -> &[u8]
    ensures { result.now ≡ image.spdu_part p octets.now }
{
    parts(p, octets).0
}

pub fn other_part(p: Params, octets: &[u8]) -> &[u8]
    ensures { result.now ≡ image.other_part p octets.now }
{
    parts(p, octets).1
}

// What a call hands on: process octets of the SPDU, the safe values, or nothing.
pub fn handed_on<'a>(mark: Mark, mode: u8, spdu: &'a [u8], safe: &'a [u8]) -> &'a [u8]
    ensures { result.now ≡ image.handed_on mark mode spdu.now safe.now }
{
    match mark {
        Mark::Fresh => &spdu[..process_octets(mode, spdu.len())],
        Mark::Safe => safe,
        Mark::GoesOn | Mark::Nothing => &safe[..0],
    }
}

// The length is compared first, so that of safe values of a wrong length no octet is read.
pub fn safe_values_hold(mode: u8, n: usize, safe: &[u8]) -> bool
    ensures { result ≡ image.safe_values_hold mode n safe.now }
{
    safe.len() == process_octets(mode, n) && all_zero(safe)
}
