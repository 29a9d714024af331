// What a call handed on, at one end of a port: by the mark of the call's reply, from the bench that the call returned and what was lent to the
// call. None of these is believed: octets of an SPDU go out only where that bench shows that the end admitted it and releases.
ghost use Rattle.std.specs.Prelude.{◌≡◌, length, MatchResult};
ghost use Rattle.answer.specs.Answers.{Taken};
ghost use Rattle.answer.specs.Rules.{answer_by};
ghost use Rattle.bench.specs.Methods.{annex_d};
ghost use Rattle.bench.specs.Ports.{port_at};
ghost use Rattle.bench.specs.Handing as handing;

use crate::acts::port_answer;
use crate::calls::port_at;
use crate::{Bench, End, Port};
use answer::{Answer, Refusal, refuse_if};
use scl::Mark;
use signature::Engine;

// Engine, port, end, mark, SPDU and safe values stand one by one, as C gives them to the public functions (include/whakelouna.h, `whakelouna_handed_on`).

// Two, as a response and a request have their counts in other fields, of other types.
fn is_last_response(engine: Engine, p: Port, spdu: &[u8]) -> bool
    ensures { result ≡ handing.is_last_response annex_d p spdu.now }
{
    let f = spdu::read_response(engine, p.setting.params, spdu);
    f.signature_holds & f.port_holds & (f.DCount_i as u16 == p.live.master.carried)
}

fn is_last_request(engine: Engine, p: Port, spdu: &[u8]) -> bool
    ensures { result ≡ handing.is_last_request annex_d p spdu.now }
{
    let q = spdu::read_request(engine, p.setting.params, spdu);
    q.signature_holds & q.port_holds & (q.MCount == p.live.device.MCount)
}

fn is_last_at(engine: Engine, end: End, p: Port, spdu: &[u8]) -> bool
    ensures { result ≡ handing.is_last_at annex_d end p spdu.now }
{
    match end {
        End::Master => is_last_response(engine, p, spdu),
        End::Device => is_last_request(engine, p, spdu),
    }
}

fn unless_safe(mark: Mark, allowed: bool) -> Mark
    ensures { result ≡ handing.unless_safe mark allowed }
{
    if allowed { mark } else { Mark::Safe }
}

fn allowed_mark(engine: Engine, end: End, p: Port, mark: Mark, spdu: &[u8]) -> Mark
    ensures { result ≡ handing.allowed_mark annex_d end p mark spdu.now }
{
    let releases = end.releases(p);
    match mark {
        Mark::Fresh => unless_safe(mark, releases & is_last_at(engine, end, p, spdu)),
        Mark::GoesOn => unless_safe(mark, releases),
        Mark::Safe | Mark::Nothing => mark,
    }
}

// 8, 9, 10 and 7; `holds`: what is lent holds.
fn lent_answer(port: u8, p: Port, end: End, mark: Mark, length: usize, holds: bool) -> Answer
    ensures { result ≡ answer_by Taken (handing.lent_rules port p end mark length holds) }
{
    let other_length = length != end.length(p.setting.params) as usize;
    port_answer(port, p.setting)?;
    refuse_if(scl::is_fresh(mark) & other_length, Refusal::SpduLength)?;
    refuse_if(!holds, Refusal::Buffer)
}

// The part that was handed on, of the SPDU or of the safe values; or why it is refused.
fn part_at<'a>(
    engine: Engine,
    port: u8,
    p: Port,
    end: End,
    mark: Mark,
    spdu: &'a [u8],
    safe: &'a [u8],
) -> Result<&'a [u8], Refusal>
    ensures { MatchResult result (λ part. handing.Parted annex_d port p end mark spdu.now safe.now part.now) (λ r. handing.Unparted port p end mark spdu.now safe.now r) }
{
    let holds = end.safe_hold(p.setting.params, safe);
    lent_answer(port, p, end, mark, spdu.len(), holds)?;
    let allowed = allowed_mark(engine, end, p, mark, spdu);
    Ok(spdu::handed_on(allowed, p.setting.params.FSP_ProtMode, spdu, safe))
}

// That part; empty in a refusal.
#[tactic(auto, unfolding(crate::specs::Handing::handed_on))]
pub fn handed_on<'a>(
    engine: Engine,
    b: Bench,
    port: u8,
    end: End,
    mark: Mark,
    spdu: &'a [u8],
    safe: &'a [u8],
) -> &'a [u8]
    ensures { result.now ≡ handing.handed_on annex_d port (port_at b port) end mark spdu.now safe.now }
{
    part_at(engine, port, port_at(b, port), end, mark, spdu, safe).unwrap_or(&safe[..0])
}

// The same, copied to the front of out; 7 where out has no room for it.
pub fn hand_on<'a>(
    engine: Engine,
    b: Bench,
    port: u8,
    end: End,
    mark: Mark,
    spdu: &'a [u8],
    safe: &'a [u8],
    out: &mut [u8],
) -> Result<usize, Refusal>
    ensures value { result ≡ handing.handed_to annex_d port (port_at b port) end mark spdu.now safe.now (length out.old) }
    ensures out_after { out.new ≡ handing.handed_out annex_d port (port_at b port) end mark spdu.now safe.now out.old }
{
    let part = part_at(engine, port, port_at(b, port), end, mark, spdu, safe)?;
    refuse_if(out.len() < part.len(), Refusal::Buffer)?;
    Ok(octets::copy(part, out))
}
