// What a call asks of its port: the rules that it is held to, in 01's order, and what it brings where it keeps them.
ghost use Rattle.std.specs.Prelude.{◌≡◌, ◌<◌, false, is_none, IfSome};
ghost use Rattle.answer.specs.Answers.{Taken, with_value};
ghost use Rattle.answer.specs.Rules.{answer_by};
ghost use Rattle.block.specs.Table22.{parameters_by};
ghost use Rattle.spdu.specs.Signature.{by_engine};
ghost use Rattle.bench.specs.Ports as ports;
ghost use Rattle.bench.specs.Calls as calls;

use crate::{Act, End, Setting};
use answer::{Answer, Refusal, refuse_if};
use scl::Happening;
use signature::{Engine, Signing};

// Where the port of a number stands; none where no port has it.
pub fn place_of(port: u8) -> Option<usize>
    ensures value { result ≡ ports.place_of port }
    ensures below { IfSome result (λ i. i < 8) }
{
    if ranges::outside(1, 8, port as u32) {
        None
    } else {
        Some(port as usize - 1)
    }
}

// 8 and 9: the setting of a port that runs.
fn running(setting: Option<Setting>) -> Result<Setting, Refusal>
    ensures { result ≡ with_value (answer_by Taken (calls.port_rules (is_none setting) (calls.setting_in setting))) (calls.setting_in setting) }
{
    let s = setting.ok_or(Refusal::NoPort)?;
    refuse_if(!s.running, Refusal::NotRunning)?;
    Ok(s)
}

pub(crate) fn port_answer(port: u8, setting: Setting) -> Answer
    ensures { result ≡ answer_by Taken (calls.call_rules port setting) }
{
    refuse_if(ranges::outside(1, 8, port.into()), Refusal::NoPort)?;
    refuse_if(!setting.running, Refusal::NotRunning)
}

// 8, 9 and 7.
fn safe_answer(setting: Option<Setting>, safe_holds: bool) -> Answer
    ensures { result ≡ answer_by Taken (calls.other_rules (is_none setting) (calls.setting_in setting) safe_holds) }
{
    running(setting)?;
    refuse_if(!safe_holds, Refusal::Buffer)
}

// 8, 9, 10 and 7, of an SPDU of `length` octets where `configured` are configured.
fn spdu_answer(s: Setting, configured: u8, length: usize, safe_holds: bool) -> Answer
    ensures { result ≡ answer_by Taken (calls.spdu_rules false s configured length safe_holds) }
{
    running(Some(s))?;
    refuse_if(length != configured as usize, Refusal::SpduLength)?;
    refuse_if(!safe_holds, Refusal::Buffer)
}

// A parameter block of any length.
#[tactic(auto, unfolding(crate::specs::Calls::asked_by_block))]
pub fn parameters_act(
    engine: Engine,
    short: &[u16; 256],
    port: u8,
    octets: &[u8],
) -> Result<Act, Refusal>
    ensures { result ≡ calls.parameters_act (parameters_by engine short.now) port octets.now }
{
    Ok(Act::Accepted(block::judge_by(engine, short, octets, port)?))
}

// What an SPDU is at an end.
fn received(signing: &Signing, end: End, s: Setting, at: u32, spdu: &[u8]) -> Happening
    ensures { result ≡ calls.received (by_engine signing.now.engine signing.now.short.now signing.now.long.now) end s at spdu.now }
{
    match end {
        End::Master => Happening::Response(at, spdu::response_fields_by(signing, s.params, spdu)),
        End::Device => Happening::Request(at, spdu::request_fields_by(signing, s.params, spdu)),
    }
}

// An SPDU received at an end; `safe_holds`: the safe values lent are as many zeros as it has process octets.
pub fn spdu_act(
    signing: &Signing,
    end: End,
    setting: Option<Setting>,
    at: u32,
    spdu: &[u8],
    safe_holds: bool,
) -> Result<Act, Refusal>
    ensures { result ≡ calls.spdu_act (by_engine signing.now.engine signing.now.short.now signing.now.long.now) end (is_none setting) (calls.setting_in setting) at spdu.now safe_holds }
{
    let Some(s) = setting else {
        return Err(Refusal::NoPort);
    };
    spdu_answer(s, end.length(s.params), spdu.len(), safe_holds)?;
    Ok(Act::Happens(received(signing, end, s, at, spdu)))
}

// A clock reading; `safe_holds` of both ends.
#[tactic(auto, unfolding(crate::specs::Calls::asked))]
pub fn clock_act(setting: Option<Setting>, at: u32, safe_holds: bool) -> Result<Act, Refusal>
    ensures { result ≡ calls.clock_act (is_none setting) (calls.setting_in setting) at safe_holds }
{
    safe_answer(setting, safe_holds)?;
    Ok(Act::Happens(Happening::Clock(at)))
}

// Operator signals, by 000's names; two bits, as C gives them (`whakelouna_operator`).
#[tactic(auto, unfolding(crate::specs::Calls::asked))]
pub fn operator_act(
    setting: Option<Setting>,
    at: u32,
    setSD_C: bool,
    ChFAck_C: bool,
    safe_holds: bool,
) -> Result<Act, Refusal>
    ensures { result ≡ calls.operator_act (is_none setting) (calls.setting_in setting) at setSD_C ChFAck_C safe_holds }
{
    safe_answer(setting, safe_holds)?;
    Ok(Act::Happens(Happening::Operator(at, setSD_C, ChFAck_C)))
}
