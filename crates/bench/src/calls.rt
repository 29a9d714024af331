// The calls with a clock reading, at a port of the bench. Those that sign take the engine; what they come to is the same whichever it is.
ghost use Rattle.std.specs.Prelude.{ℕ, ◌<◌, ◌≡◌, false, set, Ok, Err};
ghost use Rattle.bench.specs.declared.Act.TheVariants as acts;
ghost use Rattle.bench.specs.Methods.{annex_d};
ghost use Rattle.bench.specs.Ports as ports;
ghost use Rattle.bench.specs.Calls as calls;
ghost use Rattle.bench.specs.Storing as storing;

use crate::acts::{clock_act, operator_act, parameters_act, place_of, spdu_act};
use crate::at_port::{accepted_port, new_port, said, silent, stored};
use crate::turns::turn;
use crate::{Act, Bench, BenchAfter, End, Port};
use answer::Refusal;
use block::Params;
use scl::Happening;
use signature::{Engine, Signing};

#[tactic(auto, unfolding(crate::specs::Ports::port_at, crate::specs::Ports::no_port))]
pub(crate) fn port_at(b: Bench, port: u8) -> Port
    ensures { result ≡ ports.port_at b port }
{
    place_of(port).map_or_else(new_port, |i| b.ports[i])
}

// Here and below: `i` is the place of the port `p`, and `i < 8` is asked where `place_of` has just told it, by `below`. A type for the place would be taken
// apart at `set`, which the definitions of specs/Storing.antt say of a number: no plainer.

// The bench with another port in place i. Rust has no update of one place of an array by value.
fn with_port(b: Bench, i: usize, p: Port) -> Bench
    requires { i < 8 }
    ensures { result ≡ record { ports = set b.ports i p } }
{
    let mut n = b;
    n.ports[i] = p;
    n
}

// A refused call.
fn refused(b: Bench, refusal: Refusal) -> BenchAfter
    ensures { result ≡ record { bench = b; reply = ports.silent (Err refusal) } }
{
    BenchAfter {
        bench: b,
        reply: silent(Err(refusal)),
    }
}

// An accepted block, at the port p in place i.
#[tactic(auto, unfolding(crate::specs::Calls::done))]
fn set_up(b: Bench, i: usize, p: Port, at: u32, params: Params) -> BenchAfter
    requires { i < 8 }
    ensures { result ≡ storing.acted b i p at (Ok (acts.Accepted params)) }
{
    BenchAfter {
        bench: with_port(b, i, accepted_port(p, params, at)),
        reply: silent(Ok(())),
    }
}

// A happening at the port p in place i.
#[tactic(auto, unfolding(crate::specs::Calls::done, crate::specs::Ports::step_of))]
fn stepped(b: Bench, i: usize, p: Port, happening: Happening) -> BenchAfter
    requires { i < 8 }
    ensures { (at : ℕ) → (result ≡ storing.acted b i p at (Ok (acts.Happens happening))) }
{
    let turned = turn(p.setting, p.live, happening);
    BenchAfter {
        bench: with_port(b, i, stored(p, turned)),
        reply: said(turned),
    }
}

// What a call asks of the port p in place i, with its reading. By nested patterns, as `Ok(Act::Happens(happening))`, the proof didn't close: what the inner
// one tells comes as an equation of encoded values, and not of `asked`. `happened` has the same match.
#[tactic(auto, unfolding(crate::specs::Calls::done))]
fn acted(b: Bench, i: usize, p: Port, at: u32, asked: Result<Act, Refusal>) -> BenchAfter
    requires { i < 8 }
    ensures { result ≡ storing.acted b i p at asked }
{
    match asked {
        Err(refusal) => refused(b, refusal),
        Ok(act) => match act {
            Act::Accepted(params) => set_up(b, i, p, at, params),
            Act::Happens(happening) => stepped(b, i, p, happening),
        },
    }
}

// The same of a call that has no block, so that the last arm is never entered. It stands apart for the compiler, which is told to put it in line
// at each of these calls: called, it would have the bench copied on the way in and out.
#[inline(always)]
#[tactic(auto, unfolding(crate::specs::Calls::done))]
fn happened(b: Bench, i: usize, p: Port, asked: Result<Act, Refusal>) -> BenchAfter
    requires place { i < 8 }
    requires no_block { storing.has_block asked ≡ false }
    ensures { (at : ℕ) → (result ≡ storing.acted b i p at asked) }
{
    match asked {
        Err(refusal) => refused(b, refusal),
        Ok(act) => match act {
            Act::Happens(happening) => stepped(b, i, p, happening),
            Act::Accepted(_) => refused(b, Refusal::NoPort),
        },
    }
}

// In each call on a port: no `?` where a port has no place, as what comes back is the bench, too, and no Result. In the two that sign: a Signing borrows the
// tables, so a function can't return it with them, and one that takes a closure of what follows is no plainer than the lines.
pub fn set_parameters(engine: Engine, b: Bench, port: u8, at: u32, octets: &[u8]) -> BenchAfter
    ensures { result ≡ calls.set_parameters annex_d b port at octets.now }
{
    let Some(i) = place_of(port) else {
        return refused(b, Refusal::NoPort);
    };
    let short = signature::table_for::<u16>(engine);
    let act = parameters_act(engine, &short, port, octets);
    acted(b, i, b.ports[i], at, act)
}

// An SPDU received at an end, with as many zeros as it has process octets. Inlined: a call would copy the bench on the way in and out.
#[inline(always)]
fn receive(
    engine: Engine,
    b: Bench,
    port: u8,
    end: End,
    at: u32,
    spdu: &[u8],
    safe: &[u8],
) -> BenchAfter
    ensures { result ≡ calls.receive annex_d b port end at spdu.now safe.now }
{
    let Some(i) = place_of(port) else {
        return refused(b, Refusal::NoPort);
    };
    let p = b.ports[i];
    let short = signature::table_for::<u16>(engine);
    let long = signature::table_for::<u32>(engine);
    let signing = Signing {
        engine,
        short: &short,
        long: &long,
    };
    let holds = end.safe_hold(p.setting.params, safe);
    let act = spdu_act(&signing, end, Some(p.setting), at, spdu, holds);
    happened(b, i, p, act)
}

pub fn receive_response(
    engine: Engine,
    b: Bench,
    port: u8,
    at: u32,
    spdu: &[u8],
    safe: &[u8],
) -> BenchAfter
    ensures { result ≡ calls.receive_response annex_d b port at spdu.now safe.now }
{
    receive(engine, b, port, End::Master, at, spdu, safe)
}

pub fn receive_request(
    engine: Engine,
    b: Bench,
    port: u8,
    at: u32,
    spdu: &[u8],
    safe: &[u8],
) -> BenchAfter
    ensures { result ≡ calls.receive_request annex_d b port at spdu.now safe.now }
{
    receive(engine, b, port, End::Device, at, spdu, safe)
}

pub fn clock(b: Bench, port: u8, at: u32, safe_in: &[u8], safe_out: &[u8]) -> BenchAfter
    ensures { result ≡ calls.clock b port at safe_in.now safe_out.now }
{
    let Some(i) = place_of(port) else {
        return refused(b, Refusal::NoPort);
    };
    let p = b.ports[i];
    let params = p.setting.params;
    let hold = End::Master.safe_hold(params, safe_in) & End::Device.safe_hold(params, safe_out);
    happened(b, i, p, clock_act(Some(p.setting), at, hold))
}

pub fn operator(
    b: Bench,
    port: u8,
    at: u32,
    setSD_C: bool,
    ChFAck_C: bool,
    safe: &[u8],
) -> BenchAfter
    ensures { result ≡ calls.operator b port at setSD_C ChFAck_C safe.now }
{
    let Some(i) = place_of(port) else {
        return refused(b, Refusal::NoPort);
    };
    let p = b.ports[i];
    let holds = End::Master.safe_hold(p.setting.params, safe);
    let act = operator_act(Some(p.setting), at, setSD_C, ChFAck_C, holds);
    happened(b, i, p, act)
}
