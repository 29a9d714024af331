// The bench (crate bench): eight ports and every call on them. Answers and marks are numbers here. An incoming image is told by the lengths of
// its two parts, the SPDU first; an exported function returns no reference.
ghost use Rattle.std.specs.Prelude.{◌≡◌, length};
ghost use Rattle.answer.specs.Answers.{number_of};
ghost use Rattle.bench.specs.Methods.{annex_d};
ghost use Rattle.bench.specs.Ports.{new_bench, port_at};
ghost use Rattle.bench.specs.Calls as calls;
ghost use Rattle.bench.specs.Images as images;
ghost use Rattle.bench.specs.Handing as handing;
ghost use Rattle.bench.specs.Shown as shown;
ghost use Rattle.export.specs.Benches as told;

use crate::histograms::NumberedTrend;
use crate::signatures::engine_of;
use answer::Refusal;
use bench::{BIN_COUNT, Bench, BenchAfter, Bins, End, Reply};
use fs_device::Device;
use fs_master::Master;
use scl::Mark;

#[repr(C)]
#[derive(Clone, Copy)]
pub struct ReplyTold {
    pub number: u8,
    pub offset: u8,
    pub master: u8,
    pub device: u8,
    pub master_releases: bool,
    pub device_releases: bool,
    pub unused: [u8; 2],
}

#[repr(C)]
#[derive(Clone, Copy)]
pub struct BenchTold {
    pub bench: Bench,
    pub reply: ReplyTold,
}

#[repr(C)]
#[derive(Clone, Copy)]
pub struct SplitTold {
    pub spdu: usize,
    pub other: usize,
    pub number: u8,
    pub unused: [u8; 7],
}

#[repr(C)]
#[derive(Clone, Copy)]
pub struct HandedTold {
    pub octets: usize,
    pub number: u8,
    pub unused: [u8; 7],
}

#[repr(C)]
#[derive(Clone, Copy)]
pub struct BinsTold {
    pub bins: [u32; BIN_COUNT],
    pub total: u32,
    pub number: u8,
    pub frozen: bool,
    pub unused: [u8; 2],
}

#[repr(C)]
#[derive(Clone, Copy)]
pub struct MasterTold {
    pub master: Master,
    pub number: u8,
    pub unused: [u8; 3],
}

#[repr(C)]
#[derive(Clone, Copy)]
pub struct DeviceTold {
    pub device: Device,
    pub number: u8,
    pub unused: [u8; 3],
}

impl From<Reply> for ReplyTold {
    ghost from_gives = { λ r t. t ≡ told.reply_told r };

    fn from(reply: Reply) -> ReplyTold {
        ReplyTold {
            number: answer::number(reply.answer),
            offset: answer::offset(reply.answer),
            master: scl::mark_number(reply.master),
            device: scl::mark_number(reply.device),
            master_releases: reply.master_releases,
            device_releases: reply.device_releases,
            unused: [0; 2],
        }
    }
}

impl From<BenchAfter> for BenchTold {
    ghost from_gives = { λ a t. t ≡ told.bench_told a };

    fn from(after: BenchAfter) -> BenchTold {
        BenchTold {
            bench: after.bench,
            reply: ReplyTold::from(after.reply),
        }
    }
}

impl From<Result<usize, Refusal>> for HandedTold {
    ghost from_gives = { λ h t. t ≡ told.handed_told h };

    fn from(handed: Result<usize, Refusal>) -> HandedTold {
        HandedTold {
            number: answer::number(handed),
            octets: handed.unwrap_or(0),
            unused: [0; 7],
        }
    }
}

impl From<Result<Bins, Refusal>> for BinsTold {
    ghost from_gives = { λ b t. t ≡ told.bins_told b };

    fn from(shown: Result<Bins, Refusal>) -> BinsTold {
        let told = bench::bins_told(shown);
        // Named first, as the borrow check takes no array's field in a literal.
        let bins = told.bins;
        BinsTold {
            number: answer::number(shown),
            bins,
            total: told.total,
            frozen: told.frozen,
            unused: [0; 2],
        }
    }
}

impl From<Result<Master, Refusal>> for MasterTold {
    ghost from_gives = { λ m t. t ≡ told.master_shown m };

    fn from(shown: Result<Master, Refusal>) -> MasterTold {
        MasterTold {
            number: answer::number(shown),
            master: bench::master_told(shown),
            unused: [0; 3],
        }
    }
}

impl From<Result<Device, Refusal>> for DeviceTold {
    ghost from_gives = { λ d t. t ≡ told.device_shown d };

    fn from(shown: Result<Device, Refusal>) -> DeviceTold {
        DeviceTold {
            number: answer::number(shown),
            device: bench::device_told(shown),
            unused: [0; 3],
        }
    }
}

#[unsafe(no_mangle)]
pub extern "C" fn whakelouna_new_bench() -> Bench
    ensures { result ≡ new_bench }
{
    bench::new_bench()
}

#[unsafe(no_mangle)]
pub extern "C" fn whakelouna_set_parameters(
    shift: bool,
    bench: Bench,
    port: u8,
    at: u32,
    octets: &[u8],
) -> BenchTold
    ensures { result ≡ told.bench_told (calls.set_parameters annex_d bench port at octets.now) }
{
    BenchTold::from(bench::set_parameters(engine_of(shift), bench, port, at, octets))
}

#[unsafe(no_mangle)]
pub extern "C" fn whakelouna_receive_response(
    shift: bool,
    bench: Bench,
    port: u8,
    at: u32,
    spdu: &[u8],
    safe: &[u8],
) -> BenchTold
    ensures { result ≡ told.bench_told (calls.receive_response annex_d bench port at spdu.now safe.now) }
{
    BenchTold::from(bench::receive_response(engine_of(shift), bench, port, at, spdu, safe))
}

#[unsafe(no_mangle)]
pub extern "C" fn whakelouna_receive_request(
    shift: bool,
    bench: Bench,
    port: u8,
    at: u32,
    spdu: &[u8],
    safe: &[u8],
) -> BenchTold
    ensures { result ≡ told.bench_told (calls.receive_request annex_d bench port at spdu.now safe.now) }
{
    BenchTold::from(bench::receive_request(engine_of(shift), bench, port, at, spdu, safe))
}

#[unsafe(no_mangle)]
pub extern "C" fn whakelouna_clock(
    bench: Bench,
    port: u8,
    at: u32,
    safe_in: &[u8],
    safe_out: &[u8],
) -> BenchTold
    ensures { result ≡ told.bench_told (calls.clock bench port at safe_in.now safe_out.now) }
{
    BenchTold::from(bench::clock(bench, port, at, safe_in, safe_out))
}

#[unsafe(no_mangle)]
pub extern "C" fn whakelouna_operator(
    bench: Bench,
    port: u8,
    at: u32,
    setSD_C: bool,
    ChFAck_C: bool,
    safe: &[u8],
) -> BenchTold
    ensures { result ≡ told.bench_told (calls.operator bench port at setSD_C ChFAck_C safe.now) }
{
    BenchTold::from(bench::operator(bench, port, at, setSD_C, ChFAck_C, safe))
}

// Writes the FS-Master's outgoing image and returns the answer's number.
#[unsafe(no_mangle)]
pub extern "C" fn whakelouna_compose(
    shift: bool,
    bench: Bench,
    port: u8,
    process: &[u8],
    other: &[u8],
    octets: &mut [u8],
) -> u8
    ensures value { result ≡ number_of (images.compose_answer port (port_at bench port) process.now other.now octets.old) }
    ensures octets_after { octets.new ≡ images.composed annex_d port (port_at bench port) process.now other.now octets.old }
{
    answer::number(bench::compose(engine_of(shift), bench, port, process, other, octets))
}

// Writes the FS-Device's outgoing SPDU and returns the answer's number.
#[unsafe(no_mangle)]
pub extern "C" fn whakelouna_build_response(
    shift: bool,
    bench: Bench,
    port: u8,
    process: &[u8],
    out: &mut [u8],
) -> u8
    ensures value { result ≡ number_of (images.build_answer port (port_at bench port) process.now out.old) }
    ensures out_after { out.new ≡ images.response_out annex_d port (port_at bench port) process.now out.old }
{
    answer::number(bench::build_response(engine_of(shift), bench, port, process, out))
}

#[unsafe(no_mangle)]
pub extern "C" fn whakelouna_split(bench: Bench, port: u8, octets: &[u8]) -> SplitTold
    ensures { result ≡ told.split_told port (port_at bench port) octets.now }
{
    SplitTold {
        number: answer::number(bench::split(bench, port, octets)),
        spdu: bench::spdu_part(bench, port, octets).len(),
        other: bench::other_part(bench, port, octets).len(),
        unused: [0; 7],
    }
}

// No `From`: neither type of these two conversions is this crate's.
#[tactic(auto, unfolding(crate::specs::Benches::mark_numbered))]
fn mark_numbered(number: u8) -> Mark
    ensures { result ≡ told.mark_numbered number }
{
    match number {
        0 => Mark::Fresh,
        1 => Mark::GoesOn,
        2 => Mark::Safe,
        _ => Mark::Nothing,
    }
}

fn end_of(device: bool) -> End
    ensures { result ≡ told.end_of device }
{
    if device { End::Device } else { End::Master }
}

// Copies what a call with this mark handed on to the front of out.
#[unsafe(no_mangle)]
pub extern "C" fn whakelouna_handed_on<'a>(
    shift: bool,
    bench: Bench,
    port: u8,
    device: bool,
    mark: u8,
    spdu: &'a [u8],
    safe: &'a [u8],
    out: &mut [u8],
) -> HandedTold
    ensures value { result ≡ told.handed_told (handing.handed_to annex_d port (port_at bench port) (told.end_of device) (told.mark_numbered mark) spdu.now safe.now (length out.old)) }
    ensures out_after { out.new ≡ handing.handed_out annex_d port (port_at bench port) (told.end_of device) (told.mark_numbered mark) spdu.now safe.now out.old }
{
    HandedTold::from(bench::hand_on(
        engine_of(shift),
        bench,
        port,
        end_of(device),
        mark_numbered(mark),
        spdu,
        safe,
        out,
    ))
}

#[unsafe(no_mangle)]
pub extern "C" fn whakelouna_trend(bench: Bench, port: u8) -> NumberedTrend
    ensures { result ≡ told.trend_told (shown.trend_of port (port_at bench port)) }
{
    NumberedTrend::from(bench::trend_of(bench, port))
}

#[unsafe(no_mangle)]
pub extern "C" fn whakelouna_bins(bench: Bench, port: u8) -> BinsTold
    ensures { result ≡ told.bins_told (shown.bins_of port (port_at bench port)) }
{
    BinsTold::from(bench::bins_of(bench, port))
}

#[unsafe(no_mangle)]
pub extern "C" fn whakelouna_master(bench: Bench, port: u8) -> MasterTold
    ensures { result ≡ told.master_shown (shown.master_of port (port_at bench port)) }
{
    MasterTold::from(bench::master_of(bench, port))
}

#[unsafe(no_mangle)]
pub extern "C" fn whakelouna_device(bench: Bench, port: u8) -> DeviceTold
    ensures { result ≡ told.device_shown (shown.device_of port (port_at bench port)) }
{
    DeviceTold::from(bench::device_of(bench, port))
}
