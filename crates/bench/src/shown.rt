// The calls that show a port.
ghost use Rattle.std.specs.Prelude.{◌≡◌};
ghost use Rattle.answer.specs.Answers.{Taken, with_value};
ghost use Rattle.answer.specs.Rules.{answer_by};
ghost use Rattle.bench.specs.Ports.{histogram_of, port_at};
ghost use Rattle.bench.specs.Calls.{call_rules};
ghost use Rattle.bench.specs.Shown as shown;

use crate::acts::port_answer;
use crate::at_port::new_port;
use crate::calls::port_at;
use crate::{Bench, Bins, Port};
use answer::Refusal;
use fs_device::Device;
use fs_master::Master;
use histogram::{Histogram, TrendPoint};

// 8 and 9: the port of a number, where it runs. Inlined, so that the port is not copied for the part of it that is shown.
#[inline(always)]
pub(crate) fn running_at(b: Bench, port: u8) -> Result<Port, Refusal>
    ensures { result ≡ with_value (answer_by Taken (call_rules port (port_at b port).setting)) (port_at b port) }
{
    let p = port_at(b, port);
    port_answer(port, p.setting)?;
    Ok(p)
}

fn histogram_of(p: Port) -> Histogram
    ensures { result ≡ histogram_of p }
{
    histogram::with_bins(p.live.totals, p.bins)
}

// The trend point.
#[tactic(auto, unfolding(crate::specs::Shown::trend_of))]
pub fn trend_of(b: Bench, port: u8) -> Result<TrendPoint, Refusal>
    ensures { result ≡ shown.trend_of port (port_at b port) }
{
    histogram::trend_of(histogram_of(running_at(b, port)?))
}

fn bins_at(p: Port) -> Bins
    ensures { result ≡ shown.bins_at p }
{
    let h = histogram_of(p);
    // By a variable: the check doesn't cover a field that is an array and is copied straight.
    let bins = h.bins;
    Bins {
        bins,
        total: h.total,
        frozen: histogram::frozen(h),
    }
}

#[tactic(auto, unfolding(crate::specs::Shown::bins_of))]
pub fn bins_of(b: Bench, port: u8) -> Result<Bins, Refusal>
    ensures { result ≡ shown.bins_of port (port_at b port) }
{
    Ok(bins_at(running_at(b, port)?))
}

#[tactic(auto, unfolding(crate::specs::Shown::master_of))]
pub fn master_of(b: Bench, port: u8) -> Result<Master, Refusal>
    ensures { result ≡ shown.master_of port (port_at b port) }
{
    Ok(running_at(b, port)?.live.master)
}

#[tactic(auto, unfolding(crate::specs::Shown::device_of))]
pub fn device_of(b: Bench, port: u8) -> Result<Device, Refusal>
    ensures { result ≡ shown.device_of port (port_at b port) }
{
    Ok(running_at(b, port)?.live.device)
}

// What C is told, also of a refusal: then what a port that never ran shows. This and the next two: one for each struct that C has (of a trend point:
// `histogram::point_told`). By match, as `unwrap_or` would make a new port in each call.
pub fn bins_told(told: Result<Bins, Refusal>) -> Bins
    ensures { result ≡ shown.told_bins told }
{
    match told {
        Ok(bins) => bins,
        Err(_) => bins_at(new_port()),
    }
}

pub fn master_told(told: Result<Master, Refusal>) -> Master
    ensures { result ≡ shown.told_master told }
{
    match told {
        Ok(master) => master,
        Err(_) => new_port().live.master,
    }
}

pub fn device_told(told: Result<Device, Refusal>) -> Device
    ensures { result ≡ shown.told_device told }
{
    match told {
        Ok(device) => device,
        Err(_) => new_port().live.device,
    }
}
