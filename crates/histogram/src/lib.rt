// The response histogram of a port and its trend point (document 01, "The histogram and the trend").
#![tactic(auto)]

ghost use Rattle.std.specs.Prelude.{◌≡◌, if◌then◌else◌, ◌==◌};
ghost use Rattle.histogram.specs.Samples.{bin_of, limit};
ghost use Rattle.histogram.specs.Counted.{frozen_of, cleared_of, totals_of, with_bins, raised_if, totalled_of, counted_of};
ghost use Rattle.histogram.specs.Trends.{mean_of, point_of, point_in, trend_of};

use answer::{Refusal, refuse_if};

pub const BIN_COUNT: usize = 32;

// The total at which a histogram is frozen.
pub const LIMIT: u32 = 4294967295;

// Samples are in ms. Where there is none, the lowest and the highest are 0.
// C sees this layout (`whakelouna_counted`), so the fields of `Totals` stand here one by one.
#[repr(C)]
#[derive(Clone, Copy)]
pub struct Histogram {
    pub sum: u64,
    pub bins: [u32; BIN_COUNT],
    pub total: u32,
    pub lowest: u16,
    pub highest: u16,
}

// All of a histogram but its bins, for a caller that keeps the bins elsewhere.
#[repr(C)]
#[derive(Clone, Copy)]
pub struct Totals {
    pub sum: u64,
    pub total: u32,
    pub lowest: u16,
    pub highest: u16,
}

// The mean, and the lowest and the highest sample, in ms.
#[repr(C)]
#[derive(Clone, Copy)]
pub struct TrendPoint {
    pub mean: f64,
    pub lowest: f32,
    pub highest: f32,
}

// The bin of the time t at the watchdog time w: below BIN_COUNT where t is at most w.
pub fn bin(w: u16, t: u32) -> usize
    ensures { result ≡ bin_of w t }
{
    (t as usize) * BIN_COUNT / (usize::from(w) + 1)
}

// Whether a total has reached the limit.
#[tactic(auto, unfolding(crate::specs::Samples::limit))]
pub fn reached(total: u32) -> bool
    ensures { result ≡ (total == limit) }
{
    total == LIMIT
}

#[tactic(auto, unfolding(crate::specs::Counted::frozen_of))]
pub fn frozen(h: Histogram) -> bool
    ensures { result ≡ frozen_of h }
{
    reached(h.total)
}

// A new histogram: no sample.
pub fn cleared() -> Histogram
    ensures { result ≡ cleared_of }
{
    Histogram {
        bins: [0u32; BIN_COUNT],
        total: 0,
        sum: 0,
        lowest: 0,
        highest: 0,
    }
}

// One more in the bin that a sample was counted in, if one was; past the last bin nothing changes.
pub fn raised(mut bins: [u32; BIN_COUNT], bin: Option<usize>) -> [u32; BIN_COUNT]
    ensures { result ≡ raised_if bins bin }
{
    if let Some(i) = bin {
        if i < BIN_COUNT {
            bins[i] = bins[i].wrapping_add(1);
        }
    }
    bins
}

// The first sample t is the lowest and the highest so far.
fn so_far(first: bool, t: u16, end: u16) -> u16
    ensures { result ≡ (if first then t else end) }
{
    if first { t } else { end }
}

impl From<Histogram> for Totals {
    ghost from_gives = { λ h totals. totals ≡ totals_of h };

    fn from(h: Histogram) -> Totals {
        Totals {
            sum: h.sum,
            total: h.total,
            lowest: h.lowest,
            highest: h.highest,
        }
    }
}

// The other way round. It takes two values, so that a `From`, over a pair, would read no plainer.
pub fn with_bins(totals: Totals, bins: [u32; BIN_COUNT]) -> Histogram
    ensures { result ≡ with_bins totals bins }
{
    Histogram {
        bins,
        total: totals.total,
        sum: totals.sum,
        lowest: totals.lowest,
        highest: totals.highest,
    }
}

// The totals with one more sample t. Where the limit is reached it is not counted.
#[tactic(auto, unfolding(crate::specs::Samples::limit, crate::specs::Counted::totalled_of))]
pub fn totalled(totals: Totals, t: u16) -> Option<Totals>
    ensures { result ≡ totalled_of totals t }
{
    if reached(totals.total) {
        return None;
    }
    let first = totals.total == 0;
    Some(Totals {
        sum: totals.sum.wrapping_add(u64::from(t)),
        total: totals.total + 1,
        lowest: so_far(first, t, totals.lowest).min(t),
        highest: so_far(first, t, totals.highest).max(t),
    })
}

// One more sample t. A frozen histogram stays as it is.
pub fn counted(h: Histogram, w: u16, t: u16) -> Histogram
    ensures { result ≡ counted_of h w t }
{
    match totalled(Totals::from(h), t) {
        Some(totals) => with_bins(totals, raised(h.bins, Some(bin(w, u32::from(t))))),
        None => h,
    }
}

// Two conversions, which lose nothing where the numbers are those of samples (proofs/Trends.antt), and one division. They are functions of `std::num`,
// as no method of u64 has this contract and a cast asks for a number below 2^53 (docs/DESIGN.md, "The mean's conversions").
fn mean(sum: u64, total: u64) -> f64
    ensures { result ≡ mean_of sum total }
{
    std::num::nearest_u64_to_f64(sum) / std::num::nearest_u64_to_f64(total)
}

// The trend point of a histogram that has samples.
#[tactic(auto, unfolding(crate::specs::Trends::point_of))]
fn point(h: Histogram) -> TrendPoint
    ensures { result ≡ point_of h }
{
    TrendPoint {
        mean: mean(h.sum, u64::from(h.total)),
        lowest: f32::from(h.lowest),
        highest: f32::from(h.highest),
    }
}

// NO_SAMPLES where there is no sample.
#[tactic(auto, unfolding(crate::specs::Trends::trend_of))]
pub fn trend_of(h: Histogram) -> Result<TrendPoint, Refusal>
    ensures { result ≡ trend_of h }
{
    refuse_if(h.total == 0, Refusal::NoSamples)?;
    Ok(point(h))
}

// The point that is told, also of a refusal: three zeros.
pub fn point_told(trend: Result<TrendPoint, Refusal>) -> TrendPoint
    ensures { result ≡ point_in trend }
{
    trend.unwrap_or(TrendPoint {
        mean: 0.0,
        lowest: 0.0,
        highest: 0.0,
    })
}
