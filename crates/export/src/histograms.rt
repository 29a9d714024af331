// The histogram and the trend point (crate histogram).
ghost use Rattle.std.specs.Prelude.{◌≡◌, replicate};
ghost use Rattle.answer.specs.Answers.{number_of};
ghost use Rattle.histogram.specs.Samples.{bin_of};
ghost use Rattle.histogram.specs.Counted.{frozen_of, cleared_of, counted_of};
ghost use Rattle.histogram.specs.Trends.{trend_of, point_in};
ghost use Rattle.export.specs.Benches as told;

use answer::Refusal;
use histogram::{Histogram, TrendPoint};

// A trend point beside its answer number.
#[repr(C)]
#[derive(Clone, Copy)]
pub struct NumberedTrend {
    pub point: TrendPoint,
    pub number: u8,
    pub unused: [u8; 7],
}

impl From<Result<TrendPoint, Refusal>> for NumberedTrend {
    ghost from_gives = { λ t n. n ≡ told.trend_told t };

    fn from(trend: Result<TrendPoint, Refusal>) -> NumberedTrend {
        NumberedTrend {
            number: answer::number(trend),
            point: histogram::point_told(trend),
            unused: [0; 7],
        }
    }
}

#[unsafe(no_mangle)]
pub extern "C" fn whakelouna_bin(w: u16, t: u32) -> usize
    ensures { result ≡ bin_of w t }
{
    histogram::bin(w, t)
}

#[unsafe(no_mangle)]
pub extern "C" fn whakelouna_frozen(h: Histogram) -> bool
    ensures { result ≡ frozen_of h }
{
    histogram::frozen(h)
}

#[unsafe(no_mangle)]
pub extern "C" fn whakelouna_cleared() -> Histogram
    ensures { result ≡ cleared_of }
{
    histogram::cleared()
}

#[unsafe(no_mangle)]
pub extern "C" fn whakelouna_counted(h: Histogram, w: u16, t: u16) -> Histogram
    ensures { result ≡ counted_of h w t }
{
    histogram::counted(h, w, t)
}

#[unsafe(no_mangle)]
pub extern "C" fn whakelouna_trend_of(h: Histogram) -> NumberedTrend
    ensures { result ≡ record { number = number_of (trend_of h); point = point_in (trend_of h); unused = replicate 7 0 } }
{
    NumberedTrend::from(histogram::trend_of(h))
}
