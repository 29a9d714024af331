// The histogram and the trend point (document 01), at the numbers of 01 and at the edges.
use crate::print::{Pattern, compared};
use histogram::Histogram;
use std::io::Stdout;

// A histogram with this sum and total. No mean depends on the rest.
fn summed(sum: u64, total: u32) -> Histogram {
    Histogram {
        bins: [0u32; 32],
        total,
        sum,
        lowest: 0,
        highest: 65535,
    }
}

fn mean_of(output: Stdout, name: &str, h: Histogram, paper: u64) {
    let mean = histogram::point_told(histogram::trend_of(h)).mean;
    compared(output, name, Pattern::from(mean), Pattern(paper));
}

// "Samples 1 and 2 have mean 1.5."
fn one_and_two(output: Stdout) {
    let one = histogram::counted(histogram::cleared(), 100, 1);
    let two = histogram::counted(one, 100, 2);
    mean_of(output, "mean of 1 and 2", two, 0x3FF8000000000000);
}

// Quotients as exact arithmetic rounds them: the mean's name, the sum, the total and the quotient. The last two lie next to the middle of two
// floats, one on each side: as near as a sum and a total can come to it. A quotient that is rounded first to more digits, and then to these, is
// off there.
const QUOTIENTS: [(&str, u64, u32, u64); 4] = [
    ("mean of 0, 0 and 1", 1, 3, 0x3FD5555555555555),
    (
        "largest sum over largest total",
        281470681677825,
        4294967295,
        0x40EFFFE000000000,
    ),
    (
        "just above a middle",
        171802302096879,
        4294967291,
        0x40E3881AE6666667,
    ),
    (
        "just below a middle",
        171799376150412,
        4294967291,
        0x40E3880519999999,
    ),
];

fn quotients(output: Stdout) {
    for (name, sum, total, paper) in QUOTIENTS {
        mean_of(output, name, summed(sum, total), paper);
    }
}

fn at_the_limit(output: Stdout, h: Histogram) {
    let frozen = u8::from(histogram::frozen(h));
    compared(output, "frozen at the limit", frozen, 1);
    compared(output, "bin 31 at the limit", h.bins[31], 1);
    compared(output, "total at the limit", h.total, 4294967295);
    compared(output, "sum at the limit", h.sum, 4294967393);
    compared(output, "lowest at the limit", h.lowest, 1);
    compared(output, "highest at the limit", h.highest, 99);
}

// One sample short of the limit, and two more: the first is counted whole and freezes, the second changes nothing.
fn freeze(output: Stdout) {
    let short = Histogram {
        bins: [0u32; 32],
        total: 4294967294,
        sum: 4294967294,
        lowest: 1,
        highest: 1,
    };
    let frozen = u8::from(histogram::frozen(short));
    compared(output, "frozen one short of the limit", frozen, 0);
    let last = histogram::counted(short, 99, 99);
    at_the_limit(output, histogram::counted(last, 99, 0));
}

// "NO_SAMPLES: a trend point is asked for with no sample."
fn no_sample(output: Stdout) {
    let number = answer::number(histogram::trend_of(histogram::cleared()));
    compared(output, "answer with no sample", number, 11);
}

pub(crate) fn run(output: Stdout) {
    no_sample(output);
    one_and_two(output);
    quotients(output);
    freeze(output);
}
