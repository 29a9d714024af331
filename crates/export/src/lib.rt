// The library's boundary for C and Rust: a function a call, over numbers, slices and `repr(C)` structs, each promising what the call promises.
// A slice is passed as a pointer and a length (include/whakelouna.h). No struct has padding: `unused` is in its place, zeros.
//
// C has no Result, no enum of Rust's and no reference with a length to give back, so the told structs hold an answer's number beside a value, bits and
// numbers stand for engines, ends and marks, and lengths for parts of a buffer. Each struct is laid out as C has it: what tells an answer has `number`,
// FedTold has `stop`, why reading stopped; DeviceOutcome and MasterOutcome have the numbers of two rows, the check and the mark; BenchTold has a ReplyTold,
// and so needs no `unused`, which stands in all the others.
#![tactic(auto)]

mod benches;
mod blocks;
mod histograms;
mod machines;
mod sessions;
mod signatures;
mod spdus;
