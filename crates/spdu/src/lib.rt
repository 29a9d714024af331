// Safety PDUs (000 11.4): what is read of one, how one is built, its place in the process data image, and the values handed on.
//
// A function whose name ends in `_by` takes a `Signing`, an engine with the two signature tables lent, so that a loop names them once; it takes any
// tables. The others take the engine alone.
//
// A mode is FSP_ProtMode, an octet of `Params` that C reads and lends: each value but 1 reads as 2, and so it is no enum of two.
#![tactic(auto)]

mod build;
mod control;
mod image;
mod plain;
mod read;

pub use build::{build_request_by, build_response_by};
pub use control::{Control, Status};
pub use image::{compose_by, handed_on, other_part, safe_values_hold, spdu_part, split};
pub use plain::{build_response, compose, read_request, read_response};
pub use read::{read_request_by, read_response_by, request_fields_by, response_fields_by};
