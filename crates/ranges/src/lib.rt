// The ranges of the parameter block's fields (01, "The parameter block"), over numbers: what is read where is the crate block's.
#![tactic(auto)]

mod fields;
mod rules;

pub use fields::{Described, outside, safety_octets};
pub use rules::{described, description, device, port_mode, protocol};
