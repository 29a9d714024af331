// The signatures of 000 Annex D: the short one, 16 bits wide by the generator 0x4EAB, and the long one, 32 by 0xF4ACFB13. What they share is written
// once, over the register (register.rt): u16 (short.rt) or u32 (long.rt).
//
// Two methods, and an engine that picks one. By the look-up (by_table.rt): the short signature takes an octet at a time from a table of 256
// entries, the long one half an octet from 16. By the bit shift (by_shift.rt): a bit at a time, and no table.
//
// The look-up comes in two forms. The plain one (`sign`) names its table, which is laid on the stack in every call. The one with a table
// lent (`sign_by`) is for a loop that names the table once; it takes any table, and signs where the table is right.
#![tactic(auto)]

mod by_engine;
mod by_shift;
mod by_table;
mod long;
mod register;
mod short;
mod signing;

pub use by_engine::{sign_with, step_with, table_for};
pub use by_shift::{sign_by_shift, step_by_shift};
pub use by_table::{sign, sign_by, step};
pub use register::Register;
pub use signing::Signing;

// The method that signs, chosen once for all that signs (02, item 3).
#[derive(Clone, Copy)]
pub enum Engine {
    // The look-up in 000's tables.
    Table,
    // The bit shift of 000 Figures D.3 and D.5.
    Shift,
}
