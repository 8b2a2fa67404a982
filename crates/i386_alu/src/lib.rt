//! The arithmetic of an i386 processor: the result of each operation, and the flags after it.
#![tactic(auto)]

mod bits;
mod conditions;
mod double_shifts;
mod laws;
mod one_operand;
mod operand;
mod products;
mod quotients;
mod shifts;
mod two_operands;

pub use bits::{bit, scan};
pub use conditions::condition;
pub use double_shifts::double_shift;
pub use laws::{
    div_is_exact, highest_is_set, idiv_is_exact, lowest_is_set, odd_conditions_are_contraries,
    shifts_scale,
};
pub use one_operand::unary;
pub use products::multiply;
pub use quotients::divide;
pub use shifts::shift;
pub use two_operands::binary;
