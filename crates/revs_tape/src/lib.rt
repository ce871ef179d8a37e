//! The tape of a program's run: its writes, claims and outputs, what they are on an input, and the
//! laws of what is said of a tape.
#![tactic(auto)]

mod law;
pub mod limits;
mod running;
mod tape;
mod width;

pub use law::{
    claim_functions, each_claim_is_settled, each_input_is_one_variable, one_number_of_levels,
    one_polynomial, one_set_of_monomials,
};
pub use running::TapeEnd;
pub use tape::{Claim, Entry, Kind, Ref, Tape};
