//! Texts of programs that compute with numbers: sums, differences, comparisons, increments and
//! products by a constant, of any number of bits up to 200.
#![tactic(auto)]

mod adder;
mod difference;
mod increment;
mod kind;
mod law;
mod limits;
mod product;
mod ripples;
mod template;

pub use kind::Kind;
pub use law::{
    differences_subtract, digits_are_binary, increments_add, numbers_are_sums, products_multiply,
    sums_add,
};
pub use limits::{MOST_BITS, MOST_FACTOR, limits_are};
pub use template::text;
