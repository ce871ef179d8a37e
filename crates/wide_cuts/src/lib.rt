//! A search for wide cuts: of up to 192 sums, as far down as the inputs, from which a sum may be
//! computed that may be 0. It proves nothing: `sum_cuts` checks what it proposes.
#![tactic(auto)]

mod columns;
mod descent;

pub use columns::column;
pub use descent::{Asked, Descent, LEAST_SUMS};
