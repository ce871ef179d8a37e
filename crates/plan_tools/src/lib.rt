//! What planners are written on. A planner proves nothing of its plan but that it is safe and ends,
//! so its calls need not tell how they ended: `Work` keeps the first refusal of memory, and whether
//! the work is spent, and tells so at the end. Look-ups pass over a place out of range.
#![tactic(auto)]

mod echelon;
mod free_lines;
mod limits;
mod size;
mod stop;
mod sums;
mod table;
mod work;

pub use echelon::{Echelon, Reduced, Row};
pub use free_lines::FreeLines;
pub use limits::{Limits, NOWHERE};
pub use size::Size;
pub use stop::Stop;
pub use table::{Table, list_at, number, put};
pub use work::Work;
