//! Claims of which the first are taken for granted: on which inputs these hold, and whether the
//! others hold there.
#![tactic(auto)]

mod building;
mod fault;
mod law;
mod settling;

pub use building::bare;
pub use fault::AssumptionFault;
pub use law::{
    assumptions_are_met, assumptions_end_in_one_way, claims_are_restricted, settling_is_meant,
};
pub use settling::{premise, settle_assuming};
