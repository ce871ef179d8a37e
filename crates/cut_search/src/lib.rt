//! A search for narrow cuts, and for what may be functions of them. It proves nothing: `sum_cuts`
//! checks what it proposes.
#![tactic(auto)]

mod atoms;
mod basis;
mod guide;
mod places;
mod reader;
mod vectors;
mod walk;

pub use atoms::{Atoms, Made, Scene, atoms_of, has_atom, last_atom, mark_of};
pub use basis::{Basis, Lead};
pub use guide::{Guide, Member, Relation, members};
pub use places::{FAR, NEAR, Range, places_of};
pub use reader::Reader;
pub use vectors::Vector;
pub use walk::{MOST_INSIDE, MOST_LEFT, Opening, Place, Walk};
