// What statements said so far.
ghost use Rattle.qasm_format.specs.inside.Says.{IsFirst};

use crate::names::Declared;
use mct_circuit::Gate;
use std::alloc::Global;

// Whether the include stood, what was declared, and the gates.
#[derive(Drop)]
pub struct Said<'t> {
    pub included: bool,
    pub declared: Declared<'t>,
    pub gates: Vec<Gate>,
}

impl<'t> Said<'t> {
    pub fn new(alloc: Global) -> Said<'t>
        ensures { IsFirst result }
    {
        Said {
            included: false,
            declared: Declared::new(alloc),
            gates: Vec::new(alloc),
        }
    }
}
