ghost use Rattle.circuit_plans.specs.Plans.{AddedOutputsArePut, CleanCircuitsBorrow};

/// The law of borrowed lines: gates that add their outputs without borrowed lines do so beside any
/// number of them. The function does nothing: its contract is the law.
pub fn clean_circuits_borrow()
    ensures { CleanCircuitsBorrow }
{}

/// The law of added outputs: gates that add them to whatever the output lines may hold put them on
/// output lines that hold zeros. The function does nothing: its contract is the law.
pub fn added_outputs_are_put()
    ensures { AddedOutputsArePut }
{}
