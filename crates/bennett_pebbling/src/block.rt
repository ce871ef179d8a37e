// A block of nodes, computed and cleaned node by node. The mark at place k is that of node lo + k.
ghost use Rattle.std.specs.Prelude.{◌+◌, ◌<◌, ◌≤◌, length, IfOk, IfErr};
ghost use Rattle.held_nodes.specs.Held.{IsForward};
ghost use Rattle.bennett_pebbling.specs.inside.Changes.{CanLower, CanTurn, IsLowered, IsLowerFault};
ghost use Rattle.bennett_pebbling.specs.inside.Changes.{IsRaised, IsRaiseFault, IsReadyBelow};
ghost use Rattle.bennett_pebbling.specs.inside.Changes.{IsTurned, IsTurnFault};
ghost use Rattle.bennett_pebbling.specs.inside.Marks.{AreClosed};

use held_nodes::{Forward, Moved};

// Toggles a node, where it has to turn.
fn toggle_if<'s>(forward: Forward<'s>, node: u32, turn: bool) -> Moved<'s>
    requires keeps { IsForward forward }
    requires inside { node < length forward.graph.nodes }
    requires can { CanTurn forward node turn }
    ensures turned { IfOk result (IsTurned forward.entry node turn) }
    ensures keeps { IfOk result IsForward }
    ensures refused { IfErr result (IsTurnFault forward.entry node turn) }
{
    if turn {
        forward.toggle(node)
    } else {
        Ok(forward)
    }
}

// Toggles each marked node that is not held, rising.
pub fn raise<'s>(forward: Forward<'s>, lo: u32, marks: &[bool]) -> Moved<'s>
    requires keeps { IsForward forward }
    requires inside { lo + length marks.now ≤ length forward.graph.nodes }
    requires ready { IsReadyBelow forward lo (length marks.now) }
    requires closed { AreClosed forward.graph lo marks.now }
    ensures raised { IfOk result (IsRaised forward.entry lo marks.now) }
    ensures keeps { IfOk result IsForward }
    ensures refused { IfErr result (IsRaiseFault forward.entry lo marks.now) }
{
    let mut forward = forward;
    for (k, marked) in marks.iter().enumerate() {
        let node = lo + k as u32;
        let held = forward.held(node);
        forward = toggle_if(forward, node, *marked && !held)?;
    }
    Ok(forward)
}

// Toggles each held node of the range that is not wanted, falling.
pub fn lower<'s>(forward: Forward<'s>, lo: u32, wanted: &[bool]) -> Moved<'s>
    requires keeps { IsForward forward }
    requires inside { lo + length wanted.now ≤ length forward.graph.nodes }
    requires can { CanLower forward lo wanted.now }
    ensures lowered { IfOk result (IsLowered forward.entry lo wanted.now) }
    ensures keeps { IfOk result IsForward }
    ensures refused { IfErr result (IsLowerFault forward.entry lo wanted.now) }
{
    let mut forward = forward;
    for k in (0..wanted.len()).rev() {
        let node = lo + k as u32;
        let held = forward.held(node);
        forward = toggle_if(forward, node, held && !wanted[k])?;
    }
    Ok(forward)
}
