// The best of a circuit's order and of those that are made for each depth.
ghost use Rattle.std.specs.Prelude.{◌≡◌, ◌⊎◌, IfOk, IfSome, Some};
ghost use Rattle.flip_lists.specs.Flips.{AreFlipsOn};
ghost use Rattle.flip_orders.specs.Orders.{AreReordered, IsReorderedPlan};
ghost use Rattle.flip_orders.specs.inside.Depths.{AreWithin, IsNoDeeper, IsOrderOf};

use crate::depths::Depths;
use crate::orders::flips_by;
use crate::steps::{Goal, steps_for};
use circuit_plans::{Laid, Narrow};
use flip_lists::{Flip, circuit_of, flips_of};
use revc_base::Memory;
use std::alloc::Global;

/// The gates of `narrow` in the best order that was found for a goal, with the same line map, in
/// which neither the depth nor the Toffoli depth is greater than before. It takes time linear in
/// the gates and lines.
pub fn best_order(alloc: Global, narrow: Narrow, goal: Goal) -> Result<Narrow, Memory>
    ensures gates { IfOk result (λ new. AreReordered narrow.gates new.gates) }
    ensures lines { IfOk result (λ new. new.lines ≡ narrow.lines) }
{
    let circuit = narrow.circuit();
    let lines = circuit.lines();
    let flips = flips_of(alloc, circuit.gates())?;
    let Some(best) = better_order(alloc, lines, &flips, goal)? else {
        return Ok(narrow);
    };
    let circuit = circuit_of(alloc, lines, best.len() as u64, &best)?;
    Ok(Narrow::new(circuit))
}

/// A plan with its gates in the best order, as `best_order` gives them.
pub fn with_best_order(alloc: Global, laid: Laid, goal: Goal) -> Result<Laid, Memory>
    ensures { IfOk result (IsReorderedPlan laid) }
{
    let (circuit, roles) = laid.into_parts();
    let circuit = best_order(alloc, circuit, goal)?;
    Ok(Laid::new(
        circuit,
        roles.inputs,
        roles.outputs,
        roles.work,
        roles.borrowed,
    ))
}

// The flips in a better order, where one was found.
fn better_order(
    alloc: Global,
    lines: u32,
    flips: &[Flip],
    goal: Goal,
) -> Result<Option<Vec<Flip>>, Memory>
    requires { AreFlipsOn lines flips.now }
    ensures { IfOk result (λ found. IfSome found (λ new. IsNoDeeper flips.now new.items)) }
{
    let most = Depths::of(alloc, lines, flips)?;
    let first = order_for(alloc, lines, flips, Goal::Toffoli)?;
    let better = better_of(None, first, most, goal);
    let second = order_for(alloc, lines, flips, Goal::Depth)?;
    match better_of(better, second, most, goal) {
        Some(best) => Ok(Some(best.flips)),
        None => Ok(None),
    }
}

// The flips in the order for a goal.
fn order_for(alloc: Global, lines: u32, flips: &[Flip], goal: Goal) -> Result<Ordered, Memory>
    requires { AreFlipsOn lines flips.now }
    ensures { IfOk result (IsOrderOf flips.now) }
{
    let steps = steps_for(alloc, lines, flips, goal)?;
    let flips = flips_by(alloc, lines, flips, &steps)?;
    let depths = Depths::of(alloc, lines, &flips)?;
    Ok(Ordered { flips, depths })
}

// Flips in another order, and their depths.
#[derive(Drop)]
struct Ordered {
    flips: Vec<Flip>,
    depths: Depths,
}

// The other order where neither of its depths is greater than the most and they are better for a
// goal, and else the best so far.
fn better_of(best: Option<Ordered>, other: Ordered, most: Depths, goal: Goal) -> Option<Ordered>
    ensures { (result ≡ best) ⊎ ((result ≡ Some other) × AreWithin other.depths most) }
{
    let least = match &best {
        Some(best) => best.depths,
        None => most,
    };
    if other.depths.are_within(most) && other.depths.are_better(least, goal) {
        Some(other)
    } else {
        best
    }
}
