// The order in which the gates of a plan are written.
ghost use Rattle.std.specs.Prelude.{IfOk};
ghost use Rattle.program_commands.specs.inside.Plans.{IsOrderedPlan};

use circuit_plans::{Laid, Plan};
use flip_orders::{Goal, with_best_order};
use revc_base::Memory;
use std::alloc::Global;

// A plan of few Toffoli gates with its gates in the best order that was found, first by the Toffoli
// depth; another one as it is, and so a shallow one, which is chosen by its order.
pub fn in_best_order(alloc: Global, laid: Laid, plan: Plan) -> Result<Laid, Memory>
    ensures { IfOk result (IsOrderedPlan plan laid) }
{
    match plan {
        Plan::Auto | Plan::Eager | Plan::Pebble | Plan::Shallow => Ok(laid),
        Plan::Compact | Plan::Lean => with_best_order(alloc, laid, Goal::Toffoli),
    }
}
