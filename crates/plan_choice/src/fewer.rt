// Whether a graph of sums with fewer products is worth a second search.
ghost use Rattle.std.specs.Prelude.{IfSome};
ghost use Rattle.few_products.specs.Fewer.{IsFewerOf};

use sum_graph::SumGraph;

// One node in so many has to go.
const LEAST_GAIN: u64 = 50;

// A graph with fewer products that has fewer nodes too, by one in fifty: where it has not, a second
// search seldom gains what it takes.
pub fn worth_a_search<'g>(lean: &SumGraph, fewer: Option<&'g SumGraph>) -> Option<&'g SumGraph>
    requires { IfSome fewer (λ fewer. IsFewerOf lean.now fewer.now) }
    ensures { IfSome result (λ fewer. IsFewerOf lean.now fewer.now) }
{
    let fewer = fewer?;
    let most = u64::from(lean.nodes()) * (LEAST_GAIN - 1);
    if u64::from(fewer.nodes()) * LEAST_GAIN <= most {
        Some(fewer)
    } else {
        None
    }
}
