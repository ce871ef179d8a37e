// What the gates of a sum weigh.
ghost use Rattle.std.specs.Prelude.{◌≡◌, ◌≤◌, ◌<◌, MatchOption, IfSome};
ghost use Rattle.std.specs.List.{AllByRecursion};
ghost use Rattle.bit_sums.specs.Products.{IsProduct};
ghost use Rattle.sum_toggles.specs.Toggles.{product_weight, toggle_weight};

use bit_sums::{Product, Sum};

/// What the gates that add a sum weigh, which does not depend on the lines; none where that is more
/// than `room`. It takes no memory.
pub fn weight_within(sum: &Sum, room: u64) -> Option<u64>
    ensures weight { MatchOption result (room < toggle_weight sum.now)
        (λ weight. (weight ≡ toggle_weight sum.now) × (weight ≤ room)) }
    ensures products { IfSome result (λ _. AllByRecursion IsProduct sum.now.products) }
{
    let bits = sum.bits().len() as u64;
    if bits > room {
        return None;
    }
    let mut left = room - bits;
    for product in sum.products() {
        let weight = product_weight(product);
        if weight > left {
            return None;
        }
        left -= weight;
    }
    let one = u64::from(sum.one());
    if one > left {
        return None;
    }
    Some(room - (left - one))
}

fn product_weight(product: &Product) -> u64
    ensures weight { result ≡ product_weight product.now }
    ensures product { IsProduct product.now }
{
    2 * (product.first().len() as u64 + product.second().len() as u64) - 3
}
