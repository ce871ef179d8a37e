// Windows: nodes whose definitions are written out over few sums of bits.
ghost use Rattle.std.specs.Prelude.{◌≡◌, ◌-◌, ◌^◌, ◌≤◌, length, true, IfOk, IfSome};
ghost use Rattle.wide_sums.specs.Wide.{Vanishes};
ghost use Rattle.wide_sums.specs.inside.Forms.{AreOpened, VanishesOver};
ghost use Rattle.wide_sums.specs.inside.Rows.{VanishesIn};

use crate::WideSum;
use crate::axes::{MOST_RANK, axes_of};
use crate::form::Form;
use crate::known::{Known, form_of_sum};
use dependency_graph::Base;
use revc_base::Memory;
use std::alloc::Global;

/// Nodes whose definitions are written out, in an order in which each is made of those before it
/// and of other bases, and the sums of bits that all their factors are sums of. The last bit of a
/// sum stands in none behind it.
#[derive(Drop)]
pub struct Window {
    pub opened: Vec<u32>,
    pub sums: Vec<Vec<Base>>,
}

/// Whether a sum was found to vanish wherever the definitions hold: by the window's nodes written
/// out, in all rows of as many variables as the window has sums. In time linear in the products of
/// these nodes and of the sum, for each 64 rows.
pub fn vanishes(
    alloc: Global,
    definitions: &[WideSum],
    window: &Window,
    sum: &WideSum,
) -> Result<bool, Memory>
    ensures { IfOk result (λ found. found ≡ true → Vanishes definitions.now sum.now) }
{
    let sums = window.sums.as_slice();
    if sums.len() > MOST_RANK {
        return Ok(false);
    }
    for turn in 0..turns(sums.len()) {
        if !vanishes_in(alloc, definitions, window, turn, sum)? {
            return Ok(false);
        }
    }
    Ok(true)
}

// In how many turns so many variables have all values.
fn turns(rank: usize) -> u64
    requires { rank ≤ MOST_RANK }
    ensures { result ≡ 2 ^ (rank - 6) }
{
    1 << rank.saturating_sub(6)
}

// Whether a sum was found to vanish in one turn.
fn vanishes_in(
    alloc: Global,
    definitions: &[WideSum],
    window: &Window,
    turn: u64,
    sum: &WideSum,
) -> Result<bool, Memory>
    requires { length window.now.sums.items ≤ MOST_RANK }
    ensures { IfOk result (λ found. found ≡ true
        → VanishesIn definitions.now window.now.sums.items turn sum.now) }
{
    let axes = axes_of(alloc, &window.sums, turn)?;
    vanishes_over(alloc, definitions, &window.opened, &axes, sum)
}

// Whether a sum was found to vanish over these axes.
fn vanishes_over(
    alloc: Global,
    definitions: &[WideSum],
    nodes: &[u32],
    axes: &[Form],
    sum: &WideSum,
) -> Result<bool, Memory>
    ensures { IfOk result (λ found. found ≡ true
        → VanishesOver definitions.now axes.now sum.now) }
{
    let Some(known) = opened(alloc, definitions, nodes, axes)? else {
        return Ok(false);
    };
    let Some(form) = form_of_sum(alloc, axes, &known, sum)? else {
        return Ok(false);
    };
    let form = form.reduced(alloc, axes)?;
    match form.word_alone() {
        Some(word) => Ok(word == 0),
        None => Ok(false),
    }
}

// The forms of nodes, one after another; none where one has no definition, or a factor of one is no
// sum of axes.
fn opened(
    alloc: Global,
    definitions: &[WideSum],
    nodes: &[u32],
    axes: &[Form],
) -> Result<Option<Vec<Known>>, Memory>
    ensures { IfOk result (λ found. IfSome found (λ known.
        AreOpened definitions.now axes.now known.items)) }
{
    let mut known = Vec::new(alloc);
    for node in nodes {
        let Some(definition) = definitions.get(*node as usize) else {
            return Ok(None);
        };
        let Some(form) = form_of_sum(alloc, axes, &known, definition)? else {
            return Ok(None);
        };
        known.push(Known { node: *node, form })?;
    }
    Ok(Some(known))
}
