// Sums that cuts tell to be 0, by diagrams.
ghost use Rattle.std.specs.Prelude.{◌≡◌, IfOk, true};
ghost use Rattle.sum_cuts.specs.Cuts.{IsZero};

use crate::reach::Reach;
use cut_search::{Atoms, FAR, NEAR, Range, Scene};
use linear_forms::Form;
use plan_tools::Work;
use product_sums::Products;
use revc_base::Memory;
use sum_cuts::{Judgement, judge};
use wide_cuts::{Asked, Descent};

/// The nodes that diagrams over a cut may have: more where fewer do not do.
const NODES: [u32; 4] = [1 << 12, 1 << 14, 1 << 17, 1 << 20];

/// Of a diagram each node that it may have counts as so many units.
const UNITS_FOR_NODE: u64 = 16;

/// How many cuts are tried for a sum.
const MOST_CUTS: usize = 64;

/// How much is tried for a sum.
#[derive(Clone, Copy)]
pub struct Effort {
    /// Where narrow cuts are looked for.
    pub range: Range,
    /// How many wide cuts are tried.
    cuts: usize,
    /// The most nodes of a diagram.
    nodes: u32,
}

/// For a sum that is met on the way.
pub const ON_THE_WAY: Effort = Effort {
    range: NEAR,
    cuts: MOST_CUTS,
    nodes: 1 << 14,
};

/// For what a line should hold at the end.
pub fn at_the_end(reach: Reach) -> Effort {
    Effort {
        range: FAR,
        cuts: if reach.has_wide() { MOST_CUTS } else { 0 },
        nodes: 1 << 20,
    }
}

/// Whether a sum is 0, as a wide cut tells.
pub fn is_zero_widely(
    work: &mut Work,
    products: &Products,
    atoms: &Atoms,
    sum: &Form,
    effort: Effort,
) -> Result<bool, Memory>
    ensures { IfOk result (λ is. is ≡ true → IsZero products.now sum.now) }
{
    let scene = Scene { products, atoms };
    let mut descent = Descent::new(work, scene, sum);
    for _cut in 0..effort.cuts {
        let Some(asked) = descent.next(work, scene, sum) else {
            return Ok(false);
        };
        if is_zero_at(work, products, &asked, sum, effort.nodes)? {
            return Ok(true);
        }
    }
    Ok(false)
}

fn is_zero_at(
    work: &mut Work,
    products: &Products,
    asked: &Asked,
    sum: &Form,
    most: u32,
) -> Result<bool, Memory>
    ensures { IfOk result (λ is. is ≡ true → IsZero products.now sum.now) }
{
    if asked.is_refuted(work) {
        return Ok(false);
    }
    for nodes in NODES {
        if nodes > most || work.is_stopped() {
            return Ok(false);
        }
        work.spend(u64::from(nodes).saturating_mul(UNITS_FOR_NODE));
        let sums = asked.sums(work);
        match judge(products, sums, &asked.steps, sum, nodes)? {
            Judgement::Zero => return Ok(true),
            Judgement::Other => return Ok(false),
            Judgement::Full => {}
        }
    }
    Ok(false)
}
