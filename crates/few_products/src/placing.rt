// Sums of nodes as sums over the places where these nodes stand.
ghost use Rattle.std.specs.Prelude.{◌≡◌, ◌<◌, ◌∷◌, [], false, IfOk, IfSome};
ghost use Rattle.dependency_graph.specs.declared.node.Base.TheVariants as bases;
ghost use Rattle.sum_graph.specs.Graphs.{bit_sum};
ghost use Rattle.few_products.specs.inside.Writing.{IsAtPlace, IsReady, StandsFor};
ghost use Rattle.few_products.specs.inside.Writing.{IsWrittenFactor, IsWrittenSum};
ghost use Rattle.few_products.specs.inside.Writing.{only_bits, product_sum};

use bit_sums::{Factor, GrowingSum, Sum};
use dependency_graph::Base;
use indexmap::IndexSet;
use revc_base::Memory;
use revs_tape::limits::MOST_WRITES;
use std::alloc::Global;
use sum_graph::node_of;
use wide_sums::{WideProduct, WideSum};

/// The node at which another one stands, and whether it is the negation of that.
#[derive(Clone, Copy)]
pub struct Place {
    pub node: u32,
    pub negated: bool,
}

/// Written nodes over so many inputs, and at which of them other nodes stand.
#[derive(Drop)]
pub struct Written {
    pub inputs: u32,
    pub nodes: IndexSet<Sum>,
    pub places: Vec<Option<Place>>,
}

impl Written {
    /// The sum over the places of its nodes, whose factors of many bits are nodes; none where a
    /// node has no place, or there would be too many nodes.
    pub fn sum_at(&mut self, alloc: Global, sum: &WideSum) -> Result<Option<GrowingSum>, Memory>
        requires { IsReady self.old }
        ensures { IfOk result (λ found. IfSome found (IsWrittenSum sum.now self.old self.new)) }
    {
        let Some(mut whole) = self.bits_at(alloc, sum.bits(), sum.one())? else {
            return Ok(None);
        };
        for product in sum.products() {
            let Some(next) = self.product_at(alloc, product)? else {
                return Ok(None);
            };
            whole = whole.add(next)?;
        }
        Ok(Some(whole))
    }

    // A product over the places of its nodes.
    fn product_at(
        &mut self,
        alloc: Global,
        product: &WideProduct,
    ) -> Result<Option<GrowingSum>, Memory>
        requires { IsReady self.old }
        ensures { IfOk result (λ found. IfSome found
            (IsWrittenSum (product_sum product.now) self.old self.new)) }
    {
        let Some(first) = self.factor_at(alloc, product.first())? else {
            return Ok(None);
        };
        let Some(second) = self.factor_at(alloc, product.second())? else {
            return Ok(None);
        };
        Ok(Some(GrowingSum::times(&first, &second)?))
    }

    // A factor over the places of its nodes: a node, where it has many bits.
    fn factor_at(&mut self, alloc: Global, bits: &[Base]) -> Result<Option<Factor>, Memory>
        requires { IsReady self.old }
        ensures { IfOk result (λ found. IfSome found (IsWrittenFactor bits.now self.old self.new)) }
    {
        let Some(sum) = self.bits_at(alloc, bits, false)? else {
            return Ok(None);
        };
        let sum = sum.finish()?;
        if let Some(factor) = sum.factor()? {
            return Ok(Some(factor));
        }
        if self.nodes.len() >= MOST_WRITES {
            return Ok(None);
        }
        let one = sum.one();
        let node = node_of(&mut self.nodes, sum.without_one())?;
        Ok(Some(Factor::bit(alloc, Base::Node(node), one)?))
    }

    // A constant and bits over the places of their nodes.
    fn bits_at(&self, alloc: Global, bits: &[Base], one: bool) -> Result<Option<GrowingSum>, Memory>
        ensures { IfOk result (λ found. IfSome found (StandsFor self.now.inputs
            self.now.places.items (only_bits bits.now one))) }
    {
        let mut sum = GrowingSum::constant(alloc, one);
        for base in bits {
            let Some(bit) = self.base_at(alloc, *base)? else {
                return Ok(None);
            };
            sum = sum.add(bit)?;
        }
        Ok(Some(sum))
    }

    // A base over the places of nodes.
    fn base_at(&self, alloc: Global, base: Base) -> Result<Option<GrowingSum>, Memory>
        ensures { IfOk result (λ found. IfSome found (StandsFor self.now.inputs
            self.now.places.items (bit_sum base))) }
    {
        match base {
            Base::Input(input) => self.input_at(alloc, input),
            Base::Node(node) => self.node_at(alloc, node),
        }
    }

    // An input; none where there is none.
    fn input_at(&self, alloc: Global, input: u32) -> Result<Option<GrowingSum>, Memory>
        ensures { IfOk result (λ found. IfSome found (λ sum.
            (input < self.now.inputs) × (sum ≡ bit_sum (bases.Input input)))) }
    {
        if input >= self.inputs {
            return Ok(None);
        }
        Ok(Some(GrowingSum::bit(alloc, Base::Input(input))?))
    }

    // A node at its place; none where it has none.
    fn node_at(&self, alloc: Global, node: u32) -> Result<Option<GrowingSum>, Memory>
        ensures { IfOk result (λ found. IfSome found (IsAtPlace self.now.places.items node)) }
    {
        let Some(Some(place)) = self.places.get(node as usize) else {
            return Ok(None);
        };
        Ok(Some(bit_at(alloc, *place)?))
    }
}

// The bit of the node at a place, or its negation.
fn bit_at(alloc: Global, place: Place) -> Result<GrowingSum, Memory>
    ensures { IfOk result (λ sum.
        sum ≡ record { bits = bases.Node place.node ∷ []; products = []; one = place.negated }) }
{
    let factor = Factor::bit(alloc, Base::Node(place.node), place.negated)?;
    GrowingSum::of(&factor)
}
