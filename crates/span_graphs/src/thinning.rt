// Nodes without products that are written out in factors, so that they take no line.
use crate::graph::{Node, Product, SpanGraph};
use plan_tools::{Table, Work};

impl SpanGraph {
    /// Of each node, whether it has no products, and one factor alone has it.
    pub fn lone_nodes(&self, work: &mut Work) -> Table<bool> {
        let mut uses = Table::new(work, self.nodes.len(), 0);
        for node in &self.nodes {
            self.count_in_node(node, &mut uses);
        }
        for output in &self.outputs {
            self.count(&output.vector, 2, &mut uses);
        }
        let mut lone = Vec::new(work.alloc);
        for (node, count) in self.nodes.iter().zip(uses.items()) {
            work.push(&mut lone, node.is_linear() && *count == 1);
        }
        Table::of(lone, false)
    }

    // A use in a factor counts as one, any other as two.
    fn count_in_node(&self, node: &Node, uses: &mut Table<u32>) {
        for product in &node.products {
            self.count(&product.first, 1, uses);
            self.count(&product.second, 1, uses);
        }
        self.count(node.bits(), 2, uses);
    }

    // Counts so many uses of the nodes among some symbols.
    fn count(&self, symbols: &[u32], times: u32, uses: &mut Table<u32>) {
        for symbol in symbols {
            if let Some(place) = self.place(*symbol) {
                uses.set(place, uses.get(place).saturating_add(times));
            }
        }
    }

    /// Writes the marked nodes out in the factors that have them: the sums of their bits stand
    /// there then. The bits of a marked node may have no other one.
    pub fn write_out(&mut self, work: &mut Work, marks: &Table<bool>) {
        let marked = Marked {
            inputs: self.inputs,
            marks,
        };
        for place in 0..self.nodes.len() {
            let Some((before, rest)) = self.nodes.split_at_mut_checked(place) else {
                break;
            };
            if let Some(node) = rest.first_mut() {
                marked.write_out_in(work, before, &mut node.products);
            }
        }
    }
}

// Which nodes are written out.
#[derive(Clone, Copy)]
struct Marked<'m> {
    inputs: u32,
    marks: &'m Table<bool>,
}

impl Marked<'_> {
    // Writes the marked ones of some nodes out in products.
    fn write_out_in(self, work: &mut Work, nodes: &[Node], products: &mut [Product]) {
        for product in products.iter_mut() {
            let Product {
                first,
                second,
                first_written,
                second_written,
            } = product;
            self.write_out_factor(work, nodes, first, second, first_written);
            self.write_out_factor(work, nodes, second, first, second_written);
        }
    }

    // The same in a factor, unless it would be nothing, or the other factor, then.
    fn write_out_factor(
        self,
        work: &mut Work,
        nodes: &[Node],
        factor: &mut Vec<u32>,
        other: &[u32],
        written: &mut Vec<u32>,
    ) {
        let mut sum = work.copy(factor);
        let mut names = Vec::new(work.alloc);
        for symbol in factor.iter() {
            if let Some(node) = self.node(nodes, *symbol) {
                sum = work.sum_of(&sum, &node.event);
                work.push(&mut names, node.name);
            }
        }
        if !sum.is_empty() && sum.as_slice() != other {
            *factor = sum;
            *written = names;
        }
    }

    // The marked node that has a symbol.
    fn node(self, nodes: &[Node], symbol: u32) -> Option<&Node> {
        let place = symbol.checked_sub(self.inputs)?;
        if self.marks.get(place) {
            nodes.get(place as usize)
        } else {
            None
        }
    }
}
