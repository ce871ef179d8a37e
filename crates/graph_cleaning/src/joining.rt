// Nodes that stand in the same sums become one node, which is the sum of them.
use plan_tools::{Table, Work, number};
use symbol_graphs::{Affine, Graph, Opened, SymbolProduct, SymbolSum};

/// Makes nodes that are always added to each other one node; whether there were some. The nodes
/// stand in an order in which operands come first.
pub fn join_nodes(graph: &mut Graph, work: &mut Work, order: &[u32]) -> bool {
    let marks = marks_of(graph, work, order);
    let joined = Joined::of(graph, work, marks);
    if joined.groups.is_empty() {
        return false;
    }
    for node in order {
        joined.join_bits(graph, work, *node);
        joined.join_products(graph, work, *node);
    }
    true
}

// ---- which nodes stand in the same sums

// The nodes with a number that tells in which sums they stand, those of one number together.
fn marks_of(graph: &Graph, work: &mut Work, order: &[u32]) -> Vec<(u64, u32)> {
    let mut uses = Uses {
        marks: Table::new(work, graph.nodes() as usize, 0),
        sums: 0,
    };
    for node in order {
        if let Some(sum) = graph.sum(*node) {
            uses.note_sum(graph, sum);
        }
    }
    let mut marks = Vec::new(work.alloc);
    for node in order {
        if !graph.is_output(*node) {
            work.push(&mut marks, (uses.marks.get(*node), *node));
        }
    }
    work.note(marks.sort());
    marks
}

// Of each node the sum of the numbers of all sums where it stands, and how many sums there were.
#[derive(Drop)]
struct Uses {
    marks: Table<u64>,
    sums: u64,
}

impl Uses {
    fn note_sum(&mut self, graph: &Graph, sum: &SymbolSum) {
        self.note(graph, &sum.bits);
        for product in &sum.products {
            self.note(graph, &product.first);
            self.note(graph, &product.second);
        }
    }

    fn note(&mut self, graph: &Graph, symbols: &[u32]) {
        self.sums = self.sums.wrapping_add(1);
        let turned = self.sums.wrapping_mul(0x9e37_79b9_7f4a_7c15);
        let mark = (turned ^ turned >> 29).wrapping_mul(0xff51_afd7_ed55_8ccd);
        for symbol in symbols {
            if let Some(node) = graph.node(*symbol) {
                self.marks
                    .set(node, self.marks.get(node).wrapping_add(mark));
            }
        }
    }
}

// ---- one node in their place

// The symbols of some nodes, falling, and that of the node which is their sum.
#[derive(Drop)]
struct Group {
    symbols: Vec<u32>,
    joined: u32,
}

// Groups of nodes, and of each node the group of which it has the greatest symbol.
#[derive(Drop)]
struct Joined {
    groups: Vec<Group>,
    heads: Table<Option<u32>>,
}

impl Joined {
    // Groups of the nodes that have the same number.
    fn of(graph: &mut Graph, work: &mut Work, marks: Vec<(u64, u32)>) -> Joined {
        let mut joined = Joined {
            groups: Vec::new(work.alloc),
            heads: Table::new(work, graph.nodes() as usize, None),
        };
        let mut last = None;
        let mut group = Vec::new(work.alloc);
        for (mark, node) in &marks {
            if last != Some(*mark) {
                joined.add(graph, work, &group);
                group.clear();
            }
            last = Some(*mark);
            work.push(&mut group, *node);
        }
        joined.add(graph, work, &group);
        joined
    }

    // Takes a group of two nodes and more in.
    fn add(&mut self, graph: &mut Graph, work: &mut Work, nodes: &[u32]) {
        let [_, .., last] = nodes else {
            return;
        };
        let mut symbols = Vec::new(work.alloc);
        for node in nodes {
            work.push(&mut symbols, graph.symbol(*node));
        }
        work.sort_falling(&mut symbols);
        let mut sum = SymbolSum::zero(work.alloc);
        sum.add_bits(work, &symbols);
        let made = graph.push(work, sum, graph.key(*last));
        self.heads.set(*last, Some(number(self.groups.len())));
        let group = Group {
            symbols,
            joined: graph.symbol(made),
        };
        work.push(&mut self.groups, group);
    }

    // The group that has a symbol as its greatest one.
    fn group(&self, graph: &Graph, symbol: u32) -> Option<&Group> {
        let group = self.heads.get(graph.node(symbol)?)?;
        self.groups.get(group as usize)
    }

    fn join_bits(&self, graph: &mut Graph, work: &mut Work, node: u32) {
        let bits = match graph.sum(node) {
            Some(sum) => work.copy(&sum.bits),
            None => return,
        };
        for symbol in &bits {
            if let Some(group) = self.group(graph, *symbol)
                && let Some(joined) = graph.node(group.joined)
            {
                graph.define(work, node, joined);
            }
        }
    }

    fn join_products(&self, graph: &mut Graph, work: &mut Work, node: u32) {
        let mut products = Vec::new(work.alloc);
        for product in graph.products(node) {
            if self.is_changed(graph, product) {
                let product = product.copy(work);
                work.push(&mut products, product);
            }
        }
        for product in products {
            self.join_product(graph, work, node, product);
        }
    }

    fn is_changed(&self, graph: &Graph, product: &SymbolProduct) -> bool {
        let has_group = |symbol: &u32| self.group(graph, *symbol).is_some();
        product.first.iter().any(has_group) || product.second.iter().any(has_group)
    }

    fn join_product(&self, graph: &mut Graph, work: &mut Work, node: u32, old: SymbolProduct) {
        let mut opened = Opened::new(work.alloc);
        let first = self.written(graph, work, &old.first, &mut opened);
        let second = self.written(graph, work, &old.second, &mut opened);
        opened.add_sum(work, &old.first);
        opened.add_sum(work, &old.second);
        let mut change = SymbolSum::zero(work.alloc);
        change.add_product(work, &first, &second);
        change.toggle(work, old);
        graph.change(work, node, change, opened);
    }

    // A sum with joined nodes in the place of their parts.
    fn written(
        &self,
        graph: &Graph,
        work: &mut Work,
        symbols: &[u32],
        opened: &mut Opened,
    ) -> Affine {
        let mut bits = work.copy(symbols);
        for symbol in symbols {
            if let Some(group) = self.group(graph, *symbol) {
                opened.open(work, group.joined);
                bits = work.sum_of(&bits, &group.symbols);
                bits = work.sum_of(&bits, &[group.joined]);
            }
        }
        Affine { one: false, bits }
    }
}
