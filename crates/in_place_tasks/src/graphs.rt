// The task of a graph of sums.
use crate::spaces::Space;
use crate::task::{Step, Task};
use crate::vectors::{add, flip, symbols_of};
use bit_sums::{Product, Sum};
use dependency_graph::Base;
use plan_tools::{Work, list_at, number};
use sum_graph::SumGraph;

/// The most symbols: products, inputs and the constant.
const MOST_SYMBOLS: u32 = 8_192;

/// The task of a graph, whose first so many outputs replace the inputs; the others are these bits.
pub fn task_of_graph(work: &mut Work, graph: &SumGraph, outputs: usize, facts: &[bool]) -> Task {
    let products = products_in(graph);
    let mut writing = Writing {
        task: Task::new(work, products, graph.inputs(), MOST_SYMBOLS),
        nodes: Vec::new(work.alloc),
    };
    for place in 0..graph.nodes() {
        writing.push(work, graph.node(place));
    }
    for sum in graph.outputs().iter().take(outputs) {
        let output = writing.output(work, sum);
        let symbols = symbols_of(work, &output);
        work.push(&mut writing.task.outputs, symbols);
    }
    let zeros = writing.zeros(work, graph.outputs(), outputs, facts);
    writing.task.without(work, &zeros)
}

// How many products the nodes of a graph have.
fn products_in(graph: &SumGraph) -> u32 {
    let mut products = 0_u32;
    for place in 0..graph.nodes() {
        products = products.saturating_add(number(graph.node(place).products().len()));
    }
    products
}

// A graph whose sums are written as vectors, node by node.
#[derive(Drop)]
struct Writing {
    task: Task,
    nodes: Vec<Vec<u64>>,
}

impl Writing {
    // Writes the next node.
    fn push(&mut self, work: &mut Work, sum: &Sum) {
        let mut value = self.bits(work, sum.bits());
        if sum.one() {
            flip(&mut value, self.task.one);
        }
        for product in sum.products() {
            self.push_product(work, product, &mut value);
        }
        work.push(&mut self.nodes, value);
    }

    // Appends the step of a product, and adds it to the value of its node.
    fn push_product(&mut self, work: &mut Work, product: &Product, value: &mut Vec<u64>) {
        let count = self.task.steps.len();
        let symbol = self.task.symbol(count);
        flip(value, symbol);
        let first = self.bits(work, product.first());
        let second = self.bits(work, product.second());
        let step = Step {
            first: symbols_of(work, &first),
            second: symbols_of(work, &second),
            product: work.copy(&[symbol]),
            value: symbols_of(work, value),
        };
        work.push(&mut self.task.steps, step);
    }

    // The sum of some bits.
    fn bits(&self, work: &mut Work, bits: &[Base]) -> Vec<u64> {
        let mut vector = work.filled(0, self.task.words);
        for bit in bits {
            match *bit {
                Base::Input(input) => flip(&mut vector, self.task.input(input)),
                Base::Node(node) => add(&mut vector, list_at(&self.nodes, node)),
            }
        }
        work.spend(bits.len() as u64);
        vector
    }

    // An output.
    fn output(&self, work: &mut Work, sum: &Sum) -> Vec<u64> {
        let mut vector = self.bits(work, sum.bits());
        if sum.one() {
            flip(&mut vector, self.task.one);
        }
        if !sum.products().is_empty() {
            work.give_up();
        }
        vector
    }

    // What the outputs behind the first so many span with these bits, so that all of it is 0.
    fn zeros(&self, work: &mut Work, outputs: &[Sum], count: usize, facts: &[bool]) -> Space {
        let mut zeros = Space::new(work, self.task.words);
        let mut place = count;
        for fact in facts {
            if let Some(sum) = outputs.get(place) {
                let mut zero = self.output(work, sum);
                if *fact {
                    flip(&mut zero, self.task.one);
                }
                let symbols = symbols_of(work, &zero);
                self.task.learn(work, &mut zeros, &symbols);
            }
            place = place.saturating_add(1);
        }
        zeros
    }
}
