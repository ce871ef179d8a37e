// What is to be computed in place: products of sums of symbols, and the sums that replace the
// inputs.
use crate::spaces::Space;
use crate::vectors::{flip, symbols_of, words_for};
use plan_tools::{Work, number};

/// A product of two sums, each a list of symbols. A line on which it is computed goes on to hold
/// the value of its node.
#[derive(Drop)]
pub struct Step {
    pub first: Vec<u32>,
    pub second: Vec<u32>,
    pub product: Vec<u32>,
    pub value: Vec<u32>,
}

/// Products in their order, and what is known of them: sums that are 0 are taken out of all
/// vectors. The symbols are the products from the last to the first, then the inputs, and then the
/// constant 1.
#[derive(Drop)]
pub struct Task {
    pub words: usize,
    /// The symbol of the constant.
    pub one: u32,
    products: u32,
    pub inputs: Vec<Vec<u32>>,
    pub steps: Vec<Step>,
    pub outputs: Vec<Vec<u32>>,
}

impl Task {
    /// No step yet of so many products, of so many inputs; of so many symbols at most.
    pub fn new(work: &mut Work, products: u32, inputs: u32, most: u32) -> Task {
        let one = products.saturating_add(inputs);
        if one >= most {
            work.give_up();
        }
        let mut task = Task {
            words: words_for(one.min(most)),
            one,
            products,
            inputs: Vec::new(work.alloc),
            steps: Vec::new(work.alloc),
            outputs: Vec::new(work.alloc),
        };
        for input in 0..inputs {
            let symbol = task.input(input);
            let symbols = work.copy(&[symbol]);
            work.push(&mut task.inputs, symbols);
        }
        task
    }

    /// The symbol of an input.
    pub fn input(&self, input: u32) -> u32 {
        self.products.saturating_add(input)
    }

    /// The symbol of the product of a step.
    pub fn symbol(&self, step: usize) -> u32 {
        let behind = number(step).saturating_add(1);
        self.products.saturating_sub(behind)
    }

    /// The vector of some symbols.
    pub fn vector(&self, work: &mut Work, symbols: &[u32]) -> Vec<u64> {
        let mut vector = work.filled(0, self.words);
        work.spend(symbols.len() as u64);
        for symbol in symbols {
            flip(&mut vector, *symbol);
        }
        vector
    }

    /// Whether the sum of some symbols is in a space.
    pub fn is_in(&self, work: &mut Work, space: &Space, symbols: &[u32]) -> bool {
        let vector = self.vector(work, symbols);
        space.spans(work, &vector)
    }

    /// Takes the sum of some symbols into a space; whether it was not there.
    pub fn insert(&self, work: &mut Work, space: &mut Space, symbols: &[u32]) -> bool {
        let vector = self.vector(work, symbols);
        space.insert(work, &vector)
    }

    /// Takes a sum that is 0 in. The work gives up where 1 were 0.
    pub fn learn(&self, work: &mut Work, zeros: &mut Space, symbols: &[u32]) {
        self.insert(work, zeros, symbols);
        if self.is_in(work, zeros, &[self.one]) {
            work.give_up();
        }
    }

    /// The same without what is 0.
    pub fn without(self, work: &mut Work, zeros: &Space) -> Task {
        let mut task = self;
        let words = task.words;
        for input in task.inputs.iter_mut() {
            reduce(work, input, zeros, words);
        }
        for output in task.outputs.iter_mut() {
            reduce(work, output, zeros, words);
        }
        reduce_steps(work, &mut task.steps, zeros, words);
        task
    }
}

fn reduce_steps(work: &mut Work, steps: &mut Vec<Step>, zeros: &Space, words: usize) {
    for step in steps.iter_mut() {
        reduce(work, &mut step.first, zeros, words);
        reduce(work, &mut step.second, zeros, words);
        reduce(work, &mut step.product, zeros, words);
        reduce(work, &mut step.value, zeros, words);
    }
}

// A sum without what is 0.
fn reduce(work: &mut Work, symbols: &mut Vec<u32>, zeros: &Space, words: usize) {
    if zeros.dimension() == 0 {
        return;
    }
    let mut vector = work.filled(0, words);
    for symbol in symbols.iter() {
        flip(&mut vector, *symbol);
    }
    zeros.reduce(work, &mut vector);
    *symbols = symbols_of(work, &vector);
}
