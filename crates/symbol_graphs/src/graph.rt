// The graph that is rewritten, and the steps that were done.
use crate::steps::{Opened, Proposal, Step, Sums};
use crate::sums::{Affine, SymbolProduct, SymbolSum};
use plan_tools::{Work, list_at, number, put};

/// The place of a node that is not there.
pub const GONE: u64 = u64::MAX;

// How far the places of nodes are apart, so that new nodes fit between them.
const STRIDE: u64 = 1 << 40;

/// A graph of sums of symbols: the inputs, and behind them the nodes. The outputs of the program
/// are nodes too.
#[derive(Drop)]
pub struct Graph {
    pub inputs: u32,
    sums: Vec<SymbolSum>,
    /// Of each node that of the program which it came from.
    keys: Vec<u32>,
    /// Where each node stands in an order in which operands come first.
    places: Vec<u64>,
    /// Of each symbol the nodes that have it in their sums, rising.
    users: Vec<Vec<u32>>,
    outputs: Outputs,
    /// The sums that nodes had when they were made, behind those of the program.
    more: Vec<SymbolSum>,
    steps: Vec<Step>,
    /// How many steps were done when the nodes were numbered.
    indexed: Option<usize>,
}

// The nodes that are outputs.
#[derive(Clone, Copy)]
struct Outputs {
    first: u32,
    behind: u32,
}

impl Graph {
    /// The graph of these sums, in which nothing was done.
    pub fn of(work: &mut Work, sums: &Sums) -> Graph {
        let first = number(sums.nodes.len());
        let mut graph = Graph {
            inputs: sums.inputs,
            sums: Vec::new(work.alloc),
            keys: Vec::new(work.alloc),
            places: Vec::new(work.alloc),
            users: Vec::new(work.alloc),
            outputs: Outputs {
                first,
                behind: first.saturating_add(number(sums.outputs.len())),
            },
            more: Vec::new(work.alloc),
            steps: Vec::new(work.alloc),
            indexed: None,
        };
        push_sums(work, &sums.nodes, &mut graph.sums);
        push_sums(work, &sums.outputs, &mut graph.sums);
        for key in 0..graph.nodes() {
            work.push(&mut graph.keys, key);
            work.push(&mut graph.places, GONE);
        }
        graph
    }

    /// The same graph.
    pub fn copy(&self, work: &mut Work) -> Graph {
        Graph {
            inputs: self.inputs,
            sums: copies(work, &self.sums),
            keys: work.copy(&self.keys),
            places: work.copy(&self.places),
            users: self.copied_users(work),
            outputs: self.outputs,
            more: copies(work, &self.more),
            steps: self.copied_steps(work),
            indexed: self.indexed,
        }
    }

    fn copied_users(&self, work: &mut Work) -> Vec<Vec<u32>> {
        let mut users = Vec::new(work.alloc);
        for list in &self.users {
            let list = work.copy(list);
            work.push(&mut users, list);
        }
        users
    }

    fn copied_steps(&self, work: &mut Work) -> Vec<Step> {
        let mut steps = Vec::new(work.alloc);
        for step in &self.steps {
            let step = step.copy(work);
            work.push(&mut steps, step);
        }
        steps
    }

    /// What is proposed: the first so many steps.
    pub fn into_proposal(self, count: usize) -> Proposal {
        let Graph {
            more,
            mut steps,
            keys,
            ..
        } = self;
        steps.truncate(count);
        Proposal { more, steps, keys }
    }

    /// Whether no step was done since the nodes were numbered.
    pub fn is_indexed(&self) -> bool {
        self.indexed == Some(self.steps.len())
    }

    /// How many steps were done.
    pub fn done(&self) -> usize {
        self.steps.len()
    }

    /// How many nodes were ever made.
    pub fn nodes(&self) -> u32 {
        number(self.sums.len())
    }

    /// The nodes that are outputs.
    pub fn outputs(&self) -> std::ops::Range<u32> {
        self.outputs.first..self.outputs.behind
    }

    /// Whether a node is an output.
    pub fn is_output(&self, node: u32) -> bool {
        self.outputs.first <= node && node < self.outputs.behind
    }

    /// The node of a symbol; none of an input.
    pub fn node(&self, symbol: u32) -> Option<u32> {
        symbol.checked_sub(self.inputs)
    }

    /// The symbol of a node.
    pub fn symbol(&self, node: u32) -> u32 {
        self.inputs.saturating_add(node)
    }

    /// The sum of a node.
    pub fn sum(&self, node: u32) -> Option<&SymbolSum> {
        self.sums.get(node as usize)
    }

    /// The sum of the node of a symbol; none of an input.
    pub fn sum_of_symbol(&self, symbol: u32) -> Option<&SymbolSum> {
        self.sum(self.node(symbol)?)
    }

    /// The products of a node.
    pub fn products(&self, node: u32) -> &[SymbolProduct] {
        match self.sums.get(node as usize) {
            Some(sum) => &sum.products,
            None => &[],
        }
    }

    /// All products of nodes that are there.
    pub fn count(&self) -> usize {
        let mut count: usize = 0;
        for (sum, place) in self.sums.iter().zip(&self.places) {
            if *place != GONE {
                count = count.saturating_add(sum.products.len());
            }
        }
        count
    }

    /// What node of the program a node came from.
    pub fn key(&self, node: u32) -> u32 {
        self.keys.get(node as usize).copied().unwrap_or(node)
    }

    /// Where a node stands.
    pub fn node_place(&self, node: u32) -> u64 {
        self.places.get(node as usize).copied().unwrap_or(GONE)
    }

    /// Where a symbol stands: an input before all nodes.
    pub fn place(&self, symbol: u32) -> u64 {
        match self.node(symbol) {
            Some(node) => self.node_place(node),
            None => 0,
        }
    }

    /// The nodes that have a symbol in their sums.
    pub fn users(&self, symbol: u32) -> &[u32] {
        list_at(&self.users, symbol)
    }
}

// ---- changes

impl Graph {
    /// Numbers the nodes in an order, and notes the users of each symbol. Others are gone.
    pub fn index(&mut self, work: &mut Work, order: &[u32]) {
        let symbols = (self.inputs as usize).saturating_add(self.sums.len());
        self.places = work.filled(GONE, self.sums.len());
        self.users = work.lists(symbols);
        let mut place: u64 = STRIDE;
        for node in order {
            put(&mut self.places, *node, place);
            place = place.saturating_add(STRIDE);
        }
        for node in 0..self.nodes() {
            self.note_uses(work, node);
        }
        self.indexed = Some(self.steps.len());
    }

    // Notes a node as the last user of its symbols.
    fn note_uses(&mut self, work: &mut Work, node: u32) {
        if self.node_place(node) == GONE {
            return;
        }
        let Some(sum) = self.sums.get(node as usize) else {
            return;
        };
        note_user(work, &mut self.users, &sum.bits, node);
        for product in &sum.products {
            note_user(work, &mut self.users, &product.first, node);
            note_user(work, &mut self.users, &product.second, node);
        }
    }

    fn add_user(&mut self, work: &mut Work, symbol: u32, node: u32) {
        let Some(users) = self.users.get_mut(symbol as usize) else {
            return;
        };
        if let Err(place) = users.binary_search(&node) {
            let inserted = users.insert(place, node);
            work.note(inserted);
        }
    }

    fn remove_user(&mut self, symbol: u32, node: u32) {
        let Some(users) = self.users.get_mut(symbol as usize) else {
            return;
        };
        if let Ok(place) = users.binary_search(&node) {
            users.remove(place);
        }
    }

    // Takes the sum of a node, which is 0 then.
    fn take(&mut self, work: &mut Work, node: u32) -> SymbolSum {
        match self.sums.get_mut(node as usize) {
            Some(sum) => sum.take(work.alloc),
            None => SymbolSum::zero(work.alloc),
        }
    }

    // Gives a node a sum, and notes nothing of it.
    fn put(&mut self, node: u32, sum: SymbolSum) {
        put(&mut self.sums, node, sum);
    }

    /// Adds a sum that vanishes to a node, and notes the step alone.
    pub fn change(&mut self, work: &mut Work, target: u32, change: SymbolSum, opened: Opened) {
        let mut sum = self.take(work, target);
        sum.add(work, &change);
        self.put(target, sum);
        let step = Step::Window {
            target,
            change,
            opened,
        };
        self.note(work, step);
    }

    /// Adds what makes a node 0 to another one, and notes the step alone.
    pub fn define(&mut self, work: &mut Work, target: u32, node: u32) {
        if target == node {
            return;
        }
        let mut sum = self.take(work, target);
        sum.add_bits(work, &[self.symbol(node)]);
        if let Some(definition) = self.sum(node) {
            sum.add(work, definition);
        }
        self.put(target, sum);
        self.note(work, Step::Definition { target, node });
    }

    /// Gives a node another sum of the same value.
    pub fn replace(&mut self, work: &mut Work, target: u32, sum: SymbolSum, opened: Opened) {
        let mut change = sum.copy(work);
        if let Some(old) = self.sum(target) {
            change.add(work, old);
        }
        self.set(work, target, sum);
        let step = Step::Window {
            target,
            change,
            opened,
        };
        self.note(work, step);
    }

    // A step was done.
    fn note(&mut self, work: &mut Work, step: Step) {
        work.push(&mut self.steps, step);
    }

    /// A new node with this sum, which comes from a node.
    pub fn push(&mut self, work: &mut Work, sum: SymbolSum, key: u32) -> u32 {
        let node = number(self.sums.len());
        let first = sum.copy(work);
        work.push(&mut self.more, first);
        work.push(&mut self.sums, sum);
        work.push(&mut self.keys, key);
        work.push(&mut self.places, GONE);
        work.push(&mut self.users, Vec::new(work.alloc));
        node
    }

    /// A new node with this sum, right before a node; its symbol.
    pub fn push_before(&mut self, work: &mut Work, sum: SymbolSum, node: u32) -> u32 {
        let symbols = sum.symbols(work);
        let mut after = 0;
        for symbol in &symbols {
            after = self.place(*symbol).max(after);
        }
        let before = self.node_place(node);
        let made = self.push(work, sum, self.key(node));
        let place = after / 2 + before / 2;
        put(&mut self.places, made, place);
        for symbol in &symbols {
            self.add_user(work, *symbol, made);
        }
        self.symbol(made)
    }

    /// A new node with a product, right before a node, and opened; its symbol, and the constant
    /// that the product has beside it.
    pub fn push_product(
        &mut self,
        work: &mut Work,
        node: u32,
        first: &Affine,
        second: &Affine,
        opened: &mut Opened,
    ) -> Affine {
        let mut sum = SymbolSum::zero(work.alloc);
        sum.add_product(work, first, second);
        let one = sum.one;
        sum.one = false;
        let symbol = self.push_before(work, sum, node);
        opened.open(work, symbol);
        let mut name = Affine::symbol(work, symbol);
        name.one = one;
        name
    }

    // Gives a node another sum; nodes that nothing uses then are gone.
    fn set(&mut self, work: &mut Work, node: u32, sum: SymbolSum) {
        let old = self.take(work, node).symbols(work);
        let new = sum.symbols(work);
        self.put(node, sum);
        for symbol in &new {
            self.add_user(work, *symbol, node);
        }
        let mut left = Vec::new(work.alloc);
        for symbol in &old {
            if new.binary_search_by(|other| symbol.cmp(other)).is_err() {
                self.remove_user(*symbol, node);
                work.push(&mut left, *symbol);
            }
        }
        self.free(work, left);
    }

    // The nodes among these symbols that nothing uses are gone, and what they alone use.
    fn free(&mut self, work: &mut Work, symbols: Vec<u32>) {
        let mut left = symbols;
        for _ in 0..u32::MAX {
            let Some(symbol) = left.pop() else {
                return;
            };
            if let Some(node) = self.unused(symbol) {
                self.remove(work, node, &mut left);
            }
        }
    }

    // The node of a symbol, where it is there and nothing uses it.
    fn unused(&self, symbol: u32) -> Option<u32> {
        let node = self.node(symbol)?;
        let is_there = self.node_place(node) != GONE;
        let is_unused = self.users(symbol).is_empty() && !self.is_output(node);
        if is_there && is_unused {
            Some(node)
        } else {
            None
        }
    }

    /// Takes a node out again that nothing uses.
    pub fn forget(&mut self, work: &mut Work, symbol: u32) {
        if let Some(node) = self.node(symbol) {
            let mut left = Vec::new(work.alloc);
            self.remove(work, node, &mut left);
        }
    }

    fn remove(&mut self, work: &mut Work, node: u32, left: &mut Vec<u32>) {
        put(&mut self.places, node, GONE);
        let symbols = self.take(work, node).symbols(work);
        for symbol in &symbols {
            self.remove_user(*symbol, node);
        }
        work.append(left, &symbols);
    }
}

// Appends a node to the users of symbols, unless it stands there.
fn note_user(work: &mut Work, users: &mut [Vec<u32>], symbols: &[u32], node: u32) {
    for symbol in symbols {
        if let Some(list) = users.get_mut(*symbol as usize)
            && list.last() != Some(&node)
        {
            work.push(list, node);
        }
    }
}

// Appends copies of sums, whose products come into their order.
fn push_sums(work: &mut Work, sums: &[SymbolSum], all: &mut Vec<SymbolSum>) {
    for sum in sums {
        let mut made = SymbolSum::zero(work.alloc);
        made.add(work, sum);
        work.push(all, made);
    }
}

fn copies(work: &mut Work, sums: &[SymbolSum]) -> Vec<SymbolSum> {
    let mut copies = Vec::new(work.alloc);
    for sum in sums {
        let sum = sum.copy(work);
        work.push(&mut copies, sum);
    }
    copies
}
