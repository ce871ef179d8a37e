// Two nodes of one product each, whose sum takes one product too, are not needed where all that
// uses one of both apart can do with that sum. So of two carries of which never both are 1 one node
// is made.
use plan_tools::Work;
use symbol_graphs::{GONE, Graph, SymbolSum, nodes_in_order};
use symbol_windows::{Target, Width, Window, best_grown};
use window_programs::{Program, VARIABLES, program_for};
use window_rewriting::{Rewriting, Vain};

// The most users of a node that is taken into a pair, the most nodes beside it that are tried, and
// how many more nodes are opened for a user.
const MOST_USERS: usize = 12;

const MOST_TRIED: usize = 24;

const MOST_GROWN: usize = 4;

/// Rewrites what uses one of two nodes apart with the sum of both, the last nodes first; for how
/// many pairs.
pub fn pair_up(graph: &mut Graph, work: &mut Work, vain: &mut Vain, most_units: u64) -> usize {
    let mut count: usize = 0;
    for node in nodes_in_order(graph, work).iter().rev() {
        if work.spent() > most_units {
            break;
        }
        if is_single(graph, *node) && pair_node(graph, work, vain, *node) {
            count = count.saturating_add(1);
        }
    }
    count
}

// Whether a node is one product beside its bits, of few users.
fn is_single(graph: &Graph, node: u32) -> bool {
    let users = graph.users(graph.symbol(node)).len();
    graph.node_place(node) != GONE
        && !graph.is_output(node)
        && graph.products(node).len() == 1
        && users > 0
        && users <= MOST_USERS
}

fn pair_node(graph: &mut Graph, work: &mut Work, vain: &mut Vain, node: u32) -> bool {
    let second = graph.symbol(node);
    let beside = symbols_beside(graph, work, second);
    for first in single_symbols(graph, work, &beside, second)
        .iter()
        .take(MOST_TRIED)
    {
        let pair = Pair {
            first: *first,
            second,
        };
        if pair.is_one_product(graph, work) && pair.join(graph, work, vain) {
            return true;
        }
    }
    false
}

// What stands beside a symbol in the sums of its users, falling.
fn symbols_beside(graph: &Graph, work: &mut Work, symbol: u32) -> Vec<u32> {
    let mut beside = Vec::new(work.alloc);
    for user in graph.users(symbol) {
        if let Some(sum) = graph.sum(*user) {
            push_beside(work, &sum.bits, symbol, &mut beside);
            for product in &sum.products {
                push_beside(work, &product.first, symbol, &mut beside);
                push_beside(work, &product.second, symbol, &mut beside);
            }
        }
    }
    work.sort_falling(&mut beside);
    beside.dedup();
    beside
}

fn push_beside(work: &mut Work, symbols: &[u32], symbol: u32, beside: &mut Vec<u32>) {
    if symbols.contains(&symbol) {
        work.append(beside, symbols);
    }
}

// The nodes of one product among symbols that stand before another one.
fn single_symbols(graph: &Graph, work: &mut Work, symbols: &[u32], before: u32) -> Vec<u32> {
    let mut singles = Vec::new(work.alloc);
    for symbol in symbols {
        if let Some(node) = graph.node(*symbol)
            && graph.place(*symbol) < graph.place(before)
            && is_single(graph, node)
        {
            work.push(&mut singles, *symbol);
        }
    }
    singles
}

// ---- one pair

// The symbols of two nodes, the earlier one first.
#[derive(Clone, Copy)]
struct Pair {
    first: u32,
    second: u32,
}

impl Pair {
    // Whether the sum of both is one product of what they are made of, beside a sum.
    fn is_one_product(self, graph: &Graph, work: &mut Work) -> bool {
        let target = Target {
            node: 0,
            own: Vec::new(work.alloc),
        };
        let opened = work.copy(&[self.first, self.second]);
        let Some(window) = Window::of(graph, work, &target, opened, Width::Narrow) else {
            return false;
        };
        let mut goal = 0;
        for known in &window.known {
            goal ^= known.word;
        }
        let variables = VARIABLES.get(..window.rank()).unwrap_or(&[]);
        program_for(work, variables, goal, 1).is_some()
    }

    // Makes a node of the sum, with which those that use one of both apart are rewritten; whether
    // all could be.
    fn join(self, graph: &mut Graph, work: &mut Work, vain: &mut Vain) -> bool {
        let users = self.users_apart(graph, work);
        let Some((place, before)) = users.first() else {
            return false;
        };
        if *place <= graph.place(self.second) {
            return false;
        }
        let mut sum = SymbolSum::zero(work.alloc);
        sum.add_bits(work, &[self.first]);
        sum.add_bits(work, &[self.second]);
        let joined = graph.push_before(work, sum, *before);
        if !self.may_join(graph, work, vain, &users, joined) {
            graph.forget(work, joined);
            return false;
        }
        for (_, user) in &users {
            let target = self.target(graph, work, *user);
            if let Some((rewriting, program)) = self.rewriting(graph, work, vain, &target, joined) {
                rewriting.apply(graph, work, &target, &program);
            }
        }
        true
    }

    // Whether each of these users can do with the sum.
    fn may_join(
        self,
        graph: &Graph,
        work: &mut Work,
        vain: &mut Vain,
        users: &[(u64, u32)],
        joined: u32,
    ) -> bool {
        for (_, user) in users {
            let target = self.target(graph, work, *user);
            if self.rewriting(graph, work, vain, &target, joined).is_none() {
                return false;
            }
        }
        true
    }

    // The nodes that have one of both in a sum without the other one, behind their places.
    fn users_apart(self, graph: &Graph, work: &mut Work) -> Vec<(u64, u32)> {
        let mut users = Vec::new(work.alloc);
        for symbol in [self.first, self.second] {
            for user in graph.users(symbol) {
                if self.is_apart_in(graph, *user) {
                    work.push(&mut users, (graph.node_place(*user), *user));
                }
            }
        }
        work.note(users.sort());
        users.dedup();
        users
    }

    fn is_apart_in(self, graph: &Graph, user: u32) -> bool {
        let Some(sum) = graph.sum(user) else {
            return false;
        };
        for product in &sum.products {
            if self.is_one_in(&product.first) || self.is_one_in(&product.second) {
                return true;
            }
        }
        self.is_one_in(&sum.bits)
    }

    // Whether one of both is in a sum, and the other one is not.
    fn is_one_in(self, symbols: &[u32]) -> bool {
        symbols.contains(&self.first) != symbols.contains(&self.second)
    }

    // The products of a user that have one of both.
    fn target(self, graph: &Graph, work: &mut Work, user: u32) -> Target {
        let mut own = Vec::new(work.alloc);
        for (place, product) in graph.products(user).iter().enumerate() {
            if product.has(self.first) || product.has(self.second) {
                work.push(&mut own, place);
            }
        }
        Target { node: user, own }
    }

    // How a user does with the sum in the place of both, with no more products than it has.
    fn rewriting(
        self,
        graph: &Graph,
        work: &mut Work,
        vain: &mut Vain,
        target: &Target,
        joined: u32,
    ) -> Option<(Rewriting, Program)> {
        let opened = work.copy(&[self.first, self.second, joined]);
        let mut window = Window::of(graph, work, target, opened, Width::Narrow);
        let gone = [self.first, self.second];
        let cost = target.own.len().saturating_add(1);
        for _ in 0..=MOST_GROWN {
            let now = window?;
            let next = best_grown(graph, work, target, &now);
            let rewriting = Rewriting::without(graph, work, target, now, &gone, cost);
            if let Some((program, _)) = rewriting.program(work, vain, false) {
                return Some((rewriting, program));
            }
            window = next;
        }
        None
    }
}
