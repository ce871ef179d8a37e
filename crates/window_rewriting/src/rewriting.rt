// A target rewritten with fewer products, or with a product of fewer symbols.
use crate::naming::Names;
use crate::simpler::simpler;
use crate::vain::{Vain, mark_of};
use plan_tools::Work;
use symbol_graphs::{Affine, Graph, Opened, SymbolProduct, SymbolSum};
use symbol_windows::{Target, Window, has_symbol};
use window_programs::{ONE, Program, bit, from_variables, has, is_easy, mask_of, program_for};

/// What a rewriting gained.
#[derive(Clone, Copy)]
pub struct Gain {
    pub products: usize,
    /// Whether a product was made of fewer symbols instead.
    pub is_simpler: bool,
}

impl Gain {
    /// Nothing.
    pub const NONE: Gain = Gain {
        products: 0,
        is_simpler: false,
    };
}

/// Rewrites a target by a window, with fewer products than it has together with the nodes that are
/// gone then; where `may_simplify`, with three and more too, or else with one product of fewer
/// symbols.
pub fn rewrite(
    graph: &mut Graph,
    work: &mut Work,
    vain: &mut Vain,
    target: &Target,
    window: Window,
    may_simplify: bool,
) -> Gain {
    let rewriting = Rewriting::of(graph, work, target, window);
    let Some((program, is_simpler)) = rewriting.program(work, vain, may_simplify) else {
        return Gain::NONE;
    };
    let products = rewriting.cost.saturating_sub(program.products.len());
    rewriting.apply(graph, work, target, &program);
    Gain {
        products,
        is_simpler,
    }
}

/// A target, what is gone once it is rewritten, and what stays.
#[derive(Drop)]
pub struct Rewriting {
    window: Window,
    /// How many products it and the nodes that are gone have.
    cost: usize,
    /// The products of the target that stay.
    rest: SymbolSum,
    /// Its own products, and the nodes that are gone in its bits, in each row.
    goal: u64,
    names: Names,
    /// The symbols of the only product that goes.
    size: Option<usize>,
}

impl Rewriting {
    fn of(graph: &Graph, work: &mut Work, target: &Target, window: Window) -> Rewriting {
        let gone = gone_nodes(graph, work, target, &window, false);
        let cost = cost_of(graph, target, &gone);
        Rewriting::without(graph, work, target, window, &gone, cost)
    }

    /// That of a target without some nodes of its window, with fewer products than so many.
    pub fn without(
        graph: &Graph,
        work: &mut Work,
        target: &Target,
        window: Window,
        gone: &[u32],
        cost: usize,
    ) -> Rewriting {
        let mut rest = SymbolSum::zero(work.alloc);
        let mut goal = window.own;
        if let Some(sum) = graph.sum(target.node) {
            rest.one = sum.one;
            goal ^= add_rest(work, target, &window, gone, sum, &mut rest);
        }
        let names = Names::of(graph, work, &window, gone);
        Rewriting {
            cost,
            rest,
            goal,
            names,
            size: only_size(graph, target),
            window,
        }
    }

    /// A program for the goal, and whether it has as many products as before.
    pub fn program(
        &self,
        work: &mut Work,
        vain: &mut Vain,
        may_simplify: bool,
    ) -> Option<(Program, bool)> {
        if self.cost == 0 {
            return None;
        }
        let words = &self.names.words;
        if self.cost >= 2
            && mask_of(words, self.goal).is_none()
            && let Some(found) = simpler(work, &self.names, self.goal, MOST_SIZE)
        {
            return Some((found, false));
        }
        let most = self.cost - 1;
        if let Some(found) = program_for(work, words, self.goal, most.min(1)) {
            return Some((found, false));
        }
        if most >= 2
            && let Some(found) = self.of_several(work, vain, most, may_simplify)
        {
            return Some((found, false));
        }
        if !may_simplify || self.cost != 1 {
            return None;
        }
        Some((simpler(work, &self.names, self.goal, self.size?)?, true))
    }

    // The same as `of_many`, unless that was in vain before.
    fn of_several(
        &self,
        work: &mut Work,
        vain: &mut Vain,
        most: usize,
        may_part: bool,
    ) -> Option<Program> {
        let mark = mark_of(&self.names.words, self.goal, most, may_part);
        if vain.has(mark) {
            return None;
        }
        let found = self.of_many(work, most, may_part);
        if found.is_none() {
            vain.add(work, mark);
        }
        found
    }

    // A program of two products; of more where passes without these gain nothing, since what takes
    // so many at once hides what windows share.
    fn of_many(&self, work: &mut Work, most: usize, may_part: bool) -> Option<Program> {
        let words = &self.names.words;
        let is_easy = is_easy(self.goal);
        if is_easy && let Some(found) = from_variables(work, words, self.goal, most) {
            return Some(found);
        }
        match program_for(work, words, self.goal, 2) {
            None if may_part && most >= 3 && !is_easy => from_variables(
                work, words, self.goal, most,
            ),
            found => found,
        }
    }

    /// Gives the target its new sum.
    pub fn apply(self, graph: &mut Graph, work: &mut Work, target: &Target, program: &Program) {
        let Rewriting {
            window,
            rest,
            mut names,
            ..
        } = self;
        let Window { opened, basis, .. } = window;
        let mut opened = Opened {
            symbols: opened,
            sums: basis,
        };
        let mut made = rest;
        let count = names.words.len();
        for (place, (a, b)) in program.products.iter().enumerate() {
            let first = names.affine(work, *a);
            let second = names.affine(work, *b);
            let at = count.saturating_add(place);
            let name = if is_inner(program, at) {
                graph.push_product(work, target.node, &first, &second, &mut opened)
            } else {
                if has(program.out & !ONE, at) {
                    made.add_product(work, &first, &second);
                }
                Affine::zero(work.alloc)
            };
            names.push(work, name);
        }
        let bits = names.sum(work, program.out);
        made.add_affine(work, &bits);
        names.shorten(work, &mut made);
        graph.replace(work, target.node, made, opened);
    }
}

// The most symbols of a product that takes the place of several.
const MOST_SIZE: usize = 64;

// Whether a product of a program is in a factor of another one.
fn is_inner(program: &Program, place: usize) -> bool {
    program
        .products
        .iter()
        .any(|(a, b)| (*a | *b) & !ONE & bit(place) != 0)
}

// ---- what goes and what stays

/// The opened nodes that the target's own products and such nodes alone use, the last first; where
/// the target keeps its bits, none of these.
pub fn gone_nodes(
    graph: &Graph,
    work: &mut Work,
    target: &Target,
    window: &Window,
    keeps_bits: bool,
) -> Vec<u32> {
    let mut gone = Vec::new(work.alloc);
    let kept = match graph.sum(target.node) {
        Some(sum) if keeps_bits => sum.bits.as_slice(),
        _ => &[],
    };
    for symbol in window.opened.iter().rev() {
        if !has_symbol(kept, *symbol) && goes(graph, target, &gone, *symbol) {
            work.push(&mut gone, *symbol);
        }
    }
    gone
}

fn goes(graph: &Graph, target: &Target, gone: &[u32], symbol: u32) -> bool {
    let Some(node) = graph.node(symbol) else {
        return false;
    };
    let users = graph.users(symbol);
    let is_inside = |user: &u32| *user == target.node || gone.contains(&graph.symbol(*user));
    !graph.is_output(node)
        && !is_in_rest(graph, target, symbol)
        && !users.is_empty()
        && users.iter().all(is_inside)
}

// Whether a product that stays has a symbol.
fn is_in_rest(graph: &Graph, target: &Target, symbol: u32) -> bool {
    let products = graph.products(target.node);
    products.iter().enumerate().any(|(place, product)| !target.has(place) && product.has(symbol))
}

/// How many products a target and the nodes that go have.
pub fn cost_of(graph: &Graph, target: &Target, gone: &[u32]) -> usize {
    let mut cost = target.own.len();
    for symbol in gone {
        if let Some(sum) = graph.sum_of_symbol(*symbol) {
            cost = cost.saturating_add(sum.products.len());
        }
    }
    cost
}

// The products and bits of the target that stay; the word of the nodes in its bits that go.
fn add_rest(
    work: &mut Work,
    target: &Target,
    window: &Window,
    gone: &[u32],
    sum: &SymbolSum,
    rest: &mut SymbolSum,
) -> u64 {
    let mut word = 0;
    for symbol in &sum.bits {
        match window.known(*symbol) {
            Some(known) if gone.contains(symbol) => {
                word ^= known.word;
                rest.add_bits(work, &known.leaf);
            }
            _ => rest.add_bits(work, &[*symbol]),
        }
    }
    for (place, product) in sum.products.iter().enumerate() {
        if !target.has(place) {
            let product = product.copy(work);
            rest.toggle(work, product);
        }
    }
    word
}

// How many symbols the only product of a target has.
fn only_size(graph: &Graph, target: &Target) -> Option<usize> {
    match target.own.as_slice() {
        [place] => graph
            .products(target.node)
            .get(*place)
            .map(SymbolProduct::size),
        _ => None,
    }
}
