// Products of three and more sums are multiplied in another order: first those of common symbols.
use crate::conjunctions::Conjunction;
use plan_tools::{Table, Work, number};
use symbol_graphs::{Graph, nodes_in_order};

// How far below a factor the symbols are that it is said to rest on, and the most of them.
const LEVELS: usize = 2;

const MOST_SYMBOLS: usize = 8;

/// Groups the factors of all products of three and more sums anew.
pub fn regroup(graph: &mut Graph, work: &mut Work) {
    let mut is_inner = Table::new(work, graph.nodes() as usize, false);
    for node in nodes_in_order(graph, work).iter().rev() {
        if is_inner.get(*node) {
            continue;
        }
        if let Some(mut conjunction) = Conjunction::of(graph, work, *node)
            && conjunction.len() > 2
        {
            conjunction.mark(&mut is_inner);
            let grouping = Grouping::of(graph, work, &conjunction);
            conjunction.rank(work, &grouping.ranks);
            for (first, rank) in &grouping.cuts {
                conjunction.cut(graph, work, *first, *rank);
            }
        }
    }
}

// An order of factors, and how it is cut: the parts that begin at one rank, at another one.
#[derive(Drop)]
struct Grouping {
    ranks: Vec<u32>,
    cuts: Vec<(u32, u32)>,
}

// Factors together: the symbols that they rest on, how many they are, and a number.
#[derive(Drop)]
struct Group {
    symbols: Vec<u32>,
    number: u32,
}

impl Grouping {
    // The two groups that have the most in common are one, again and again.
    fn of(graph: &Graph, work: &mut Work, conjunction: &Conjunction) -> Grouping {
        let mut groups = Vec::new(work.alloc);
        for factor in 0..conjunction.len() {
            let group = Group {
                symbols: symbols_below(graph, work, conjunction.bits(factor)),
                number: number(factor),
            };
            work.push(&mut groups, group);
        }
        let mut joined = Vec::new(work.alloc);
        for count in conjunction.len()..conjunction.len().saturating_mul(2).saturating_sub(1) {
            let (i, j) = nearest_pair(work, &groups);
            if j >= groups.len() {
                break;
            }
            let second = groups.remove(j);
            if let Some(first) = groups.get_mut(i) {
                work.push(&mut joined, (first.number, second.number));
                first.join(work, &second, number(count));
            }
        }
        Grouping::of_groups(work, conjunction.len(), &joined)
    }

    // The order in which factors stand once groups are joined.
    fn of_groups(work: &mut Work, count: usize, joined: &[(u32, u32)]) -> Grouping {
        let mut sizes: Table<u32> = Table::of(work.filled(1, count), 0);
        for (first, second) in joined {
            let size = sizes.get(*first).saturating_add(sizes.get(*second));
            sizes.push(work, size);
        }
        let mut ranks = Table::new(work, count, 0);
        let mut cuts = Vec::new(work.alloc);
        let mut left = Vec::new(work.alloc);
        let groups = count.saturating_add(joined.len());
        work.push(&mut left, (groups.saturating_sub(1), 0));
        for _ in 0..groups {
            let Some((group, rank)) = left.pop() else {
                break;
            };
            match group.checked_sub(count).and_then(|place| joined.get(place)) {
                Some((first, second)) => {
                    let middle = sizes.get(*first).saturating_add(rank);
                    work.push(&mut cuts, (rank, middle));
                    work.push(&mut left, (*second as usize, middle));
                    work.push(&mut left, (*first as usize, rank));
                }
                None => ranks.set(number(group), rank),
            }
        }
        Grouping {
            ranks: work.copy(ranks.items()),
            cuts,
        }
    }
}

impl Group {
    // Takes another group in; the number of both together.
    fn join(&mut self, work: &mut Work, other: &Group, number: u32) {
        work.append(&mut self.symbols, &other.symbols);
        work.sort_falling(&mut self.symbols);
        self.symbols.dedup();
        self.number = number;
    }
}

// The symbols that a sum rests on some levels below, falling.
fn symbols_below(graph: &Graph, work: &mut Work, bits: &[u32]) -> Vec<u32> {
    let mut symbols = work.copy(bits);
    for _ in 0..LEVELS {
        let mut below = Vec::new(work.alloc);
        for symbol in &symbols {
            match graph.sum_of_symbol(*symbol) {
                Some(sum) => {
                    let inside = sum.symbols(work);
                    work.append(&mut below, &inside);
                }
                None => work.push(&mut below, *symbol),
            }
        }
        work.sort_falling(&mut below);
        below.dedup();
        if below.len() > MOST_SYMBOLS {
            break;
        }
        symbols = below;
    }
    symbols
}

// The places of the two groups that have the most in common.
fn nearest_pair(work: &mut Work, groups: &[Group]) -> (usize, usize) {
    let mut least = (usize::MAX, usize::MAX);
    let mut best = (0, 1);
    for (i, a) in groups.iter().enumerate() {
        for (j, b) in groups.iter().enumerate().skip(i).skip(1) {
            let both = work.sum_of(&a.symbols, &b.symbols);
            let all = a.symbols.len().saturating_add(b.symbols.len());
            let apart = both.len().saturating_mul(1_000);
            let any = all.saturating_add(both.len()) / 2;
            let found = (apart / any.max(1), any);
            if found < least {
                least = found;
                best = (i, j);
            }
        }
    }
    work.spend(100);
    best
}
