// Products of several sums, as trees of nodes that are products of two.
use plan_tools::{Table, Work, number};
use symbol_graphs::{Affine, Graph, Opened, SymbolSum};

// The most factors of a product.
const MOST_FACTORS: usize = 128;

// A product of two sums, and a constant.
#[derive(Drop)]
struct Pair {
    first: Affine,
    second: Affine,
    one: bool,
}

impl Pair {
    // `(a + d) (b + c) = a b + c a + d b + c d`.
    fn of(graph: &Graph, work: &mut Work, node: u32) -> Option<Pair> {
        let sum = graph.sum(node)?;
        let [product] = sum.products.as_slice() else {
            return None;
        };
        for (c, d) in [(false, false), (true, false), (false, true), (true, true)] {
            let mut bits = Vec::new(work.alloc);
            if c {
                bits = work.copy(&product.first);
            }
            if d {
                bits = work.sum_of(&bits, &product.second);
            }
            if bits == sum.bits {
                return Some(Pair {
                    first: Affine {
                        one: d,
                        bits: work.copy(&product.first),
                    },
                    second: Affine {
                        one: c,
                        bits: work.copy(&product.second),
                    },
                    one: sum.one != (c && d),
                });
            }
        }
        None
    }

    // That of a sum that is a product used there alone, and its node.
    fn inside(graph: &Graph, work: &mut Work, sum: &Affine) -> Option<(u32, Pair)> {
        let [symbol] = sum.bits.as_slice() else {
            return None;
        };
        let node = graph.node(*symbol)?;
        if graph.is_output(node) || graph.users(*symbol).len() != 1 {
            return None;
        }
        let pair = Pair::of(graph, work, node)?;
        if pair.one == sum.one {
            Some((node, pair))
        } else {
            None
        }
    }
}

// A sum that is a factor, or the product of two others, which a node is up to a constant.
#[derive(Drop)]
struct Part {
    sum: Affine,
    node: u32,
    inside: Option<(u32, u32)>,
    /// The least and the greatest rank of the factors in it.
    first: u32,
    last: u32,
}

/// A product of several sums.
#[derive(Drop)]
pub struct Conjunction {
    /// The product, the parts in it, those in these and so on, and then new ones.
    parts: Vec<Part>,
    factors: Vec<u32>,
    /// The part whose factors begin at a rank.
    tops: Table<u32>,
}

// The factors of a part before a rank, and the others, as parts.
#[derive(Clone, Copy)]
struct Sides {
    before: Option<u32>,
    behind: Option<u32>,
}

// ---- what there is

impl Conjunction {
    /// The product that a node is, with those inside that are used there alone.
    pub fn of(graph: &Graph, work: &mut Work, node: u32) -> Option<Conjunction> {
        let pair = Pair::of(graph, work, node)?;
        let mut sum = Affine::symbol(work, graph.symbol(node));
        sum.one = pair.one;
        let mut all = Conjunction {
            parts: Vec::new(work.alloc),
            factors: Vec::new(work.alloc),
            tops: Table::new(work, 0, 0),
        };
        all.push(work, sum);
        all.open(work, 0, node, pair);
        for place in 1..MOST_FACTORS.saturating_mul(2) {
            let Some(part) = all.parts.get(place) else {
                break;
            };
            let has_room = all.parts.len() < MOST_FACTORS.saturating_mul(2).saturating_sub(2);
            match Pair::inside(graph, work, &part.sum) {
                Some((node, pair)) if has_room => all.open(work, place, node, pair),
                _ => work.push(&mut all.factors, number(place)),
            }
        }
        Some(all)
    }

    // Appends a factor.
    fn push(&mut self, work: &mut Work, sum: Affine) -> u32 {
        let place = number(self.parts.len());
        let part = Part {
            sum,
            node: 0,
            inside: None,
            first: 0,
            last: 0,
        };
        work.push(&mut self.parts, part);
        place
    }

    // A factor is the product of two.
    fn open(&mut self, work: &mut Work, place: usize, node: u32, pair: Pair) {
        let first = self.push(work, pair.first);
        let second = self.push(work, pair.second);
        if let Some(part) = self.parts.get_mut(place) {
            part.node = node;
            part.inside = Some((first, second));
        }
    }

    /// How many factors there are.
    pub fn len(&self) -> usize {
        self.factors.len()
    }

    /// The symbols of a factor.
    pub fn bits(&self, factor: usize) -> &[u32] {
        match self.factors.get(factor) {
            Some(place) => self.bits_of(*place),
            None => &[],
        }
    }

    fn bits_of(&self, place: u32) -> &[u32] {
        match self.parts.get(place as usize) {
            Some(part) => &part.sum.bits,
            None => &[],
        }
    }

    /// Marks the nodes that it is made of.
    pub fn mark(&self, marks: &mut Table<bool>) {
        for part in &self.parts {
            if part.inside.is_some() {
                marks.set(part.node, true);
            }
        }
    }

    /// Gives each factor a rank.
    pub fn rank(&mut self, work: &mut Work, ranks: &[u32]) {
        for (place, rank) in self.factors.iter().zip(ranks) {
            if let Some(part) = self.parts.get_mut(*place as usize) {
                part.first = *rank;
                part.last = *rank;
            }
        }
        for place in (0..self.parts.len()).rev() {
            self.rank_part(place);
        }
        self.tops = Table::new(work, ranks.len(), 0);
    }

    fn rank_part(&mut self, place: usize) {
        let Some((first, second)) = self.inside(number(place)) else {
            return;
        };
        let (least, last) = self.ranks(first, second);
        if let Some(part) = self.parts.get_mut(place) {
            part.first = least;
            part.last = last;
        }
    }

    // The two parts that one is the product of.
    fn inside(&self, place: u32) -> Option<(u32, u32)> {
        self.parts.get(place as usize)?.inside
    }

    // The least and the greatest rank of two parts.
    fn ranks(&self, a: u32, b: u32) -> (u32, u32) {
        match (self.parts.get(a as usize), self.parts.get(b as usize)) {
            (Some(a), Some(b)) => (a.first.min(b.first), a.last.max(b.last)),
            _ => (0, 0),
        }
    }
}

// ---- multiplied in another order

impl Conjunction {
    /// Makes the part whose factors begin at a rank the product of those before another rank and of
    /// the others.
    pub fn cut(&mut self, graph: &mut Graph, work: &mut Work, first: u32, rank: u32) {
        let top = self.tops.get(first);
        let mut sides = Table::new(work, self.parts.len(), None);
        for place in self.mixed(work, top, rank).iter().rev() {
            let found = self.cut_part(graph, work, *place, rank, &sides);
            sides.set(*place, found);
        }
        if let Some(sides) = sides.get(top)
            && let Some(before) = sides.before
            && let Some(behind) = sides.behind
        {
            self.tops.set(first, before);
            self.tops.set(rank, behind);
        }
    }

    // The parts in one that have factors before a rank and others, each before what is in it.
    fn mixed(&self, work: &mut Work, top: u32, rank: u32) -> Vec<u32> {
        let mut found = Vec::new(work.alloc);
        let mut left = work.copy(&[top]);
        for _ in 0..self.parts.len() {
            let Some(place) = left.pop() else {
                break;
            };
            if let Some(part) = self.parts.get(place as usize)
                && part.first < rank
                && rank <= part.last
                && let Some((first, second)) = part.inside
            {
                work.push(&mut found, place);
                work.push(&mut left, first);
                work.push(&mut left, second);
            }
        }
        found
    }

    fn sides_of(&self, place: u32, rank: u32, sides: &Table<Option<Sides>>) -> Option<Sides> {
        let part = self.parts.get(place as usize)?;
        if part.last < rank {
            return Some(Sides {
                before: Some(place),
                behind: None,
            });
        }
        if part.first >= rank {
            return Some(Sides {
                before: None,
                behind: Some(place),
            });
        }
        sides.get(place)
    }

    // Makes a part the product of its factors before a rank and of the others.
    fn cut_part(
        &mut self,
        graph: &mut Graph,
        work: &mut Work,
        place: u32,
        rank: u32,
        sides: &Table<Option<Sides>>,
    ) -> Option<Sides> {
        let (first, second) = self.inside(place)?;
        let a = self.sides_of(first, rank, sides)?;
        let b = self.sides_of(second, rank, sides)?;
        let node = self.parts.get(place as usize)?.node;
        let mut opened = Opened::new(work.alloc);
        for inner in [first, second] {
            if sides.get(inner).is_some() {
                opened.open(work, graph.symbol(self.parts.get(inner as usize)?.node));
            }
        }
        for part in [a.before, a.behind, b.before, b.behind].iter().flatten() {
            opened.add_sum(work, self.bits_of(*part));
        }
        let before = self.product(graph, work, node, a.before, b.before, &mut opened)?;
        let behind = self.product(graph, work, node, a.behind, b.behind, &mut opened)?;
        self.give(graph, work, place, (before, behind), opened)?;
        Some(Sides {
            before: Some(before),
            behind: Some(behind),
        })
    }

    // The product of parts: a new one where there are two.
    fn product(
        &mut self,
        graph: &mut Graph,
        work: &mut Work,
        before: u32,
        a: Option<u32>,
        b: Option<u32>,
        opened: &mut Opened,
    ) -> Option<u32> {
        let (Some(first), Some(second)) = (a, b) else {
            return a.or(b);
        };
        let (least, last) = self.ranks(first, second);
        let (x, y) = (
            self.parts.get(first as usize)?,
            self.parts.get(second as usize)?,
        );
        let sum = graph.push_product(work, before, &x.sum, &y.sum, opened);
        let node = graph.node(*sum.bits.first()?)?;
        let place = self.push(work, sum);
        let part = self.parts.get_mut(place as usize)?;
        part.node = node;
        part.inside = Some((first, second));
        part.first = least;
        part.last = last;
        Some(place)
    }

    // Makes a part the product of two others.
    fn give(
        &mut self,
        graph: &mut Graph,
        work: &mut Work,
        place: u32,
        inside: (u32, u32),
        opened: Opened,
    ) -> Option<()> {
        let a = self.parts.get(inside.0 as usize)?;
        let b = self.parts.get(inside.1 as usize)?;
        let part = self.parts.get(place as usize)?;
        let mut sum = SymbolSum::zero(work.alloc);
        sum.add_product(work, &a.sum, &b.sum);
        sum.one = sum.one != part.sum.one;
        graph.replace(work, part.node, sum, opened);
        self.parts.get_mut(place as usize)?.inside = Some(inside);
        Some(())
    }
}
