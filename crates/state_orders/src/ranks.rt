// Nodes by their ranks, as the rounds of a Feistel network, and where sums stand among them.
use crate::items::{Item, Items};
use crate::order::{Order, last_top};
use plan_tools::{Table, Work, list_at, number};

/// How many items with products there are in a rank at least, on average. Where there are fewer,
/// ranks cut carries apart.
const LEAST_WIDTH: usize = 16;

/// Behind all ranks.
const NEVER: u32 = u32::MAX;

/// From which end ranks are counted.
#[derive(Clone, Copy, PartialEq, Eq)]
pub enum Side {
    /// Each item stands as early as it can.
    First,
    /// Each item stands as late as it can.
    Last,
}

/// Of each item with a product its rank, from 1 on: all that it is made of has lower ones. Of
/// another item the greatest rank of those that it is made of.
#[derive(Drop)]
pub struct Ranks {
    ranks: Table<u32>,
}

// Where an item stands: in a rank, sums behind the items with products.
#[derive(Clone, Copy, PartialEq, Eq, PartialOrd, Ord)]
struct Key {
    rank: u32,
    is_sum: bool,
    place: u32,
}

impl Ranks {
    /// The ranks of items.
    pub fn of(work: &mut Work, items: &Items, side: Side) -> Ranks {
        let heights = heights_of(work, items);
        let behind = greatest(heights.items()).saturating_add(1);
        let mut ranks = Table::new(work, items.list.len(), 0);
        for place in 0..number(items.list.len()) {
            let below = last_top(list_at(&items.reads, place), &ranks);
            let rank = match side {
                _ if items.is_linear(place) => below,
                Side::First => below.saturating_add(1),
                Side::Last => behind.saturating_sub(heights.get(place)),
            };
            ranks.set(place, rank);
        }
        Ranks { ranks }
    }

    /// The items with products by their ranks, which are segments. The work gives up where there
    /// are few of them in each.
    pub fn order(&self, work: &mut Work, items: &Items) -> Order {
        let mut keys = Vec::new(work.alloc);
        for place in 0..number(items.list.len()) {
            if !items.is_linear(place) {
                let key = self.key(place, false);
                work.push(&mut keys, key);
            }
        }
        let order = order_by(work, keys);
        if order.starts.len().saturating_mul(LEAST_WIDTH) > order.places.len() {
            work.give_up();
        }
        order
    }

    fn key(&self, place: u32, is_sum: bool) -> Key {
        Key {
            rank: self.ranks.get(place),
            is_sum,
            place,
        }
    }

    /// The same with the sums that have symbols. Each stands behind the rank in which one of its
    /// bits is read last, whose line may hold the sum from there on; but behind all that it is made
    /// of, and before the rank in which it is read.
    pub fn with_sums(&self, work: &mut Work, items: &Items) -> Order {
        let ends = self.ends(work, items);
        let mut readers = Table::new(work, items.list.len(), NEVER);
        let mut keys = Vec::new(work.alloc);
        for place in (0..number(items.list.len())).rev() {
            let mut key = self.key(place, items.is_linear(place));
            let mut reader = key.rank;
            if key.is_sum {
                reader = readers.get(place);
                if !items.is_sum(place) {
                    let before = reader.saturating_sub(1);
                    key.rank = key.rank.max(before.min(ends.get(place)));
                    reader = key.rank.saturating_add(1);
                }
            }
            if !items.is_sum(place) {
                work.push(&mut keys, key);
            }
            lower_all(list_at(&items.reads, place), reader, &mut readers);
        }
        order_by(work, keys)
    }

    // Of each sum the rank in which one of its bits is read last by items with products, also
    // through sums without symbols: that of the first such bit.
    fn ends(&self, work: &mut Work, items: &Items) -> Table<u32> {
        let last = self.last_readers(work, items);
        let mut ends = Table::new(work, items.list.len(), NEVER);
        for (place, item) in items.list.iter().enumerate() {
            if item.is_linear() {
                let place = number(place);
                ends.set(place, first_end(items, &item.bits, &last, &ends));
            }
        }
        ends
    }

    // Of each mark the last rank in which an item with a product reads it, also through sums
    // without symbols; 0 where none does.
    fn last_readers(&self, work: &mut Work, items: &Items) -> Table<u32> {
        let marks = items.list.len().saturating_add(items.inputs as usize);
        let mut last = Table::new(work, marks, 0);
        for place in (0..number(items.list.len())).rev() {
            let rank = if items.is_sum(place) {
                last.get(items.inputs.saturating_add(place))
            } else if items.is_linear(place) {
                0
            } else {
                self.ranks.get(place)
            };
            if let Some(item) = items.item(place) {
                raise_item(item, rank, &mut last);
            }
        }
        last
    }
}

// Of each item how many items with products read it one behind the other.
fn heights_of(work: &mut Work, items: &Items) -> Table<u32> {
    let mut heights: Table<u32> = Table::new(work, items.list.len(), 0);
    for place in (0..number(items.list.len())).rev() {
        let own = u32::from(!items.is_linear(place));
        let height = heights.get(place).saturating_add(own);
        raise_all(list_at(&items.reads, place), height, &mut heights);
    }
    heights
}

fn greatest(numbers: &[u32]) -> u32 {
    let mut most = 0;
    for number in numbers {
        most = most.max(*number);
    }
    most
}

// The items of keys by these; each rank with an item that has a product begins a segment.
fn order_by(work: &mut Work, mut keys: Vec<Key>) -> Order {
    keys.sort_unstable();
    let mut order = Order {
        places: Vec::new(work.alloc),
        starts: Vec::new(work.alloc),
    };
    let mut last = 0;
    for key in &keys {
        let is_next = !key.is_sum && key.rank != last && last > 0;
        if order.places.is_empty() || is_next {
            work.push(&mut order.starts, number(order.places.len()));
        }
        if !key.is_sum {
            last = key.rank;
        }
        work.push(&mut order.places, key.place);
    }
    order
}

// The least rank in which one of some bits is read last.
fn first_end(items: &Items, bits: &[u32], last: &Table<u32>, ends: &Table<u32>) -> u32 {
    let mut first = NEVER;
    for mark in bits {
        let end = match mark.checked_sub(items.inputs) {
            Some(place) if items.is_sum(place) => ends.get(place),
            _ => last.get(*mark),
        };
        if end > 0 {
            first = first.min(end);
        }
    }
    first
}

fn raise_item(item: &Item, rank: u32, last: &mut Table<u32>) {
    raise_all(&item.bits, rank, last);
    raise_all(&item.first, rank, last);
    raise_all(&item.second, rank, last);
}

fn raise_all(places: &[u32], least: u32, table: &mut Table<u32>) {
    for place in places {
        table.set(*place, table.get(*place).max(least));
    }
}

fn lower_all(places: &[u32], most: u32, table: &mut Table<u32>) {
    for place in places {
        table.set(*place, table.get(*place).min(most));
    }
}
