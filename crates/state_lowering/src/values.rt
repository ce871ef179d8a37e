// The values of items as vectors.
use plan_tools::{Table, Work, list_at, number};
use state_orders::{Arrangement, Items, Order, push_at};

/// How many symbols the vector of a sum without one of its own has at most.
const MOST_SYMBOLS: usize = 44;

/// The same of a sum of inputs where words have symbols.
const MOST_INPUTS: usize = 3;

/// The values of items as vectors, with what the nodes with products were made of.
#[derive(Drop)]
pub struct Values<'i> {
    items: &'i Items,
    /// The symbol of the first node.
    first: u32,
    /// Whether sums with long vectors get symbols, which are less than those of nodes.
    finds_long: bool,
    /// How many symbols a sum of inputs without one of its own has at most.
    most_inputs: usize,
    long: Vec<u32>,
    /// Of each item its vector.
    vectors: Vec<Vec<u32>>,
    /// Of each place of the order the item whose value is its symbol alone.
    holders: Vec<u32>,
    /// How often an item is read.
    uses: Table<u32>,
    /// Of each place of the order, and of the inputs before all, the items without products whose
    /// last node that is.
    behind: Vec<Vec<u32>>,
}

/// What a node with a product is made of, as vectors.
#[derive(Drop)]
pub struct Parts {
    pub event: Vec<u32>,
    pub bits: Vec<u32>,
    pub first: Vec<u32>,
    pub second: Vec<u32>,
}

impl Parts {
    // Whether the factors are different, and none is empty.
    fn is_product(&self) -> bool {
        self.first != self.second && !self.first.is_empty() && !self.second.is_empty()
    }
}

impl<'i> Values<'i> {
    /// The values of the items without products that are sums of inputs.
    pub fn of(work: &mut Work, items: &'i Items, order: &Order) -> Values<'i> {
        Values::new(work, items, order, items.inputs, None)
    }

    // Those from a symbol on; where sums get symbols, what says which.
    fn new(
        work: &mut Work,
        items: &'i Items,
        order: &Order,
        first: u32,
        finds: Option<Arrangement>,
    ) -> Values<'i> {
        let finds_long = finds.is_some();
        let mut values = Values {
            items,
            first,
            finds_long,
            most_inputs: match finds {
                Some(Arrangement::Words) => MOST_INPUTS,
                _ => MOST_SYMBOLS,
            },
            long: Vec::new(work.alloc),
            vectors: work.lists(items.list.len()),
            holders: Vec::new(work.alloc),
            uses: uses_of(work, items),
            behind: behind_of(work, items, order),
        };
        values.put_sums(work, 0, finds_long);
        values
    }

    /// The sums that have long vectors where they have no symbols of their own, though others do.
    pub fn long(
        work: &mut Work,
        items: &'i Items,
        order: &Order,
        arrangement: Arrangement,
    ) -> Vec<u32> {
        let first = items.inputs.saturating_add(number(items.list.len()));
        let mut values = Values::new(work, items, order, first, Some(arrangement));
        for place in &order.places {
            let _ = values.push(work, *place);
            if work.is_stopped() {
                break;
            }
        }
        work.take(&mut values.long)
    }

    /// The vector of a list of marks.
    pub fn sum(&self, work: &mut Work, marks: &[u32]) -> Vec<u32> {
        let mut sum = Vec::new(work.alloc);
        for mark in marks {
            let sum_now = match mark.checked_sub(self.items.inputs) {
                Some(item) => self.plus(work, &sum, list_at(&self.vectors, item)),
                None => self.plus(work, &sum, &[*mark]),
            };
            sum = sum_now;
        }
        sum
    }

    fn plus(&self, work: &mut Work, left: &[u32], right: &[u32]) -> Vec<u32> {
        work.spend(left.len().saturating_add(right.len()) as u64);
        if work.is_stopped() {
            return Vec::new(work.alloc);
        }
        work.sum_of(left, right)
    }

    /// The next item of the order, which has a product, takes a symbol; where a sum of several
    /// symbols whose last node it is makes all of these the shortest, that one has it alone. The
    /// work gives up where the product is none, as of equal factors.
    pub fn push(&mut self, work: &mut Work, place: u32) -> Parts {
        let symbol = self.first.saturating_add(number(self.holders.len()));
        let at = number(self.holders.len()).saturating_add(1);
        let mut parts = self.parts(work, place);
        self.set(place, work.copy(&[symbol]));
        self.put_sums(work, at, false);
        let holder = self.best_holder(work, at, place);
        if let Some(item) = holder {
            let vector = work.copy(list_at(&self.vectors, item));
            self.set(place, vector);
        }
        if holder.is_some() || self.finds_long {
            self.put_sums(work, at, self.finds_long);
        }
        work.push(&mut self.holders, holder.unwrap_or(place));
        parts.event = self.plus(work, list_at(&self.vectors, place), &parts.bits);
        parts
    }

    // The factors of an item and its bits.
    fn parts(&self, work: &mut Work, place: u32) -> Parts {
        let mut parts = Parts {
            event: Vec::new(work.alloc),
            bits: Vec::new(work.alloc),
            first: Vec::new(work.alloc),
            second: Vec::new(work.alloc),
        };
        if let Some(item) = self.items.item(place) {
            parts.bits = self.sum(work, &item.bits);
            parts.first = self.sum(work, &item.first);
            parts.second = self.sum(work, &item.second);
            if !item.is_linear() && !parts.is_product() {
                work.give_up();
            }
        }
        parts
    }

    fn set(&mut self, item: u32, vector: Vec<u32>) {
        let item = item as usize;
        if item < self.vectors.len() {
            self.vectors[item] = vector;
        }
    }

    // The values of the items without products behind a node.
    fn put_sums(&mut self, work: &mut Work, at: u32, finds_long: bool) {
        let items = self.items;
        for k in 0..list_at(&self.behind, at).len() {
            let Some(place) = list_at(&self.behind, at).get(k).copied() else {
                break;
            };
            if let Some(item) = items.item(place) {
                let vector = self.sum(work, &item.bits);
                let most = if at == 0 {
                    self.most_inputs
                } else {
                    MOST_SYMBOLS
                };
                if finds_long && vector.len() > most {
                    work.push(&mut self.long, place);
                    let symbol = items.inputs.saturating_add(place);
                    self.set(place, work.copy(&[symbol]));
                } else {
                    self.set(place, vector);
                }
            }
        }
    }

    // The sum that is to have the symbol of an item with a product alone, if not the item itself.
    fn best_holder(&self, work: &mut Work, at: u32, place: u32) -> Option<u32> {
        let symbol = self.head(place)?;
        if self.items.is_linear(place) {
            return None;
        }
        let mut best: Option<(usize, u32)> = None;
        for item in list_at(&self.behind, at) {
            let vector = list_at(&self.vectors, *item);
            if vector.len() > 1 && self.head(*item) == Some(symbol) {
                let cost = self.cost(work, at, vector);
                best = match best {
                    Some((least, held)) if least <= cost => Some((least, held)),
                    _ => Some((cost, *item)),
                };
            }
        }
        let (_, item) = best?;
        Some(item)
    }

    // The greatest symbol of an item's vector.
    fn head(&self, item: u32) -> Option<u32> {
        list_at(&self.vectors, item).first().copied()
    }

    // How long the vectors behind a node are, by their uses, where this one is a symbol alone.
    fn cost(&self, work: &mut Work, at: u32, vector: &[u32]) -> usize {
        let mut cost = vector.len();
        for item in list_at(&self.behind, at) {
            let other = list_at(&self.vectors, *item);
            let length = if other.first() == vector.first() {
                self.plus(work, other, vector).len().saturating_add(1)
            } else {
                other.len()
            };
            let uses = self.uses.get(*item) as usize;
            cost = cost.saturating_add(uses.saturating_mul(length));
        }
        cost
    }

    /// The items without products, by their names, that are toggled onto a line that holds a
    /// vector, so that it holds a list of marks of the same value.
    pub fn written(&self, work: &mut Work, marks: &[u32], vector: &[u32]) -> Vec<u32> {
        let form = self.form(work, vector);
        let mut apart = self.plus(work, marks, &form);
        let mut names = Vec::new(work.alloc);
        for _ in 0..self.items.list.len() {
            let Some(place) = self.last_sum(&apart) else {
                break;
            };
            let event = self.event(work, place);
            apart = self.plus(work, &apart, &event);
            if let Some(item) = self.items.item(place) {
                work.push(&mut names, item.name);
            }
        }
        if !apart.is_empty() {
            work.give_up();
        }
        names
    }

    // The marks of a vector as lines hold it.
    fn form(&self, work: &mut Work, vector: &[u32]) -> Vec<u32> {
        let mut marks = Vec::new(work.alloc);
        for symbol in vector {
            let mark = match symbol.checked_sub(self.first) {
                Some(place) => self.holder_mark(place),
                None => *symbol,
            };
            work.push(&mut marks, mark);
        }
        work.sort_falling(&mut marks);
        marks
    }

    fn holder_mark(&self, place: u32) -> u32 {
        match self.holders.get(place as usize) {
            Some(item) => self.items.inputs.saturating_add(*item),
            None => u32::MAX,
        }
    }

    /// The mark of an item and those of its bits.
    pub fn event(&self, work: &mut Work, place: u32) -> Vec<u32> {
        let mut marks = work.copy(&[self.items.inputs.saturating_add(place)]);
        if let Some(item) = self.items.item(place) {
            work.append(&mut marks, &item.bits);
        }
        marks
    }

    // The last item without a product of a list of marks.
    fn last_sum(&self, marks: &[u32]) -> Option<u32> {
        for mark in marks {
            if let Some(place) = mark.checked_sub(self.items.inputs)
                && self.items.is_linear(place)
            {
                return Some(place);
            }
        }
        None
    }
}

// How often each item is read, by items and by outputs.
fn uses_of(work: &mut Work, items: &Items) -> Table<u32> {
    let mut uses = Table::new(work, items.list.len(), 0);
    count_all(&items.reads, 0, &mut uses);
    count_all(&items.outputs, items.inputs, &mut uses);
    uses
}

// Counts the items in lists of marks, where so many inputs stand before them.
fn count_all(lists: &[Vec<u32>], inputs: u32, uses: &mut Table<u32>) {
    for marks in lists {
        count(marks, inputs, uses);
    }
}

fn count(marks: &[u32], inputs: u32, uses: &mut Table<u32>) {
    for mark in marks {
        if let Some(item) = mark.checked_sub(inputs) {
            uses.set(item, uses.get(item).saturating_add(1));
        }
    }
}

// The sums by the last items of the order that they are made of.
fn behind_of(work: &mut Work, items: &Items, order: &Order) -> Vec<Vec<u32>> {
    let tops = order.tops(work, items);
    let mut behind = work.lists(order.places.len().saturating_add(1));
    for place in 0..number(items.list.len()) {
        if items.is_sum(place) {
            push_at(work, &mut behind, tops.get(place), place);
        }
    }
    behind
}
