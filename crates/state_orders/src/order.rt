// The order of nodes with products, and the segments in it.
use crate::arrangement::Arrangement;
use crate::items::Items;
use plan_tools::{Table, Work, list_at, number};

/// How many segments there may be between one and its first reader where it stays first.
const FAR: u32 = 16;

/// Nowhere in a list.
const UNPLACED: u32 = u32::MAX;

/// An order of the items with products, by their places, and where segments begin in it.
#[derive(Drop)]
pub struct Order {
    pub places: Vec<u32>,
    pub starts: Vec<u32>,
}

// Where an item comes: at a spot, which is a place of the order without long sums; these come first
// there.
#[derive(Clone, Copy, PartialEq, Eq, PartialOrd, Ord)]
struct Key {
    spot: u32,
    has_product: bool,
    place: u32,
}

impl Order {
    /// The order in which they stand.
    pub fn of(work: &mut Work, items: &Items) -> Order {
        let mut places = Vec::new(work.alloc);
        for place in 0..number(items.list.len()) {
            if !items.is_linear(place) {
                work.push(&mut places, place);
            }
        }
        Order::cut(work, items, places)
    }

    // These places in chains: cut where a chain of items, each read by the next one, or by a sum
    // that this reads, has ended. Items without a link go to the chain behind them.
    fn cut(work: &mut Work, items: &Items, places: Vec<u32>) -> Order {
        let mut starts = Vec::new(work.alloc);
        let mut before = None;
        let mut is_linked = false;
        for (at, place) in places.iter().enumerate() {
            let links = items.links(before, *place);
            if before.is_none() || is_linked && !links {
                work.push(&mut starts, number(at));
            }
            is_linked = links;
            before = Some(*place);
        }
        Order { places, starts }
    }

    /// The segments in turn from the last one: each stands before those behind it, but one that is
    /// first read far behind it right before its first reader.
    pub fn late(&self, work: &mut Work, items: &Items) -> Order {
        let mut line = Lateness::new(work, items, self);
        for segment in (0..number(self.starts.len())).rev() {
            line.place(work, segment);
            if work.is_stopped() {
                break;
            }
        }
        let places = self.joined(work, &line.list);
        Order::cut(work, items, places)
    }

    /// The same with the long sums. Each stands right before the next item with a product, or,
    /// among words, before its first reader where that is far behind; but behind all that it is
    /// made of, and before all that read it.
    pub fn with_long(&self, work: &mut Work, items: &Items, arrangement: Arrangement) -> Order {
        let mut keys = self.keys(work, items, arrangement == Arrangement::Words);
        keys.sort_unstable();
        let mut order = Order {
            places: Vec::new(work.alloc),
            starts: Vec::new(work.alloc),
        };
        let mut last = UNPLACED;
        for Key { spot, place, .. } in &keys {
            if *spot != last && self.starts.binary_search(spot).is_ok() {
                work.push(&mut order.starts, number(order.places.len()));
            }
            last = *spot;
            work.push(&mut order.places, *place);
        }
        order
    }

    // The keys of the items with symbols, where sums may stand far behind the next item, or not.
    fn keys(&self, work: &mut Work, items: &Items, may_be_far: bool) -> Vec<Key> {
        let tops = self.tops(work, items);
        let mut firsts = self.firsts(work, items);
        let mut keys = Vec::new(work.alloc);
        let mut next = UNPLACED;
        for place in (0..number(items.list.len())).rev() {
            let has_product = !items.is_linear(place);
            let mut spot = firsts.get(place);
            if has_product {
                next = spot;
            } else {
                let early = spot.min(next).max(tops.get(place));
                spot = self.spot_of_sum(early, spot, may_be_far);
            }
            if !items.is_sum(place) {
                if may_be_far {
                    items.put_before(list_at(&items.reads, place), spot, &mut firsts);
                }
                work.push(
                    &mut keys,
                    Key {
                        spot,
                        has_product,
                        place,
                    },
                );
            }
        }
        keys
    }

    // Where a sum stands: early, or at its first reader where it may, and that is far behind.
    fn spot_of_sum(&self, early: u32, reader: u32, may_be_far: bool) -> u32 {
        let between = self
            .starts_up_to(reader)
            .saturating_sub(self.starts_up_to(early));
        if may_be_far && reader != UNPLACED && between >= FAR as usize {
            reader
        } else {
            early
        }
    }

    // How many segments begin up to a spot.
    fn starts_up_to(&self, spot: u32) -> usize {
        match self.starts.binary_search(&spot) {
            Ok(at) => at.saturating_add(1),
            Err(at) => at,
        }
    }

    // Of each item with a product where it stands, of a sum where the first one stands that reads
    // it, also through other sums.
    fn firsts(&self, work: &mut Work, items: &Items) -> Table<u32> {
        let mut firsts = self.standing(work, items);
        for place in (0..number(items.list.len())).rev() {
            let first = firsts.get(place);
            items.put_before(list_at(&items.reads, place), first, &mut firsts);
        }
        firsts
    }

    // Of each item of the order where it stands.
    fn standing(&self, work: &mut Work, items: &Items) -> Table<u32> {
        let mut places = Table::new(work, items.list.len(), UNPLACED);
        for (at, place) in self.places.iter().enumerate() {
            places.set(*place, number(at));
        }
        places
    }

    /// Of each item the place behind all items of the order that it is made of, itself among them.
    pub fn tops(&self, work: &mut Work, items: &Items) -> Table<u32> {
        let standing = self.standing(work, items);
        let mut tops = Table::new(work, items.list.len(), 0);
        for place in 0..number(items.list.len()) {
            let top = match standing.get(place) {
                UNPLACED => last_top(list_at(&items.reads, place), &tops),
                at => at.saturating_add(1),
            };
            tops.set(place, top);
        }
        tops
    }

    // The items of segments, one behind the other.
    fn joined(&self, work: &mut Work, segments: &[u32]) -> Vec<u32> {
        let mut places = Vec::new(work.alloc);
        for segment in segments {
            work.append(&mut places, self.segment(*segment));
        }
        places
    }

    // The items of a segment.
    fn segment(&self, segment: u32) -> &[u32] {
        let all = self.places.as_slice();
        let (from, to) = (self.start(segment), self.start(segment.saturating_add(1)));
        if from <= to && to <= all.len() {
            &all[from..to]
        } else {
            &all[..0]
        }
    }

    fn start(&self, segment: u32) -> usize {
        match self.starts.get(segment as usize) {
            Some(start) => *start as usize,
            None => self.places.len(),
        }
    }
}

impl Items {
    // Of some items the sums are to stand before a spot.
    fn put_before(&self, places: &[u32], spot: u32, spots: &mut Table<u32>) {
        for place in places {
            if self.is_linear(*place) {
                spots.set(*place, spots.get(*place).min(spot));
            }
        }
    }

    // Whether an item reads another one, or a sum that does.
    fn links(&self, from: Option<u32>, to: u32) -> bool {
        let Some(from) = from else {
            return false;
        };
        for read in list_at(&self.reads, to) {
            if *read == from
                || self.is_linear(*read) && list_at(&self.reads, *read).contains(&from)
            {
                return true;
            }
        }
        false
    }
}

// The segments that have a place so far.
#[derive(Drop)]
struct Lateness<'o> {
    items: &'o Items,
    order: &'o Order,
    /// Of each item those that read it.
    readers: Vec<Vec<u32>>,
    /// Of an item with a product its segment, of a sum that of its first reader.
    segments: Table<u32>,
    list: Vec<u32>,
    /// Of each segment its place in the list.
    places: Table<u32>,
    /// The item behind those that were looked at.
    end: u32,
}

impl<'o> Lateness<'o> {
    fn new(work: &mut Work, items: &'o Items, order: &'o Order) -> Lateness<'o> {
        let mut segments = Table::new(work, items.list.len(), UNPLACED);
        for segment in 0..number(order.starts.len()) {
            set_all(&mut segments, order.segment(segment), segment);
        }
        Lateness {
            items,
            order,
            readers: readers_of(work, items),
            segments,
            list: Vec::new(work.alloc),
            places: Table::new(work, order.starts.len(), UNPLACED),
            end: number(items.list.len()),
        }
    }

    // Puts a segment right before its first reader, or in front.
    fn place(&mut self, work: &mut Work, segment: u32) {
        let items = self.order.segment(segment);
        let from = match items.first() {
            Some(first) if segment > 0 => *first,
            _ => 0,
        };
        self.note_sums(from);
        let mut place = UNPLACED;
        for item in items {
            place = place.min(self.place_of(self.first_reader(*item)));
        }
        if place < FAR || place == UNPLACED {
            place = 0;
        }
        self.insert(work, place, segment);
        self.note_sums(from);
        self.end = from;
    }

    // Of the sums from an item on the segments of their first readers.
    fn note_sums(&mut self, from: u32) {
        for item in (from..self.end).rev() {
            if self.items.is_linear(item) {
                let reader = self.first_reader(item);
                self.segments.set(item, reader);
            }
        }
    }

    // The segment in the list that stands first of those that read an item.
    fn first_reader(&self, item: u32) -> u32 {
        let (mut first, mut place) = (UNPLACED, UNPLACED);
        for reader in list_at(&self.readers, item) {
            let segment = self.segments.get(*reader);
            let here = self.place_of(segment);
            if here < place {
                (first, place) = (segment, here);
            }
        }
        first
    }

    fn place_of(&self, segment: u32) -> u32 {
        self.places.get(segment)
    }

    fn insert(&mut self, work: &mut Work, place: u32, segment: u32) {
        let place = place as usize;
        let all = self.list.as_slice();
        let mut list = work.copy(&all[..place.min(all.len())]);
        work.push(&mut list, segment);
        work.append(&mut list, &all[place.min(all.len())..]);
        work.spend(list.len() as u64);
        self.list = list;
        self.number_list();
    }

    fn number_list(&mut self) {
        let mut place: u32 = 0;
        for segment in &self.list {
            self.places.set(*segment, place);
            place = place.saturating_add(1);
        }
    }
}

/// The greatest of the numbers that some items have; 0 where there are none.
pub fn last_top(reads: &[u32], tops: &Table<u32>) -> u32 {
    let mut last = 0;
    for read in reads {
        last = tops.get(*read).max(last);
    }
    last
}

fn readers_of(work: &mut Work, items: &Items) -> Vec<Vec<u32>> {
    let mut readers = work.lists(items.list.len());
    let mut reader: u32 = 0;
    for reads in &items.reads {
        push_to(work, &mut readers, reads, reader);
        reader = reader.saturating_add(1);
    }
    readers
}

// Puts an item at some places.
fn set_all(table: &mut Table<u32>, places: &[u32], item: u32) {
    for place in places {
        table.set(*place, item);
    }
}

// Appends an item to the lists at some places.
fn push_to(work: &mut Work, lists: &mut [Vec<u32>], places: &[u32], item: u32) {
    for place in places {
        push_at(work, lists, *place, item);
    }
}

/// Appends to the list at a place; nothing where it is out of range.
pub fn push_at(work: &mut Work, lists: &mut [Vec<u32>], place: u32, item: u32) {
    let place = place as usize;
    if place < lists.len() {
        work.push(&mut lists[place], item);
    }
}
