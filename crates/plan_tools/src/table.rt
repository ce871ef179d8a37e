// Look-ups by numbers of 32 bits that cannot fail.
use crate::work::Work;

/// Items by their places, with one that is told of each place out of range.
#[derive(Drop)]
pub struct Table<T> {
    items: Vec<T>,
    none: T,
}

impl<T: Copy> Table<T> {
    /// `none` at so many places.
    pub fn new(work: &mut Work, count: usize, none: T) -> Table<T> {
        Table {
            items: work.filled(none, count),
            none,
        }
    }

    /// These items, with `none` behind them.
    pub fn of(items: Vec<T>, none: T) -> Table<T> {
        Table { items, none }
    }

    /// The same table once more.
    pub fn copy(&self, work: &mut Work) -> Table<T> {
        Table {
            items: work.copy(&self.items),
            none: self.none,
        }
    }

    /// The items, in their order.
    pub fn items(&self) -> &[T] {
        &self.items
    }

    /// The item at a place.
    pub fn get(&self, place: u32) -> T {
        match self.items.get(place as usize) {
            Some(item) => *item,
            None => self.none,
        }
    }

    /// Puts an item at a place; nothing where it is out of range.
    pub fn set(&mut self, place: u32, item: T) {
        put(&mut self.items, place, item);
    }

    /// Appends an item.
    pub fn push(&mut self, work: &mut Work, item: T) {
        work.push(&mut self.items, item);
    }
}

/// Puts an item at a place; nothing where it is out of range.
pub fn put<T: Drop>(items: &mut [T], place: u32, item: T) {
    let place = place as usize;
    if place < items.len() {
        items[place] = item;
    }
}

/// The list at a place; an empty one where it is out of range.
pub fn list_at<T>(lists: &[Vec<T>], place: u32) -> &[T] {
    match lists.get(place as usize) {
        Some(list) => list.as_slice(),
        None => &[],
    }
}

/// A length or a place as a number of 32 bits; the greatest one where it is more.
pub fn number(count: usize) -> u32 {
    u32::try_from(count).unwrap_or(u32::MAX)
}
