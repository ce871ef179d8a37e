// Where to look for known products. No answer rests on it.
use crate::keys::keys;
use crate::known::Known;
use crate::marks::Mark;
use revc_base::Memory;
use std::alloc::Global;
use std::collections::{HashMap, VecDeque};

// How many products are kept that were met last.
const MOST_MET: usize = 32;

// Places of known products: the first one of each mark, those of each key, and those met last.
#[derive(Drop)]
pub struct Index {
    pub marked: HashMap<Mark, usize>,
    pub near: HashMap<u64, Vec<usize>>,
    pub met: VecDeque<usize>,
}

impl Index {
    pub fn new(alloc: Global) -> Index {
        Index {
            marked: HashMap::new(alloc),
            near: HashMap::new(alloc),
            met: VecDeque::new(alloc),
        }
    }

    // The first product of a mark, which is then the one met last.
    pub fn recall(&mut self, mark: Mark) -> Result<Option<usize>, Memory> {
        let Some(place) = self.marked.get(&mark) else {
            return Ok(None);
        };
        let place = *place;
        self.meet(place)?;
        Ok(Some(place))
    }

    // Takes in a product. It is then the one met last.
    pub fn note(&mut self, place: usize, known: &Known) -> Result<(), Memory> {
        for key in &keys(&known.first, &known.second)? {
            self.put_near(*key, place)?;
        }
        let mark = Mark::of(&known.first, &known.second);
        self.marked.entry(mark)?.or_insert(place);
        self.meet(place)
    }

    fn put_near(&mut self, key: u64, place: usize) -> Result<(), Memory> {
        let none = Vec::new(*self.met.allocator());
        let places = self.near.entry(key)?.or_insert(none);
        places.push(place)?;
        Ok(())
    }

    fn meet(&mut self, place: usize) -> Result<(), Memory> {
        if self.met.back() == Some(&place) {
            return Ok(());
        }
        self.met.push_back(place)?;
        if self.met.len() > MOST_MET {
            self.met.pop_front();
        }
        Ok(())
    }
}
