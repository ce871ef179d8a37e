// The nodes below each node, as one list.
use crate::graph::StateGraph;
use plan_tools::Work;

/// Of each node of a graph the places of those below it, one list behind the other: whoever goes
/// over all of them again and again reads them in their order.
#[derive(Drop)]
pub struct Below {
    places: Vec<u32>,
    /// Where each list ends.
    ends: Vec<usize>,
}

impl Below {
    /// Those of a graph.
    pub fn of(work: &mut Work, graph: &StateGraph) -> Below {
        let mut below = Below {
            places: Vec::new(work.alloc),
            ends: Vec::new(work.alloc),
        };
        for node in &graph.nodes {
            work.append(&mut below.places, &node.below);
            let end = below.places.len();
            work.push(&mut below.ends, end);
        }
        below
    }

    /// How many nodes there are.
    pub fn nodes(&self) -> usize {
        self.ends.len()
    }

    /// The places of the nodes below the one at a place.
    pub fn list(&self, place: usize) -> &[u32] {
        let start = match place.checked_sub(1) {
            Some(before) => self.end(before),
            None => 0,
        };
        let end = self.end(place);
        if start <= end && end <= self.places.len() {
            &self.places[start..end]
        } else {
            &self.places[..0]
        }
    }

    fn end(&self, place: usize) -> usize {
        self.ends.get(place).copied().unwrap_or(0)
    }
}
