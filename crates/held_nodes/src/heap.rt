// The heap of work lines. Lines from `next` on were never out; those below it that are back wait in
// `free`.
ghost use Rattle.std.specs.Prelude.{◌≡◌, [], length, max, IfOk, IfSome, IfNone, IsNone, ◌↔◌, true};
ghost use Rattle.held_nodes.specs.inside.Lines.{IsLineHeap, IsLeastFree, contains, with_taken};
ghost use Rattle.held_nodes.specs.inside.Lines.{without_line, HeapView};
ghost use Rattle.held_nodes.specs.inside.Heaps.{view_of, IsKept};

use revc_base::Memory;
use std::alloc::Global;
use std::cmp::Reverse;
use std::collections::BinaryHeap;
use std::marker::Model;

/// A heap of the lines 0 to `limit - 1`, each of which is out or free. It hands out the least free
/// line. Contracts see it as its limit, the list of the lines that are out, rising, and its peak.
#[derive(Drop)]
pub struct Heap {
    limit: u32,
    next: u32,
    free: BinaryHeap<Reverse<u32>>,
}

impl Model for Heap {
    ghost Value = { HeapView };

    ghost view = { view_of };

    ghost invariant = { IsKept };
}

impl Heap {
    /// The heap of `limit` lines, all of them free. It takes the room for all of them at once.
    pub fn new(alloc: Global, limit: u32) -> Result<Heap, Memory>
        ensures { IfOk result (λ heap. heap ≡ record { limit = limit; out = []; peak = 0 }) }
    {
        Ok(Heap {
            limit,
            next: 0,
            free: BinaryHeap::with_capacity(alloc, limit as usize)?,
        })
    }

    /// Hands out the least free line; the peak is then the greater of the peak before and the
    /// number of lines that are out. `None` comes exactly where all lines are out; then nothing
    /// changes. It takes no memory, and time logarithmic in the limit.
    pub fn take(&mut self) -> Option<u32>
        ensures least { IfSome result (IsLeastFree self.old) }
        ensures taken { IfSome result (λ line. self.new ≡ with_taken self.old line) }
        ensures peak { IfSome result (λ _.
            self.new.peak ≡ max self.old.peak (length self.new.out)) }
        ensures none { IsNone result ↔ (length self.old.out ≡ self.old.limit) }
        ensures unchanged { IfNone result (self.new ≡ self.old) }
    {
        if let Some(Reverse(line)) = self.free.pop() {
            return Some(line);
        }
        if self.next == self.limit {
            return None;
        }
        let line = self.next;
        self.next += 1;
        Some(line)
    }

    /// Takes a line back that is out. It takes no memory, and time logarithmic in the limit.
    pub fn give(&mut self, line: u32)
        requires { contains self.old.out line ≡ true }
        ensures { self.new ≡ record self.old { out = without_line self.old.out line } }
    {
        // There is room for all lines, so this push is not refused.
        let _ = self.free.push(Reverse(line));
    }

    /// One more than the greatest line that was ever out, or 0: the most lines that were out at one
    /// time. It takes no memory.
    pub fn peak(&self) -> u32
        ensures peak { result ≡ self.now.peak }
        ensures lines { IsLineHeap self.now }
    {
        self.next
    }
}
