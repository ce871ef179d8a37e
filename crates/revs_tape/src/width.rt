// How many writes of a tape are needed at one time.
ghost use Rattle.std.specs.Prelude.{◌≡◌, ◌+◌, length, IfOk};
ghost use Rattle.list_facts.specs.Bits.{zeros};
ghost use Rattle.revs_tape.specs.inside.Marks.{marked, with_mark, with_marks, with_operands};
ghost use Rattle.revs_tape.specs.Measures.{HasWidth};

use crate::{Entry, Ref, Tape};
use revc_base::Memory;

// Marks a write, and answers how many marks that adds.
fn mark(marks: &mut [bool], made: Ref) -> u64
    ensures marks { marks.new ≡ with_mark marks.old made }
    ensures added { marked marks.old + result ≡ marked marks.new }
{
    let Ref::Write(place) = made else {
        return 0;
    };
    let place = place as usize;
    if place >= marks.len() || marks[place] {
        return 0;
    }
    marks[place] = true;
    1
}

// Marks the operands of a write, and answers how many marks that adds.
fn mark_operands(marks: &mut [bool], entry: Entry) -> u64
    ensures marks { marks.new ≡ with_operands marks.old entry }
    ensures added { marked marks.old + result ≡ marked marks.new }
{
    match entry {
        Entry::Const(_) => 0,
        Entry::Xor(a, b) | Entry::And(a, b) => mark(marks, a) + mark(marks, b),
    }
}

// Marks these writes, and answers how many marks that adds.
fn mark_all(marks: &mut [bool], all: &[Ref]) -> u64
    ensures marks { marks.new ≡ with_marks marks.old all.now }
    ensures added { marked marks.old + result ≡ marked marks.new }
{
    let mut added = 0;
    for made in all {
        added += mark(marks, *made);
    }
    added
}

impl Tape {
    // The width, with a mark for each write, set at the outputs, and with how many are set.
    fn widest(&self, marks: &mut Vec<bool>, set: u64) -> u64
        requires marks { marks.old.items
            ≡ with_marks (zeros (length self.now.entries)) self.now.outputs }
        requires set { set ≡ marked marks.old.items }
        ensures { HasWidth self.now result }
    {
        // From the last place down: what is marked is needed at the place or later, and stands
        // below it.
        let mut live = set;
        let mut width = set;
        while let Some(is_needed) = marks.pop() {
            live -= u64::from(is_needed);
            let entry = self.entries()[marks.len()];
            live += mark_operands(marks, entry);
            width = width.max(live);
        }
        width
    }

    /// The width of the tape: the greatest number, over j from 0 to the number of writes, of writes
    /// below j that are an output or an operand of a write at or above j.
    pub fn width(&self) -> Result<u64, Memory>
        ensures { IfOk result (λ width. HasWidth self.now width) }
    {
        let mut marks = vec![in *self.allocator(); false; self.entries().len()]?;
        let set = mark_all(&mut marks, self.outputs());
        Ok(self.widest(&mut marks, set))
    }
}
