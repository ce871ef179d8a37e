// Where a pair can come of a change. No contract rests on it: it saves looks for flips.
ghost use Rattle.std.specs.Prelude.{◌≡◌, ◌<◌, ◌↔◌, ◌∷◌, [], IfOk, IsTrue, OnOk, replicate};
ghost use Rattle.std.specs.Prelude.{slice_index};
ghost use Rattle.std.specs.List.{list_any};
ghost use Rattle.flip_lists.specs.declared.marks.TheConstants.{MOST_KINDS, OPEN};
ghost use Rattle.flip_lists.specs.Flips.{controls_of, lines_in};
ghost use Rattle.flip_lists.specs.Kinds.{AreAdded, AreRemoved, count_of, kind_of};
ghost use Rattle.flip_lists.specs.Marks.{AreKept, Becomes, FreesBehind, changed, cleared, has};
ghost use Rattle.flip_lists.specs.Marks.{is_any_marked, is_freed, is_marked, is_on_new, is_stopped};
ghost use Rattle.flip_lists.specs.Marks.{lets_come, listed, marked, may_come, noted, notes_of};
ghost use Rattle.flip_lists.specs.Marks.{touches_open, with_freed, with_new, with_openness};
ghost use Rattle.flip_lists.specs.Marks.{with_passed};
ghost use Rattle.flip_lists.specs.inside.Marks.{GetMarks};

use crate::flip::{Controls, Flip};
use revc_base::Memory;
use std::alloc::Global;

// What is noted of a line, as bits of a word: flips that were passed over have it as target, or as
// a control; flips with it as target, or as a control, were freed; new flips touch it.
const TARGET: u8 = 1;

const CONTROL: u8 = 2;

const FREED_TARGET: u8 = 4;

const FREED_CONTROL: u8 = 8;

const NEW: u8 = 16;

// A flip of the line behind those that were passed over can come to the change.
const OPEN: u8 = 32;

/// The lines of the last change, with what the flips behind it that were passed over have of them;
/// and where these begin among the flips that were walked over, once they are so.
#[derive(Drop)]
pub struct Marks {
    words: Vec<u8>,
    lines: Vec<u32>,
    open_lines: usize,
    passed: usize,
}

impl Marks {
    /// No line is marked.
    pub fn new(alloc: Global, lines: u32) -> Result<Marks, Memory>
        ensures words { IfOk result (λ marks. marks.words.items ≡ replicate lines 0) }
        ensures kept { IfOk result AreKept }
    {
        let words = vec![in alloc; 0; lines as usize]?;
        Ok(Marks {
            words,
            lines: Vec::new(alloc),
            open_lines: 0,
            passed: 0,
        })
    }

    /// Whether a flip behind those that were passed over can still come to the change.
    pub fn are_open(&self) -> bool
        ensures count { IsTrue result ↔ (0 < self.now.open_lines) }
        ensures open { AreKept self.now
            → result ≡ list_any (λ word. has word OPEN) self.now.words.items }
    {
        self.open_lines > 0
    }

    /// The lines of the change.
    pub fn lines(&self) -> &[u32]
        ensures { result.now ≡ self.now.lines.items }
    {
        &self.lines
    }

    /// Whether a flip of the line can still come to the change.
    pub fn is_open(&self, line: u32) -> bool
        ensures { result ≡ is_marked self.now.words.items OPEN line }
    {
        self.has(line, OPEN)
    }

    /// Whether the flip has a line on which one can still come to the change.
    pub fn touch(&self, flip: Flip) -> bool
        ensures { result ≡ touches_open self.now.words.items flip }
    {
        self.has(flip.target, OPEN) || self.has_any(flip.controls, OPEN)
    }

    /// Whether the flip can come to the change, and was freed or is on new lines.
    pub fn let_through(&self, flip: Flip) -> bool
        ensures { result ≡ may_come self.now.words.items flip }
    {
        !self.stop(flip) && (self.freed(flip) || self.renewed(flip))
    }

    fn stop(&self, flip: Flip) -> bool
        ensures { result ≡ is_stopped self.now.words.items flip }
    {
        self.has(flip.target, CONTROL) || self.has_any(flip.controls, TARGET)
    }

    fn freed(&self, flip: Flip) -> bool
        ensures { result ≡ is_freed self.now.words.items flip }
    {
        self.has(flip.target, FREED_TARGET) || self.has_any(flip.controls, FREED_CONTROL)
    }

    fn renewed(&self, flip: Flip) -> bool
        ensures { result ≡ is_on_new self.now.words.items flip }
    {
        flip.is_cx() && (self.has_any(flip.controls, NEW) && self.has(flip.target, NEW))
    }

    fn has_any(&self, controls: Controls, mark: u8) -> bool
        ensures { result ≡ is_any_marked self.now.words.items mark (lines_in controls) }
    {
        match controls {
            Controls::Zero => false,
            Controls::One(one) => self.has(one, mark),
            Controls::Two(first, second) => self.has(first, mark) || self.has(second, mark),
        }
    }

    fn has(&self, line: u32, mark: u8) -> bool
        ensures { result ≡ is_marked self.now.words.items mark line }
    {
        has(self.word_of(line), mark)
    }

    /// A block gives way to new flips.
    pub fn change(&mut self, block: &[Flip], new: &[Flip]) -> Result<(), Memory>
        ensures { OnOk result (Becomes self.old self.new
            (changed block.now new.now (notes_of self.old))) }
    {
        self.clear();
        for flip in block {
            self.free(*flip)?;
        }
        for flip in new {
            self.renew(*flip)?;
        }
        Ok(())
    }

    // There is no line of a change.
    fn clear(&mut self)
        ensures notes { Becomes self.old self.new (cleared (notes_of self.old)) }
        ensures closed { self.new.open_lines ≡ 0 }
    {
        for at in 0..self.lines.len() {
            let place = self.lines[at] as usize;
            if place < self.words.len() {
                self.words[place] = 0;
            }
        }
        self.lines.clear();
        self.open_lines = 0;
    }

    /// The flip goes: those that it stopped are freed.
    pub fn free(&mut self, flip: Flip) -> Result<(), Memory>
        ensures { OnOk result (Becomes self.old self.new (with_freed (notes_of self.old) flip)) }
    {
        self.list(flip)?;
        self.add_lines(flip, FREED_CONTROL, FREED_TARGET, true);
        Ok(())
    }

    /// The flips that are passed over begin behind so many.
    pub fn begin(&mut self, behind: usize)
        ensures notes { notes_of self.new ≡ notes_of self.old }
        ensures passed { self.new.passed ≡ behind }
        ensures kept { AreKept self.old → AreKept self.new }
    {
        self.passed = behind;
    }

    /// The flip goes, with the one at a place, behind flips that were passed over and are walked
    /// over now.
    pub fn free_behind(&mut self, flip: Flip, place: usize, walked: &[Flip]) -> Result<(), Memory>
        ensures { OnOk result (FreesBehind flip place walked.now self.old self.new) }
    {
        if place < self.passed {
            self.passed -= 1;
        }
        self.free(flip)?;
        let (_, passed) = walked.split_at(self.passed.min(walked.len()));
        for other in passed {
            self.pass(*other);
        }
        Ok(())
    }

    // The flip is new.
    fn renew(&mut self, flip: Flip) -> Result<(), Memory>
        ensures { OnOk result (Becomes self.old self.new (with_new (notes_of self.old) flip)) }
    {
        self.list(flip)?;
        self.add_lines(flip, NEW, NEW, true);
        Ok(())
    }

    /// The flip is passed over: lines of the change note it.
    pub fn pass(&mut self, flip: Flip)
        ensures { Becomes self.old self.new (with_passed (notes_of self.old) flip) }
    {
        self.add_lines(flip, TARGET, CONTROL, false);
    }

    fn word_of(&self, line: u32) -> u8
        ensures { result ≡ slice_index self.now.words.items line }
    {
        self.words.get(line as usize).copied().unwrap_or(0)
    }

    // The lines of the flip are lines of the change.
    fn list(&mut self, flip: Flip) -> Result<(), Memory>
        ensures { OnOk result (Becomes self.old self.new
            (listed (flip.target ∷ controls_of flip) (notes_of self.old))) }
    {
        self.list_line(flip.target)?;
        match flip.controls {
            Controls::Zero => Ok(()),
            Controls::One(one) => self.list_line(one),
            Controls::Two(first, second) => {
                self.list_line(first)?;
                self.list_line(second)
            }
        }
    }

    fn list_line(&mut self, line: u32) -> Result<(), Memory>
        ensures { OnOk result (Becomes self.old self.new
            (listed (line ∷ []) (notes_of self.old))) }
    {
        if self.word_of(line) == 0 {
            self.lines.push(line)?;
        }
        Ok(())
    }

    // Notes a flip on its lines, or only on those that are lines of the change already.
    fn add_lines(&mut self, flip: Flip, of_target: u8, of_controls: u8, all: bool)
        ensures { GetMarks (flip.target ∷ controls_of flip) all self.old self.new
            (noted of_target of_controls all flip (notes_of self.old)) }
    {
        self.add(flip.target, of_target, all);
        match flip.controls {
            Controls::Zero => {}
            Controls::One(one) => self.add(one, of_controls, all),
            Controls::Two(first, second) => {
                self.add(first, of_controls, all);
                self.add(second, of_controls, all);
            }
        }
    }

    fn add(&mut self, line: u32, bit: u8, all: bool)
        ensures { GetMarks (line ∷ []) all self.old self.new
            (record {
              words = marked bit all self.old.words.items line;
              lines = self.old.lines.items;
            }) }
    {
        let old = self.word_of(line);
        let place = line as usize;
        if (old == 0 && !all) || has(old, bit) || self.words.len() <= place {
            return;
        }
        let new = with_openness(old | bit);
        self.words[place] = new;
        let open = self.open_lines.saturating_add(usize::from(has(new, OPEN)));
        self.open_lines = open.saturating_sub(usize::from(has(old, OPEN)));
    }
}

fn has(word: u8, bit: u8) -> bool
    ensures { result ≡ has word bit }
{
    word & bit != 0
}

// Whether a flip of the line behind those that were passed over can come to the change.
fn is_open(word: u8) -> bool
    ensures { result ≡ lets_come word }
{
    (has(word, FREED_TARGET) && !has(word, CONTROL))
        || (has(word, FREED_CONTROL) && !has(word, TARGET))
        || (has(word, NEW) && !(has(word, TARGET) && has(word, CONTROL)))
}

fn with_openness(word: u8) -> u8
    ensures { result ≡ with_openness word }
{
    if is_open(word) {
        word | OPEN
    } else {
        word & !OPEN
    }
}

// How many kinds of flips are told apart.
pub const MOST_KINDS: usize = 1 << 18;

/// How many flips of each kind there are; two kinds may share their number.
#[derive(Drop)]
pub struct Kinds {
    counts: Vec<u32>,
}

impl Kinds {
    /// There is no flip of any kind.
    pub fn new(alloc: Global) -> Result<Kinds, Memory>
        ensures { IfOk result (λ kinds. kinds.counts.items ≡ replicate MOST_KINDS 0) }
    {
        let counts = vec![in alloc; 0; MOST_KINDS]?;
        Ok(Kinds { counts })
    }

    /// Whether there may be another flip like this one of them.
    pub fn may_have_another(&self, flip: Flip) -> bool
        ensures { IsTrue result ↔ (1 < count_of self.now.counts.items flip) }
    {
        let kind = kind_of(flip);
        kind < self.counts.len() && self.counts[kind] > 1
    }

    /// Counts the flips.
    pub fn add_all(&mut self, flips: &[Flip])
        ensures { AreAdded flips.now self.old.counts.items self.new.counts.items }
    {
        for flip in flips {
            self.add(*flip);
        }
    }

    fn add(&mut self, flip: Flip)
        ensures { AreAdded (flip ∷ []) self.old.counts.items self.new.counts.items }
    {
        let kind = kind_of(flip);
        if kind < self.counts.len() {
            self.counts[kind] = self.counts[kind].saturating_add(1);
        }
    }

    /// The flips went out.
    pub fn remove_all(&mut self, flips: &[Flip])
        ensures { AreRemoved flips.now self.old.counts.items self.new.counts.items }
    {
        for flip in flips {
            self.remove(*flip);
        }
    }

    /// The flip went out.
    pub fn remove(&mut self, flip: Flip)
        ensures { AreRemoved (flip ∷ []) self.old.counts.items self.new.counts.items }
    {
        let kind = kind_of(flip);
        if kind < self.counts.len() {
            self.counts[kind] = self.counts[kind].saturating_sub(1);
        }
    }
}

// The same of flips that are alike.
pub fn kind_of(flip: Flip) -> usize
    ensures below { result < MOST_KINDS }
    ensures kind { result ≡ kind_of flip }
{
    let (sum, product) = match flip.controls {
        Controls::Zero => (0, 0),
        Controls::One(one) => (one, 1),
        Controls::Two(first, second) => (first.wrapping_add(second), first.wrapping_mul(second)),
    };
    let target = flip.target.wrapping_mul(31_337);
    let controls = sum
        .wrapping_mul(40_503)
        .wrapping_add(product.wrapping_mul(97));
    target.wrapping_add(controls) as usize % MOST_KINDS
}
