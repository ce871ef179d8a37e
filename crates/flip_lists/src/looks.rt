// Where a look for a flip passes others at once. No contract rests on it: it saves time alone.
ghost use Rattle.std.specs.Prelude.{◌≡◌, ◌-◌, ◌≤◌, ◌∷◌, [], if◌then◌else◌, min, nat_lt};
ghost use Rattle.std.specs.Prelude.{length, drop, slice_index, slice_set, IfOk, OnOk};
ghost use Rattle.std.specs.List.Sorted.{IsNonDecreasing};
ghost use Rattle.flip_lists.specs.Flips.{controls_of, lines_in};
ghost use Rattle.flip_lists.specs.Looks.{AreOnLines, IsUnnoted, NotesLatest, Stays};
ghost use Rattle.flip_lists.specs.Looks.{are_apart, first_from, kind_among, line_places};
ghost use Rattle.flip_lists.specs.Looks.{stands_between, targets_stand_between};
ghost use Rattle.flip_lists.specs.inside.Looks.{ArePutOn, AreSet};

use crate::flip::{Controls, Flip};
use crate::index::empty_lists;
use crate::marks::{MOST_KINDS, kind_of};
use revc_base::Memory;
use std::alloc::Global;

// How many kinds are told apart for each flip of a list, up to all.
const KINDS_FOR_EACH_FLIP: usize = 4;

/// How many flips had been walked over up to the latest one of each kind, target and control, when
/// that was noted, or 0; it may have come nearer to the start since, or gone out. And how many of
/// those that were walked over are noted.
#[derive(Drop)]
pub struct Latest {
    of_kind: Vec<usize>,
    of_target: Vec<usize>,
    of_control: Vec<usize>,
    noted: usize,
}

impl Latest {
    /// None is noted yet, for so many flips on so many lines.
    pub fn new(alloc: Global, lines: u32, flips: usize) -> Result<Latest, Memory>
        ensures { IfOk result (IsUnnoted lines flips) }
    {
        let kinds = flips.saturating_mul(KINDS_FOR_EACH_FLIP).min(MOST_KINDS);
        let of_kind = vec![in alloc; 0; kinds]?;
        let of_target = vec![in alloc; 0; lines as usize]?;
        let of_control = vec![in alloc; 0; lines as usize]?;
        Ok(Latest {
            of_kind,
            of_target,
            of_control,
            noted: 0,
        })
    }

    /// Notes those that were walked over and are not noted.
    pub fn note_all(&mut self, walked: &[Flip])
        ensures notes { NotesLatest self.old.noted (drop self.old.noted walked.now) self.old
            self.new }
        ensures noted { self.new.noted ≡ length walked.now }
    {
        for place in self.noted..walked.len() {
            self.note(walked[place], place + 1);
        }
        self.noted = walked.len();
    }

    /// The walk went back to where so many are walked over.
    pub fn go_back(&mut self, to: usize)
        ensures ends { Stays self.old self.new }
        ensures noted { self.new.noted ≡ min self.old.noted to }
    {
        self.noted = self.noted.min(to);
    }

    /// The flip at a place went out.
    pub fn close(&mut self, place: usize)
        ensures ends { Stays self.old self.new }
        ensures noted { self.new.noted ≡ (if nat_lt place self.old.noted then self.old.noted - 1
            else self.old.noted) }
    {
        if place < self.noted {
            self.noted -= 1;
        }
    }

    // Notes a flip, the last of so many that were walked over.
    fn note(&mut self, flip: Flip, end: usize)
        requires { 1 ≤ end }
        ensures notes { NotesLatest (end - 1) (flip ∷ []) self.old self.new }
        ensures noted { self.new.noted ≡ self.old.noted }
    {
        let kind = self.kind_of(flip);
        set(&mut self.of_kind, kind, end);
        set(&mut self.of_target, flip.target as usize, end);
        set_each(&mut self.of_control, flip.controls, end);
    }

    /// Whether it is seen at once that a flip behind those that were walked over cancels with none
    /// of them: none is like it, or behind all that are stands one that is not free of it.
    pub fn keep_apart(&self, flip: Flip, walked: &[Flip]) -> bool
        ensures { result ≡ are_apart self.now flip walked.now }
    {
        let of_kind = end_at(&self.of_kind, self.kind_of(flip));
        let like = of_kind.min(end_at(&self.of_target, flip.target as usize));
        let as_control = end_at(&self.of_control, flip.target as usize);
        like == 0
            || stands_between(like, as_control, flip, walked)
            || self.targets_stand_between(like, flip, walked)
    }

    // The same of flips that are alike.
    fn kind_of(&self, flip: Flip) -> usize
        ensures { result ≡ kind_among (length self.now.of_kind.items) flip }
    {
        kind_of(flip) % self.of_kind.len().max(1)
    }

    fn targets_stand_between(&self, like: usize, flip: Flip, walked: &[Flip]) -> bool
        ensures { result ≡ targets_stand_between self.now like flip walked.now }
    {
        match flip.controls {
            Controls::Zero => false,
            Controls::One(one) => self.target_stands_between(like, one, flip, walked),
            Controls::Two(first, second) => {
                self.target_stands_between(like, first, flip, walked)
                    || self.target_stands_between(like, second, flip, walked)
            }
        }
    }

    fn target_stands_between(&self, like: usize, line: u32, flip: Flip, walked: &[Flip]) -> bool
        ensures { result ≡ stands_between like (slice_index self.now.of_target.items line) flip
            walked.now }
    {
        stands_between(like, end_at(&self.of_target, line as usize), flip, walked)
    }
}

fn set(ends: &mut [usize], at: usize, end: usize)
    ensures { ends.new ≡ slice_set ends.old at end }
{
    if at < ends.len() {
        ends[at] = end;
    }
}

// Sets the ends of lines.
fn set_each(ends: &mut [usize], lines: Controls, end: usize)
    ensures { AreSet (lines_in lines) end ends.old ends.new }
{
    match lines {
        Controls::Zero => {}
        Controls::One(one) => set(ends, one as usize, end),
        Controls::Two(first, second) => {
            set(ends, first as usize, end);
            set(ends, second as usize, end);
        }
    }
}

fn end_at(ends: &[usize], at: usize) -> usize
    ensures { result ≡ slice_index ends.now at }
{
    ends.get(at).copied().unwrap_or(0)
}

// Whether the flip before an end is behind all that are like this one, and not free of it.
fn stands_between(like: usize, end: usize, flip: Flip, walked: &[Flip]) -> bool
    ensures { result ≡ stands_between like end flip walked.now }
{
    like < end && end <= walked.len() && !flip.is_free_of(walked[end - 1])
}

/// For each line the places of the flips on it, which rise.
#[derive(Drop)]
pub struct OnLines {
    places: Vec<Vec<usize>>,
}

impl OnLines {
    /// The places of the flips in a list.
    pub fn new(alloc: Global, lines: u32, flips: &[Flip]) -> Result<OnLines, Memory>
        ensures { IfOk result (AreOnLines lines flips.now) }
    {
        let places = empty_lists(alloc, lines)?;
        let mut on_lines = OnLines { places };
        for (place, flip) in flips.iter().enumerate() {
            on_lines.push(*flip, place)?;
        }
        Ok(on_lines)
    }

    fn push(&mut self, flip: Flip, place: usize) -> Result<(), Memory>
        ensures { OnOk result (ArePutOn (flip.target ∷ controls_of flip) place self.old self.new) }
    {
        self.push_on(flip.target, place)?;
        match flip.controls {
            Controls::Zero => Ok(()),
            Controls::One(one) => self.push_on(one, place),
            Controls::Two(first, second) => {
                self.push_on(first, place)?;
                self.push_on(second, place)
            }
        }
    }

    fn push_on(&mut self, line: u32, place: usize) -> Result<(), Memory>
        ensures { OnOk result (ArePutOn (line ∷ []) place self.old self.new) }
    {
        let at = line as usize;
        if at < self.places.len() {
            self.places[at].push(place)?;
        }
        Ok(())
    }

    /// The first place, from one on, of a flip on the line.
    pub fn first_from(&self, from: usize, line: u32) -> Option<usize>
        ensures { IsNonDecreasing (line_places self.now line)
            → result ≡ first_from from (line_places self.now line) }
    {
        let places = self.places.get(line as usize)?;
        let before = places.as_slice().partition_point(|place| *place < from);
        places.get(before).copied()
    }
}
