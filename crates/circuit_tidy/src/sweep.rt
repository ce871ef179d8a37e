// Many blocks replaced in one walk, each with the pairs that come of it.
ghost use Rattle.std.specs.Prelude.{◌≡◌, ◌+◌, ◌<◌, ◌≤◌, ◌++◌, [], true, length, take, drop};
ghost use Rattle.std.specs.Prelude.{slice_index, IfOk, OnOk, MatchOption, ⊤};
ghost use Rattle.std.specs.List.{AllByRecursion};
ghost use Rattle.flip_lists.specs.Flips.{are_free};
ghost use Rattle.flip_lists.specs.Marks.{may_come};
ghost use Rattle.circuit_tidy.specs.inside.Walking.{IsLonger, IsLongerIn};
ghost use Rattle.circuit_tidy.specs.inside.Sweeping.{IsBegun, IsLastLike, IsWithin, Leads};
ghost use Rattle.circuit_tidy.specs.inside.Sweeping.{LeadsOn, MeetsNext, Replaces, Stays, Takes};
ghost use Rattle.circuit_tidy.specs.inside.Work.{IsSwept};

use crate::blocks::{Longer, front_of};
use flip_lists::{Flip, Kinds, Latest, Marks, OnLines, Spans};
use revc_base::Memory;
use std::alloc::Global;

// How many blocks a sweep looks at.
const MOST_TURNS: u32 = 1 << 30;

// How many flips that come next are looked at one after another, for each line of a change.
const NEAR_FOR_EACH_LINE: usize = 4;

/// Flips that were walked over, and flips of which those from a place on are still to come, with
/// what the walk found of both. Behind a place they stand where they stood at the start.
#[derive(Drop)]
pub struct Sweep {
    done: Vec<Flip>,
    behind: Spans,
    kinds: Kinds,
    latest: Latest,
    flips: Vec<Flip>,
    ahead: Spans,
    at: usize,
    on_lines: OnLines,
    kept: usize,
}

// The flips, walked over from the start: the first block that is longer than its elimination gives
// way to it, the pairs that come of it go out, and so on.
pub fn swept(
    alloc: Global,
    lines: u32,
    flips: Vec<Flip>,
    first: &Longer,
) -> Result<Vec<Flip>, Memory>
    requires { IsLongerIn flips.items first.now }
    ensures { IfOk result (λ swept. IsSwept flips.items swept.items) }
{
    let mut sweep = Sweep::new(alloc, lines, flips)?;
    sweep.walk_over_all(alloc, lines, first)?;
    Ok(sweep.done)
}

impl Sweep {
    fn new(alloc: Global, lines: u32, flips: Vec<Flip>) -> Result<Sweep, Memory>
        ensures { IfOk result (IsBegun flips.items) }
    {
        let mut kinds = Kinds::new(alloc)?;
        kinds.add_all(&flips);
        let latest = Latest::new(alloc, lines, flips.len())?;
        let on_lines = OnLines::new(alloc, lines, &flips)?;
        Ok(Sweep {
            done: Vec::new(alloc),
            behind: Spans::new(alloc),
            kinds,
            latest,
            flips,
            ahead: Spans::new(alloc),
            at: 0,
            on_lines,
            kept: 0,
        })
    }

    // Over all flips, of which a block gives way first.
    fn walk_over_all(&mut self, alloc: Global, lines: u32, first: &Longer) -> Result<(), Memory>
        requires begun { IsBegun self.old.flips.items self.old }
        requires longer { IsLongerIn self.old.flips.items first.now }
        ensures { OnOk result (IsSwept self.old.flips.items self.new.done.items) }
    {
        let mut marks = Marks::new(alloc, lines)?;
        self.take(first.start)?;
        self.give_way(&mut marks, first.end - first.start, &first.shorter)?;
        for _turn in 0..MOST_TURNS {
            if self.at == self.flips.len() {
                break;
            }
            self.walk_on(alloc, &mut marks)?;
        }
        let left = self.flips.len() - self.at;
        self.take(left)?;
        Ok(())
    }

    // Over what comes next, if a look at it would find nothing, or on to a block that gives way.
    fn walk_on(&mut self, alloc: Global, marks: &mut Marks) -> Result<(), Memory>
        requires { self.old.at < length self.old.flips.items }
        ensures { OnOk result (Leads self.old self.new) }
    {
        let known = self.known_length();
        if known > 0 {
            self.take_block(known)?;
            return Ok(());
        }
        self.walk_over_block(alloc, marks)?;
        Ok(())
    }

    // How many come next that need no look: those that had one, or a row of flips that are no CX.
    fn known_length(&mut self) -> usize
        requires { IsWithin self.old }
        ensures stays { Stays self.old self.new }
        ensures at { self.new.at ≡ self.old.at }
        ensures within { self.new.at + result ≤ length self.new.flips.items }
    {
        let known = self.ahead.length_at(self.at);
        let left = self.flips.len() - self.at;
        if known > 0 {
            return known.min(left);
        }
        let (_, rest) = self.flips.split_at(self.at);
        before_cx(rest)
    }

    // Over the block that comes next, or back behind it where it gives way.
    fn walk_over_block(&mut self, alloc: Global, marks: &mut Marks) -> Result<(), Memory>
        requires { self.old.at < length self.old.flips.items }
        ensures { OnOk result (Leads self.old self.new) }
    {
        let (_, rest) = self.flips.split_at(self.at);
        let front = front_of(alloc, rest)?;
        let count = front.length;
        match front.shorter {
            Some(shorter) => {
                self.give_way(marks, count, &shorter)?;
                Ok(())
            }
            None => self.take_block(count),
        }
    }

    // The elimination in place of the block that comes next; then the walk goes back to the first
    // block that may have changed.
    fn give_way(&mut self, marks: &mut Marks, count: usize, shorter: &[Flip]) -> Result<(), Memory>
        requires within { self.old.at + count ≤ length self.old.flips.items }
        requires longer { IsLonger (take count (drop self.old.at self.old.flips.items))
            shorter.now }
        ensures { OnOk result (LeadsOn self.old self.new) }
    {
        let (_, rest) = self.flips.split_at(self.at);
        let (block, _) = rest.split_at(count);
        marks.change(block, shorter)?;
        let start = self.done.len();
        self.replace(count, shorter)?;
        self.go_back(start);
        let least = self.settle(marks, shorter.len())?;
        self.go_back_to_block(least)?;
        Ok(())
    }

    // The flips in place of so many that come next.
    fn replace(&mut self, count: usize, shorter: &[Flip]) -> Result<(), Memory>
        requires { self.old.at + count ≤ length self.old.flips.items }
        ensures { OnOk result (Replaces count shorter.now self.old self.new) }
    {
        let (_, rest) = self.flips.split_at(self.at);
        let (block, _) = rest.split_at(count);
        self.kinds.remove_all(block);
        self.kinds.add_all(shorter);
        self.behind.close(self.done.len());
        self.done.extend_from_slice(shorter)?;
        self.at += count;
        self.ahead.drop_before(self.at);
        Ok(())
    }

    // Over a block of so many, or a single flip.
    fn take_block(&mut self, count: usize) -> Result<(), Memory>
        requires { self.old.at + count ≤ length self.old.flips.items }
        ensures { OnOk result (Leads self.old self.new) }
    {
        let start = self.done.len();
        self.take(count)?;
        self.behind.push(start, self.done.len())?;
        Ok(())
    }

    // Over so many that come next.
    fn take(&mut self, count: usize) -> Result<(), Memory>
        requires { self.old.at + count ≤ length self.old.flips.items }
        ensures { OnOk result (Takes count self.old self.new) }
    {
        let (_, rest) = self.flips.split_at(self.at);
        let (next, _) = rest.split_at(count);
        self.done.extend_from_slice(next)?;
        self.at += count;
        Ok(())
    }

    // Back to where so many were walked over.
    fn go_back(&mut self, to: usize)
        requires { IsWithin self.old }
        ensures { Stays self.old self.new }
    {
        self.kept = self.kept.max(self.at);
        for _step in to..self.done.len() {
            if self.at == 0 {
                break;
            }
            self.step_back();
        }
        self.latest.go_back(self.done.len());
    }

    fn step_back(&mut self)
        requires within { IsWithin self.old }
        requires some { 0 < self.old.at }
        ensures { Stays self.old self.new }
    {
        if let Some(flip) = self.done.pop() {
            self.at -= 1;
            self.flips[self.at] = flip;
        }
    }

    // Back to the end of the last block before a place.
    fn go_back_to_block(&mut self, least: usize) -> Result<(), Memory>
        requires { IsWithin self.old }
        ensures { OnOk result (Stays self.old self.new) }
    {
        pass_on(
            &mut self.behind,
            least,
            self.done.len(),
            &mut self.ahead,
            self.at,
        )?;
        let to = self.behind.last_end();
        self.go_back(to);
        Ok(())
    }

    // Takes out the pairs that come of the change, of which the first so many that come next are
    // new. Says the least place that changed.
    fn settle(&mut self, marks: &mut Marks, new: usize) -> Result<usize, Memory>
        requires { IsWithin self.old }
        ensures { OnOk result (Leads self.old self.new) }
    {
        let of_new = self.put_new(marks, new)?;
        let of_others = self.meet_others(marks)?;
        Ok(of_new.min(of_others))
    }

    fn put_new(&mut self, marks: &mut Marks, new: usize) -> Result<usize, Memory>
        requires { IsWithin self.old }
        ensures { OnOk result (Leads self.old self.new) }
    {
        let mut least = self.done.len();
        for _flip in 0..new {
            let changed = self.put_next(marks)?;
            least = least.min(changed);
        }
        Ok(least)
    }

    // Takes out the next flip with one like it, or takes it.
    fn put_next(&mut self, marks: &mut Marks) -> Result<usize, Memory>
        requires { IsWithin self.old }
        ensures { OnOk result (Leads self.old self.new) }
    {
        let place = self.done.len();
        if self.at == self.flips.len() {
            return Ok(place);
        }
        let flip = self.flips[self.at];
        let cancelled = self.cancel_new(flip)?;
        match cancelled {
            Some(other) => {
                marks.free(flip)?;
                Ok(other)
            }
            None => {
                self.take_next()?;
                Ok(place)
            }
        }
    }

    // Takes out the next flip with one like it, if that may be.
    fn cancel_new(&mut self, flip: Flip) -> Result<Option<usize>, Memory>
        requires { self.old.at < length self.old.flips.items }
        ensures { OnOk result (Leads self.old self.new) }
    {
        self.latest.note_all(&self.done);
        if self.latest.keep_apart(flip, &self.done) {
            return Ok(None);
        }
        self.cancel(self.at)
    }

    fn take_next(&mut self) -> Result<(), Memory>
        requires { IsWithin self.old }
        ensures { OnOk result (Leads self.old self.new) }
    {
        if self.at == self.flips.len() {
            return Ok(());
        }
        self.take(1)?;
        Ok(())
    }

    fn meet_others(&mut self, marks: &mut Marks) -> Result<usize, Memory>
        requires { IsWithin self.old }
        ensures { OnOk result (Leads self.old self.new) }
    {
        let mut least = self.done.len();
        marks.begin(least);
        let mut next = self.at;
        for _flip in self.at..self.flips.len() {
            next = self.next_touched(marks, next);
            if self.flips.len() <= next {
                break;
            }
            let changed = self.meet(marks, next)?;
            least = least.min(changed);
            next += 1;
        }
        Ok(least)
    }

    // The next place, from one on, of a flip on a line on which one can still come to the change,
    // or the end. Flips that are near are looked at one after another.
    fn next_touched(&self, marks: &Marks, from: usize) -> usize {
        if !marks.are_open() {
            return self.flips.len();
        }
        let near = NEAR_FOR_EACH_LINE.saturating_mul(marks.lines().len());
        let behind = self.kept.max(from).saturating_add(near);
        for place in from..behind.min(self.flips.len()) {
            if marks.touch(self.flips[place]) {
                return place;
            }
        }
        self.first_touched(marks, behind)
    }

    // The same, of flips that stand where they stood at the start.
    fn first_touched(&self, marks: &Marks, from: usize) -> usize {
        let mut first = self.flips.len();
        for line in marks.lines() {
            if !marks.is_open(*line) {
                continue;
            }
            if let Some(place) = self.on_lines.first_from(from, *line) {
                first = first.min(place);
            }
        }
        first
    }

    // Takes out a flip that is still to come, if it was freed and has one like it.
    fn meet(&mut self, marks: &mut Marks, next: usize) -> Result<usize, Memory>
        requires within { IsWithin self.old }
        requires next { next < length self.old.flips.items }
        ensures { OnOk result (Leads self.old self.new) }
    {
        let flip = self.flips[next];
        if !marks.touch(flip) {
            return Ok(self.done.len());
        }
        if !self.may_meet(marks, flip) {
            marks.pass(flip);
            return Ok(self.done.len());
        }
        let cancelled = self.cancel(next)?;
        match cancelled {
            Some(other) => {
                marks.free_behind(flip, other, &self.done)?;
                Ok(other)
            }
            None => {
                marks.pass(flip);
                Ok(self.done.len())
            }
        }
    }

    // Whether the flip can come to the change, and may have one like it.
    fn may_meet(&self, marks: &Marks, flip: Flip) -> bool
        ensures { result ≡ true → may_come marks.now.words.items flip ≡ true }
    {
        marks.let_through(flip) && self.kinds.may_have_another(flip)
    }

    // Takes out a flip that is still to come with the last like it, where all between are free of
    // it, and those before it are walked over. Says the place of that other one.
    fn cancel(&mut self, next: usize) -> Result<Option<usize>, Memory>
        requires within { IsWithin self.old }
        requires next { next < length self.old.flips.items }
        ensures { OnOk result (Leads self.old self.new) }
    {
        if next < self.at {
            return Ok(None);
        }
        let flip = self.flips[next];
        let Some(place) = last_like(&self.done, flip) else {
            return Ok(None);
        };
        let count = next - self.at;
        if !self.is_free_of_next(flip, count) {
            return Ok(None);
        }
        self.take(count)?;
        self.cancel_next(place);
        Ok(Some(place))
    }

    // Whether so many that come next are free of the flip.
    fn is_free_of_next(&self, flip: Flip, count: usize) -> bool
        requires { self.now.at + count ≤ length self.now.flips.items }
        ensures { result ≡ true → AllByRecursion (λ other. are_free flip other ≡ true)
            (take count (drop self.now.at self.now.flips.items)) }
    {
        let (_, rest) = self.flips.split_at(self.at);
        let (next, _) = rest.split_at(count);
        are_all_free(flip, next)
    }

    // Takes out the next flip with the one at a place.
    fn cancel_next(&mut self, place: usize)
        requires within { self.old.at < length self.old.flips.items }
        requires meets { MeetsNext self.old place }
        ensures { Leads self.old self.new }
    {
        let other = self.done.remove(place);
        self.kinds.remove_all(&[other, other]);
        self.latest.close(place);
        self.behind.close(place);
        self.ahead.open(self.at);
        self.at += 1;
    }
}

// The spans behind the end that do not end before a place go over to those ahead: what is the end
// there is a place here.
fn pass_on(
    behind: &mut Spans,
    least: usize,
    end: usize,
    ahead: &mut Spans,
    at: usize,
) -> Result<(), Memory> {
    for _span in 0..end {
        let Some(span) = behind.pop_from(least) else {
            return Ok(());
        };
        let start = end.saturating_sub(span.start);
        let length = end.saturating_sub(span.end);
        ahead.push(at.saturating_sub(start), at.saturating_sub(length))?;
    }
    Ok(())
}

// How many flips come before the first CX.
fn before_cx(flips: &[Flip]) -> usize
    ensures { result ≤ length flips.now }
{
    for (place, flip) in flips.iter().enumerate() {
        if flip.is_cx() {
            return place;
        }
    }
    flips.len()
}

// The place of the last flip like this one, if all behind it are free of this one.
fn last_like(flips: &[Flip], flip: Flip) -> Option<usize>
    ensures { MatchOption result ⊤ (IsLastLike flips.now flip) }
{
    let mut left = flips.len();
    'search: while left > 0 {
        let other = flips[left - 1];
        if flip.is_like(other) {
            return Some(left - 1);
        }
        if !flip.is_free_of(other) {
            return None;
        }
        left -= 1;
    }
    None
}

fn are_all_free(flip: Flip, others: &[Flip]) -> bool
    ensures { result ≡ true → AllByRecursion (λ other. are_free flip other ≡ true) others.now }
{
    for other in others {
        if !flip.is_free_of(*other) {
            return false;
        }
    }
    true
}
