// A list of flips to which one is put after another, with an index of their lines.
ghost use Rattle.std.specs.Prelude.{◌≡◌, ◌⊎◌, ◌<◌, ◌++◌, ◌∷◌, [], length, not, replicate, reverse};
ghost use Rattle.std.specs.Prelude.{IfOk, OnOk};
ghost use Rattle.std.specs.Prelude.{slice_set, MatchOption};
ghost use Rattle.std.specs.List.{AllByRecursion};
ghost use Rattle.mct_circuit.specs.Gates.{IsGateOn};
ghost use Rattle.flip_lists.specs.Flips.{are_free, gate_of, lines_in};
ghost use Rattle.list_facts.specs.Lists.{AreDifferent};
ghost use Rattle.flip_lists.specs.inside.Index.{ArePushed, FindsLast, HasNoPartner, HoldLikes};
ghost use Rattle.flip_lists.specs.inside.Index.{IsBehindLast, IsIndex, IsPartner, IsPut};
ghost use Rattle.flip_lists.specs.inside.Index.{KeepsSlots, contents, flips_in, has_target};
ghost use Rattle.flip_lists.specs.inside.Index.{is_like_in, places_at, slot_at};
ghost use Rattle.flip_lists.specs.Settling.{with_flips};

use crate::flip::{Controls, Flip};
use revc_base::Memory;
use std::alloc::Global;

/// Flips in slots, one behind another, of which some are emptied; and for each line the places of
/// the flips that have it as target, and of those that have it as a control.
#[derive(Drop)]
pub struct Index {
    slots: Vec<Option<Flip>>,
    by_target: Places,
    by_control: Places,
}

/// For each line the places of flips in rising order. Places of emptied slots stay until a look
/// passes over them.
#[derive(Drop)]
pub struct Places {
    lists: Vec<Vec<usize>>,
}

/// The flips, where each is put in order: it goes out with the latest one like it that only flips
/// free of it are behind, or stays.
pub fn without_pairs(alloc: Global, lines: u32, flips: &[Flip]) -> Result<Vec<Flip>, Memory>
    requires { AllByRecursion (λ flip. IsGateOn lines (gate_of flip)) flips.now }
    ensures { IfOk result (λ left. left.items ≡ reverse (with_flips flips.now [])) }
{
    let mut index = Index::new(alloc, lines)?;
    for flip in flips {
        index.put(lines, *flip)?;
    }
    flips_of(alloc, &index.slots)
}

impl Index {
    fn new(alloc: Global, lines: u32) -> Result<Index, Memory>
        ensures index { IfOk result (IsIndex lines) }
        ensures empty { IfOk result (λ index. index.slots.items ≡ []) }
    {
        let by_target = Places::new(alloc, lines)?;
        let by_control = Places::new(alloc, lines)?;
        Ok(Index {
            slots: Vec::new(alloc),
            by_target,
            by_control,
        })
    }

    // Puts a flip behind the others, or takes it out with one of them.
    fn put(&mut self, lines: u32, flip: Flip) -> Result<(), Memory>
        requires index { IsIndex lines self.old }
        requires flip { IsGateOn lines (gate_of flip) }
        ensures { OnOk result (IsPut lines flip self.old self.new) }
    {
        let bound = self.bound(lines, flip);
        let places = self.likely_places(lines, flip);
        match partner(places, &self.slots, flip, bound) {
            Some(place) => {
                self.slots[place] = None;
                Ok(())
            }
            None => self.append(lines, flip),
        }
    }

    // One more than the latest place of a flip that is not free of this one, or 0.
    fn bound(&mut self, lines: u32, flip: Flip) -> usize
        requires index { IsIndex lines self.old }
        requires flip { IsGateOn lines (gate_of flip) }
        ensures kept { KeepsSlots lines self.old self.new }
        ensures bound { IsBehindLast self.new.slots.items (λ other. not (are_free flip other))
            result }
    {
        let as_control = self.by_control.behind_last(flip.target, &self.slots);
        match flip.controls {
            Controls::Zero => as_control,
            Controls::One(one) => {
                let as_target = self.behind_target(lines, one);
                as_control.max(as_target)
            }
            Controls::Two(first, second) => {
                let as_first = self.behind_target(lines, first);
                let as_second = self.behind_target(lines, second);
                as_control.max(as_first.max(as_second))
            }
        }
    }

    // One more than the latest place of a flip of this line, or 0.
    fn behind_target(&mut self, lines: u32, line: u32) -> usize
        requires index { IsIndex lines self.old }
        requires line { line < lines }
        ensures kept { KeepsSlots lines self.old self.new }
        ensures bound { IsBehindLast self.new.slots.items (has_target line) result }
    {
        self.by_target.behind_last(line, &self.slots)
    }

    // The shortest list that has the places of all flips like this one: those of its target, or of
    // one of its controls.
    fn likely_places(&self, lines: u32, flip: Flip) -> &[usize]
        requires index { IsIndex lines self.now }
        requires flip { IsGateOn lines (gate_of flip) }
        ensures { HoldLikes self.now.slots.items flip result.now }
    {
        let of_target = self.by_target.lists[flip.target as usize].as_slice();
        match flip.controls {
            Controls::Zero => of_target,
            Controls::One(one) => {
                let of_one = self.by_control.lists[one as usize].as_slice();
                shorter(of_target, of_one)
            }
            Controls::Two(first, second) => {
                let of_first = self.by_control.lists[first as usize].as_slice();
                let of_second = self.by_control.lists[second as usize].as_slice();
                shorter(of_target, shorter(of_first, of_second))
            }
        }
    }

    fn append(&mut self, lines: u32, flip: Flip) -> Result<(), Memory>
        requires index { IsIndex lines self.old }
        requires flip { IsGateOn lines (gate_of flip) }
        ensures index { OnOk result (IsIndex lines self.new) }
        ensures slots { OnOk result (self.new.slots.items
            ≡ self.old.slots.items ++ Some flip ∷ []) }
    {
        let place = self.slots.len();
        self.by_target.push(flip.target, place)?;
        self.by_control.push_each(flip.controls, place)?;
        self.slots.push(Some(flip))?;
        Ok(())
    }
}

impl Places {
    fn new(alloc: Global, lines: u32) -> Result<Places, Memory>
        ensures { IfOk result (λ places. contents places.lists.items ≡ replicate lines []) }
    {
        let lists = empty_lists(alloc, lines)?;
        Ok(Places { lists })
    }

    // One more than the latest place of a line whose slot has a flip, or 0.
    fn behind_last(&mut self, line: u32, slots: &[Option<Flip>]) -> usize
        requires line { line < length self.old.lists.items }
        requires below { AllByRecursion (λ place. place < length slots.now)
            (places_at self.old.lists.items line) }
        ensures found { FindsLast slots.now (places_at self.old.lists.items line)
            (places_at self.new.lists.items line) result }
        ensures others { contents self.new.lists.items
            ≡ slice_set (contents self.old.lists.items) line (places_at self.new.lists.items line) }
    {
        behind_last(&mut self.lists[line as usize], slots)
    }

    fn push(&mut self, line: u32, place: usize) -> Result<(), Memory>
        requires { line < length self.old.lists.items }
        ensures { OnOk result (contents self.new.lists.items
            ≡ slice_set (contents self.old.lists.items) line
            (places_at self.old.lists.items line ++ place ∷ [])) }
    {
        self.lists[line as usize].push(place)?;
        Ok(())
    }

    fn push_each(&mut self, lines: Controls, place: usize) -> Result<(), Memory>
        requires below { AllByRecursion (λ line. line < length self.old.lists.items)
            (lines_in lines) }
        requires different { AreDifferent (lines_in lines) }
        ensures { OnOk result (ArePushed (lines_in lines) place self.old.lists.items
            self.new.lists.items) }
    {
        match lines {
            Controls::Zero => Ok(()),
            Controls::One(one) => self.push(one, place),
            Controls::Two(first, second) => {
                self.push(first, place)?;
                self.push(second, place)
            }
        }
    }
}

pub fn empty_lists(alloc: Global, count: u32) -> Result<Vec<Vec<usize>>, Memory>
    ensures { IfOk result (λ lists. contents lists.items ≡ replicate count []) }
{
    let mut lists = Vec::with_capacity(alloc, count as usize)?;
    for _list in 0..count {
        lists.push(Vec::new(alloc))?;
    }
    Ok(lists)
}

// One more than the latest place whose slot has a flip, or 0. Places behind it go off the list.
fn behind_last(places: &mut Vec<usize>, slots: &[Option<Flip>]) -> usize
    requires { AllByRecursion (λ place. place < length slots.now) places.old.items }
    ensures { FindsLast slots.now places.old.items places.new.items result }
{
    'emptied: while !places.is_empty() {
        let place = places[places.len() - 1];
        if slots[place].is_some() {
            return place + 1;
        }
        places.pop();
    }
    0
}

fn shorter<'a>(one: &'a [usize], other: &'a [usize]) -> &'a [usize]
    ensures { (result.now ≡ one.now) ⊎ (result.now ≡ other.now) }
{
    if other.len() < one.len() { other } else { one }
}

// The latest place, not before the bound, of a flip like this one, among places with all of them.
fn partner(places: &[usize], slots: &[Option<Flip>], flip: Flip, bound: usize) -> Option<usize>
    requires { HoldLikes slots.now flip places.now }
    ensures { MatchOption result (HasNoPartner slots.now flip bound)
        (IsPartner slots.now flip bound) }
{
    let mut left = places.len();
    'search: while left > 0 {
        let place = places[left - 1];
        if place < bound {
            return None;
        }
        if is_like(flip, slots[place]) {
            return Some(place);
        }
        left -= 1;
    }
    None
}

fn is_like(flip: Flip, slot: Option<Flip>) -> bool
    ensures { result ≡ is_like_in flip slot }
{
    match slot {
        None => false,
        Some(other) => flip.is_like(other),
    }
}

// The flips in the slots, in order.
fn flips_of(alloc: Global, slots: &[Option<Flip>]) -> Result<Vec<Flip>, Memory>
    ensures { IfOk result (λ flips. flips.items ≡ reverse (flips_in slots.now)) }
{
    let mut flips = Vec::new(alloc);
    for slot in slots {
        if let Some(flip) = slot {
            flips.push(*flip)?;
        }
    }
    Ok(flips)
}
