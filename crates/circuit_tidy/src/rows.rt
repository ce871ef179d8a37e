// The elimination of a block of CX gates, on the rows of its lines: a row is a word with a bit for
// each of the lines.
ghost use Rattle.std.specs.Prelude.{◌≡◌, ◌+◌, ◌<◌, ◌≤◌, ◌++◌, ◌∷◌, [], length, map, drop, true};
ghost use Rattle.std.specs.Prelude.{slice_index, IfOk, OnOk};
ghost use Rattle.std.specs.List.{AllByRecursion};
ghost use Rattle.list_facts.specs.Lists.{IsRising};
ghost use Rattle.mct_circuit.specs.Sizes.{has_line};
ghost use Rattle.circuit_tidy.specs.declared.blocks.TheConstants.{MOST_BLOCK_LINES};
ghost use Rattle.circuit_tidy.specs.Blocks.{addition_of, cx};
ghost use Rattle.circuit_tidy.specs.Elimination.{eliminated, first_step, second_step};
ghost use Rattle.circuit_tidy.specs.inside.BitRows.{AddRows, AddsRow, AreOwnWords, AreRowsOf};
ghost use Rattle.circuit_tidy.specs.inside.BitRows.{IsCxOn, Notes};
ghost use Rattle.circuit_tidy.specs.inside.BitRows.{between_places, bit_at_place};

use flip_lists::{Controls, Flip};
use revc_base::Memory;
use std::alloc::Global;

// The rows under way, and the additions that were noted.
#[derive(Drop)]
pub struct NotedRows {
    words: Vec<u64>,
    notes: Vec<Flip>,
}

// The CX gates in place of a block on the lines, which rise: of each column in order, first the row
// of a later line onto that of the column's line where that lacks it, then this row onto each other
// one that has the column, noted and reversed.
pub fn elimination(alloc: Global, lines: &[u32], block: &[Flip]) -> Result<Vec<Flip>, Memory>
    requires few { length lines.now ≤ MOST_BLOCK_LINES }
    requires rising { IsRising lines.now }
    requires block { AllByRecursion (IsCxOn lines.now) block.now }
    ensures { IfOk result (λ flips. flips.items
        ≡ map cx (eliminated lines.now (map addition_of block.now))) }
{
    let mut words = own_words(alloc, lines.len())?;
    add_block(&mut words, lines, block);
    let notes = Vec::new(alloc);
    let mut rows = NotedRows { words, notes };
    for column in 0..lines.len() {
        rows.note_first(lines, column)?;
        rows.note_second(lines, column)?;
    }
    let NotedRows { mut notes, .. } = rows;
    notes.reverse();
    Ok(notes)
}

fn own_words(alloc: Global, count: usize) -> Result<Vec<u64>, Memory>
    requires { count ≤ MOST_BLOCK_LINES }
    ensures { IfOk result (λ words. AreOwnWords count words.items) }
{
    let mut words = Vec::with_capacity(alloc, count)?;
    for place in 0..count {
        words.push(1 << place)?;
    }
    Ok(words)
}

fn add_block(words: &mut [u64], lines: &[u32], block: &[Flip])
    requires long { length words.old ≡ length lines.now }
    requires rising { IsRising lines.now }
    requires block { AllByRecursion (IsCxOn lines.now) block.now }
    ensures { AddRows lines.now words.old words.new (map addition_of block.now) }
{
    for flip in block {
        add_flip(words, lines, *flip);
    }
}

fn add_flip(words: &mut [u64], lines: &[u32], flip: Flip)
    requires long { length words.old ≡ length lines.now }
    requires rising { IsRising lines.now }
    requires flip { IsCxOn lines.now flip }
    ensures { AddsRow lines.now words.old words.new (addition_of flip) }
{
    match flip.controls {
        Controls::One(from) => {
            let from = place_of(lines, from);
            let onto = place_of(lines, flip.target);
            words[onto] ^= words[from];
        }
        Controls::Zero | Controls::Two(..) => {}
    }
}

fn place_of(lines: &[u32], line: u32) -> usize
    requires { has_line line lines.now ≡ true }
    ensures inside { result < length lines.now }
    ensures at { slice_index lines.now result ≡ line }
{
    for (place, other) in lines.iter().enumerate() {
        if *other == line {
            return place;
        }
    }
    0
}

fn has_bit(word: u64, place: usize) -> bool
    requires { place < 64 }
    ensures { result ≡ bit_at_place place word }
{
    (word >> place) & 1 == 1
}

impl NotedRows {
    // The row at one place onto that at another.
    fn note(&mut self, lines: &[u32], from: usize, onto: usize) -> Result<(), Memory>
        requires rows { AreRowsOf lines.now self.old.words.items }
        requires from { from < length lines.now }
        requires onto { onto < length lines.now }
        ensures words { AddsRow lines.now self.old.words.items self.new.words.items
            (between_places lines.now from onto) }
        ensures notes { OnOk result (self.new.notes.items ≡ self.old.notes.items
            ++ cx (between_places lines.now from onto) ∷ []) }
    {
        self.words[onto] ^= self.words[from];
        let controls = Controls::One(lines[from]);
        let target = lines[onto];
        self.notes.push(Flip { controls, target })?;
        Ok(())
    }

    // The row of the first later line that has the column onto that of the column's line, where
    // this lacks it.
    fn note_first(&mut self, lines: &[u32], column: usize) -> Result<(), Memory>
        requires rows { AreRowsOf lines.now self.old.words.items }
        requires column { column < length lines.now }
        ensures { OnOk result (Notes lines.now self.old self.new (λ rows. first_step rows
            (slice_index lines.now column) (drop (column + 1) lines.now))) }
    {
        if has_bit(self.words[column], column) {
            return Ok(());
        }
        for place in column + 1..lines.len() {
            if has_bit(self.words[place], column) {
                return self.note(lines, place, column);
            }
        }
        Ok(())
    }

    // The row of the column's line onto each other one that has the column.
    fn note_second(&mut self, lines: &[u32], column: usize) -> Result<(), Memory>
        requires rows { AreRowsOf lines.now self.old.words.items }
        requires column { column < length lines.now }
        ensures { OnOk result (Notes lines.now self.old self.new
            (λ rows. second_step rows (slice_index lines.now column) lines.now)) }
    {
        for place in 0..lines.len() {
            self.note_other(lines, column, place)?;
        }
        Ok(())
    }

    // The row at the column's place onto that at another, where that has the column.
    fn note_other(&mut self, lines: &[u32], column: usize, place: usize) -> Result<(), Memory>
        requires rows { AreRowsOf lines.now self.old.words.items }
        requires column { column < length lines.now }
        requires place { place < length lines.now }
        ensures { OnOk result (Notes lines.now self.old self.new
            (λ rows. second_step rows (slice_index lines.now column)
            (slice_index lines.now place ∷ []))) }
    {
        if place == column {
            return Ok(());
        }
        if !has_bit(self.words[place], column) {
            return Ok(());
        }
        self.note(lines, column, place)
    }
}
