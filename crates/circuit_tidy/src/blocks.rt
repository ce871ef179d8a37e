// The blocks of a list of flips: runs of CX gates on few lines.
ghost use Rattle.std.specs.Prelude.{◌≡◌, ◌≤◌, ◌==◌, ◌||◌, length, true, IfOk, OnOk, MatchOption};
ghost use Rattle.list_facts.specs.Lists.{IsRising};
ghost use Rattle.mct_circuit.specs.Sizes.{has_line};
ghost use Rattle.circuit_tidy.specs.Limits.{LimitsAre};
ghost use Rattle.flip_lists.specs.Flips.{is_cx};
ghost use Rattle.circuit_tidy.specs.inside.Walking.{AreShort, IsBlockOf, IsFront, IsFirstCx};
ghost use Rattle.circuit_tidy.specs.inside.Walking.{IsLongerIn, IsPlaceFor, takes, with_line};
ghost use Rattle.circuit_tidy.specs.inside.Walking.{with_lines_of};

use crate::rows::elimination;
use flip_lists::{Controls, Flip};
use revc_base::Memory;
use std::alloc::Global;

/// The most lines that a block of CX gates touches.
pub const MOST_BLOCK_LINES: usize = 64;

/// The limit of this crate, as a number.
pub fn limits_are()
    ensures { LimitsAre }
{}

// A block at the start of some flips: how many it takes, and the lines that they touch, which rise.
#[derive(Drop)]
pub struct Block {
    length: usize,
    lines: Vec<u32>,
}

// What a walk passes over at once: a flip that is no CX or a block; and the elimination of a block,
// where that is shorter.
#[derive(Drop)]
pub struct Front {
    pub length: usize,
    pub shorter: Option<Vec<Flip>>,
}

// A block from one place up to another that is longer than its elimination.
#[derive(Drop)]
pub struct Longer {
    pub start: usize,
    pub end: usize,
    pub shorter: Vec<Flip>,
}

// The first block that is longer than its elimination.
pub fn first_longer(alloc: Global, flips: &[Flip]) -> Result<Option<Longer>, Memory>
    ensures { IfOk result (λ found. MatchOption found (AreShort flips.now)
        (IsLongerIn flips.now)) }
{
    let mut start = 0;
    'walk: while start < flips.len() {
        let (_, rest) = flips.split_at(start);
        let front = front_of(alloc, rest)?;
        let end = start + front.length;
        match front.shorter {
            Some(shorter) => {
                return Ok(Some(Longer {
                    start,
                    end,
                    shorter,
                }));
            }
            None => start = end,
        }
    }
    Ok(None)
}

pub fn front_of(alloc: Global, flips: &[Flip]) -> Result<Front, Memory>
    requires { 1 ≤ length flips.now }
    ensures { IfOk result (IsFront flips.now) }
{
    if !flips[0].is_cx() {
        return Ok(Front {
            length: 1,
            shorter: None,
        });
    }
    let block = block_of(alloc, flips)?;
    let (taken, _) = flips.split_at(block.length);
    let shorter = elimination(alloc, &block.lines, taken)?;
    let length = block.length;
    if shorter.len() < length {
        Ok(Front {
            length,
            shorter: Some(shorter),
        })
    } else {
        Ok(Front {
            length,
            shorter: None,
        })
    }
}

fn block_of(alloc: Global, flips: &[Flip]) -> Result<Block, Memory>
    requires some { 1 ≤ length flips.now }
    requires cx { IsFirstCx flips.now }
    ensures { IfOk result (IsBlockOf flips.now) }
{
    let mut length = 0;
    let mut lines = Vec::new(alloc);
    'block: while length < flips.len() && takes(&lines, flips[length]) {
        add_lines_of(&mut lines, flips[length])?;
        length += 1;
    }
    Ok(Block { length, lines })
}

// Whether a block on these lines takes the flip.
fn takes(lines: &[u32], flip: Flip) -> bool
    requires { IsRising lines.now }
    ensures { result ≡ takes lines.now flip }
{
    match flip.controls {
        Controls::One(from) => {
            let is_from_new = !contains(lines, from);
            let is_onto_new = !contains_with(lines, from, flip.target);
            lines.len() + usize::from(is_from_new) + usize::from(is_onto_new) <= MOST_BLOCK_LINES
        }
        Controls::Zero | Controls::Two(..) => false,
    }
}

// Whether a line is among the lines and one more.
fn contains_with(lines: &[u32], more: u32, line: u32) -> bool
    ensures { result ≡ (line == more || has_line line lines.now) }
{
    line == more || contains(lines, line)
}

fn contains(lines: &[u32], line: u32) -> bool
    ensures { result ≡ has_line line lines.now }
{
    lines.iter().any(|other| line == *other)
}

// Adds the lines of a CX.
fn add_lines_of(lines: &mut Vec<u32>, flip: Flip) -> Result<(), Memory>
    requires { is_cx flip ≡ true }
    ensures { OnOk result (lines.new.items ≡ with_lines_of flip lines.old.items) }
{
    match flip.controls {
        Controls::One(from) => {
            add_line(lines, from)?;
            add_line(lines, flip.target)
        }
        Controls::Zero | Controls::Two(..) => Ok(()),
    }
}

fn add_line(lines: &mut Vec<u32>, line: u32) -> Result<(), Memory>
    ensures { OnOk result (lines.new.items ≡ with_line line lines.old.items) }
{
    let place = place_for(lines, line);
    if place < lines.len() && lines[place] == line {
        return Ok(());
    }
    lines.insert(place, line)?;
    Ok(())
}

// How many of the lines come before the first that is no less.
fn place_for(lines: &[u32], line: u32) -> usize
    ensures { IsPlaceFor line lines.now result }
{
    for (place, other) in lines.iter().enumerate() {
        if line <= *other {
            return place;
        }
    }
    lines.len()
}
