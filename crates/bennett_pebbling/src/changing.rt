// Work on a range of nodes: by halves, down to blocks. The mark at place k is that of node lo + k.
ghost use Rattle.std.specs.Prelude.{◌≡◌, ◌≤◌, length, Ok, IfOk, IfErr};
ghost use Rattle.held_nodes.specs.Held.{IsForward};
ghost use Rattle.bennett_pebbling.specs.inside.Changes.{CanWork, IsChanged, IsChangeFault};
ghost use Rattle.bennett_pebbling.specs.inside.Changes.{IsRisen, IsRiseFault};
ghost use Rattle.bennett_pebbling.specs.inside.Marks.{AreHalves, AreHeld};

use crate::block::{lower, raise};
use crate::needs::{differing, is_held_so, with_cut, with_needs};
use held_nodes::{Forward, Moved};
use std::alloc::Global;
use sum_graph::SumGraph;

// The marks of a range in two halves: the first has no fewer than the second.
fn halves(wanted: &[bool]) -> (&[bool], &[bool])
    ensures { AreHalves wanted.now result.0.now result.1.now }
{
    let half = wanted.len() - wanted.len() / 2;
    wanted.split_at(half)
}

// What work on ranges goes by: where memory comes from, the graph, and the size of a block.
#[derive(Clone, Copy)]
pub struct Halving<'s> {
    pub alloc: Global,
    pub graph: &'s SumGraph,
    pub block: u32,
}

// Holds exactly the wanted nodes of a range, within one block.
fn change_block<'s>(by: Halving, forward: Forward<'s>, lo: u32, wanted: &[bool]) -> Moved<'s>
    requires can { CanWork by.graph.now forward lo (length wanted.now) }
    ensures changed { IfOk result (IsChanged forward.entry (length wanted.now) lo wanted.now) }
    ensures keeps { IfOk result IsForward }
    ensures refused { IfErr result (IsChangeFault forward.entry (length wanted.now) lo wanted.now) }
{
    let marks = differing(by.alloc, &forward, lo, wanted)?;
    let marks = with_needs(marks, by.graph, lo);
    let forward = raise(forward, lo, &marks)?;
    lower(forward, lo, wanted)
}

// Holds exactly the wanted nodes of a range; where exactly these are held, nothing is changed.
pub fn change<'s>(by: Halving, forward: Forward<'s>, lo: u32, wanted: &[bool]) -> Moved<'s>
    requires can { CanWork by.graph.now forward lo (length wanted.now) }
    requires some { 1 ≤ by.block }
    ensures changed { IfOk result (IsChanged forward.entry by.entry.block lo wanted.now) }
    ensures unchanged { AreHeld forward.entry.lines lo wanted.now → result ≡ Ok forward.entry }
    ensures keeps { IfOk result IsForward }
    ensures refused { IfErr result (IsChangeFault forward.entry by.entry.block lo wanted.now) }
{
    if is_held_so(&forward, lo, wanted) {
        return Ok(forward);
    }
    if wanted.len() <= by.block as usize {
        return change_block(by, forward, lo, wanted);
    }
    let (left, right) = halves(wanted);
    let needed = with_cut(by.alloc, by.graph, lo, left)?;
    let forward = change(by, forward, lo, &needed)?;
    let forward = change(by, forward, lo + left.len() as u32, right)?;
    change(by, forward, lo, left)
}

// Holds the wanted nodes of a range, and maybe more of its second half: within one block, all nodes
// of it on which they rest.
pub fn rise<'s>(by: Halving, forward: Forward<'s>, lo: u32, wanted: &[bool]) -> Moved<'s>
    requires can { CanWork by.graph.now forward lo (length wanted.now) }
    requires some { 1 ≤ by.block }
    ensures risen { IfOk result (IsRisen forward.entry by.entry.block lo wanted.now) }
    ensures keeps { IfOk result IsForward }
    ensures refused { IfErr result (IsRiseFault forward.entry by.entry.block lo wanted.now) }
{
    if wanted.len() <= by.block as usize {
        let marks = with_needs(Vec::from_slice(by.alloc, wanted)?, by.graph, lo);
        return raise(forward, lo, &marks);
    }
    let (left, right) = halves(wanted);
    let needed = with_cut(by.alloc, by.graph, lo, left)?;
    let forward = change(by, forward, lo, &needed)?;
    rise(by, forward, lo + left.len() as u32, right)
}
