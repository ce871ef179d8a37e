// Any number of contents of the lines, as many at a time as there are places for.
ghost use Rattle.std.specs.Prelude.{◌≡◌, ◌<◌, ◌≤◌, length, map, IfOk, OnOk, OnErr};
ghost use Rattle.mct_circuit.specs.Gates.{line_map};
ghost use Rattle.circuit_sim.specs.Limits.{LimitsAre};
ghost use Rattle.circuit_sim.specs.Planes.{AreVectors};
ghost use Rattle.circuit_sim.specs.Rows.{AreRows, contents};
ghost use Rattle.circuit_sim.specs.declared.rows.TheConstants.{LANE_ROWS, MOST_ROWS};
ghost use Rattle.circuit_sim.specs.inside.Loaded.{AreRun, IsFrontChanged, IsRoom};

use crate::lanes::{run_lanes, run_pair};
use crate::packing::{PLANE_ROWS, load, load_lanes, store, store_lanes};
use crate::planes::run_planes;
use mct_circuit::Circuit;
use revc_base::Memory;
use std::alloc::Global;
use std::simd::u64x8;

// How many rows the lanes of vectors hold.
const LANE_ROWS: usize = 512;

/// The most rows that go through the circuit at once.
pub const MOST_ROWS: usize = 1_024;

/// The limit of this crate, as a number.
pub fn limits_are()
    ensures { LimitsAre }
{}

/// Runs a circuit on each row, which has a bit for each line, line 0 first: 1,024 rows at a time on
/// the lanes of two vectors for each line, and the rest by one vector or plane where that holds
/// them. Each row becomes its line map. Memory is taken for seventeen words for each line; where it
/// is wanting, the rows are unchanged.
pub fn run_all(alloc: Global, circuit: &Circuit, rows: &mut [Vec<bool>]) -> Result<(), Memory>
    requires { AreRows circuit.now.lines rows.old }
    ensures ok { OnOk result (contents rows.new
        ≡ map (line_map circuit.now.gates) (contents rows.old)) }
    ensures err { OnErr result (rows.new ≡ rows.old) }
    ensures fit { AreRows circuit.now.lines rows.new }
{
    let mut room = Room::new(alloc, circuit.lines())?;
    run_groups(circuit, &mut room, rows);
    Ok(())
}

// What rows go through: two vectors of planes and a plane for each line.
#[derive(Drop)]
pub struct Room {
    first: Vec<u64x8>,
    second: Vec<u64x8>,
    planes: Vec<u64>,
}

impl Room {
    fn new(alloc: Global, lines: u32) -> Result<Room, Memory>
        ensures { IfOk result (IsRoom lines) }
    {
        let lines = lines as usize;
        let planes = vec![in alloc; 0; lines]?;
        let first = vec![in alloc; u64x8::splat(0); lines]?;
        let second = vec![in alloc; u64x8::splat(0); lines]?;
        Ok(Room {
            first,
            second,
            planes,
        })
    }
}

fn run_groups(circuit: &Circuit, room: &mut Room, rows: &mut [Vec<bool>])
    requires room { IsRoom circuit.now.lines room.old }
    requires fit { AreRows circuit.now.lines rows.old }
    ensures { AreRun circuit.now rows.old rows.new }
{
    let mut start = 0;
    'groups: while start < rows.len() {
        start += run_group(circuit, room, &mut rows[start..]);
    }
}

// Runs the circuit on the rows at the front that go at once, and says how many those are.
fn run_group(circuit: &Circuit, room: &mut Room, rows: &mut [Vec<bool>]) -> usize
    requires some { 0 < length rows.old }
    requires room { IsRoom circuit.now.lines room.old }
    requires fit { AreRows circuit.now.lines rows.old }
    ensures rows { IsFrontChanged (line_map circuit.now.gates) result
        (contents rows.old) (contents rows.new) }
    ensures fit { AreRows circuit.now.lines rows.new }
    ensures room { IsRoom circuit.now.lines room.new }
{
    let count = rows.len().min(MOST_ROWS);
    run_at_once(circuit, room, &mut rows[..count]);
    count
}

// Runs the circuit on rows by what holds them all.
fn run_at_once(circuit: &Circuit, room: &mut Room, rows: &mut [Vec<bool>])
    requires few { length rows.old ≤ MOST_ROWS }
    requires room { IsRoom circuit.now.lines room.old }
    requires fit { AreRows circuit.now.lines rows.old }
    ensures run { AreRun circuit.now rows.old rows.new }
    ensures room { IsRoom circuit.now.lines room.new }
{
    if rows.len() <= PLANE_ROWS {
        run_by_planes(circuit, &mut room.planes, rows);
    } else if rows.len() <= LANE_ROWS {
        run_by_lanes(circuit, &mut room.first, &mut room.planes, rows);
    } else {
        run_by_pair(
            circuit,
            &mut room.first,
            &mut room.second,
            &mut room.planes,
            rows,
        );
    }
}

fn run_by_planes(circuit: &Circuit, planes: &mut [u64], rows: &mut [Vec<bool>])
    requires few { length rows.old ≤ 64 }
    requires planes { length planes.old ≡ circuit.now.lines }
    requires fit { AreRows circuit.now.lines rows.old }
    ensures { AreRun circuit.now rows.old rows.new }
{
    load(planes, rows);
    run_planes(circuit, planes);
    store(planes, rows);
}

fn run_by_lanes(
    circuit: &Circuit,
    vectors: &mut [u64x8],
    planes: &mut [u64],
    rows: &mut [Vec<bool>],
)
    requires few { length rows.old ≤ LANE_ROWS }
    requires planes { length planes.old ≡ circuit.now.lines }
    requires lines { length vectors.old ≡ circuit.now.lines }
    requires vectors { AreVectors vectors.old }
    requires fit { AreRows circuit.now.lines rows.old }
    ensures run { AreRun circuit.now rows.old rows.new }
    ensures vectors { AreVectors vectors.new }
{
    load_lanes(vectors, planes, rows);
    run_lanes(circuit, vectors);
    store_lanes(vectors, planes, rows);
}

fn run_by_pair(
    circuit: &Circuit,
    first: &mut [u64x8],
    second: &mut [u64x8],
    planes: &mut [u64],
    rows: &mut [Vec<bool>],
)
    requires many { LANE_ROWS ≤ length rows.old }
    requires few { length rows.old ≤ MOST_ROWS }
    requires planes { length planes.old ≡ circuit.now.lines }
    requires lines { (length first.old ≡ circuit.now.lines)
        × (length second.old ≡ circuit.now.lines) }
    requires vectors { AreVectors first.old × AreVectors second.old }
    requires fit { AreRows circuit.now.lines rows.old }
    ensures run { AreRun circuit.now rows.old rows.new }
    ensures vectors { AreVectors first.new × AreVectors second.new }
{
    let (front, behind) = rows.split_at_mut(LANE_ROWS);
    load_lanes(first, planes, front);
    load_lanes(second, planes, behind);
    run_pair(circuit, first, second);
    store_lanes(first, planes, front);
    store_lanes(second, planes, behind);
}
