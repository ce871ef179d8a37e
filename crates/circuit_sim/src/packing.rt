// Rows of bits onto planes, and back: each row at a place of its own.
ghost use Rattle.std.specs.Prelude.{◌≡◌, ◌<◌, ◌≤◌, length, slice_set};
ghost use Rattle.circuit_sim.specs.Planes.{AreVectors, column, lane};
ghost use Rattle.circuit_sim.specs.Rows.{AreRows, contents};
ghost use Rattle.circuit_sim.specs.inside.Loaded.{HoldRows, HoldRowsInLanes, IsWithBit, IsWithLane};
ghost use Rattle.circuit_sim.specs.inside.Loaded.{IsWithRow};

use std::simd::u64x8;

// How many rows planes hold: one for each bit of a plane.
pub const PLANE_ROWS: usize = 64;

// Puts rows on the planes, the first at place 0. The places behind the last hold 0.
pub fn load(planes: &mut [u64], rows: &[Vec<bool>])
    requires few { length rows.now ≤ 64 }
    requires fit { AreRows (length planes.old) rows.now }
    ensures { HoldRows (contents rows.now) planes.new }
{
    planes.fill(0);
    for (place, row) in rows.iter().enumerate() {
        load_row(planes, place, row);
    }
}

fn load_row(planes: &mut [u64], place: usize, row: &[bool])
    requires place { place < 64 }
    requires fit { length row.now ≡ length planes.old }
    ensures { IsWithRow place row.now planes.old planes.new }
{
    for (line, bit) in row.iter().enumerate() {
        planes[line] = with_bit(planes[line], place, *bit);
    }
}

fn with_bit(plane: u64, place: usize, bit: bool) -> u64
    requires { place < 64 }
    ensures { IsWithBit place bit plane result }
{
    if bit {
        plane | 1 << place
    } else {
        plane & !(1 << place)
    }
}

// Takes rows from the planes, the first from place 0.
pub fn store(planes: &[u64], rows: &mut [Vec<bool>])
    requires few { length rows.old ≤ 64 }
    requires fit { AreRows (length planes.now) rows.old }
    ensures rows { HoldRows (contents rows.new) planes.now }
    ensures fit { AreRows (length planes.now) rows.new }
{
    for place in 0..rows.len() {
        store_row(planes, place, &mut rows[place]);
    }
}

fn store_row(planes: &[u64], place: usize, row: &mut [bool])
    requires place { place < 64 }
    requires fit { length row.old ≡ length planes.now }
    ensures { row.new ≡ column place planes.now }
{
    for (line, plane) in planes.iter().enumerate() {
        row[line] = (*plane >> place) & 1 == 1;
    }
}

// Puts rows on the lanes, 64 on each, by way of planes. Lanes that have no row stay as they are.
pub fn load_lanes(vectors: &mut [u64x8], planes: &mut [u64], rows: &[Vec<bool>])
    requires few { length rows.now ≤ 512 }
    requires fit { AreRows (length planes.old) rows.now }
    requires lines { length vectors.old ≡ length planes.old }
    requires vectors { AreVectors vectors.old }
    ensures rows { HoldRowsInLanes (contents rows.now) vectors.new }
    ensures vectors { AreVectors vectors.new }
{
    for number in 0..rows.len().div_ceil(PLANE_ROWS) {
        let start = PLANE_ROWS * number;
        let end = rows.len().min(start + PLANE_ROWS);
        load(planes, &rows[start..end]);
        put_lane(vectors, number, planes);
    }
}

fn put_lane(vectors: &mut [u64x8], number: usize, planes: &[u64])
    requires number { number < 8 }
    requires lines { length vectors.old ≡ length planes.now }
    requires vectors { AreVectors vectors.old }
    ensures { IsWithLane number planes.now vectors.old vectors.new }
{
    for (line, plane) in planes.iter().enumerate() {
        vectors[line] = with_plane(vectors[line], number, *plane);
    }
}

fn with_plane(vector: u64x8, number: usize, plane: u64) -> u64x8
    requires { number < length vector }
    ensures { result ≡ slice_set vector number plane }
{
    let mut planes = vector.to_array();
    planes[number] = plane;
    u64x8::from_array(planes)
}

// Takes rows from the lanes, 64 from each, by way of planes.
pub fn store_lanes(vectors: &[u64x8], planes: &mut [u64], rows: &mut [Vec<bool>])
    requires few { length rows.old ≤ 512 }
    requires fit { AreRows (length planes.old) rows.old }
    requires lines { length vectors.now ≡ length planes.old }
    requires vectors { AreVectors vectors.now }
    ensures rows { HoldRowsInLanes (contents rows.new) vectors.now }
    ensures fit { AreRows (length vectors.now) rows.new }
{
    for number in 0..rows.len().div_ceil(PLANE_ROWS) {
        let start = PLANE_ROWS * number;
        let end = rows.len().min(start + PLANE_ROWS);
        take_lane(vectors, number, planes);
        store(planes, &mut rows[start..end]);
    }
}

fn take_lane(vectors: &[u64x8], number: usize, planes: &mut [u64])
    requires number { number < 8 }
    requires lines { length planes.old ≡ length vectors.now }
    requires vectors { AreVectors vectors.now }
    ensures { planes.new ≡ lane number vectors.now }
{
    for (line, vector) in vectors.iter().enumerate() {
        planes[line] = vector[number];
    }
}
