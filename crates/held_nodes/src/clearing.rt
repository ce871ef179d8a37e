// The gates of a clearing by cubes.
ghost use Rattle.std.specs.Prelude.{◌≡◌, ◌+◌, ◌^◌, ◌<◌, ◌≤◌, ◌++◌, map, length, not, true};
ghost use Rattle.std.specs.Prelude.{false, OnOk, IfOk, IfErr, count_by, sum_by};
ghost use Rattle.std.specs.List.{AllByRecursion};
ghost use Rattle.exclusive_sums.specs.declared.cube.Literal.{Literal};
ghost use Rattle.exclusive_sums.specs.Cubes.{IsCube};
ghost use Rattle.circuit_plans.specs.declared.plan.TheConstants.{MOST_LINES};
ghost use Rattle.held_nodes.specs.Moves.{control_of, cube_flip, cube_flips};
ghost use Rattle.mct_circuit.specs.Sizes.{flip_weight, weight_in};
ghost use Rattle.held_nodes.specs.inside.Kept.{IsWeightFault, cube_weight};

use crate::weighed::WeighedGates;
use circuit_plans::PlanFault;
use exclusive_sums::{Cube, Literal};
use mct_circuit::{Control, Gate, Op};
use revc_base::Memory;
use std::alloc::{AllocError, Global};

// Appends the flips of the work line `line` by the cubes, where they are light enough together.
pub fn append_cubes(
    gates: &mut WeighedGates,
    first: u32,
    line: u32,
    cubes: &[Cube],
) -> Result<(), PlanFault>
    requires target { first + line ≤ MOST_LINES }
    requires apart { AllByRecursion (AllByRecursion (λ (l : Literal). l.input < first)) cubes.now }
    ensures ok { OnOk result (gates.new ≡ record gates.old
        { gates = gates.old.gates ++ cube_flips first line cubes.now }) }
    ensures refused { IfErr result (IsWeightFault gates.old.most
        (weight_in (gates.old.gates ++ cube_flips first line cubes.now))) }
    ensures cubes { OnOk result (AllByRecursion IsCube cubes.now) }
    ensures light { OnOk result (weight_in gates.new.gates ≤ gates.new.most) }
{
    if are_heavier(cubes, gates.room()) {
        return Err(PlanFault::Gates);
    }
    put_cubes(gates, first, line, cubes)?;
    Ok(())
}

// Whether the flips by the cubes weigh more than so much together.
fn are_heavier(cubes: &[Cube], room: u64) -> bool
    ensures heavy { result ≡ true → room < sum_by cube_weight cubes.now }
    ensures light { result ≡ false → sum_by cube_weight cubes.now ≤ room }
{
    let mut left = room;
    for cube in cubes {
        let weight = cube_weight(cube);
        if weight > left {
            return true;
        }
        left -= weight;
    }
    false
}

fn cube_weight(cube: &Cube) -> u64
    ensures { result ≡ cube_weight cube.now }
{
    let literals = cube.literals();
    flip_weight(literals.len() as u64) + 2 * negative_literals(literals)
}

// What a flip under positive controls weighs.
fn flip_weight(controls: u64) -> u64
    requires { controls < 2 ^ 60 }
    ensures { result ≡ flip_weight controls }
{
    if controls <= 2 { 1 } else { 4 * (controls - 2) }
}

fn negative_literals(literals: &[Literal]) -> u64
    ensures count { result ≡ count_by (λ literal. not literal.positive) literals.now }
    ensures some { result ≤ length literals.now }
{
    let mut count = 0;
    for literal in literals {
        count += u64::from(!literal.positive);
    }
    count
}

// Appends the flips, for which there is room.
fn put_cubes(gates: &mut WeighedGates, first: u32, line: u32, cubes: &[Cube]) -> Result<(), Memory>
    requires target { first + line ≤ MOST_LINES }
    requires apart { AllByRecursion (AllByRecursion (λ (l : Literal). l.input < first)) cubes.now }
    requires light { weight_in (gates.old.gates ++ cube_flips first line cubes.now)
        ≤ gates.old.most }
    ensures ok { OnOk result (gates.new ≡ record gates.old
        { gates = gates.old.gates ++ cube_flips first line cubes.now }) }
    ensures cubes { OnOk result (AllByRecursion IsCube cubes.now) }
{
    let alloc = gates.allocator();
    for cube in cubes {
        gates.put(cube_flip(alloc, first, line, cube)?)?;
    }
    Ok(())
}

// The flip of the work line `line` by a cube.
fn cube_flip(alloc: Global, first: u32, line: u32, cube: &Cube) -> Result<Gate, Memory>
    requires target { first + line ≤ MOST_LINES }
    requires apart { AllByRecursion (λ (l : Literal). l.input < first) cube.now }
    ensures gate { IfOk result (λ gate. gate ≡ cube_flip first line cube.now) }
    ensures cube { IsCube cube.now }
{
    let controls = controls_of(alloc, cube.literals())?;
    Ok(Gate::new(controls, Op::Flip(first + line)))
}

fn controls_of(alloc: Global, literals: &[Literal]) -> Result<Vec<Control>, AllocError>
    ensures { IfOk result (λ controls. controls.items ≡ map control_of literals.now) }
{
    literals
        .iter()
        .map(|literal| Control {
            line: literal.input,
            positive: literal.positive,
        })
        .collect(alloc)
}
