// Axes: sums of bits, each with a variable that has its value in some row of some turn.
ghost use Rattle.std.specs.Prelude.{◌≡◌, ◌<◌, ◌≤◌, length, IfOk};
ghost use Rattle.circuit_sim.specs.Planes.{plane_bit};
ghost use Rattle.wide_sums.specs.inside.Rows.{AreAxes, IsVariable};

use crate::form::{Form, ones};
use dependency_graph::Base;
use revc_base::Memory;
use std::alloc::Global;

// Six variables: the bit of each in a row is that of the row's number at its place.
const VARIABLES: [u64; 6] = [
    0xaaaa_aaaa_aaaa_aaaa,
    0xcccc_cccc_cccc_cccc,
    0xf0f0_f0f0_f0f0_f0f0,
    0xff00_ff00_ff00_ff00,
    0xffff_0000_ffff_0000,
    0xffff_ffff_0000_0000,
];

/// The most sums of bits over which a window is written out.
pub const MOST_RANK: usize = 16;

/// Sums of bits as forms that are 0 wherever the variables of a turn have the sums' values.
pub fn axes_of(alloc: Global, sums: &[Vec<Base>], turn: u64) -> Result<Vec<Form>, Memory>
    requires { length sums.now ≤ MOST_RANK }
    ensures { IfOk result (λ axes. AreAxes sums.now turn axes.items) }
{
    let mut axes = Vec::with_capacity(alloc, sums.len())?;
    for (place, sum) in sums.iter().enumerate() {
        axes.push(Form {
            bits: Vec::from_slice(alloc, sum)?,
            word: variable(place, turn),
        })?;
    }
    Ok(axes)
}

// The bits of a variable in 64 rows: those behind the sixth are bits of the turn.
fn variable(place: usize, turn: u64) -> u64
    requires { place < MOST_RANK }
    ensures { IsVariable place turn result }
{
    if place < VARIABLES.len() {
        VARIABLES[place]
    } else {
        ones(is_set(turn, place - VARIABLES.len()))
    }
}

// Whether a number has a bit at a place.
fn is_set(number: u64, place: usize) -> bool
    requires { place < 64 }
    ensures { result ≡ plane_bit place number }
{
    number >> place & 1 == 1
}
