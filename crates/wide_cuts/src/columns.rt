// Values of inputs in some columns.
use cut_search::Vector;

/// Where an input seldom leaves its side; elsewhere it does so less seldom.
const SELDOM: u64 = 0x0000_FFFF_0000_FFFF;

/// Values of one of so many inputs in 512 columns: random, mostly 0, mostly 1, and mostly the side
/// on which the input is, for eight ways to part inputs. So the places of one register hold other
/// bits than those of the next, and a carry runs far.
pub fn column(input: u32, inputs: u32) -> Vector {
    let (number, inputs) = (u64::from(input), u64::from(inputs.max(1)));
    let [one, two, few, r, s, t, u, v] = Vector::mark(input).words;
    let rare = r & s & t & u & v;
    let off = (rare & !SELDOM) | (rare & one & two & few);
    let words = [
        one,
        two,
        few & r & s,
        few | s | u,
        off ^ sides(2 * number / inputs, 3 * number / inputs),
        off.rotate_left(1) ^ sides(4 * number / inputs, number),
        off.rotate_left(2) ^ sides(number >> 3, number >> 4),
        off.rotate_left(3) ^ sides(number >> 5, number >> 6),
    ];
    Vector { words }
}

// A word with the last bits of two numbers, one in each half.
fn sides(lower: u64, upper: u64) -> u64 {
    let half = u64::from(u32::MAX);
    let low = if lower & 1 == 1 { half } else { 0 };
    let high = if upper & 1 == 1 { !half } else { 0 };
    low | high
}
