// Values of a run.
ghost use Rattle.std.specs.Prelude.{◌≡◌, IfOk, option_map};
ghost use Rattle.array_shapes.specs.Values.{seen, bit_of, register_of, number_of};

use revc_base::Memory;
use revs_terms::Lambda;
use std::rc::Rc;

/// A value of a run. A location is counted from 0, and stands for the bit in it. A function has the
/// number of the environment that it was made in, how many of its names are taken, and its names
/// and body. A number, to which a `for` binds its name, is from -9,999 to 9,999. The locations of a
/// register are shared, so that a copy takes the same time at any length.
#[derive(Drop)]
pub enum Value<'t> {
    Unit,
    Bit(u32),
    Reg(Rc<Vec<u32>>),
    Fun {
        env: u32,
        taken: usize,
        of: &'t Lambda,
    },
    Num(i32),
}

impl<'t> Value<'t> {
    /// The same value. A register is not copied: the new value shares its locations.
    pub fn copy(&self) -> Result<Value<'t>, Memory>
        ensures { IfOk result (λ value. seen value ≡ seen self.now) }
    {
        Ok(match self {
            Value::Unit => Value::Unit,
            Value::Bit(location) => Value::Bit(*location),
            Value::Reg(locations) => Value::Reg(locations.clone()?),
            Value::Fun { env, taken, of } => Value::Fun {
                env: *env,
                taken: *taken,
                of,
            },
            Value::Num(number) => Value::Num(*number),
        })
    }
}

/// The location of a bit, and `None` at any other value. It takes no memory.
pub fn bit(value: &Value) -> Option<u32>
    ensures { result ≡ bit_of (seen value.now) }
{
    match value {
        Value::Bit(location) => Some(*location),
        _ => None,
    }
}

/// The locations of a register, and `None` at any other value. It takes no memory.
pub fn register<'a, 't>(value: &'a Value<'t>) -> Option<&'a [u32]>
    ensures { option_map (λ r. r.now) result ≡ register_of (seen value.now) }
{
    match value {
        Value::Reg(locations) => Some(locations.as_slice()),
        _ => None,
    }
}

/// The number that a value is, and `None` at any other value. It takes no memory.
pub fn number(value: &Value) -> Option<i32>
    ensures { result ≡ number_of (seen value.now) }
{
    match value {
        Value::Num(number) => Some(*number),
        _ => None,
    }
}
