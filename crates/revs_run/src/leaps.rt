// Ways out of an environment, past many bindings at once.
ghost use Rattle.std.specs.Prelude.{◌≡◌, ◌≤◌, [], length};
ghost use Rattle.revs_run.specs.inside.Machines.{AreBindings, AreLeaps, Leaps, envs_from, leap_of};

use crate::machine::Binding;

/// A leap out of an environment: the environment that it leads to, and how many bindings are
/// passed.
#[derive(Clone, Copy)]
pub struct Leap {
    pub to: u32,
    pub passed: u32,
}

/// The leap of a binding in this environment. Where the leap of the environment's own binding and
/// the next one from there pass equally many bindings, it is both of them; else it stays here. So
/// any of n environments farther out is a multiple of log n leaps and parents away, which no clause
/// says.
pub fn leap_from(bindings: &[Binding], env: u32) -> Leap
    requires made { AreBindings 0 bindings.now }
    requires leaps { AreLeaps [] bindings.now }
    requires env { env ≤ length bindings.now }
    ensures leaps { Leaps (envs_from [] bindings.now) env result }
    ensures is { result ≡ leap_of bindings.now env }
{
    let here = Leap { to: env, passed: 0 };
    if env == 0 {
        return here;
    }
    let near = bindings[env as usize - 1].leap;
    if near.to == 0 {
        return here;
    }
    let next = bindings[near.to as usize - 1].leap;
    if near.passed != next.passed {
        return here;
    }
    Leap {
        to: next.to,
        passed: near.passed + next.passed + 2,
    }
}
