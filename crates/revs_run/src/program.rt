// The run of a program.
ghost use Rattle.std.specs.Prelude.{◌≡◌, ◌≤◌, length, sum, IfOk, IfErr, MatchResult};
ghost use Rattle.std.specs.List.{AllByRecursion};
ghost use Rattle.revs_tape.specs.declared.limits.TheConstants.{MOST_OUTPUTS};
ghost use Rattle.revs_tape.specs.Tapes.{IsKnown};
ghost use Rattle.revs_terms.specs.declared.limits.TheConstants.{MOST_DEPTH, MOST_RUN_WRITES};
ghost use Rattle.revs_terms.specs.Runs.{no_bits, read_all, run_without_bits, IsTapeOf};
ghost use Rattle.revs_terms.specs.Terms.{place_of};
ghost use Rattle.revs_terms.specs.Trees.{tree_of};
ghost use Rattle.revs_run.specs.Faults.{IsRefused};
ghost use Rattle.revs_run.specs.inside.Calls.{Says, Leaves};
ghost use Rattle.revs_run.specs.inside.Machines.{IsMachine, env_of, state_of, value_of};
ghost use Rattle.revs_run.specs.inside.Starts.{Ends, Outputs, Reads, body_step, outputs_step};

use crate::RunFault;
use crate::machine::Machine;
use crate::start::start;
use crate::terms::Frame;
use array_shapes::Value;
use name_scope::Scoped;
use revs_tape::limits::MOST_OUTPUTS;
use revs_tape::{Ref, Tape};
use revs_terms::limits::MOST_DEPTH;
use revs_terms::{Cause, Program, Term};
use std::alloc::Global;

/// Runs a program whose names are bound once for all inputs, to the tape that its run leaves on
/// each of them.
///
/// The tape has at most 262,144 writes. A fault comes exactly where the run is stuck, with that
/// cause and place, on every input; want of memory may come anywhere.
pub fn run(alloc: Global, scoped: &Scoped) -> Result<Tape, RunFault>
    ensures ok { IfOk result (λ tape. IsTapeOf scoped.now.program.params.items
        (tree_of scoped.now.program.body) tape) }
    ensures few { IfOk result (λ tape. length tape.entries ≤ MOST_RUN_WRITES) }
    ensures err { IfErr result (λ fault. IsRefused scoped.now.program.params.items
        (tree_of scoped.now.program.body) fault) }
{
    tape_of(alloc, scoped.program())
}

// The run without bits.
fn tape_of(alloc: Global, program: &Program) -> Result<Tape, RunFault>
    ensures ok { IfOk result (λ tape. Leaves program.now.params.items
        (tree_of program.now.body) tape) }
    ensures err { IfErr result (λ fault. Says fault
        (run_without_bits program.now.params.items (tree_of program.now.body))) }
{
    let mut machine = start(alloc, &program.params)?;
    let env = machine.last_environment();
    let outputs = body_outputs(&mut machine, env, &program.body)?;
    Ok(finished(machine, outputs))
}

// What made the bits of the value of a program's body, which is run in an environment.
fn body_outputs<'t>(
    machine: &mut Machine<'t>,
    env: u32,
    body: &'t Term,
) -> Result<Vec<Ref>, RunFault>
    requires machine { IsMachine machine.old }
    requires env { env ≤ length machine.old.bindings.items }
    ensures { MatchResult result
        (λ made. Ends machine.old machine.new env (tree_of body.now) made.items)
        (λ fault. Says fault (body_step MOST_DEPTH (env_of machine.old env) (tree_of body.now)
        (state_of machine.old))) }
{
    let frame = Frame {
        env,
        left: MOST_DEPTH,
    };
    let value = machine.run(frame, body)?;
    outputs(machine, &value, body)
}

// The outputs of a program: what made the bits of its value.
fn outputs<'t>(machine: &Machine<'t>, value: &Value<'t>, body: &Term) -> Result<Vec<Ref>, RunFault>
    requires { IsMachine machine.now }
    ensures { MatchResult result
        (λ made. Outputs machine.now (value_of machine.now value.now) (place_of (tree_of body.now))
        made.items)
        (λ fault. Says fault (outputs_step (place_of (tree_of body.now))
        (value_of machine.now value.now) (state_of machine.now))) }
{
    match value {
        Value::Bit(location) => read(machine, &[*location], body),
        Value::Reg(locations) => {
            if locations.len() > MOST_OUTPUTS {
                return Err(RunFault::stuck(Cause::Outputs, body.place()));
            }
            read(machine, locations, body)
        }
        Value::Unit | Value::Fun { .. } | Value::Num(_) => {
            Err(RunFault::stuck(Cause::NoOutput, body.place()))
        }
    }
}

// What made the bits in these locations.
fn read<'t>(machine: &Machine<'t>, locations: &[u32], body: &Term) -> Result<Vec<Ref>, RunFault>
    requires { IsMachine machine.now }
    ensures { MatchResult result
        (λ made. Reads machine.now locations.now (place_of (tree_of body.now)) made.items)
        (λ fault. Says fault (read_all no_bits (place_of (tree_of body.now)) locations.now
        (state_of machine.now))) }
{
    let mut made = Vec::new(machine.allocator());
    for location in locations {
        let stamp = machine.read(*location, body)?;
        made.push(stamp)?;
    }
    Ok(made)
}

// The tape of a machine, with these outputs.
fn finished(machine: Machine, outputs: Vec<Ref>) -> Tape
    requires known { AllByRecursion (IsKnown (sum machine.tape.params)
        (length machine.tape.entries)) outputs.items }
    requires few { length outputs.items ≤ MOST_OUTPUTS }
    requires some { 1 ≤ length outputs.items }
    ensures { result ≡ record machine.entry.tape { outputs = outputs.items } }
{
    let Machine {
        bindings: _,
        store: _,
        mut tape,
        work: _,
    } = machine;
    tape.set_outputs(outputs);
    tape
}
