// Terms, run by their forms.
ghost use Rattle.revs_tape.specs.declared.limits.TheConstants.{MOST_INPUTS};
ghost use Rattle.std.specs.Prelude.{◌+◌, ◌≤◌, length, map, IfOk, OnOk, IfErr, IsErrOf};
ghost use Rattle.revs_terms.specs.Running.{run_of, bit_of, bits_of, block_of, apply_to};
ghost use Rattle.revs_terms.specs.Running.{claimed, items_run, turn_of, turns_of, turns};
ghost use Rattle.revs_terms.specs.Runs.{no_bits};
ghost use Rattle.revs_terms.specs.Terms.{place_of};
ghost use Rattle.revs_terms.specs.Trees.{tree_of, item_tree_of, trees};
ghost use Rattle.revs_run.specs.inside.Machines.{IsMachine, Does, Goes, Binds, Calls, LeavesRoom};
ghost use Rattle.revs_run.specs.inside.Machines.{IsValue, Passes, env_of, value_of, state_of};
ghost use Rattle.revs_run.specs.inside.Calls.{Follows, IsBitAt, NoBitAt, item_step, link_step};
ghost use Rattle.revs_run.specs.inside.Calls.{RunsAs, chain_tree, argument_step};
ghost use Rattle.revs_run.specs.inside.Numbers.{loop_run};
ghost use Rattle.revs_terms.specs.Trees as shape;

use crate::RunFault;
use crate::machine::{Machine, RunResult};
use crate::numbers::{number_at, turn_count};
use crate::operators::Operator;
use array_shapes::{Value, bit};
use revc_base::Place;
use revs_tape::Kind;
use revs_terms::{Cause, Ends, Item, Num, Part, Term};

/// Where a term is run: in an environment, with so many levels of depth left.
#[derive(Clone, Copy)]
pub struct Frame {
    pub env: u32,
    pub left: u32,
}

impl<'t> Machine<'t> {
    /// Runs a term in a frame. What is bound meanwhile is let go, unless the value is a function,
    /// which may need it.
    #[cycle(run)]
    pub fn run(&mut self, frame: Frame, term: &'t Term) -> RunResult<'t>
        requires machine { IsMachine self.old }
        requires env { frame.env ≤ length self.old.bindings.items }
        ensures run { Follows (Goes self.old self.new)
            (run_of no_bits frame.left (env_of self.old frame.env) (tree_of term.now)
            (state_of self.old)) result }
        ensures room { OnOk result (LeavesRoom self.old self.new) }
    {
        let kept = self.last_environment();
        let value = self.entered(frame, term)?;
        self.settle(kept, &value);
        Ok(value)
    }

    // Enters a term and runs it.
    #[cycle(run)]
    fn entered(&mut self, frame: Frame, term: &'t Term) -> RunResult<'t>
        requires machine { IsMachine self.old }
        requires env { frame.env ≤ length self.old.bindings.items }
        ensures run { Follows (Goes self.old self.new)
            (run_of no_bits frame.left (env_of self.old frame.env) (tree_of term.now)
            (state_of self.old)) result }
        ensures room { OnOk result (LeavesRoom self.old self.new) }
    {
        if frame.left == 0 {
            return Err(RunFault::stuck(Cause::Depth, term.place()));
        }
        self.enter(term)?;
        let inside = Frame {
            left: frame.left - 1,
            ..frame
        };
        self.term(inside, term)
    }

    // A term by its form, with so many levels of depth left for its parts.
    #[cycle(run)]
    fn term(&mut self, frame: Frame, term: &'t Term) -> RunResult<'t>
        requires machine { IsMachine self.old }
        requires env { frame.env ≤ length self.old.bindings.items }
        ensures { RunsAs self.old self.new frame (tree_of term.now) result }
    {
        match term {
            Term::Name(name) => self.named(frame.env, name.back),
            Term::Bool(bit, at) => self.constant(*bit, *at),
            Term::Reg(terms, at) => self.reg(frame, terms, *at),
            Term::Fun(of, _) => Ok(Value::Fun {
                env: frame.env,
                taken: 0,
                of,
            }),
            Term::Clean(operand, at) => self.claimed(frame, Kind::Clean, operand, *at),
            Term::Assert(operand, at) => self.claimed(frame, Kind::Assert, operand, *at),
            Term::And(terms) => self.chain(frame, Operator::And, terms),
            Term::Xor(terms) => self.chain(frame, Operator::Xor, terms),
            Term::Assign(to, from) => self.assignment(frame, to, from),
            Term::Block(items, last, _) => self.block(frame, items, last),
            Term::At(base, parts) => self.at(frame, base, parts),
            Term::Apply(head, terms) => self.apply(frame, head, terms),
            Term::Append(first, second, at) => self.append(frame, first, second, *at),
            Term::Rotate(by, operand, at) => self.rotation(frame, by, operand, *at),
        }
    }

    // A term whose value must be a bit.
    #[cycle(run)]
    fn bit(&mut self, frame: Frame, term: &'t Term) -> Result<u32, RunFault>
        requires machine { IsMachine self.old }
        requires env { frame.env ≤ length self.old.bindings.items }
        ensures { Follows (Does self.old self.new)
            (bit_of no_bits (run_of no_bits frame.left) (env_of self.old frame.env)
            (tree_of term.now) (state_of self.old)) result }
    {
        let value = self.run(frame, term)?;
        bit_at(&value, term)
    }

    #[cycle(run)]
    fn claimed(&mut self, frame: Frame, kind: Kind, operand: &'t Term, at: Place) -> RunResult<'t>
        requires machine { IsMachine self.old }
        requires env { frame.env ≤ length self.old.bindings.items }
        ensures { Follows (Goes self.old self.new)
            (claimed no_bits (run_of no_bits frame.left) kind (env_of self.old frame.env)
            (tree_of operand.now) at (state_of self.old)) result }
    {
        let location = self.bit(frame, operand)?;
        self.claim(kind, location, operand, at)
    }

    #[cycle(run)]
    fn assignment(&mut self, frame: Frame, left: &'t Term, right: &'t Term) -> RunResult<'t>
        requires machine { IsMachine self.old }
        requires env { frame.env ≤ length self.old.bindings.items }
        ensures { RunsAs self.old self.new frame
            (shape.assign (tree_of left.now) (tree_of right.now)) result }
    {
        let to = self.bit(frame, left)?;
        let from = self.bit(frame, right)?;
        self.assign(to, from, left, right)
    }

    #[cycle(run)]
    fn reg(&mut self, frame: Frame, terms: &'t [Term], at: Place) -> RunResult<'t>
        requires machine { IsMachine self.old }
        requires env { frame.env ≤ length self.old.bindings.items }
        ensures { RunsAs self.old self.new frame
            (shape.reg (trees (map tree_of terms.now)) at) result }
    {
        let locations = self.bits(frame, terms)?;
        self.short_register(locations, at)
    }

    // Terms whose values must be bits, one after another.
    #[cycle(run)]
    fn bits(&mut self, frame: Frame, terms: &'t [Term]) -> Result<Vec<u32>, RunFault>
        requires machine { IsMachine self.old }
        requires env { frame.env ≤ length self.old.bindings.items }
        ensures { Follows (λ outcome made. Does self.old self.new outcome made.items)
            (bits_of no_bits (run_of no_bits frame.left) (env_of self.old frame.env)
            (map tree_of terms.now) (state_of self.old)) result }
    {
        let mut locations = Vec::new(self.allocator());
        for term in terms {
            let location = self.bit(frame, term)?;
            locations.push(location)?;
        }
        Ok(locations)
    }

    #[cycle(run)]
    fn chain(&mut self, frame: Frame, op: Operator, terms: &'t [Term]) -> RunResult<'t>
        requires machine { IsMachine self.old }
        requires env { frame.env ≤ length self.old.bindings.items }
        ensures { RunsAs self.old self.new frame (chain_tree op (map tree_of terms.now)) result }
    {
        let Some((first, rest)) = terms.split_first() else {
            return Ok(Value::Unit);
        };
        let mut so_far = self.bit(frame, first)?;
        for term in rest {
            so_far = self.link(frame, op, so_far, first, term)?;
        }
        Ok(Value::Bit(so_far))
    }

    // The bit so far of a chain with the next operand's.
    #[cycle(run)]
    fn link(
        &mut self,
        frame: Frame,
        op: Operator,
        so_far: u32,
        first: &'t Term,
        term: &'t Term,
    ) -> Result<u32, RunFault>
        requires machine { IsMachine self.old }
        requires env { frame.env ≤ length self.old.bindings.items }
        ensures { Follows (Does self.old self.new)
            (link_step (run_of no_bits frame.left) op (env_of self.old frame.env)
            (place_of (tree_of first.now)) so_far (tree_of term.now) (state_of self.old)) result }
    {
        let next = self.bit(frame, term)?;
        self.join(op, so_far, next, first, term)
    }

    // The items of a block in order, and its last expression.
    #[cycle(run)]
    fn block(&mut self, frame: Frame, items: &'t [Item], last: &'t Term) -> RunResult<'t>
        requires machine { IsMachine self.old }
        requires env { frame.env ≤ length self.old.bindings.items }
        ensures { Follows (Goes self.old self.new)
            (block_of no_bits (run_of no_bits frame.left) (env_of self.old frame.env)
            (map item_tree_of items.now) (tree_of last.now) (state_of self.old)) result }
    {
        let inner = self.items(frame, items)?;
        self.run(
            Frame {
                env: inner,
                ..frame
            },
            last,
        )
    }

    // The items of a block or a `for` in order, to the environment behind them.
    #[cycle(run)]
    fn items(&mut self, frame: Frame, items: &'t [Item]) -> Result<u32, RunFault>
        requires machine { IsMachine self.old }
        requires env { frame.env ≤ length self.old.bindings.items }
        ensures { Follows (Binds self.old self.new)
            (items_run no_bits (run_of no_bits frame.left) (env_of self.old frame.env)
            (map item_tree_of items.now) (state_of self.old)) result }
    {
        let mut inner = frame.env;
        for item in items {
            inner = self.item(
                Frame {
                    env: inner,
                    ..frame
                },
                item,
            )?;
        }
        Ok(inner)
    }

    // An item of a block or a `for`, to the environment behind it.
    #[cycle(run)]
    fn item(&mut self, frame: Frame, item: &'t Item) -> Result<u32, RunFault>
        requires machine { IsMachine self.old }
        requires env { frame.env ≤ length self.old.bindings.items }
        ensures { Follows (Binds self.old self.new)
            (item_step (run_of no_bits frame.left) (env_of self.old frame.env)
            (item_tree_of item.now) (state_of self.old)) result }
    {
        match item {
            Item::Let { value, .. } => {
                let bound = self.run(frame, value)?;
                self.bind(frame.env, bound, value)
            }
            Item::Do(term) => {
                self.run(frame, term)?;
                Ok(frame.env)
            }
            Item::For {
                ends,
                items,
                at,
                ..
            } => {
                self.repeat(frame, ends, items, *at)?;
                Ok(frame.env)
            }
        }
    }

    // A `for`, with so many levels of depth left.
    #[cycle(run)]
    fn repeat(
        &mut self,
        frame: Frame,
        ends: &'t Ends,
        items: &'t [Item],
        at: Place,
    ) -> RunResult<'t>
        requires machine { IsMachine self.old }
        requires env { frame.env ≤ length self.old.bindings.items }
        ensures { Follows (Goes self.old self.new)
            (loop_run frame.left (env_of self.old frame.env) ends.now.first ends.now.last
            (map item_tree_of items.now) at (state_of self.old)) result }
    {
        if frame.left == 0 {
            return Err(RunFault::stuck(Cause::Depth, at));
        }
        self.work(1, at)?;
        let low = self.number(frame.env, &ends.first)?;
        let high = self.number(frame.env, &ends.last)?;
        let inside = Frame {
            left: frame.left - 1,
            ..frame
        };
        self.turns(inside, items, at, low, high)
    }

    // The items of a `for` at this place, once for each number from the first to the last.
    #[cycle(run)]
    fn turns(
        &mut self,
        frame: Frame,
        items: &'t [Item],
        at: Place,
        low: i32,
        high: i32,
    ) -> RunResult<'t>
        requires machine { IsMachine self.old }
        requires env { frame.env ≤ length self.old.bindings.items }
        ensures { Follows (Goes self.old self.new)
            (turns_of no_bits (run_of no_bits frame.left) (env_of self.old frame.env)
            (map item_tree_of items.now) at low (turns low high) (state_of self.old)) result }
    {
        for turn in 0..turn_count(low, high) {
            self.turn(frame, items, at, number_at(low, turn))?;
        }
        Ok(Value::Unit)
    }

    // One turn of a `for` at this place: what its items bind is let go.
    #[cycle(run)]
    fn turn(
        &mut self,
        frame: Frame,
        items: &'t [Item],
        at: Place,
        number: i32,
    ) -> Result<(), RunFault>
        requires machine { IsMachine self.old }
        requires env { frame.env ≤ length self.old.bindings.items }
        ensures { Follows (λ outcome _. Passes self.old self.new outcome)
            (turn_of no_bits (run_of no_bits frame.left) (env_of self.old frame.env)
            (map item_tree_of items.now) at number (state_of self.old)) result }
    {
        let kept = self.last_environment();
        self.bound_turn(frame, items, at, number)?;
        self.forget(kept);
        Ok(())
    }

    // The items of a `for` at this place, with its name bound to a number.
    #[cycle(run)]
    fn bound_turn(
        &mut self,
        frame: Frame,
        items: &'t [Item],
        at: Place,
        number: i32,
    ) -> Result<u32, RunFault>
        requires machine { IsMachine self.old }
        requires env { frame.env ≤ length self.old.bindings.items }
        ensures { Follows (Binds self.old self.new)
            (turn_of no_bits (run_of no_bits frame.left) (env_of self.old frame.env)
            (map item_tree_of items.now) at number (state_of self.old)) result }
    {
        self.work(1, at)?;
        let inner = self.push(frame.env, Value::Num(number))?;
        self.items(
            Frame {
                env: inner,
                ..frame
            },
            items,
        )
    }

    // The parts of a register.
    #[cycle(run)]
    fn at(&mut self, frame: Frame, base: &'t Term, inside: &'t [Part]) -> RunResult<'t>
        requires machine { IsMachine self.old }
        requires env { frame.env ≤ length self.old.bindings.items }
        ensures { RunsAs self.old self.new frame
            (shape.parts (tree_of base.now) inside.now) result }
    {
        let value = self.run(frame, base)?;
        self.parts(frame.env, base.place(), inside, value)
    }

    #[cycle(run)]
    fn rotation(&mut self, frame: Frame, by: &'t Num, operand: &'t Term, at: Place) -> RunResult<'t>
        requires machine { IsMachine self.old }
        requires env { frame.env ≤ length self.old.bindings.items }
        ensures { RunsAs self.old self.new frame
            (shape.rotate by.now (tree_of operand.now) at) result }
    {
        let k = self.number(frame.env, by)?;
        let value = self.run(frame, operand)?;
        self.rotated(k, operand, &value, at)
    }

    #[cycle(run)]
    fn append(
        &mut self,
        frame: Frame,
        first: &'t Term,
        second: &'t Term,
        at: Place,
    ) -> RunResult<'t>
        requires machine { IsMachine self.old }
        requires env { frame.env ≤ length self.old.bindings.items }
        ensures { RunsAs self.old self.new frame
            (shape.append (tree_of first.now) (tree_of second.now) at) result }
    {
        let front = self.run(frame, first)?;
        let back = self.run(frame, second)?;
        self.appended(first, second, &front, &back, at)
    }

    // A function that takes its arguments one after another.
    #[cycle(run)]
    fn apply(&mut self, frame: Frame, head: &'t Term, terms: &'t [Term]) -> RunResult<'t>
        requires machine { IsMachine self.old }
        requires env { frame.env ≤ length self.old.bindings.items }
        ensures { RunsAs self.old self.new frame
            (shape.apply (tree_of head.now) (trees (map tree_of terms.now))) result }
    {
        let mut value = self.run(frame, head)?;
        for term in terms {
            value = self.argument(frame, value, term)?;
        }
        Ok(value)
    }

    // A value takes one argument.
    #[cycle(run)]
    fn argument(&mut self, frame: Frame, callee: Value<'t>, term: &'t Term) -> RunResult<'t>
        requires machine { IsMachine self.old }
        requires env { frame.env ≤ length self.old.bindings.items }
        requires made { IsValue (length self.old.bindings.items) callee }
        ensures { Follows (Goes self.old self.new)
            (argument_step (run_of no_bits frame.left) (env_of self.old frame.env)
            (value_of self.old callee.entry) (tree_of term.now) (state_of self.old)) result }
    {
        let argument = self.run(frame, term)?;
        self.call(callee, argument, term, frame.left)
    }

    // A function takes an argument, which is the value of a term. With its last name the body is
    // run.
    #[cycle(run)]
    fn call(
        &mut self,
        callee: Value<'t>,
        argument: Value<'t>,
        term: &'t Term,
        left: u32,
    ) -> RunResult<'t>
        requires machine { IsMachine self.old }
        requires room { length self.old.bindings.items + 1 ≤ MOST_INPUTS + self.old.work }
        requires callee { IsValue (length self.old.bindings.items) callee }
        requires argument { IsValue (length self.old.bindings.items) argument }
        ensures { Follows (Calls self.old self.new)
            (apply_to no_bits (run_of no_bits left) (place_of (tree_of term.now))
            (value_of self.old callee.entry) (value_of self.old argument.entry) (state_of self.old))
            result }
    {
        let Value::Fun { env, taken, of } = callee else {
            return Err(RunFault::stuck(Cause::NotFunction, term.place()));
        };
        if of.names.len() <= taken {
            return Err(RunFault::stuck(Cause::NotFunction, term.place()));
        }
        let inner = self.bind(env, argument, term)?;
        if of.names.len() == taken + 1 {
            let frame = Frame { env: inner, left };
            return self.run(frame, &of.body);
        }
        Ok(Value::Fun {
            env: inner,
            taken: taken + 1,
            of,
        })
    }
}

// The location of a bit, which is the value of a term.
fn bit_at(value: &Value, term: &Term) -> Result<u32, RunFault>
    ensures ok { IfOk result (λ location. IsBitAt value.now location) }
    ensures err { IfErr result (λ fault. NoBitAt value.now (place_of (tree_of term.now)) fault) }
    ensures exact { ¬ IsErrOf result (RunFault.Memory _) }
{
    match bit(value) {
        Some(location) => Ok(location),
        None => Err(RunFault::stuck(Cause::NotBit, term.place())),
    }
}
