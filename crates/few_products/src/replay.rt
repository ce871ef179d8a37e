// Proposed steps, done one after another.
ghost use Rattle.std.specs.Prelude.{IfOk, IfSome, OnOk};
ghost use Rattle.wide_sums.specs.Wide.{Vanishes};
ghost use Rattle.few_products.specs.inside.Definitions.{AreKept};

use crate::symbols::{sum_of, window_of};
use dependency_graph::Base;
use revc_base::Memory;
use std::alloc::Global;
use symbol_graphs::Step;
use wide_sums::{WideSum, Window, vanishes};

/// Does the steps, of which each that is not found to keep the values of nodes does nothing.
pub fn replay(
    alloc: Global,
    definitions: &mut Vec<WideSum>,
    inputs: u32,
    steps: &[Step],
) -> Result<(), Memory>
    ensures { OnOk result (AreKept definitions.old.items definitions.new.items) }
{
    for step in steps {
        take(alloc, definitions, inputs, step)?;
    }
    Ok(())
}

// Does one step.
fn take(
    alloc: Global,
    definitions: &mut Vec<WideSum>,
    inputs: u32,
    step: &Step,
) -> Result<(), Memory>
    ensures { OnOk result (AreKept definitions.old.items definitions.new.items) }
{
    match step {
        Step::Definition { target, node } => add_definition(alloc, definitions, *target, *node),
        Step::Window {
            target,
            change,
            opened,
        } => {
            let change = sum_of(alloc, inputs, change)?;
            let window = window_of(alloc, inputs, opened)?;
            add_by_window(alloc, definitions, *target, &change, &window)
        }
    }
}

// Adds to a node a sum that is found to vanish.
fn add_by_window(
    alloc: Global,
    definitions: &mut Vec<WideSum>,
    target: u32,
    change: &WideSum,
    window: &Window,
) -> Result<(), Memory>
    ensures { OnOk result (AreKept definitions.old.items definitions.new.items) }
{
    if !vanishes(alloc, definitions, window, change)? {
        return Ok(());
    }
    add(alloc, definitions, target, change)
}

// Adds to a node what makes another one 0: its bit and its sum.
fn add_definition(
    alloc: Global,
    definitions: &mut Vec<WideSum>,
    target: u32,
    node: u32,
) -> Result<(), Memory>
    ensures { OnOk result (AreKept definitions.old.items definitions.new.items) }
{
    let Some(zero) = zero_of(alloc, definitions, node)? else {
        return Ok(());
    };
    add(alloc, definitions, target, &zero)
}

// The bit of a node and its sum, where it has one.
fn zero_of(alloc: Global, definitions: &[WideSum], node: u32) -> Result<Option<WideSum>, Memory>
    ensures { IfOk result (λ found. IfSome found (Vanishes definitions.now)) }
{
    let Some(sum) = definitions.get(node as usize) else {
        return Ok(None);
    };
    let bits = Vec::from_slice(alloc, &[Base::Node(node)])?;
    let bit = WideSum::new(bits, Vec::new(alloc), false);
    Ok(Some(sum.plus(alloc, &bit)?))
}

// Adds to a node a sum that vanishes.
#[tactic(auto, using(crate::proofs::DefinitionLemmas::kept_same))]
fn add(
    alloc: Global,
    definitions: &mut Vec<WideSum>,
    target: u32,
    change: &WideSum,
) -> Result<(), Memory>
    requires { Vanishes definitions.old.items change.now }
    ensures { OnOk result (AreKept definitions.old.items definitions.new.items) }
{
    let place = target as usize;
    if place >= definitions.as_slice().len() {
        return Ok(());
    }
    let sum = definitions[place].plus(alloc, change)?;
    definitions[place] = sum;
    Ok(())
}
