// A circuit against a settled graph.
ghost use Rattle.std.specs.Prelude.{◌≡◌, IfErr, IfSome, OnOk};
ghost use Rattle.circuit_verify.specs.Compared.{comparison};
ghost use Rattle.circuit_verify.specs.Verdicts.{IsVerified};
ghost use Rattle.sum_verify.specs.Faults.{IsSumsFault};
ghost use Rattle.sum_verify.specs.inside.Rewritten.{HasOutputsOf};

use crate::SumsFault;
use crate::fault::FormsFault;
use crate::judging::judge;
use crate::rewritten::{output_forms_by, rewritten};
use crate::start::start_forms;
use crate::walking::walk;
use circuit_verify::Compared;
use cut_sweeping::{Reach, Sweep};
use std::alloc::Global;
use std::marker::Model;
use sum_graph::SumGraph;

/// A comparison that sums leave unsettled. [`verify`], [`verify_by_cuts`] and
/// [`verify_by_wide_cuts`] alone make one, so who has one asked them of this very comparison.
#[derive(Drop)]
pub struct Unsettled<'s> {
    compared: Compared<'s>,
}

impl<'s> Model for Unsettled<'s> {
    ghost use Rattle.circuit_verify.specs.Compared.{ComparedView};

    ghost Value = { ComparedView };

    ghost view = { λ left. left.compared };
}

impl<'s> Unsettled<'s> {
    /// The comparison.
    pub fn compared(&self) -> &Compared<'s>
        ensures { result.now ≡ self.now }
    {
        &self.compared
    }
}

/// Verifies that a circuit computes the outputs of a settled graph: on every input that is looked
/// at, whatever the output lines hold that they may, with 0 on the work lines and whatever the
/// borrowed lines hold, the outputs are added to the output lines, or take the place of the inputs,
/// and every other line is left as it was.
///
/// The lines are held as exclusive sums of inputs and of products, which `product_sums` numbers and
/// bounds. A product of sums of products is not multiplied out, and sums are of all inputs, whether
/// looked at or not, so a circuit that agrees may be left unsettled.
///
/// # Errors
///
/// `Unsettled` with the comparison, where a line has another sum than it should have, or a limit is
/// passed, which says nothing of the circuit, and `Memory` for want of memory.
pub fn verify(alloc: Global, compared: Compared<'_>) -> Result<(), SumsFault<'_>>
    ensures verified { OnOk result (IsVerified (comparison compared.entry)) }
    ensures unsettled { IfErr result (IsSumsFault compared.entry) }
{
    verify_within(alloc, compared, Reach::Products)
}

/// The same for a comparison that was left unsettled: all is done again with a graph of sums of the
/// same outputs and of fewer products, by `few_products`, and then with cuts, by `cut_sweeping`.
///
/// # Errors
///
/// As for [`verify`].
pub fn verify_by_cuts(alloc: Global, left: Unsettled<'_>) -> Result<(), SumsFault<'_>>
    ensures verified { OnOk result (IsVerified (comparison left.entry)) }
    ensures unsettled { IfErr result (IsSumsFault left.entry) }
{
    verify_within(alloc, left.compared, Reach::Cuts)
}

/// The same with wide cuts too, and sums that are looked at as they are met. Where narrow cuts do
/// not settle it.
///
/// # Errors
///
/// As for [`verify`].
pub fn verify_by_wide_cuts(alloc: Global, left: Unsettled<'_>) -> Result<(), SumsFault<'_>>
    ensures verified { OnOk result (IsVerified (comparison left.entry)) }
    ensures unsettled { IfErr result (IsSumsFault left.entry) }
{
    verify_within(alloc, left.compared, Reach::WideCuts)
}

fn verify_within(alloc: Global, compared: Compared<'_>, reach: Reach) -> Result<(), SumsFault<'_>>
    ensures verified { OnOk result (IsVerified (comparison compared.entry)) }
    ensures unsettled { IfErr result (IsSumsFault compared.entry) }
{
    let _ = compared.variables(); // shows what is known of both
    match verify_by_reach(alloc, &compared, reach) {
        Ok(()) => Ok(()),
        Err(FormsFault::Unsettled) => Err(SumsFault::Unsettled(Unsettled { compared })),
        Err(FormsFault::Memory(memory)) => Err(SumsFault::Memory(memory)),
    }
}

// The circuit is verified, where the forms of its lines tell: narrow cuts are asked behind a graph
// with fewer products.
fn verify_by_reach(alloc: Global, compared: &Compared, reach: Reach) -> Result<(), FormsFault>
    ensures { OnOk result (IsVerified (comparison compared.now)) }
{
    match reach {
        Reach::Cuts => verify_further(alloc, compared),
        reach => verify_forms(alloc, compared, reach, None),
    }
}

fn verify_further(alloc: Global, compared: &Compared) -> Result<(), FormsFault>
    ensures { OnOk result (IsVerified (comparison compared.now)) }
{
    match verify_rewritten(alloc, compared) {
        Err(FormsFault::Unsettled) => verify_forms(alloc, compared, Reach::Cuts, None),
        told => told,
    }
}

fn verify_rewritten(alloc: Global, compared: &Compared) -> Result<(), FormsFault>
    ensures { OnOk result (IsVerified (comparison compared.now)) }
{
    match rewritten(alloc, compared.graph)? {
        Some(graph) => verify_forms(alloc, compared, Reach::Products, Some(&graph)),
        None => Err(FormsFault::Unsettled),
    }
}

fn verify_forms(
    alloc: Global,
    compared: &Compared,
    reach: Reach,
    graph: Option<&SumGraph>,
) -> Result<(), FormsFault>
    requires { IfSome graph (λ graph. HasOutputsOf compared.now.graph graph.now) }
    ensures { OnOk result (IsVerified (comparison compared.now)) }
{
    let mut products = Sweep::new(alloc, compared.variables(), reach);
    let mut lines = start_forms(alloc, compared)?;
    let outputs = output_forms_by(alloc, &mut products, compared, &lines, graph)?;
    products.limit_atoms();
    walk(&mut products, compared, &mut lines)?;
    judge(alloc, &mut products, compared, &outputs, &lines)
}
