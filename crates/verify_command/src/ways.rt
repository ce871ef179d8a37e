// A comparison by the way of an order: by diagrams, by sums, or by both.
ghost use Rattle.std.specs.Prelude.{◌≤◌, IfErr, OnOk};
ghost use Rattle.circuit_verify.specs.Compared.{comparison};
ghost use Rattle.circuit_verify.specs.Verdicts.{IsVerified};
ghost use Rattle.revc_words.specs.Words.{IsWithinLimits, order_of};
ghost use Rattle.sum_verify.specs.Faults.{IsSumsFault};
ghost use Rattle.verify_command.specs.inside.Ways.{IsUnverified};

use circuit_verify::{Compared, VerifyFault, verify as by_diagrams};
use revc_words::{Order, Way};
use std::alloc::Global;
use sum_verify::{
    SumsFault, Unsettled, verify as by_products, verify_by_cuts, verify_by_wide_cuts,
};

/// The nodes of the diagrams that are asked before cuts.
const FEW_NODES: u32 = 1 << 15;

/// Why a circuit that can be compared is not verified. Only who asked sums has what they left
/// unsettled.
#[derive(Drop)]
pub enum Unverified<'s> {
    /// Diagrams, asked alone, do not verify it.
    Diagrams(VerifyFault),
    /// Sums do not.
    Sums(SumsFault<'s>),
    /// Sums leave it unsettled, and diagrams do not verify it.
    Both(Unsettled<'s>, VerifyFault),
}

/// Compares the two by the way of the order.
pub fn compare_by_way<'s>(
    alloc: Global,
    compared: Compared<'s>,
    order: &Order,
) -> Result<(), Unverified<'s>>
    requires { IsWithinLimits (order_of order.now) }
    ensures verified { OnOk result (IsVerified (comparison compared.entry)) }
    ensures refused { IfErr result (IsUnverified (order_of order.now).way compared.entry
        (order_of order.now).nodes) }
{
    let nodes = order.values.nodes;
    match order.values.way {
        Way::Diagrams => match by_diagrams(alloc, &compared, nodes) {
            Ok(()) => Ok(()),
            Err(fault) => Err(Unverified::Diagrams(fault)),
        },
        Way::Sums => match by_sums(alloc, compared) {
            Ok(()) => Ok(()),
            Err(fault) => Err(Unverified::Sums(fault)),
        },
        Way::Both => by_both(alloc, compared, nodes),
    }
}

// Compares the two by sums: of products alone, with narrow cuts, and with wide ones, each where
// those before leave them unsettled.
fn by_sums(alloc: Global, compared: Compared<'_>) -> Result<(), SumsFault<'_>>
    ensures verified { OnOk result (IsVerified (comparison compared.entry)) }
    ensures unsettled { IfErr result (IsSumsFault compared.entry) }
{
    match by_products(alloc, compared) {
        Ok(()) => Ok(()),
        Err(SumsFault::Unsettled(left)) => by_cuts(alloc, left),
        Err(fault) => Err(fault),
    }
}

fn by_cuts(alloc: Global, left: Unsettled<'_>) -> Result<(), SumsFault<'_>>
    ensures verified { OnOk result (IsVerified (comparison left.entry)) }
    ensures unsettled { IfErr result (IsSumsFault left.entry) }
{
    match verify_by_cuts(alloc, left) {
        Ok(()) => Ok(()),
        Err(SumsFault::Unsettled(left)) => verify_by_wide_cuts(alloc, left),
        Err(fault) => Err(fault),
    }
}

// Compares the two by sums of products, by diagrams of few nodes, by sums with narrow cuts, by
// diagrams, and by sums with wide cuts: each where those before leave them unsettled.
fn by_both(alloc: Global, compared: Compared<'_>, nodes: u32) -> Result<(), Unverified<'_>>
    requires { 1 ≤ nodes }
    ensures verified { OnOk result (IsVerified (comparison compared.entry)) }
    ensures refused { IfErr result (IsUnverified Way.Both compared.entry nodes) }
{
    match by_products(alloc, compared) {
        Ok(()) => Ok(()),
        Err(SumsFault::Unsettled(left)) => behind_products(alloc, left, nodes),
        Err(fault) => Err(Unverified::Sums(fault)),
    }
}

fn behind_products(alloc: Global, left: Unsettled<'_>, nodes: u32) -> Result<(), Unverified<'_>>
    requires { 1 ≤ nodes }
    ensures verified { OnOk result (IsVerified (comparison left.entry)) }
    ensures refused { IfErr result (IsUnverified Way.Both left.entry nodes) }
{
    let few = nodes.min(FEW_NODES);
    match by_diagrams(alloc, left.compared(), few) {
        Ok(()) => Ok(()),
        Err(VerifyFault::Diagram { .. }) => behind_few(alloc, left, nodes),
        Err(VerifyFault::Differs { line, bits }) => {
            Err(Unverified::Both(left, VerifyFault::Differs { line, bits }))
        }
        Err(VerifyFault::Memory(memory)) => {
            Err(Unverified::Both(left, VerifyFault::Memory(memory)))
        }
    }
}

fn behind_few(alloc: Global, left: Unsettled<'_>, nodes: u32) -> Result<(), Unverified<'_>>
    requires { 1 ≤ nodes }
    ensures verified { OnOk result (IsVerified (comparison left.entry)) }
    ensures refused { IfErr result (IsUnverified Way.Both left.entry nodes) }
{
    match verify_by_cuts(alloc, left) {
        Ok(()) => Ok(()),
        Err(SumsFault::Unsettled(left)) => behind_cuts(alloc, left, nodes),
        Err(fault) => Err(Unverified::Sums(fault)),
    }
}

fn behind_cuts(alloc: Global, left: Unsettled<'_>, nodes: u32) -> Result<(), Unverified<'_>>
    requires { 1 ≤ nodes }
    ensures verified { OnOk result (IsVerified (comparison left.entry)) }
    ensures refused { IfErr result (IsUnverified Way.Both left.entry nodes) }
{
    match by_diagrams(alloc, left.compared(), nodes) {
        Ok(()) => Ok(()),
        Err(VerifyFault::Diagram { nodes }) => match verify_by_wide_cuts(alloc, left) {
            Ok(()) => Ok(()),
            Err(SumsFault::Unsettled(left)) => {
                Err(Unverified::Both(left, VerifyFault::Diagram { nodes }))
            }
            Err(fault) => Err(Unverified::Sums(fault)),
        },
        Err(VerifyFault::Differs { line, bits }) => {
            Err(Unverified::Both(left, VerifyFault::Differs { line, bits }))
        }
        Err(VerifyFault::Memory(memory)) => {
            Err(Unverified::Both(left, VerifyFault::Memory(memory)))
        }
    }
}
