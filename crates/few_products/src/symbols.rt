// Sums of bits as sums of symbols, and proposed ones as sums of bits.
use bit_sums::{Product, Sum};
use dependency_graph::Base;
use revc_base::Memory;
use std::alloc::Global;
use sum_graph::SumGraph;
use symbol_graphs::{Opened, Sums, SymbolProduct, SymbolSum};
use wide_sums::{WideProduct, WideSum, Window};

/// A graph over symbols.
pub fn sums_of(alloc: Global, graph: &SumGraph) -> Result<Sums, Memory> {
    let mut outputs = Vec::new(alloc);
    for sum in graph.outputs() {
        outputs.push(symbol_sum(alloc, graph.inputs(), sum)?)?;
    }
    Ok(Sums {
        inputs: graph.inputs(),
        nodes: nodes_of(alloc, graph)?,
        outputs,
    })
}

fn nodes_of(alloc: Global, graph: &SumGraph) -> Result<Vec<SymbolSum>, Memory> {
    let mut nodes = Vec::new(alloc);
    for node in 0..graph.nodes() {
        nodes.push(symbol_sum(alloc, graph.inputs(), graph.node(node))?)?;
    }
    Ok(nodes)
}

fn symbol_sum(alloc: Global, inputs: u32, sum: &Sum) -> Result<SymbolSum, Memory> {
    let mut products = Vec::new(alloc);
    for product in sum.products() {
        products.push(symbol_product(alloc, inputs, product)?)?;
    }
    Ok(SymbolSum {
        one: sum.one(),
        bits: symbols_of(alloc, inputs, sum.bits())?,
        products,
    })
}

fn symbol_product(alloc: Global, inputs: u32, product: &Product) -> Result<SymbolProduct, Memory> {
    Ok(SymbolProduct {
        first: symbols_of(alloc, inputs, product.first())?,
        second: symbols_of(alloc, inputs, product.second())?,
    })
}

// Rising bits as falling symbols.
fn symbols_of(alloc: Global, inputs: u32, bits: &[Base]) -> Result<Vec<u32>, Memory> {
    let mut symbols = Vec::new(alloc);
    for base in bits.iter().rev() {
        symbols.push(match base {
            Base::Input(input) => *input,
            Base::Node(node) => inputs.saturating_add(*node),
        })?;
    }
    Ok(symbols)
}

/// The sum over a graph with so many inputs.
pub fn sum_of(alloc: Global, inputs: u32, sum: &SymbolSum) -> Result<WideSum, Memory> {
    let mut products = Vec::new(alloc);
    for product in &sum.products {
        let first = bits_of(alloc, inputs, &product.first)?;
        let second = bits_of(alloc, inputs, &product.second)?;
        products.push(WideProduct::new(first, second))?;
    }
    let bits = bits_of(alloc, inputs, &sum.bits)?;
    Ok(WideSum::new(bits, products, sum.one))
}

/// The window over a graph with so many inputs.
pub fn window_of(alloc: Global, inputs: u32, opened: &Opened) -> Result<Window, Memory> {
    let mut sums = Vec::new(alloc);
    for sum in &opened.sums {
        sums.push(bits_of(alloc, inputs, sum)?)?;
    }
    Ok(Window {
        opened: nodes_among(alloc, inputs, &opened.symbols)?,
        sums,
    })
}

// The nodes of symbols.
fn nodes_among(alloc: Global, inputs: u32, symbols: &[u32]) -> Result<Vec<u32>, Memory> {
    let mut nodes = Vec::new(alloc);
    for symbol in symbols {
        nodes.push(symbol.saturating_sub(inputs))?;
    }
    Ok(nodes)
}

// Falling symbols as rising bits.
fn bits_of(alloc: Global, inputs: u32, symbols: &[u32]) -> Result<Vec<Base>, Memory> {
    let mut bits = Vec::new(alloc);
    for symbol in symbols.iter().rev() {
        bits.push(match symbol.checked_sub(inputs) {
            Some(node) => Base::Node(node),
            None => Base::Input(*symbol),
        })?;
    }
    Ok(bits)
}
