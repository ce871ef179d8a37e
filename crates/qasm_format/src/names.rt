// What was declared: names, and the registers among them, laid one after another.
ghost use Rattle.std.specs.Prelude.{◌≡◌, ℕ, ◌+◌, ◌≤◌, [], ◌∷◌, ◌++◌, false};
ghost use Rattle.std.specs.Prelude.{None, IfOk, IfSome, OnOk, OnErr};
ghost use Rattle.list_facts.specs.Lists.{IsAmong};
ghost use Rattle.circuit_plans.specs.declared.plan.TheConstants.{MOST_LINES};
ghost use Rattle.qasm_format.specs.Registers.{IsLaid, lines_of_all};
ghost use Rattle.qasm_format.specs.Stages.{HasRoom, kind_registers};
ghost use Rattle.qasm_format.specs.inside.Names.{registers_at, DeclaredView, AreDeclared};
ghost use Rattle.qasm_format.specs.inside.Names.{registers_in};
ghost use Rattle.format_parts.specs.Names.{has_word, IsText};

use crate::file::Register;
use crate::words::RegisterKind;
use format_parts::Names;
use revc_base::{Memory, Text};
use std::alloc::Global;
use std::marker::Model;

// Where a register stands: its first line and its size.
#[derive(Clone, Copy)]
pub struct Span {
    pub first: u32,
    pub size: u32,
}

// All names that were declared, the span of each that is a register of qubits, and the number of
// all lines.
#[derive(Drop)]
pub struct Declared<'t> {
    names: Names<'t>,
    spans: Vec<Option<Span>>,
    lines: u32,
}

impl<'t> Model for Declared<'t> {
    ghost Value = { DeclaredView };

    ghost view = { λ d. record {
      names = d.names;
      registers = registers_in d.names d.spans.items;
    } };

    ghost invariant = { λ d. AreDeclared d.names d.spans.items d.lines };
}

impl<'t> Declared<'t> {
    pub fn new(alloc: Global) -> Declared<'t>
        ensures { result ≡ record { names = []; registers = [] } }
    {
        Declared {
            names: Names::new(alloc),
            spans: Vec::new(alloc),
            lines: 0,
        }
    }

    // The number of all lines.
    pub fn lines(&self) -> u32
        ensures lines { result ≡ lines_of_all self.now.registers }
        ensures few { lines_of_all self.now.registers ≤ MOST_LINES }
    {
        self.lines
    }

    // Whether a name was declared.
    pub fn has(&self, name: &[u8]) -> bool
        ensures { result ≡ has_word self.now.names name.now }
    {
        self.names.has(name)
    }

    // The register of qubits of this name.
    pub fn find(&self, name: &[u8]) -> Option<Span>
        ensures some { IfSome result (λ span.
            IsLaid self.now.registers name.now span.first span.size) }
        ensures bound { IfSome result (λ span. span.first + span.size ≤ MOST_LINES) }
        ensures none { result ≡ None → (first size : ℕ)
            → ¬ IsLaid self.now.registers name.now first size }
    {
        let place = self.names.place(name)?;
        self.spans[place]
    }

    // Declares a new name, a register of qubits behind the others or one of bits. After want of
    // memory nothing is changed.
    pub fn push(&mut self, kind: RegisterKind, name: &'t [u8], size: u32) -> Result<(), Memory>
        requires text { IsText name.now }
        requires fresh { has_word self.old.names name.now ≡ false }
        requires room { HasRoom kind size (lines_of_all self.old.registers) }
        ensures ok { OnOk result (self.new ≡ record {
          names = self.old.names ++ name.now ∷ [];
          registers = kind_registers kind name.now size self.old.registers;
        }) }
        ensures err { OnErr result (self.new ≡ self.old) }
    {
        match kind {
            RegisterKind::Qubits => {
                let span = Span {
                    first: self.lines,
                    size,
                };
                put(&mut self.names, &mut self.spans, name, Some(span))?;
                self.lines += size;
            }
            RegisterKind::Bits => put(&mut self.names, &mut self.spans, name, None)?,
        }
        Ok(())
    }

    // A copy of each register of qubits.
    pub fn copies(&self, alloc: Global) -> Result<Vec<Register>, Memory>
        ensures { IfOk result (λ copies. copies.items ≡ self.now.registers) }
    {
        let mut copies = Vec::new(alloc);
        for (place, span) in self.spans.iter().enumerate() {
            push_register(alloc, &mut copies, self.names.at(place), *span)?;
        }
        Ok(copies)
    }
}

// Puts a copy of the register of a name behind the others, where it has a span.
fn push_register(
    alloc: Global,
    copies: &mut Vec<Register>,
    name: &[u8],
    span: Option<Span>,
) -> Result<(), Memory>
    requires { IsText name.now }
    ensures { OnOk result
        (copies.new.items ≡ copies.old.items ++ registers_at name.now span) }
{
    let Some(span) = span else {
        return Ok(());
    };
    let name = Text::new(alloc, name)?;
    copies.push(Register {
        name,
        size: span.size,
    })?;
    Ok(())
}

// Puts a new name and its span last. After want of memory both are unchanged.
fn put<'t>(
    names: &mut Names<'t>,
    spans: &mut Vec<Option<Span>>,
    name: &'t [u8],
    span: Option<Span>,
) -> Result<(), Memory>
    requires { has_word names.old name.now ≡ false }
    ensures names { OnOk result (names.new ≡ names.old ++ name.now ∷ []) }
    ensures spans { OnOk result (spans.new.items ≡ spans.old.items ++ span ∷ []) }
    ensures kept_names { OnErr result (names.new ≡ names.old) }
    ensures kept_spans { OnErr result (spans.new.items ≡ spans.old.items) }
{
    spans.push(span)?;
    if let Err(memory) = names.push(name) {
        spans.pop();
        return Err(memory);
    }
    Ok(())
}
