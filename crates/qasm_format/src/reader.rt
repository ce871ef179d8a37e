// The reader of OpenQASM texts: one token after another.
ghost use Rattle.std.specs.Prelude.{◌≡◌, ℕ, ◌+◌, ◌<◌, ◌≤◌, ◌^◌, ◌∷◌, [], ◌++◌, true};
ghost use Rattle.std.specs.Prelude.{false, length, OnOk, IfOk, IfErr, IsErrOf};
ghost use Rattle.std.specs.List.{AllByRecursion};
ghost use Rattle.circuit_plans.specs.declared.plan.TheConstants.{MOST_LINES, MOST_GATES};
ghost use Rattle.mct_circuit.specs.Gates.{HasDifferentLines, AreGatesOn};
ghost use Rattle.qasm_format.specs.Registers.{lines_of_all};
ghost use Rattle.qasm_format.specs.Stages.{starts, wants_library, wants_name, wants_argument, head};
ghost use Rattle.qasm_format.specs.Stages.{nothing_said, HasRoom, gate_at};
ghost use Rattle.qasm_format.specs.Qasm.{MeansFile, Reads};
ghost use Rattle.qasm_format.specs.Faults.{IsStop, IsQasmFault};
ghost use Rattle.qasm_format.specs.inside.Spread.{AreAllDifferent, ArePushed, controls_at};
ghost use Rattle.qasm_format.specs.inside.Says.{ReadsWord, StopsAtWord, TakesName, IsNameFault};
ghost use Rattle.qasm_format.specs.inside.Says.{TakesNumber, IsNumberFault, IsUnfit, ReadsWords};
ghost use Rattle.qasm_format.specs.inside.Says.{StopsAtWords, ReadsSize, StopsAtSize};
ghost use Rattle.qasm_format.specs.inside.Says.{ReadsArgument, StopsAtArgument, ReadsIndex};
ghost use Rattle.qasm_format.specs.inside.Says.{StopsAtIndex, ReadsBarrier, StopsAtBarrier};
ghost use Rattle.qasm_format.specs.inside.Says.{PushesSpot, ReadsSpots, StopsAtSpots, IsFirst};
ghost use Rattle.qasm_format.specs.inside.Says.{said_of, IsSound, GoesOn, AddsGates, IsGateFault};
ghost use Rattle.qasm_format.specs.inside.Says.{SpotBelow, ReadsBehind, StopsBehind};

use crate::file::{QasmFault, QasmFile};
use crate::names::{Declared, Span};
use crate::said::Said;
use crate::spots::{Spot, all_different, count_of};
use crate::words::{RegisterKind, Use, is_free, is_include, is_word, kind_of, use_of};
use circuit_plans::{MOST_GATES, MOST_LINES};
use mct_circuit::{Circuit, Control, Gate, GateFault, Op};
use qasm_lexer::{MOST_DIGITS, Token, Tokens, is_identifier, is_number};
use revc_base::limits::MOST_NAME_BYTES;
use revc_base::{Memory, Place};
use std::alloc::Global;
use text_places::number;

/// Reads an OpenQASM text: the file that it means, or exactly the first token that breaks a rule or
/// passes a limit, or want of memory. It takes one token after another. The format is that of
/// OpenQASM (Cross, Bishop, Smolin, Gambetta: Open Quantum Assembly Language, 2017,
/// arXiv:1707.03429).
pub fn read(alloc: Global, bytes: &[u8]) -> Result<QasmFile, QasmFault>
    requires { length bytes.now + 1 < 2 ^ 32 }
    ensures ok { IfOk result (MeansFile bytes.now) }
    ensures err { IfErr result (IsQasmFault bytes.now) }
{
    let mut said = Said::new(alloc);
    read_text(alloc, &mut said, bytes)
}

// The file that a text says, where nothing was said before.
fn read_text<'t>(alloc: Global, said: &mut Said<'t>, bytes: &'t [u8]) -> Result<QasmFile, QasmFault>
    requires few { length bytes.now + 1 < 2 ^ 32 }
    requires first { IsFirst said.old }
    ensures ok { IfOk result (MeansFile bytes.now) }
    ensures err { IfErr result (IsQasmFault bytes.now) }
{
    let mut tokens = Tokens::new(bytes);
    read_head(&mut tokens)?;
    'statements: while read_statement(alloc, said, &mut tokens)? {}
    file_of(alloc, said)
}

fn file_of(alloc: Global, said: &mut Said) -> Result<QasmFile, QasmFault>
    requires { IsSound said.old }
    ensures ok { IfOk result (λ file. file ≡ record {
      registers = said.old.declared.registers;
      gates = said.old.gates.items;
    }) }
    ensures err { IfErr result (λ fault. fault ≡ QasmFault.Memory _) }
{
    let registers = said.declared.copies(alloc)?;
    let circuit = circuit_of(alloc, said.declared.lines(), &mut said.gates)?;
    Ok(QasmFile::new(registers, circuit))
}

// The circuit of these gates, which are taken out. There is room, so only memory can be wanting.
fn circuit_of(alloc: Global, lines: u32, gates: &mut Vec<Gate>) -> Result<Circuit, Memory>
    requires placed { AreGatesOn lines gates.old.items }
    requires few { length gates.old.items ≤ MOST_GATES }
    ensures lines { IfOk result (λ circuit. circuit.lines ≡ lines) }
    ensures limit { IfOk result (λ circuit. circuit.limit ≡ MOST_GATES) }
    ensures gates { IfOk result (λ circuit. circuit.gates ≡ gates.old.items) }
{
    let mut circuit = Circuit::new(alloc, lines, MOST_GATES);
    match circuit.append(gates) {
        Ok(()) => Ok(circuit),
        Err(GateFault::Memory(memory)) => Err(memory),
        Err(GateFault::Full) => unreachable!(),
    }
}

// ---- words that are wanted

// The word that is wanted next.
fn take_word(tokens: &mut Tokens, wanted: &[u8]) -> Result<(), QasmFault>
    requires { 0 < length wanted.now }
    ensures ok { OnOk result (ReadsWord tokens.old tokens.new wanted.now) }
    ensures err { IfErr result (StopsAtWord tokens.old wanted.now) }
    ensures exact { ¬ IsErrOf result (QasmFault.Memory _) }
{
    let token = tokens.next();
    if !is_word(token.word, wanted) {
        return Err(QasmFault::Token { at: token.at });
    }
    Ok(())
}

// Two words that are wanted next.
fn take_words(tokens: &mut Tokens, one: &[u8], other: &[u8]) -> Result<(), QasmFault>
    requires one { 0 < length one.now }
    requires other { 0 < length other.now }
    ensures ok { OnOk result (ReadsWords tokens.old tokens.new one.now other.now) }
    ensures err { IfErr result (StopsAtWords tokens.old one.now other.now) }
    ensures exact { ¬ IsErrOf result (QasmFault.Memory _) }
{
    take_word(tokens, one)?;
    take_word(tokens, other)
}

// An identifier of at most 64 bytes.
fn take_name<'t>(tokens: &mut Tokens<'t>) -> Result<Token<'t>, QasmFault>
    ensures ok { IfOk result (λ token.
        TakesName tokens.old tokens.new token.word.now token.at) }
    ensures err { IfErr result (IsNameFault tokens.old) }
    ensures exact { ¬ IsErrOf result (QasmFault.Memory _) }
{
    let token = tokens.next();
    let word = token.word;
    admit(token.at, is_identifier(word), word.len(), MOST_NAME_BYTES)?;
    Ok(token)
}

// A number of at most 9 digits, and its place.
fn take_number(tokens: &mut Tokens) -> Result<(u32, Place), QasmFault>
    ensures ok { IfOk result (λ found. TakesNumber tokens.old tokens.new found.0 found.1) }
    ensures err { IfErr result (IsNumberFault tokens.old) }
    ensures exact { ¬ IsErrOf result (QasmFault.Memory _) }
{
    let token = tokens.next();
    let word = token.word;
    admit(token.at, is_number(word), word.len(), MOST_DIGITS)?;
    Ok((number(word), token.at))
}

// A token of the wanted kind, of at most so many bytes.
fn admit(at: Place, is_kind: bool, len: usize, most: usize) -> Result<(), QasmFault>
    ensures ok { OnOk result ((is_kind ≡ true) × (len ≤ most)) }
    ensures err { IfErr result (IsUnfit at is_kind len most) }
{
    if !is_kind {
        return Err(QasmFault::Token { at });
    }
    if len > most {
        return Err(QasmFault::Limit { at });
    }
    Ok(())
}

fn read_head(tokens: &mut Tokens) -> Result<(), QasmFault>
    ensures ok { OnOk result (Reads tokens.old tokens.new head (starts nothing_said)) }
    ensures err { IfErr result (IsStop tokens.old head) }
    ensures exact { ¬ IsErrOf result (QasmFault.Memory _) }
{
    take_word(tokens, b"OPENQASM")?;
    take_words(tokens, b"2.0", b";")
}

// ---- statements

// The next statement, and whether there is one.
fn read_statement<'t>(
    alloc: Global,
    said: &mut Said<'t>,
    tokens: &mut Tokens<'t>,
) -> Result<bool, QasmFault>
    requires { IsSound said.old }
    ensures ok { IfOk result (λ more. GoesOn more tokens.old tokens.new said.old said.new) }
    ensures sound { OnOk result (IsSound said.new) }
    ensures err { IfErr result (IsStop tokens.old (starts (said_of said.old))) }
{
    let token = tokens.next();
    if token.word.is_empty() {
        return end_of(said, token.at);
    }
    read_behind(alloc, said, tokens, token)?;
    Ok(true)
}

// At the end of the text: no statement, where there is a line.
fn end_of(said: &Said, at: Place) -> Result<bool, QasmFault>
    ensures ok { IfOk result (λ more. (more ≡ false)
        × (1 ≤ lines_of_all said.now.declared.registers)) }
    ensures err { IfErr result (λ fault. (fault ≡ QasmFault.Token at)
        × (lines_of_all said.now.declared.registers ≡ 0)) }
    ensures exact { ¬ IsErrOf result (QasmFault.Memory _) }
{
    if said.declared.lines() == 0 {
        return Err(QasmFault::Token { at });
    }
    Ok(false)
}

// A statement behind its first word.
fn read_behind<'t>(
    alloc: Global,
    said: &mut Said<'t>,
    tokens: &mut Tokens<'t>,
    token: Token<'t>,
) -> Result<(), QasmFault>
    requires { IsSound said.old }
    ensures ok { OnOk result (ReadsBehind tokens.old tokens.new token.entry.word.now
        (said_of said.old) (said_of said.new)) }
    ensures sound { OnOk result (IsSound said.new) }
    ensures err { IfErr result (StopsBehind tokens.old token.entry.word.now token.entry.at
        (said_of said.old)) }
{
    if is_include(token.word, said.included) {
        return read_include(said, tokens);
    }
    if let Some(kind) = kind_of(token.word) {
        return read_declaration(said, tokens, kind);
    }
    match use_of(token.word, said.included) {
        Some(Use::Barrier) => read_barrier(&said.declared, tokens),
        Some(Use::Flip(controls)) => read_gate(alloc, said, tokens, controls),
        None => Err(QasmFault::Token { at: token.at }),
    }
}

fn read_include<'t>(said: &mut Said<'t>, tokens: &mut Tokens<'t>) -> Result<(), QasmFault>
    requires { IsSound said.old }
    ensures ok { OnOk result (Reads tokens.old tokens.new
        (wants_library (said_of said.old)) (starts (said_of said.new))) }
    ensures sound { OnOk result (IsSound said.new) }
    ensures err { IfErr result (IsStop tokens.old (wants_library (said_of said.old))) }
{
    take_words(tokens, b"\"qelib1.inc\"", b";")?;
    said.included = true;
    Ok(())
}

fn read_declaration<'t>(
    said: &mut Said<'t>,
    tokens: &mut Tokens<'t>,
    kind: RegisterKind,
) -> Result<(), QasmFault>
    requires { IsSound said.old }
    ensures ok { OnOk result (Reads tokens.old tokens.new
        (wants_name kind (said_of said.old)) (starts (said_of said.new))) }
    ensures sound { OnOk result (IsSound said.new) }
    ensures err { IfErr result (IsStop tokens.old (wants_name kind (said_of said.old))) }
{
    let name = take_name(tokens)?;
    if !is_free(name.word) {
        return Err(QasmFault::Token { at: name.at });
    }
    if said.declared.has(name.word) {
        return Err(QasmFault::Token { at: name.at });
    }
    let size = take_size(tokens, kind, said.declared.lines())?;
    said.declared.push(kind, name.word, size)?;
    Ok(())
}

// A size in square brackets, and the end of the statement.
fn take_size(tokens: &mut Tokens, kind: RegisterKind, lines: u32) -> Result<u32, QasmFault>
    requires { lines ≤ MOST_LINES }
    ensures ok { IfOk result (ReadsSize tokens.old tokens.new kind lines) }
    ensures err { IfErr result (StopsAtSize tokens.old kind lines) }
    ensures exact { ¬ IsErrOf result (QasmFault.Memory _) }
{
    take_word(tokens, b"[")?;
    let (size, at) = take_number(tokens)?;
    if size == 0 {
        return Err(QasmFault::Token { at });
    }
    if is_full(kind, size, lines) {
        return Err(QasmFault::Limit { at });
    }
    take_words(tokens, b"]", b";")?;
    Ok(size)
}

// Whether the lines pass their limit with a register of this size.
fn is_full(kind: RegisterKind, size: u32, lines: u32) -> bool
    requires { lines ≤ MOST_LINES }
    ensures room { result ≡ false → HasRoom kind size lines }
    ensures full { result ≡ true → (kind ≡ RegisterKind.Qubits) × (MOST_LINES < lines + size) }
{
    match kind {
        RegisterKind::Qubits => size > MOST_LINES - lines,
        RegisterKind::Bits => false,
    }
}

// ---- arguments

// An argument, and the token behind it.
fn read_argument<'t>(
    declared: &Declared<'t>,
    tokens: &mut Tokens<'t>,
) -> Result<(Spot, Token<'t>), QasmFault>
    ensures ok { IfOk result (λ read. ReadsArgument tokens.old tokens.new declared.now.registers
        read.0 read.1.word.now read.1.at) }
    ensures err { IfErr result (StopsAtArgument tokens.old declared.now.registers) }
    ensures exact { ¬ IsErrOf result (QasmFault.Memory _) }
{
    let name = take_name(tokens)?;
    let Some(span) = declared.find(name.word) else {
        return Err(QasmFault::Token { at: name.at });
    };
    let behind = tokens.next();
    if is_word(behind.word, b"[") {
        return read_index(tokens, span);
    }
    Ok((Spot::Whole(span.first, span.size), behind))
}

// The line of an index behind its bracket, and the token behind the argument.
fn read_index<'t>(tokens: &mut Tokens<'t>, span: Span) -> Result<(Spot, Token<'t>), QasmFault>
    requires { span.first + span.size ≤ MOST_LINES }
    ensures ok { IfOk result (λ read. ReadsIndex tokens.old tokens.new span.first span.size
        read.0 read.1.word.now read.1.at) }
    ensures err { IfErr result (StopsAtIndex tokens.old span.first span.size) }
    ensures exact { ¬ IsErrOf result (QasmFault.Memory _) }
{
    let (index, at) = take_number(tokens)?;
    if index >= span.size {
        return Err(QasmFault::Token { at });
    }
    take_word(tokens, b"]")?;
    Ok((Spot::Line(span.first + index), tokens.next()))
}

fn read_barrier<'t>(declared: &Declared<'t>, tokens: &mut Tokens<'t>) -> Result<(), QasmFault>
    ensures ok { OnOk result (ReadsBarrier tokens.old tokens.new declared.now.registers) }
    ensures err { IfErr result (StopsAtBarrier tokens.old declared.now.registers) }
    ensures exact { ¬ IsErrOf result (QasmFault.Memory _) }
{
    'arguments: loop {
        let (_, behind) = read_argument(declared, tokens)?;
        if is_word(behind.word, b";") {
            return Ok(());
        }
        if !is_word(behind.word, b",") {
            return Err(QasmFault::Token { at: behind.at });
        }
    }
}

// So many controls and the target.
fn read_gate<'t>(
    alloc: Global,
    said: &mut Said<'t>,
    tokens: &mut Tokens<'t>,
    controls: u32,
) -> Result<(), QasmFault>
    requires few { controls ≤ 2 }
    requires sound { IsSound said.old }
    ensures ok { OnOk result (Reads tokens.old tokens.new
        (wants_argument (Use.Flip controls) [] (said_of said.old)) (starts (said_of said.new))) }
    ensures sound { OnOk result (IsSound said.new) }
    ensures err { IfErr result (IsStop tokens.old
        (wants_argument (Use.Flip controls) [] (said_of said.old))) }
{
    let mut spots = Vec::new(alloc);
    let end = read_spots(&said.declared, tokens, controls, &mut spots)?;
    add_gates(alloc, &mut said.gates, &spots, end)
}

// Puts so many controls and the target behind no other arguments; the place where they end.
fn read_spots<'t>(
    declared: &Declared<'t>,
    tokens: &mut Tokens<'t>,
    controls: u32,
    spots: &mut Vec<Spot>,
) -> Result<Place, QasmFault>
    requires few { controls ≤ 2 }
    requires none { spots.old.items ≡ [] }
    ensures ok { IfOk result
        (ReadsSpots tokens.old tokens.new declared.now.registers controls spots.new.items) }
    ensures err { IfErr result (StopsAtSpots tokens.old declared.now.registers controls) }
{
    // This call says that the lines are within their limit.
    let _ = declared.lines();
    for _k in 0..controls {
        let comma = push_spot(declared, tokens, spots)?;
        if !is_word(comma.word, b",") {
            return Err(QasmFault::Token { at: comma.at });
        }
    }
    let end = push_spot(declared, tokens, spots)?;
    if !is_word(end.word, b";") {
        return Err(QasmFault::Token { at: end.at });
    }
    Ok(end.at)
}

// Puts an argument behind the others; the token behind it.
fn push_spot<'t>(
    declared: &Declared<'t>,
    tokens: &mut Tokens<'t>,
    spots: &mut Vec<Spot>,
) -> Result<Token<'t>, QasmFault>
    ensures ok { IfOk result (λ behind. PushesSpot tokens.old tokens.new declared.now.registers
        spots.old.items spots.new.items behind.word.now behind.at) }
    ensures err { IfErr result (StopsAtArgument tokens.old declared.now.registers) }
{
    let (spot, behind) = read_argument(declared, tokens)?;
    spots.push(spot)?;
    Ok(behind)
}

// ---- gates

// The gates that arguments stand for, which end at a place.
fn add_gates(
    alloc: Global,
    gates: &mut Vec<Gate>,
    spots: &[Spot],
    at: Place,
) -> Result<(), QasmFault>
    requires some { 1 ≤ length spots.now }
    requires below { AllByRecursion (SpotBelow MOST_LINES) spots.now }
    ensures ok { OnOk result (AddsGates spots.now gates.old.items gates.new.items) }
    ensures err { IfErr result (IsGateFault at spots.now gates.old.items) }
{
    let Some(count) = count_of(spots) else {
        return Err(QasmFault::Token { at });
    };
    if !all_different(spots, count) {
        return Err(QasmFault::Token { at });
    }
    if gates.len() as u64 + u64::from(count) > MOST_GATES {
        return Err(QasmFault::Limit { at });
    }
    Ok(push_gates(alloc, gates, spots, count)?)
}

// So many gates of these arguments.
fn push_gates(
    alloc: Global,
    gates: &mut Vec<Gate>,
    spots: &[Spot],
    count: u32,
) -> Result<(), Memory>
    requires below { AllByRecursion (SpotBelow MOST_LINES) spots.now }
    requires few { count ≤ MOST_LINES }
    requires different { AreAllDifferent spots.now count }
    ensures { OnOk result (ArePushed spots.now count gates.old.items gates.new.items) }
{
    let Some((target, controls)) = spots.split_last() else {
        return Ok(());
    };
    for i in 0..count {
        gates.push(gate_at(alloc, controls, *target, i)?)?;
    }
    Ok(())
}

// The i-th gate of arguments.
fn gate_at(alloc: Global, spots: &[Spot], target: Spot, i: u32) -> Result<Gate, Memory>
    requires below { AllByRecursion (SpotBelow MOST_LINES) spots.now }
    requires target { SpotBelow MOST_LINES target }
    requires few { i ≤ MOST_LINES }
    requires different { HasDifferentLines (gate_at spots.now target i) }
    ensures { IfOk result (λ gate. gate ≡ gate_at spots.now target i) }
{
    let controls = controls_at(alloc, spots, i)?;
    Ok(Gate::new(controls, Op::Flip(target.line_at(i))))
}

fn controls_at(alloc: Global, spots: &[Spot], i: u32) -> Result<Vec<Control>, Memory>
    requires below { AllByRecursion (SpotBelow MOST_LINES) spots.now }
    requires few { i ≤ MOST_LINES }
    ensures { IfOk result (λ controls. controls.items ≡ controls_at spots.now i) }
{
    let mut controls = Vec::with_capacity(alloc, spots.len())?;
    for spot in spots {
        controls.push(Control {
            line: spot.line_at(i),
            positive: true,
        })?;
    }
    Ok(controls)
}
