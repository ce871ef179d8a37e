// A source parted into a program and a circuit.
ghost use Rattle.std.specs.Prelude.{◌↔◌, IsTrue, MatchOption};
ghost use Rattle.verify_command.specs.Parting.{HasNoPart, IsMark, IsParted, SourcesPartInOneWay};

/// The law of parting: a source that is parted has one program and one circuit, and one that has no
/// parting line has none. The call does nothing.
pub fn sources_part_in_one_way()
    ensures { SourcesPartInOneWay }
{}

/// The program and the circuit of a source, which part at the first line that is `---`, with or
/// without a carriage return before its line feed. A last line without a line feed parts nothing.
/// It takes no memory.
pub fn part(source: &[u8]) -> Option<(&[u8], &[u8])>
    ensures { MatchOption result (HasNoPart source.now)
        (λ parts. IsParted source.now parts.0.now parts.1.now) }
{
    let mut start = 0;
    for (place, byte) in source.iter().enumerate() {
        if *byte == b'\n' {
            if is_mark(&source[start..place]) {
                return Some((&source[..start], &source[place + 1..]));
            }
            start = place + 1;
        }
    }
    None
}

// Whether a line parts, without the line feed that ends it.
fn is_mark(line: &[u8]) -> bool
    ensures { IsTrue result ↔ IsMark line.now }
{
    line == b"---".as_slice() || line == b"---\r".as_slice()
}
