ghost use Rattle.format_parts.specs.Readings.{OneReading, SomeReading};
ghost use Rattle.qasm_format.specs.Compiled.{CompiledHasMeaning};
ghost use Rattle.qasm_format.specs.Converted.{ConvertedHasMeaning};
ghost use Rattle.qasm_format.specs.Faults.{IsTextFault};
ghost use Rattle.qasm_format.specs.Qasm.{MeaningsAreFiles, MeansFile};
ghost use Rattle.qasm_format.specs.Sayings.{FilesAreStatements};

/// The law of compiled files: the text of a circuit of narrow gates means, by the format's own
/// meaning, the file with those gates on the registers of the given roles. The function does
/// nothing: its contract is the law.
pub fn compiled_meaning()
    ensures { CompiledHasMeaning }
{}

/// The law of converted files: the text of narrow gates on so many lines means, by the format's own
/// meaning, the file with those gates, whose lines are those of `q`, and of `dirty` where a line
/// was added. The function does nothing: its contract is the law.
pub fn converted_meaning()
    ensures { ConvertedHasMeaning }
{}

/// The law of one reading: each text means one file or has one fault, and never both. The function
/// does nothing: its contract is the law.
pub fn one_reading()
    ensures one { OneReading MeansFile IsTextFault }
    ensures some { SomeReading MeansFile IsTextFault }
{}

/// The law of files: what a text means has registers of different names, with 1 to 16,384 lines in
/// all, and at most 4,000,000 gates on these lines. The function does nothing: its contract is the
/// law.
pub fn meanings_are_files()
    ensures { MeaningsAreFiles }
{}

/// The law of statements: tokens lead from the head of a text to the end of a statement exactly
/// where they are the head and statements, each of which is read whole. The function does nothing:
/// its contract is the law.
pub fn files_are_statements()
    ensures { FilesAreStatements }
{}
