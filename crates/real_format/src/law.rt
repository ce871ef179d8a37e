ghost use Rattle.format_parts.specs.Readings.{OneReading, SomeReading};
ghost use Rattle.real_format.specs.Compiled.{CompiledHasMeaning};
ghost use Rattle.real_format.specs.Converted.{ConvertedHasMeaning};
ghost use Rattle.real_format.specs.Faults.{IsTextFault};
ghost use Rattle.real_format.specs.Real.{FrontsGoOn, MeaningsAreFiles, OneMeaning, MeansFile};

/// The law of compiled files: the text of a circuit of narrow gates means, by the format's own
/// meaning, the file with those gates, whose lines have the given roles. The function does nothing:
/// its contract is the law.
pub fn compiled_meaning()
    ensures { CompiledHasMeaning }
{}

/// The law of converted files: the text of narrow gates on lines of any marks means, by the
/// format's own meaning, the file with those gates and marks, whose lines are named by their
/// numbers. The function does nothing: its contract is the law.
pub fn converted_meaning()
    ensures { ConvertedHasMeaning }
{}

/// The law of one meaning: a text means at most one file. The function does nothing: its contract
/// is the law.
pub fn one_meaning()
    ensures { OneMeaning }
{}

/// The law of one reading: each text means one file or has one fault, and never both. The function
/// does nothing: its contract is the law.
pub fn one_reading()
    ensures one { OneReading MeansFile IsTextFault }
    ensures some { SomeReading MeansFile IsTextFault }
{}

/// The law of files: what a text means has different names for its lines, a mark of each kind for
/// each line, and gates on its lines, all within the limits. The function does nothing: its
/// contract is the law.
pub fn meanings_are_files()
    ensures { MeaningsAreFiles }
{}

/// The law of fronts: lines that keep the rules begin a file, whatever they said, so no bad line
/// comes too late. The function does nothing: its contract is the law.
pub fn fronts_go_on()
    ensures { FrontsGoOn }
{}
