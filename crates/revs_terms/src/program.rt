// Programs, as the grammar gives them.
ghost use Rattle.revs_terms.specs.Programs.{AreParams, IsBody, HasFewNames};
ghost use Rattle.revs_terms.specs.Runs.{SameForAll, RunsLeaveTapes, RunsWriteFew, HasOutputs, OneTape};
ghost use Rattle.revs_terms.specs.Runs.{TapeGivesOutput};
ghost use Rattle.revs_terms.specs.Trees.{tree_of};

use crate::{Name, Term};

/// A parameter of a program: a bit, or a register of `width` bits.
#[derive(Drop)]
pub struct Param {
    pub name: Name,
    pub width: Option<u32>,
}

/// A program: its parameters and its body.
///
/// It keeps what a sentence within limits gives: widths of at least 1 that add up to at most 1,024,
/// a body of well-formed terms with at most 100 levels, and fewer than 2^32 names.
#[derive(Drop)]
pub struct Program {
    pub params: Vec<Param>,
    pub body: Term,

    ghost inputs: { AreParams params.items },
    ghost formed: { IsBody (tree_of body) },
    ghost few_names: { HasFewNames params.items (tree_of body) },
}

/// The run of a program is the same for every input but for its bits: it is stuck for all at the
/// same place and for the same reason, or it leaves one tape, whose references have on each input
/// the bits that the run met there.
pub fn same_for_all()
    ensures { SameForAll }
{}

/// What a run without bits leaves is a tape: each reference is an input or an earlier write, and
/// the limits of a tape hold. It has no more writes than a run may have.
pub fn leaves_tape()
    ensures tape { RunsLeaveTapes }
    ensures few { RunsWriteFew }
{}

/// A program whose run ends has an output: no register of a run is empty.
pub fn has_outputs()
    ensures { HasOutputs }
{}

/// A program whose run ends on every input has exactly one tape, and the output of its run on an
/// input is that of the tape.
pub fn one_tape()
    ensures one { OneTape }
    ensures output { TapeGivesOutput }
{}
