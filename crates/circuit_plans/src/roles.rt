// The roles of a plan's lines.
ghost use Rattle.std.specs.Prelude.{◌≡◌, ◌<◌, ◌≤◌};
ghost use Rattle.circuit_plans.specs.declared.plan.TheConstants.{MOST_LINES};
ghost use Rattle.circuit_plans.specs.Plans.{lines_in, role_at, number_at};

/// How many lines have each role. The input lines come first, then the output lines, the work
/// lines, which start at 0 and are left at 0, and the borrowed lines, which hold any bits and are
/// left unchanged.
#[derive(Clone, Copy)]
pub struct Roles {
    pub inputs: u32,
    pub outputs: u32,
    pub work: u32,
    pub borrowed: u32,
}

/// What the output lines may hold before the gates.
#[derive(Clone, Copy, PartialEq, Eq)]
pub enum Start {
    /// Any bits.
    Any,
    /// Zeros.
    Zero,
}

/// Where a circuit puts the outputs of its program.
#[derive(Clone, Copy, PartialEq, Eq)]
pub enum Placing {
    /// They are added to output lines, which may hold before the gates what the start lets them.
    Added(Start),
    /// They take the place of the inputs: the first ones on the input lines, and those beyond the
    /// number of inputs on output lines, which hold zeros before the gates.
    InPlace,
}

/// The role of a line.
#[derive(Clone, Copy)]
pub enum Role {
    Input,
    Output,
    Work,
    Borrowed,
}

impl Roles {
    /// The number of lines.
    pub fn lines(self) -> u32
        requires { lines_in self ≤ MOST_LINES }
        ensures { result ≡ lines_in self }
    {
        self.inputs + self.outputs + self.work + self.borrowed
    }

    /// The role of a line, and its number among the lines of that role, counted from 0.
    pub fn role_and_number(self, line: u32) -> (Role, u32)
        requires few { lines_in self ≤ MOST_LINES }
        requires in_range { line < lines_in self }
        ensures role { result.0 ≡ role_at self line }
        ensures number { result.1 ≡ number_at self line }
    {
        let outputs = self.inputs;
        let work = outputs + self.outputs;
        let borrowed = work + self.work;
        if line < outputs {
            (Role::Input, line)
        } else if line < work {
            (Role::Output, line - outputs)
        } else if line < borrowed {
            (Role::Work, line - work)
        } else {
            (Role::Borrowed, line - borrowed)
        }
    }
}
