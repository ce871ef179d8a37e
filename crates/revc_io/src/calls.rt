ghost use Rattle.std.specs.Prelude.{◌≡◌, ◌↔◌, ◌≤◌, IsTrue};
ghost use Rattle.revc_io.specs.Faults.{raised};
ghost use Rattle.revc_io.specs.Memory.{FailsNext, counted, CallsView};

use std::marker::Model;

/// The calls of a source or a sink in memory, counted from 1 to 2^64 - 1; a later call has no
/// number. Contracts see the numbers of the calls that fail, how many calls there were, and the
/// count of faults.
#[derive(Drop)]
pub struct Calls {
    failing: Vec<u64>,
    made: u64,
    faults: u64,
}

impl Model for Calls {
    ghost Value = { CallsView };

    ghost view = { λ c. record {
      failing = c.failing.items;
      made = c.made;
      faults = c.faults;
    } };
}

impl Calls {
    /// No call so far.
    pub fn new(failing: Vec<u64>) -> Calls
        ensures { result ≡ record {
          failing = failing.items;
          made = 0;
          faults = 0;
        } }
    {
        Calls {
            failing,
            made: 0,
            faults: 0,
        }
    }

    /// Counts a call, and says whether it is one that fails.
    pub fn fails_now(&mut self) -> bool
        ensures fails { IsTrue result ↔ FailsNext self.old }
        ensures after { self.new ≡ counted self.old }
    {
        match self.made.checked_add(1) {
            Some(number) => {
                self.made = number;
                self.failing.contains(&number)
            }
            None => false,
        }
    }

    /// Counts a fault.
    pub fn fail(&mut self)
        ensures after { self.new ≡ record self.old { faults = raised self.old.faults } }
        ensures later { self.old.faults ≤ self.new.faults }
    {
        self.faults = self.faults.saturating_add(1);
    }
}
