ghost use Rattle.std.specs.Prelude.{◌≡◌, ◌↔◌, IsTrue};
ghost use Rattle.link_io.specs.Memory.{NextFails, after_call};

use crate::counts::Count;
use std::marker::Model;

/// The calls of an object in memory, of which those fail whose numbers, from 1, are in a list.
#[derive(Debug, Drop)]
pub struct Calls {
    made: Count,
    failing: Vec<u64>,
}

impl Model for Calls {
    ghost use Rattle.link_io.specs.Memory.{CallState};

    ghost Value = { CallState };

    ghost view = { λ calls. record { made = calls.made; failing = calls.failing.items } };
}

impl Calls {
    pub fn new(failing: Vec<u64>) -> Calls
        ensures { result ≡ record { made = 0; failing = failing.items } }
    {
        Calls {
            made: Count::new(),
            failing,
        }
    }

    /// Counts one more call, and answers whether it fails.
    pub fn next_fails(&mut self) -> bool
        ensures fails { IsTrue result ↔ NextFails self.old }
        ensures counted { self.new ≡ after_call self.old }
    {
        self.made.rise();
        self.failing.contains(&self.made.get())
    }
}
