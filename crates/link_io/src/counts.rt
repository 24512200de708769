ghost use Rattle.std.specs.Prelude.{◌≡◌, ◌≤◌};
ghost use Rattle.link_io.specs.Counts.{next};

use std::marker::Model;

/// A number that only rises, and stands still at its greatest value.
#[derive(Clone, Copy, Debug)]
pub struct Count {
    number: u64,
}

impl Model for Count {
    ghost use Rattle.std.specs.Prelude.{ℕ};

    ghost Value = { ℕ };

    ghost view = { λ count. count.number };

    ghost inverse = { λ number. record { number = number } };
}

impl Count {
    pub fn new() -> Count
        ensures { result ≡ 0 }
    {
        Count { number: 0 }
    }

    pub fn get(&self) -> u64
        ensures { result ≡ self.now }
    {
        self.number
    }

    pub fn rise(&mut self)
        ensures one_more { self.new ≡ next self.old }
        ensures grows { self.old ≤ self.new }
    {
        self.number = self.number.saturating_add(1);
    }
}
