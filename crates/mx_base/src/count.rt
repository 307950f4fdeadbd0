// Counts of faults.
ghost use Rattle.std.specs.Prelude.{◌≡◌, ◌==◌, true, nat_lt};
ghost use Rattle.mx_base.specs.Causes.{Counted};

use std::marker::Model;

/// How often something failed, up to 2^64 - 1, where the count stands still. Contracts see the number.
#[derive(Drop)]
pub struct Count {
    number: u64,
}

impl Model for Count {
    ghost use Rattle.std.specs.Prelude.{ℕ};

    ghost Value = { ℕ };

    ghost view = { λ count. count.number };
}

impl Count {
    /// A count of nothing.
    pub fn new() -> Count
        ensures { result ≡ 0 }
    {
        Count { number: 0 }
    }

    /// Whether nothing was counted.
    pub fn is_zero(&self) -> bool
        ensures { result ≡ (self.now == 0) }
    {
        self.number == 0
    }

    /// Counts one failure.
    pub fn raise(&mut self)
        ensures { Counted self.old self.new true }
    {
        self.number = self.number.saturating_add(1);
    }

    /// Counts one failure where another object, which comes back, has counted any.
    pub fn take_over(&mut self, other: &Count)
        ensures { Counted self.old self.new (nat_lt 0 other.now) }
    {
        if other.number > 0 {
            self.raise();
        }
    }
}
