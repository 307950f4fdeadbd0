// The stream of numbers.
ghost use Rattle.std.specs.Prelude.{◌≡◌, ◌<◌, ◌^◌};
ghost use Rattle.unit_gen.specs.Stream.{draw_at, step};

use std::marker::Model;

/// The numbers that a project is drawn from. Contracts see the one that it has come to.
#[derive(Drop)]
pub(crate) struct Stream {
    number: u64,
}

impl Model for Stream {
    ghost use Rattle.std.specs.Prelude.{ℕ, ◌<◌, ◌^◌};

    ghost Value = { ℕ };

    ghost view = { λ stream. stream.number };

    ghost invariant = { λ stream. stream.number < 2 ^ 31 };
}

impl Stream {
    pub(crate) fn new(start: u32) -> Stream
        requires { start < 2 ^ 31 }
        ensures { result ≡ start }
    {
        Stream {
            number: start as u64,
        }
    }

    /// One step on, without the lowest 16 bits.
    pub(crate) fn draw(&mut self) -> u32
        ensures drawn { result ≡ draw_at self.old 0 }
        ensures on { self.new ≡ step self.old }
    {
        self.number = (self.number * 1_103_515_245 + 12_345) % 0x8000_0000;
        (self.number / 65_536) as u32
    }
}
