// Standard output as a sink.
ghost use Rattle.std.specs.Prelude.{◌≡◌, None};
ghost use Rattle.mx_base.specs.Sink.{sunk_of};

use mx_base::{Count, Failed, Sink};
use std::io::Print;

/// Standard output. It counts the writes that failed, and doesn't tell the bytes that it took.
#[derive(Drop)]
pub struct HostSink<R> {
    rt: R,
    faults: Count,
}

impl<R: Print + Drop> HostSink<R> {
    pub fn new(rt: R) -> HostSink<R>
        ensures { ⟦<HostSink<R> as Sink>⟧.known result ≡ sunk_of None 0 }
    {
        HostSink {
            rt,
            faults: Count::new(),
        }
    }
}

impl<R: Print + Drop> Sink for HostSink<R> {
    ghost use Rattle.std.specs.Prelude.{None};
    ghost use Rattle.mx_base.specs.Sink.{sunk_of};

    ghost known = { λ sink. sunk_of None sink.faults };

    /// It takes no memory.
    fn write(&mut self, piece: &[u8]) -> Result<(), Failed> {
        match self.rt.write_all(piece) {
            Ok(()) => Ok(()),
            Err(_) => {
                self.faults.raise();
                Err(Failed)
            }
        }
    }
}
