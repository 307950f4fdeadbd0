// What a sink over standard output counts.

use mx_base::Sink;
use std::fmt::Display;
use std::io;
use std::io::{ErrorKind, Print};
use std::test::Fail;
use tree_host::HostSink;

#[derive(Drop)]
struct Closed;

impl Print for Closed {
    fn print<D: Display + Drop>(&self, _value: D) -> io::Result<()> {
        Err(ErrorKind::BrokenPipe.into())
    }

    fn println<D: Display + Drop>(&self, _value: D) -> io::Result<()> {
        Err(ErrorKind::BrokenPipe.into())
    }

    fn write_all(&self, _bytes: &[u8]) -> io::Result<()> {
        Err(ErrorKind::BrokenPipe.into())
    }
}

#[test]
fn a_sink_counts_what_it_could_not_write(rt: HostRuntime) -> Result<(), Fail> {
    let mut open = HostSink::new(rt);
    let written = open.write(b"written\n");
    let mut closed = HostSink::new(Closed);
    let lost = closed.write(b"lost");
    if written.is_err() || lost.is_ok() {
        return Err(Fail::new("another count"));
    }
    Ok(())
}
