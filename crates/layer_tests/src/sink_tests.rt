// Sinks in memory, and paths seen from a folder.

use crate::given::path;
use mx_base::{Bytes, MemSink, NullSink, Sink};
use std::test::Fail;

#[test]
fn a_sink_fails_at_the_calls_of_its_list(rt: HostRuntime) -> Result<(), Fail> {
    let alloc = rt.alloc();
    let mut sink = MemSink::new(alloc, vec![in alloc; 2]?);
    assert!(rt; sink.write(b"a").is_ok());
    assert!(rt; sink.write(b"b").is_err());
    assert!(rt; sink.write(b"c").is_ok());
    assert_eq!(rt; sink.as_slice(), b"ac".as_slice());
    Ok(())
}

#[test]
fn a_sink_that_drops_all_takes_all(rt: HostRuntime) -> Result<(), Fail> {
    assert!(rt; NullSink.write(b"a").is_ok());
    let bytes = Bytes::from_slice(rt.alloc(), b"a")?;
    assert_eq!(rt; bytes.as_slice(), b"a".as_slice());
    Ok(())
}

#[test]
fn a_child_is_a_name_below_its_folder(rt: HostRuntime) -> Result<(), Fail> {
    let alloc = rt.alloc();
    let file = path(alloc, "libs/a")?.child(alloc, "lib.ex")?;
    assert_eq!(rt; file.as_str(), "libs/a/lib.ex");
    Ok(())
}

#[test]
fn a_path_is_seen_from_a_folder(rt: HostRuntime) -> Result<(), Fail> {
    let alloc = rt.alloc();
    let file = path(alloc, "libs/a/lib.ex")?;
    let rest = file.from_folder(alloc, &path(alloc, "libs/a")?)?;
    assert_eq!(rt; rest.as_ref().map(|path| path.as_str()), Some("lib.ex"));
    Ok(())
}

#[test]
fn a_longer_name_is_not_below(rt: HostRuntime) -> Result<(), Fail> {
    let alloc = rt.alloc();
    assert!(rt; !path(alloc, "libs/ab")?.is_below(&path(alloc, "libs/a")?));
    Ok(())
}

#[test]
fn a_path_has_segments(rt: HostRuntime) -> Result<(), Fail> {
    let alloc = rt.alloc();
    let file = path(alloc, "libs/a/lib.ex")?;
    assert_eq!(rt;
        file.segments(alloc)?.as_slice(),
        ["libs", "a", "lib.ex"].as_slice()
    );
    Ok(())
}
