//! The real files and streams.

use cide_io::{HostRoom, Room, StdErrSink, StdOutSink, put_all, read_all};
use std::test::Fail;
use std::{env, fs};

#[test]
fn the_real_edge_reads_and_writes(rt: HostRuntime) -> Result<(), Fail> {
    let alloc = rt.alloc();
    let folder = env::temp_dir(&rt)?;
    let name = format!(in alloc; "{}/cide_reading_tests.fj", folder.as_path().display())?;
    let mut room = HostRoom::new(&rt);
    let mut written = false;
    if let Ok(mut sink) = room.open_out(name.as_str()) {
        written = put_all(&mut sink, b"class A extends Object { A() { super(); } }").is_ok();
        room.shut(sink);
    }
    let mut read = None;
    if let Ok(mut source) = room.open_in(name.as_str()) {
        read = read_all(alloc, &mut source, 100).ok();
        room.shut_in(source);
    }
    fs::remove_file(&rt, name.as_str())?;
    assert!(rt; written);
    assert!(rt;
        read.is_some_and(|bytes| bytes.as_slice()
            == b"class A extends Object { A() { super(); } }".as_slice())
    );
    let missing = match room.open_in("no/such/file") {
        Ok(source) => {
            room.shut_in(source);
            false
        }
        Err(_) => true,
    };
    assert!(rt; missing);
    Ok(())
}

#[test]
fn the_standard_outputs_take_bytes(rt: HostRuntime) {
    let mut out = StdOutSink::new(rt.stdout());
    let mut err = StdErrSink::new(rt.stderr());
    let put = put_all(&mut out, b"to the standard output\n").is_ok();
    let said = put_all(&mut err, b"to the standard error\n").is_ok();
    out.close();
    err.close();
    assert!(rt; put && said);
}
