use sn_io::{
    Failed, Files, FilesFault, Gate, MemFiles, MemSink, NullSink, OpenGate, Sink, StdFiles,
    StdSink, WriteFault, write_whole,
};
use std::alloc::Global;
use std::fs;
use std::process::Abort;

/// Whether the name is read, and has these bytes.
fn reads<F: Files>(files: &mut F, alloc: Global, name: &[u8], limit: u64, bytes: &[u8]) -> bool {
    match files.read(alloc, name, limit) {
        Ok(read) => read.as_slice() == bytes,
        Err(_) => false,
    }
}

/// Why the name is not read.
fn fault<F: Files>(files: &mut F, alloc: Global, name: &[u8], limit: u64) -> Option<FilesFault> {
    files.read(alloc, name, limit).err()
}

/// A name that was given bytes twice, and whose second read fails.
fn planned(rt: &impl Abort, alloc: Global) -> MemFiles {
    let mut files = MemFiles::new(alloc);
    files.add(b"twice", b"old").expect(rt, "memory");
    files.add(b"twice", b"four").expect(rt, "memory");
    files.fail_at(2).expect(rt, "memory");
    files
}

#[test]
fn files_do_as_planned(rt: HostRuntime) {
    let mut files = planned(&rt, rt.alloc());
    assert!(rt; reads(&mut files, rt.alloc(), b"twice", 4, b"four"));
    for (name, limit, wanted) in [
        (b"twice", 4, FilesFault::ReadFault),
        (b"twice", 3, FilesFault::TooLarge),
        (b"other", 4, FilesFault::ReadFault),
    ] {
        assert!(rt;
            fault(&mut files, rt.alloc(), name, limit) == Some(wanted),
            "{name:?} {limit}"
        );
    }
}

/// A sink with room for four bytes, whose fifth call fails.
fn failing(rt: &impl Abort, alloc: Global) -> MemSink {
    let mut sink = MemSink::new(alloc, 1);
    assert!(rt; sink.write(b"x") == Err(Failed), "nothing is reserved");
    sink.reserve(4).expect(rt, "memory");
    sink.fail_at(5).expect(rt, "memory");
    sink
}

#[test]
fn sinks_do_as_planned(rt: HostRuntime) {
    let mut sink = failing(&rt, rt.alloc());
    assert!(rt; write_whole(&mut sink, b"hello") == Err(WriteFault));
    assert!(rt; sink.held() == b"hel".as_slice());
    assert!(rt; write_whole(&mut sink, b"p") == Ok(()));
    assert!(rt; sink.held() == b"help".as_slice());
}

#[test]
fn other_sinks_and_gates_do_nothing(rt: HostRuntime) {
    assert!(rt; write_whole(&mut NullSink, b"gone") == Ok(()));
    OpenGate.enter(1);
    OpenGate.leave(1);
}

#[test]
fn std_files_reads_up_to_its_limit(rt: HostRuntime) {
    let name = "sn_io_std_files_test";
    fs::write(&rt, name, b"five!").expect(&rt, "the file is written");
    let mut files = StdFiles::new(&rt);
    let whole = reads(&mut files, rt.alloc(), name.as_bytes(), 5, b"five!");
    let large = fault(&mut files, rt.alloc(), name.as_bytes(), 4);
    fs::remove_file(&rt, name).expect(&rt, "the file is removed");
    assert!(rt; whole);
    assert!(rt; large == Some(FilesFault::TooLarge));
    for other in [name.as_bytes(), &[0xff]] {
        let missing = fault(&mut files, rt.alloc(), other, 5);
        assert!(rt; missing == Some(FilesFault::ReadFault), "{other:?}");
    }
}

#[test]
fn std_sink_passes_on(rt: HostRuntime) {
    let mut bytes = Vec::new(rt.alloc());
    assert!(rt; write_whole(&mut StdSink::new(&mut bytes), b"abc") == Ok(()));
    assert!(rt; bytes.as_slice() == b"abc".as_slice());
}

#[test]
fn std_sink_passes_on_what_there_is_room_for(rt: HostRuntime) {
    let mut two = [0u8; 2];
    assert!(rt; write_whole(&mut StdSink::new(&mut two[..]), b"abc") == Err(WriteFault));
    assert!(rt; two == *b"ab");
}
