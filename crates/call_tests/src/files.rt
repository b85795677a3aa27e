//! Small files and pieces, each place and call failing in turn, and the system's own files and output.
use hol_types::{Bytes, FileName, List};
use smt_io::{
    DiskFiles, FailAt, LoadFault, MemFile, MemFiles, MemSink, Sink, StdSink, load, write_all,
};
use std::alloc::{AllocError, Global};
use std::fs;
use std::test::Fail;

fn name(alloc: Global, text: &str) -> Result<FileName, AllocError> {
    Ok(FileName::new(String::from_str(alloc, text)?))
}

// Two files of the name `f`, of which the first has `abc`, and a failing place in `f` and in another name.
fn small(alloc: Global, place: u64) -> Result<MemFiles, AllocError> {
    let first = MemFile {
        name: name(alloc, "f")?,
        bytes: Bytes::new(b"abc".to_vec(alloc)?),
    };
    let second = MemFile {
        name: name(alloc, "f")?,
        bytes: Bytes::new(b"xyz".to_vec(alloc)?),
    };
    let here = FailAt {
        name: name(alloc, "f")?,
        place,
    };
    let elsewhere = FailAt {
        name: name(alloc, "g")?,
        place: 0,
    };
    let mut files = Vec::new(alloc);
    files.push(first)?;
    files.push(second)?;
    let mut fails = Vec::new(alloc);
    fails.push(elsewhere)?;
    fails.push(here)?;
    Ok(MemFiles::new(List::new(files), List::new(fails)))
}

#[test]
fn loads(rt: HostRuntime) -> Result<(), Fail> {
    let alloc = rt.alloc();
    // The name, the failing place, the greatest length, and the bytes that come, or None.
    let rows: [(&str, u64, u64, Option<&str>); 11] = [
        ("f", 9, 2, Some("abc")),
        ("f", 9, 1, Some("ab")),
        ("f", 9, 0, Some("a")),
        ("f", 9, u64::MAX, Some("abc")),
        ("g", 9, 2, None),
        ("f", 0, 2, None),
        ("f", 1, 2, None),
        ("f", 2, 2, None),
        ("f", 3, 2, Some("abc")),
        ("f", 3, 3, None),
        ("f", 4, 3, Some("abc")),
    ];
    for (name, place, most, want) in rows {
        for short in [usize::MAX, 2, 1] {
            let mut files = small(alloc, place)?;
            files.short(short);
            match load(alloc, &mut files, name, most) {
                Ok(bytes) => assert_eq!(rt;
                    Some(bytes.as_slice()),
                    want.map(|text| text.as_bytes())
                ),
                Err(fault) => {
                    assert_eq!(rt; fault, LoadFault::Failed);
                    assert_eq!(rt; want, None, "{name} at {place}");
                }
            }
        }
    }
    Ok(())
}

#[test]
fn writes(rt: HostRuntime) -> Result<(), Fail> {
    let alloc = rt.alloc();
    // The room, the failing call, how much a call takes, whether a first `abc` is written whole, and what
    // stands there after it and a second.
    let rows: [(u64, u64, usize, bool, &str, &str); 6] = [
        (9, 0, 9, true, "abc", "abcabc"),
        (9, 0, 1, true, "abc", "abcabc"),
        (9, 2, 1, false, "a", "aabc"),
        (9, 1, 9, false, "", "abc"),
        (5, 0, 9, true, "abc", "abcab"),
        (2, 0, 9, false, "ab", "ab"),
    ];
    for (room, call, most, whole, first, second) in rows {
        let fails = List::new(vec![in alloc; call]?);
        let mut sink = MemSink::new(alloc, room, fails)?;
        sink.short(most);
        assert_eq!(rt; write_all(&mut sink, b"abc").is_ok(), whole, "{first}");
        assert_eq!(rt; sink.written(), first.as_bytes());
        let _ = write_all(&mut sink, b"abc");
        assert_eq!(rt; sink.written(), second.as_bytes());
        assert_eq!(rt; write_all(&mut sink, b""), Ok(()));
        assert_eq!(rt; sink.write(b""), Ok(0));
    }
    Ok(())
}

#[test]
fn reads_the_disk(rt: HostRuntime) -> Result<(), Fail> {
    let alloc = rt.alloc();
    fs::write(&rt, "reads_the_disk.txt", "abc")?;
    let mut files = DiskFiles::new(&rt);
    let loaded = load(alloc, &mut files, "reads_the_disk.txt", 100)?;
    assert_eq!(rt; loaded.as_slice(), b"abc".as_slice());
    let front = load(alloc, &mut files, "reads_the_disk.txt", 1)?;
    assert_eq!(rt; front.as_slice(), b"ab".as_slice());
    fs::remove_file(&rt, "reads_the_disk.txt")?;
    match load(alloc, &mut files, "reads_the_disk.txt", 100) {
        Ok(_) => assert!(rt; false, "the file is gone"),
        Err(fault) => assert_eq!(rt; fault, LoadFault::Failed),
    }
    Ok(())
}

#[test]
fn writes_a_line(rt: HostRuntime) -> Result<(), Fail> {
    write_all(&mut StdSink::new(&rt), b"a line\n")?;
    Ok(())
}
