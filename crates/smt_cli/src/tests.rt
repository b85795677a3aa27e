//! Whole runs over files and a sink in memory: each answer, and each place at which a read or a write can fail.
use crate::program::smt;
use hol_types::{Bytes, FileName, List};
use smt_io::{FailAt, MemFile, MemFiles, MemSink};
use std::alloc::{AllocError, Global};
use std::test::Fail;

// `q` from `p` and `(=> p q)`.
const GOAL: &str = "(const p Bool)(const q Bool)(fact p)(fact (=> p q))(goal q)";

// Its proof.
const PROOF: &str =
    "(proof (unit-resolution (mp (asserted p$) (asserted (=> p$ q$)) q$) (asserted (not q$)) false))";

const USAGE: &str =
    "usage: smt print GOAL | smt check [--workers N] [--net on|off] [--stats] GOAL PROOF\n";

fn name(alloc: Global, text: &str) -> Result<FileName, AllocError> {
    Ok(FileName::new(String::from_str(alloc, text)?))
}

fn file(alloc: Global, called: &str, text: &str) -> Result<MemFile, AllocError> {
    Ok(MemFile {
        name: name(alloc, called)?,
        bytes: Bytes::new(text.as_bytes().to_vec(alloc)?),
    })
}

// Two files, `goal` and `proof`, in which no read fails.
fn whole(alloc: Global, goal: &str, proof: &str) -> Result<MemFiles, AllocError> {
    let mut files = Vec::new(alloc);
    files.push(file(alloc, "goal", goal)?)?;
    files.push(file(alloc, "proof", proof)?)?;
    Ok(MemFiles::new(List::new(files), List::new(Vec::new(alloc))))
}

// The goal and its proof, with a failing place in one of them.
fn failing(alloc: Global, called: &str, place: u64) -> Result<MemFiles, AllocError> {
    let mut files = Vec::new(alloc);
    files.push(file(alloc, "goal", GOAL)?)?;
    files.push(file(alloc, "proof", PROOF)?)?;
    let mut fails = Vec::new(alloc);
    fails.push(FailAt {
        name: name(alloc, called)?,
        place,
    })?;
    Ok(MemFiles::new(List::new(files), List::new(fails)))
}

// A sink with room for `room` bytes, in which this call fails; the first is number 1.
fn sink(alloc: Global, room: u64, call: u64) -> Result<MemSink, AllocError> {
    MemSink::new(alloc, room, List::new(vec![in alloc; call]?))
}

// The words of a text, which blanks separate.
fn words(alloc: Global, text: &str) -> Result<Vec<String>, AllocError> {
    let mut words = Vec::new(alloc);
    for word in text.split(' ') {
        words.push(String::from_str(alloc, word)?)?;
    }
    Ok(words)
}

#[test]
fn answers(rt: HostRuntime) -> Result<(), Fail> {
    let alloc = rt.alloc();
    // The words, the goal file, the proof file, the status, and what is printed.
    let rows: [(&str, &str, &str, u8, &str); 17] = [
        ("check goal proof", GOAL, PROOF, 0, "proved q\n"),
        (
            "check goal proof",
            GOAL,
            "(proof (unit-resolution (mp (asserted p$) (asserted (=> p$ q$)) p$) (asserted (not q$)) false))",
            1,
            "failed at #24 (mp): Shape\n",
        ),
        (
            "check goal proof",
            "(const p Bool)(goal (and p x))",
            PROOF,
            3,
            "goal refused at 27: UnknownName\n",
        ),
        // The goal file is read first.
        (
            "check goal none",
            "",
            PROOF,
            3,
            "goal refused at 0: NoGoal\n",
        ),
        (
            "check goal none",
            "(fact (= (lambda ((x Int)) x) (lambda ((x Int)) x)))(goal true)",
            PROOF,
            3,
            "goal refused at 0: Unbuilt\n",
        ),
        (
            "check proof goal",
            GOAL,
            PROOF,
            3,
            "goal refused at 0: Syntax\n",
        ),
        ("check goal proof", GOAL, "", 4, "proof refused\n"),
        (
            "check goal proof",
            GOAL,
            "(proof (unit-resolution (mp (asserted (not p$)) (asserted (=> p$ q$)) q$) (asserted (not q$)) false))",
            4,
            "proof refused\n",
        ),
        (
            "check goal proof",
            GOAL,
            "(proof (mp (asserted p$) (asserted (=> p$ q$)) q$))",
            4,
            "proof refused\n",
        ),
        (
            "check goal proof",
            GOAL,
            "(proof (unit-resolution (mp (asserted p$) (asserted (=> p$ q$)) q$) (asserted (not q$)) false)",
            4,
            "proof refused\n",
        ),
        (
            "check goal proof",
            GOAL,
            "(proof (unit-resolution (mp (asserted p$) (asserted (=> p$ q$)) q$) (asserted (not q$)) false)))",
            4,
            "proof refused\n",
        ),
        ("check none proof", GOAL, PROOF, 5, ""),
        ("check goal none", GOAL, PROOF, 5, ""),
        ("check goal", GOAL, PROOF, 2, USAGE),
        ("check -x proof", GOAL, PROOF, 2, USAGE),
        ("check goal proof more", GOAL, PROOF, 2, USAGE),
        ("prove goal proof", GOAL, PROOF, 2, USAGE),
    ];
    for (line, goal, proof, status, text) in rows {
        let words = words(alloc, line)?;
        for short in [usize::MAX, 1] {
            let mut files = whole(alloc, goal, proof)?;
            files.short(short);
            let mut out = sink(alloc, 100, 0)?;
            out.short(short);
            assert_eq!(rt;
                smt(alloc, &words, &mut files, &mut out),
                status,
                "{line}: {proof}"
            );
            assert_eq!(rt; out.written(), text.as_bytes(), "{line}: {proof}");
        }
    }
    Ok(())
}

#[test]
fn answers_a_failing_sink(rt: HostRuntime) -> Result<(), Fail> {
    let alloc = rt.alloc();
    // The words, the room, the failing call, how much a call takes, the status, and what is written.
    let rows: [(&str, u64, u64, usize, u8, &str); 8] = [
        ("check goal proof", 9, 0, 100, 0, "proved q\n"),
        ("check goal proof", 9, 1, 100, 6, ""),
        ("check goal proof", 9, 2, 100, 0, "proved q\n"),
        ("check goal proof", 9, 4, 1, 6, "pro"),
        ("check goal proof", 8, 0, 100, 6, "proved q"),
        ("check goal proof", 3, 0, 100, 6, "pro"),
        ("check goal proof", 0, 0, 100, 6, ""),
        ("check", 6, 0, 100, 6, "usage:"),
    ];
    for (line, room, call, most, status, text) in rows {
        let words = words(alloc, line)?;
        let mut files = whole(alloc, GOAL, PROOF)?;
        let mut out = sink(alloc, room, call)?;
        out.short(most);
        assert_eq!(rt; smt(alloc, &words, &mut files, &mut out), status, "{text}");
        assert_eq!(rt; out.written(), text.as_bytes(), "{text}");
    }
    Ok(())
}

#[test]
fn answers_each_failing_place(rt: HostRuntime) -> Result<(), Fail> {
    let alloc = rt.alloc();
    let words = words(alloc, "check goal proof")?;
    for (name, text) in [("goal", GOAL), ("proof", PROOF)] {
        let len = text.len() as u64;
        for short in [usize::MAX, 1] {
            // The read at the end of the file says that it ends there, so it counts too.
            for place in 0..=len {
                let mut files = failing(alloc, name, place)?;
                files.short(short);
                let mut out = sink(alloc, 100, 0)?;
                assert_eq!(rt;
                    smt(alloc, &words, &mut files, &mut out),
                    5,
                    "{name} at {place}"
                );
                assert_eq!(rt; out.written(), [].as_slice(), "{name} at {place}");
            }
        }
        let mut files = failing(alloc, name, len + 1)?;
        let mut out = sink(alloc, 100, 0)?;
        assert_eq!(rt;
            smt(alloc, &words, &mut files, &mut out),
            0,
            "{name} behind its end"
        );
        assert_eq!(rt;
            out.written(),
            b"proved q\n".as_slice(),
            "{name} behind its end"
        );
    }
    Ok(())
}
