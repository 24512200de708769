ghost use Rattle.std.specs.Prelude.{◌<◌};

use crate::tests::{Failing, NONE_FAILS, Ran, call_main, run, string_list};
use link_io::{MemShelf, MemSink, MemSource};
use std::alloc::{AllocError, Global};
use std::fmt::Write;
use std::test::Fail;

/// Runs a script in pieces of at most `piece` bytes.
fn replay(
    alloc: Global,
    script: &[u8],
    failing: Failing<'_>,
    piece: usize,
) -> Result<Ran, AllocError>
    requires { 0 < piece }
{
    run(alloc, &["replay"], b"", script, failing, piece)
}

/// A script over so many references, with these lines behind its first two.
fn opened(alloc: Global, references: &[u8], lines: &[u8]) -> Result<Vec<u8>, AllocError> {
    let mut script = Vec::from_slice(alloc, b"table ")?;
    script.extend_from_slice(references)?;
    script.extend_from_slice(b" 8 1 64 60000 60000\nask 1 0\n")?;
    script.extend_from_slice(lines)?;
    Ok(script)
}

/// How many references a table has and the lines behind a script's first two, with the answers behind the first.
const ANSWERED: [(&[u8], &[u8], &[u8]); 9] = [
    (
        b"2",
        b"submit 1 1 0 1000 AA\nsend\ncancel 1 1\nsubmit 1 1 0 1000 AA\nsend\nframe 00050001BB\ncollect 1 1\nsubmit 1 1 0 1000 AA\n",
        b"started 1 1\nsent 1 00050001aa\ncancelled\nstarted 2 2\nsent 2 00050002aa\nlate 1\ncancelled\nstarted 3 1\nentries 9\n",
    ),
    (
        b"2",
        b"submit 1 1 0 1000 AA\nsend\nframe 00050001BB\ncancel 1 1\ncollect 1 1\n",
        b"started 1 1\nsent 1 00050001aa\nended 1 done\nended done\ndone 187\nentries 5\n",
    ),
    (
        b"1",
        b"submit 1 1 0 1000 AA\nsend\ncancel 1 1\nsubmit 1 1 0 1000 AA\nframe 00050001BB\nsubmit 1 1 0 1000 AA\n",
        b"started 1 1\nsent 1 00050001aa\ncancelled\nno reference\nlate 1\nstarted 2 1\nentries 6\n",
    ),
    (
        b"1",
        b"submit 1 1 0 1000 AA\ncancel 1 1\nsubmit 1 1 0 1000 AA\nsend\n",
        b"started 1 1\ncancelled\nstarted 2 1\nsent 2 00050001aa\nentries 5\n",
    ),
    (
        b"2",
        b"submit 1 1 0 1000 AA\nframe 00050001BB\nsend\nframe 00050001BB",
        b"started 1 1\nstray 1\nsent 1 00050001aa\nended 1 done\nentries 5\n",
    ),
    (
        b"2",
        b"submit 1 1 0 1000 AA\ncollect 1 1\nsend\nframe 00040001\ncollect 1 1\n",
        b"started 1 1\npending\nsent 1 00050001aa\nended 1 mismatch 1 0\nmismatch 1 0\nentries 5\n",
    ),
    (
        b"0002",
        b"submit 1 1 0 1000 AA\nsend\nframe 00060001Ff07\ncollect 1 1\ncollect 1 1",
        b"started 1 1\nsent 1 00050001aa\nended 1 remote 7\nremote 7\nno request\nentries 5\n",
    ),
    (
        b"65535",
        b"submit 1 1 0 1000 AA\nsubmit 1 2 0 1000 AA\nsend\nframe 00070001010a00\ncollect 1 1\n",
        b"started 1 1\nno lease\nsent 1 00050001aa\nended 1 done\ndone 1,10,0\nentries 5\n",
    ),
    (
        b"2",
        b"submit 1 2 0 1000 AA\ncollect 1 1\nsend\n",
        b"no lease\nno request\nnothing\nentries 1\n",
    ),
];

#[test]
fn scripts_are_answered_by_the_table(rt: HostRuntime) -> Result<(), Fail> {
    for (references, lines, answers) in ANSWERED {
        let script = opened(rt.alloc(), references, lines)?;
        let mut want = Vec::from_slice(rt.alloc(), b"granted 1\n")?;
        want.extend_from_slice(answers)?;
        let ran = replay(rt.alloc(), &script, NONE_FAILS, 100)?;
        assert_eq!(rt; ran.text.as_slice(), want.as_slice());
        assert_eq!(rt; ran.status, 0);
    }
    Ok(())
}

#[test]
fn small_pieces_of_a_script_change_nothing(rt: HostRuntime) -> Result<(), Fail> {
    let script = opened(
        rt.alloc(),
        b"2",
        b"submit 1 1 0 1000 AA\nsend\ncollect 1 1\n",
    )?;
    for piece in 1usize..8 {
        let ran = replay(rt.alloc(), &script, NONE_FAILS, piece)?;
        let want: &[u8] = b"granted 1\nstarted 1 1\nsent 1 00050001aa\npending\nentries 3\n";
        assert_eq!(rt; ran.text.as_slice(), want, "pieces of {piece}");
        assert_eq!(rt; ran.status, 0);
    }
    Ok(())
}

/// Scripts with a line that is none, and what is said of each.
const REFUSED: [(&[u8], &[u8]); 8] = [
    (b"", b"line refused 1\n"),
    (b"\n", b"line refused 1\n"),
    (b"ask 1 0\n", b"line refused 1\n"),
    (b"table 2 8 1 64 100 50\nasks 1 0\n", b"line refused 2\n"),
    (
        b"table 2 8 1 64 100 50\ntable 2 8 1 64 100 50\n",
        b"line refused 2\n",
    ),
    (
        b"table 2 8 1 64 60000 60000\nask 1 0\n\n",
        b"granted 1\nline refused 3\n",
    ),
    (
        b"table 2 8 1 64 60000 60000\nask 1 0\nsend\nsen",
        b"granted 1\nnothing\nline refused 4\n",
    ),
    (
        b"table 2 8 1 64 60000 60000\nask 1 0\nsubmit 1 1 0 1000 A\nsend\n",
        b"granted 1\nline refused 3\n",
    ),
];

#[test]
fn the_first_line_that_is_none_is_refused(rt: HostRuntime) -> Result<(), Fail> {
    for (script, want) in REFUSED {
        let ran = replay(rt.alloc(), script, NONE_FAILS, 100)?;
        assert_eq!(rt; ran.text.as_slice(), want);
        assert_eq!(rt; ran.status, 10);
    }
    Ok(())
}

/// Scripts of time, waiters, closing and the table alone, with their answers.
const WHOLE: [(&[u8], &[u8]); 5] = [
    (b"table 2 8 1 64 60000 60000", b"entries 0\n"),
    (
        b"table 2 8 1 64 60000 60000\nask 1 0\nsubmit 1 1 0 1000 AA\nsend\ntick 999\ntick 1000\nframe 00050001BB\ncollect 1 1\n",
        b"granted 1\nstarted 1 1\nsent 1 00050001aa\nticked 0 0 0\nticked 1 0 0\nlate 1\nexpired\nentries 6\n",
    ),
    (
        b"table 2 8 1 64 100 50\nask 1 0\nask 2 0\ntick 50\npoll 2 2\nask 2 60\ntick 100\npoll 2 3\npoll 1 1\n",
        b"granted 1\nwaiting 2 0\nticked 0 0 1\nno lease\nwaiting 3 0\nticked 0 1 0\nheld\nno lease\nentries 5\n",
    ),
    (
        b"table 2 8 1 64 60000 60000\nask 1 0\nsubmit 1 1 0 1000 AA\nsend\nframe 0003\ncollect 1 1\nask 2 0\n",
        b"granted 1\nstarted 1 1\nsent 1 00050001aa\nundecodable 0 length 3\nlost undecodable 0 length 3\nclosed undecodable 0 length 3\nentries 5\n",
    ),
    (
        b"table 2 8 1 64 60000 60000\nask 1 0\nsubmit 1 1 0 1000 AA\nshutdown 1\nshutdown 1\ncollect 1 1\n",
        b"granted 1\nstarted 1 1\nstopping\nclosed asked\nlost asked\nentries 4\n",
    ),
];

#[test]
fn time_waiters_and_closing_are_answered_by_the_table(rt: HostRuntime) -> Result<(), Fail> {
    for (script, want) in WHOLE {
        let ran = replay(rt.alloc(), script, NONE_FAILS, 100)?;
        assert_eq!(rt; ran.text.as_slice(), want);
        assert_eq!(rt; ran.status, 0);
    }
    Ok(())
}

#[test]
fn an_input_past_the_limit_is_too_long(rt: HostRuntime) -> Result<(), Fail> {
    for (bytes, want, status) in [
        (16_777_216, "line refused 1\n", 10),
        (16_777_217, "input too long\n", 13),
    ] {
        let script = vec![in rt.alloc(); b'0'; bytes]?;
        let ran = replay(rt.alloc(), &script, NONE_FAILS, 100_000)?;
        assert_eq!(rt; ran.text.as_slice(), want.as_bytes());
        assert_eq!(rt; ran.status, status);
    }
    Ok(())
}

/// A script that submits a payload of so many bytes.
fn submitting(alloc: Global, bytes: u32) -> Result<Vec<u8>, AllocError> {
    let mut script = opened(alloc, b"2", b"submit 1 1 0 1000 ")?;
    for _ in 0..bytes {
        script.extend_from_slice(b"0a")?;
    }
    Ok(script)
}

#[test]
fn a_payload_that_is_too_long_is_not_admitted(rt: HostRuntime) -> Result<(), Fail> {
    for (bytes, want) in [
        (4092, "granted 1\nstarted 1 1\nentries 2\n"),
        (4093, "granted 1\nnot admitted\nentries 1\n"),
    ] {
        let script = submitting(rt.alloc(), bytes)?;
        let ran = replay(rt.alloc(), &script, NONE_FAILS, 1000)?;
        assert_eq!(rt; ran.text.as_slice(), want.as_bytes());
        assert_eq!(rt; ran.status, 0);
    }
    Ok(())
}

/// A text that stands so many times, one behind the other.
fn repeat(alloc: Global, text: &str, count: u32) -> Result<String, AllocError> {
    let mut all = String::new(alloc);
    for _ in 0..count {
        all.push_str(text)?;
    }
    Ok(all)
}

/// A script of so many requests, and its answers. Each request has a payload of one byte more than `more`, and is sent,
/// answered by as many bytes and collected.
fn rounds(alloc: Global, count: u32, more: u32) -> Result<(String, String), AllocError> {
    let asked = repeat(alloc, "0a", more)?;
    let replied = repeat(alloc, "0B", more)?;
    let values = repeat(alloc, "11,", more)?;
    let size = u64::from(more) + 5;
    let mut script = String::from_str(alloc, "table 1 64 1 262144 60000 60000\nask 1 0\n")?;
    let mut answers = String::from_str(alloc, "granted 1\n")?;
    for id in 1..=count {
        write!(script, "submit 1 1 0 3600000 {asked}ff\nsend\n")?;
        write!(script, "frame {size:04x}0001{replied}FF\ncollect 1 {id}\n")?;
        write!(
            answers,
            "started {id} 1\nsent {id} {size:04x}0001{asked}ff\n"
        )?;
        write!(answers, "ended {id} done\ndone {values}255\n")?;
    }
    let entries = 4 * u64::from(count) + 1;
    write!(answers, "entries {entries}\n")?;
    Ok((script, answers))
}

#[test]
fn payloads_of_up_to_4092_bytes_are_sent_and_answered(rt: HostRuntime) -> Result<(), Fail> {
    for (count, more) in [(1, 0), (1, 99), (1, 999), (1, 4091), (15, 4091)] {
        let (script, answers) = rounds(rt.alloc(), count, more)?;
        let ran = replay(rt.alloc(), script.as_bytes(), NONE_FAILS, 100_000)?;
        assert_eq!(rt; ran.text.as_slice(), answers.as_bytes(), "{count} requests");
        assert_eq!(rt; ran.status, 0);
    }
    Ok(())
}

/// A script that is read, and whose answers are put out, a byte at a time, where one call fails.
fn replay_failing(alloc: Global, failing: Failing<'_>) -> Result<Ran, AllocError> {
    let script = b"table 2 8 1 64 60000 60000\nask 1 0\nsend";
    replay(alloc, script, failing, 1)
}

#[test]
fn a_fault_at_each_read_of_a_script_ends_its_lines(rt: HostRuntime) -> Result<(), Fail> {
    // 39 bytes and the end, each a read; the second line ends at byte 35
    for at in 1u64..=40 {
        let failing = Failing {
            reads: &[at],
            ..NONE_FAILS
        };
        let ran = replay_failing(rt.alloc(), failing)?;
        let want: &[u8] = if at <= 35 {
            b"read fault\n"
        } else {
            b"granted 1\nread fault\n"
        };
        assert_eq!(rt; ran.text.as_slice(), want, "read {at}");
        assert_eq!(rt; ran.status, 4);
    }
    Ok(())
}

#[test]
fn a_fault_at_each_write_of_a_script_leaves_a_front(rt: HostRuntime) -> Result<(), Fail> {
    let whole: &[u8] = b"granted 1\nnothing\nentries 1\n";
    // 28 bytes and the flush
    for at in 1u64..=29 {
        let failing = Failing {
            writes: &[at],
            ..NONE_FAILS
        };
        let ran = replay_failing(rt.alloc(), failing)?;
        let put = whole.get(..at as usize - 1).ok_or("short")?;
        assert_eq!(rt; ran.text.as_slice(), put, "write {at}");
        assert_eq!(rt; ran.status, 5);
    }
    let ran = replay_failing(rt.alloc(), NONE_FAILS)?;
    assert_eq!(rt; ran.text.as_slice(), whole);
    assert_eq!(rt; ran.status, 0);
    Ok(())
}

#[test]
fn a_script_without_room_for_its_answers_is_a_write_fault(rt: HostRuntime) -> Result<(), Fail> {
    let words = string_list(rt.alloc(), &["replay"])?;
    for room in 0usize..20 {
        let mut files = MemShelf::new(Vec::new(rt.alloc()), Vec::new(rt.alloc()));
        let script = Vec::from_slice(rt.alloc(), b"table 2 8 1 64 60000 60000\nask 1 0\n")?;
        let mut source = MemSource::new(script, Vec::new(rt.alloc()));
        let mut out = MemSink::new(rt.alloc(), room, Vec::new(rt.alloc()))?;
        let status = call_main(rt.alloc(), &words, &mut files, &mut source, &mut out);
        assert_eq!(rt; status, 5, "room {room}");
        let want: &[u8] = b"granted 1\nentries 1\n";
        assert_eq!(rt; out.bytes(), &want[..room]);
    }
    Ok(())
}
