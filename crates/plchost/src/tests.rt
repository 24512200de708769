ghost use Rattle.std.specs.Prelude.{◌<◌};

use crate::known_words;
use host_engine::tool_main;
use link_io::{MemShelf, MemSink, MemSource, StringList};
use std::alloc::{AllocError, Global};
use std::fmt::Write;
use std::io;
use std::io::ErrorKind;
use std::test::Fail;

/// The file `p`, where a test names no other.
const P: &[u8] = b"[type P [simple uint 8 a] [simple uint 16 b]]";

/// A file of values of one byte.
pub const ONE_BYTE: &[u8] = b"[type P [simple uint 8 a]]";

/// The numbers of the calls that fail, from 1.
#[derive(Clone, Copy)]
pub struct Failing<'a> {
    pub reads: &'a [u64],
    pub file_reads: &'a [u64],
    pub writes: &'a [u64],
}

pub const NONE_FAILS: Failing<'static> = Failing {
    reads: &[],
    file_reads: &[],
    writes: &[],
};

/// What a run put out, and its status.
#[derive(Drop)]
pub struct Ran {
    pub text: Vec<u8>,
    pub status: u8,
}

pub fn string_list(alloc: Global, words: &[&str]) -> Result<StringList, AllocError> {
    let mut list = StringList::new(alloc);
    for word in words {
        list.push(String::from_str(alloc, word)?)?;
    }
    Ok(list)
}

/// More bytes than any run here puts out.
const OUT_ROOM: usize = 1_048_576;

/// The program over objects in memory. It has no contract, so that no test's proof reads that of `tool_main`.
pub fn call_main(
    alloc: Global,
    words: &StringList,
    files: &mut MemShelf,
    input: &mut MemSource,
    out: &mut MemSink,
) -> u8 {
    tool_main(alloc, words, files, input, out)
}

/// Runs the program over a shelf with the one file `p`, in pieces of at most `piece` bytes.
pub fn run(
    alloc: Global,
    words: &[&str],
    text: &[u8],
    input: &[u8],
    failing: Failing<'_>,
    piece: usize,
) -> Result<Ran, AllocError>
    requires { 0 < piece }
{
    let words = string_list(alloc, words)?;
    let mut shelved = Vec::new(alloc);
    shelved.push((String::from_str(alloc, "p")?, Vec::from_slice(alloc, text)?))?;
    let file_reads = Vec::from_slice(alloc, failing.file_reads)?;
    let mut files = MemShelf::new(shelved, file_reads).in_pieces(piece);
    let reads = Vec::from_slice(alloc, failing.reads)?;
    let mut source = MemSource::new(Vec::from_slice(alloc, input)?, reads).in_pieces(piece);
    let writes = Vec::from_slice(alloc, failing.writes)?;
    let mut out = MemSink::new(alloc, OUT_ROOM, writes)?.in_pieces(piece);
    let status = call_main(alloc, &words, &mut files, &mut source, &mut out);
    let text = Vec::from_slice(alloc, out.bytes())?;
    Ok(Ran { text, status })
}

/// `decode p P` where no call fails, in pieces of at most `piece` bytes.
pub fn decoded(alloc: Global, text: &[u8], input: &[u8], piece: usize) -> Result<Ran, AllocError>
    requires { 0 < piece }
{
    run(alloc, &["decode", "p", "P"], text, input, NONE_FAILS, piece)
}

/// Texts of `p` and inputs, with what `decode p P` puts out for them and its status.
const DECODED: [(&[u8], &[u8], &[u8], u8); 9] = [
    (P, b"\x01\x00\x02", b"a = 1\nb = 2\n\n", 0),
    (P, b"", b"", 0),
    (P, b"\x01\x00", b"truncated 16\n", 7),
    (
        P,
        b"\x01\x00\x02\xff\xff\xff",
        b"a = 1\nb = 2\n\na = 255\nb = 65535\n\n",
        0,
    ),
    (P, b"\x01\x00\x02\x01", b"a = 1\nb = 2\n\ntruncated 8\n", 7),
    (
        b"[type P [simple uint 64 n]]",
        b"\xff\xff\xff\xff\xff\xff\xff\xff",
        b"n = 18446744073709551615\n\n",
        0,
    ),
    (
        b"[type P [simple uint 32 n]]",
        b"\x00\x00\x00\x00",
        b"n = 0\n\n",
        0,
    ),
    (
        b"[type Q [simple uint 8 a]]",
        b"\x01",
        b"type refused\n",
        12,
    ),
    (
        b"[type P [simple uint 12 a]]",
        b"\x01",
        b"description refused 1:1 NotBuilt\n",
        1,
    ),
];

#[test]
fn decodes_values_and_says_what_is_wrong(rt: HostRuntime) -> Result<(), Fail> {
    for (text, input, want, status) in DECODED {
        let ran = decoded(rt.alloc(), text, input, 100)?;
        assert_eq!(rt; ran.text.as_slice(), want);
        assert_eq!(rt; ran.status, status);
    }
    Ok(())
}

#[test]
fn small_pieces_change_nothing(rt: HostRuntime) -> Result<(), Fail> {
    for piece in 1usize..8 {
        let ran = decoded(rt.alloc(), P, b"\x01\x00\x02\xff\xff\xff\x01", piece)?;
        let want: &[u8] = b"a = 1\nb = 2\n\na = 255\nb = 65535\n\ntruncated 8\n";
        assert_eq!(rt; ran.text.as_slice(), want, "pieces of {piece}");
        assert_eq!(rt; ran.status, 7);
    }
    Ok(())
}

#[test]
fn an_output_of_more_bytes_than_are_gathered_is_whole(rt: HostRuntime) -> Result<(), Fail> {
    let mut input = Vec::new(rt.alloc());
    let mut want = String::new(rt.alloc());
    for number in 0u32..20_000 {
        let byte = (number % 256) as u8;
        input.push(byte)?;
        write!(want, "a = {byte}\n\n")?;
    }
    assert!(rt; want.len() > 131_072);
    let ran = decoded(rt.alloc(), ONE_BYTE, &input, 100_000)?;
    assert_eq!(rt; ran.text.as_slice(), want.as_bytes());
    assert_eq!(rt; ran.status, 0);
    Ok(())
}

/// Words that are no command's.
const REFUSED_WORDS: [&[&str]; 21] = [
    &[],
    &["replay", "p"],
    &["replays"],
    &["Replay"],
    &["frob"],
    &["--help"],
    &["decode"],
    &["decode", "p"],
    &["decode", "p", "P", "P"],
    &["decode", "", "P"],
    &["decode", "p", "-P"],
    &["Decode", "p", "P"],
    &["print"],
    &["print", "p", "P"],
    &["print", ""],
    &["print", "-p"],
    &["Print", "p"],
    &["check"],
    &["check", "p", "P"],
    &["check", ""],
    &["check", "p", "--x=1"],
];

#[test]
fn refuses_words(rt: HostRuntime) -> Result<(), Fail> {
    for words in REFUSED_WORDS {
        let ran = run(rt.alloc(), words, P, b"\x01", NONE_FAILS, 100)?;
        assert_eq!(rt; ran.text.as_slice(), b"words refused\n".as_slice());
        assert_eq!(rt; ran.status, 2);
    }
    Ok(())
}

#[test]
fn a_word_that_is_no_text_is_refused(rt: HostRuntime) -> Result<(), Fail> {
    let faulty = Err(io::Error::from(ErrorKind::InvalidData));
    let words = known_words(rt.alloc(), faulty)?;
    let mut files = MemShelf::new(Vec::new(rt.alloc()), Vec::new(rt.alloc()));
    let mut source = MemSource::new(Vec::new(rt.alloc()), Vec::new(rt.alloc()));
    let mut out = MemSink::new(rt.alloc(), OUT_ROOM, Vec::new(rt.alloc()))?;
    let status = call_main(rt.alloc(), &words, &mut files, &mut source, &mut out);
    assert_eq!(rt; out.bytes(), b"words refused\n".as_slice());
    assert_eq!(rt; status, 2);
    let read = string_list(rt.alloc(), &["replay"])?;
    assert_eq!(rt; known_words(rt.alloc(), Ok(read))?.get(0), Some("replay"));
    let wanting = Err(io::Error::from(ErrorKind::OutOfMemory));
    assert!(rt; known_words(rt.alloc(), wanting).is_err());
    Ok(())
}

#[test]
fn a_file_that_there_is_not_is_a_file_fault(rt: HostRuntime) -> Result<(), Fail> {
    for name in ["q", "P", "pp"] {
        let words = ["decode", name, "P"];
        let ran = run(rt.alloc(), &words, P, b"\x01", NONE_FAILS, 100)?;
        assert_eq!(rt; ran.text.as_slice(), b"file fault\n".as_slice());
        assert_eq!(rt; ran.status, 3);
    }
    Ok(())
}

/// What three values of one byte, 1 to 3, are listed as.
const THREE_VALUES: &[u8] = b"a = 1\n\na = 2\n\na = 3\n\n";

/// These values, read and put out a byte at a time, where one call fails.
fn run_failing(alloc: Global, failing: Failing<'_>) -> Result<Ran, AllocError> {
    let words = ["decode", "p", "P"];
    run(alloc, &words, ONE_BYTE, b"\x01\x02\x03", failing, 1)
}

#[test]
fn a_fault_at_each_read_ends_the_values(rt: HostRuntime) -> Result<(), Fail> {
    // three bytes and the end, each a read
    for at in 1u64..=4 {
        let failing = Failing {
            reads: &[at],
            ..NONE_FAILS
        };
        let ran = run_failing(rt.alloc(), failing)?;
        let values = THREE_VALUES.get(..7 * (at as usize - 1)).ok_or("short")?;
        let mut want = Vec::from_slice(rt.alloc(), values)?;
        want.extend_from_slice(b"read fault\n")?;
        assert_eq!(rt; ran.text.as_slice(), want.as_slice(), "read {at}");
        assert_eq!(rt; ran.status, 4);
    }
    Ok(())
}

#[test]
fn a_fault_at_each_read_of_the_file_is_a_file_fault(rt: HostRuntime) -> Result<(), Fail> {
    // 26 bytes of text and the end
    for at in 1u64..=27 {
        let failing = Failing {
            file_reads: &[at],
            ..NONE_FAILS
        };
        let ran = run_failing(rt.alloc(), failing)?;
        let want: &[u8] = b"file fault\n";
        assert_eq!(rt; ran.text.as_slice(), want, "file read {at}");
        assert_eq!(rt; ran.status, 3);
    }
    Ok(())
}

#[test]
fn a_fault_at_each_write_leaves_a_front(rt: HostRuntime) -> Result<(), Fail> {
    // 21 bytes and the flush
    for at in 1u64..=22 {
        let failing = Failing {
            writes: &[at],
            ..NONE_FAILS
        };
        let ran = run_failing(rt.alloc(), failing)?;
        let put = THREE_VALUES.get(..at as usize - 1).ok_or("short")?;
        assert_eq!(rt; ran.text.as_slice(), put, "write {at}");
        assert_eq!(rt; ran.status, 5);
    }
    let behind_all = Failing {
        writes: &[23],
        ..NONE_FAILS
    };
    let ran = run_failing(rt.alloc(), behind_all)?;
    assert_eq!(rt; ran.text.as_slice(), THREE_VALUES);
    assert_eq!(rt; ran.status, 0);
    Ok(())
}

#[test]
fn a_read_fault_behind_a_part_of_a_value_leaves_it_out(rt: HostRuntime) -> Result<(), Fail> {
    // the fourth byte begins a second value, and the read behind it fails
    for (piece, at) in [(1usize, 5u64), (2, 3), (3, 3), (4, 2)] {
        let failing = Failing {
            reads: &[at],
            ..NONE_FAILS
        };
        let words = ["decode", "p", "P"];
        let ran = run(rt.alloc(), &words, P, b"\x01\x00\x02\x01", failing, piece)?;
        let want: &[u8] = b"a = 1\nb = 2\n\nread fault\n";
        assert_eq!(rt; ran.text.as_slice(), want, "pieces of {piece}");
        assert_eq!(rt; ran.status, 4);
    }
    Ok(())
}

#[test]
fn an_output_without_room_is_a_write_fault(rt: HostRuntime) -> Result<(), Fail> {
    let words = string_list(rt.alloc(), &["decode", "p", "P"])?;
    for room in 0usize..13 {
        let mut shelved = Vec::new(rt.alloc());
        shelved.push((
            String::from_str(rt.alloc(), "p")?,
            Vec::from_slice(rt.alloc(), P)?,
        ))?;
        let mut files = MemShelf::new(shelved, Vec::new(rt.alloc()));
        let input = Vec::from_slice(rt.alloc(), b"\x01\x00\x02")?;
        let mut source = MemSource::new(input, Vec::new(rt.alloc()));
        let mut out = MemSink::new(rt.alloc(), room, Vec::new(rt.alloc()))?;
        let status = call_main(rt.alloc(), &words, &mut files, &mut source, &mut out);
        assert_eq!(rt; status, 5, "room {room}");
        let want: &[u8] = b"a = 1\nb = 2\n\n";
        assert_eq!(rt; out.bytes(), &want[..room]);
    }
    Ok(())
}
