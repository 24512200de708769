//! Each object once through a function that knows its trait alone, and once failing in mid-stream.
ghost use Rattle.std.specs.Prelude.{◌≡◌, ℕ, List, IfOk, OnOk, IfSome};
ghost use Rattle.link_io.specs.Counts.{Rose};
ghost use Rattle.link_io.specs.Streams.{after_giving, AreAllLeft, after_taking};

use super::*;
use std::alloc::{AllocError, Global};
use std::io::{ErrorKind, Read, Write};
use std::test::Fail;
use std::{env, fs, io, process};

#[derive(Clone, Copy, Debug, PartialEq, Eq)]
enum Stopped {
    ByFault,
    ByLength,
    ByMemory,
}

/// Reads to the end.
fn read_whole<S: Source>(alloc: Global, input: &mut S) -> Result<Vec<u8>, Stopped>
    ensures told { IfOk result (λ bytes. (S.seen input.new).tape ≡ after_giving bytes.items ((S.seen input.old).tape)) }
    ensures all { IfOk result (λ bytes. AreAllLeft bytes.items ((S.seen input.old).tape)) }
    ensures ended { OnOk result (Rose ((S.seen input.old).ends) ((S.seen input.new).ends)) }
    ensures no_fault { OnOk result ((S.seen input.new).faults ≡ (S.seen input.old).faults) }
    ensures fault { result ≡ Err Stopped.ByFault → Rose ((S.seen input.old).faults) ((S.seen input.new).faults) }
{
    let mut bytes = Vec::new(alloc);
    for _turn in 0..100u32 {
        let mut piece = [0u8; 4];
        match input.read(&mut piece) {
            Ok(0) => return Ok(bytes),
            Ok(count) => {
                if bytes.extend_from_slice(&piece[..count]).is_err() {
                    return Err(Stopped::ByMemory);
                }
            }
            Err(Failed) => return Err(Stopped::ByFault),
        }
    }
    Err(Stopped::ByLength)
}

/// Puts all bytes and hands them on.
fn write_whole<K: Sink>(output: &mut K, bytes: &[u8]) -> Result<(), Stopped>
    ensures held { OnOk result ((K.seen output.new).held ≡ after_taking bytes.now ((K.seen output.old).held)) }
    ensures no_fault { OnOk result ((K.seen output.new).faults ≡ (K.seen output.old).faults) }
    ensures fault { result ≡ Err Stopped.ByFault → Rose ((K.seen output.old).faults) ((K.seen output.new).faults) }
{
    let mut put = 0;
    for _turn in 0..100u32 {
        if put == bytes.len() {
            return match output.flush() {
                Ok(()) => Ok(()),
                Err(Failed) => Err(Stopped::ByFault),
            };
        }
        match output.write(&bytes[put..]) {
            Ok(0) => return Err(Stopped::ByFault),
            Ok(count) => put += count,
            Err(Failed) => return Err(Stopped::ByFault),
        }
    }
    Err(Stopped::ByLength)
}

/// Reads a file from its first byte to its end.
fn read_file<S: Shelf>(alloc: Global, shelf: &mut S, name: &str) -> Result<Vec<u8>, Stopped>
    ensures content { IfOk result (λ bytes. IfSome ((S.seen shelf.old).file name.now) (λ whole. whole ≡ bytes.items)) }
    ensures no_fault { OnOk result ((other : List ℕ) → (S.seen shelf.new).faults other ≡ (S.seen shelf.old).faults other) }
    ensures fault { result ≡ Err Stopped.ByFault
        → Rose ((S.seen shelf.old).faults name.now) ((S.seen shelf.new).faults name.now) }
    ensures others { (other : List ℕ) → (S.counts_with name.now other → ⊥)
        → (S.seen shelf.new).faults other ≡ (S.seen shelf.old).faults other }
{
    let mut bytes = Vec::new(alloc);
    for _turn in 0..100u32 {
        let mut piece = [0u8; 4];
        match shelf.read_at(name, bytes.len() as u64, &mut piece) {
            Ok(0) => return Ok(bytes),
            Ok(count) => {
                if bytes.extend_from_slice(&piece[..count]).is_err() {
                    return Err(Stopped::ByMemory);
                }
            }
            Err(Failed) => return Err(Stopped::ByFault),
        }
    }
    Err(Stopped::ByLength)
}

fn bytes_in(alloc: Global, bytes: &[u8]) -> Result<Vec<u8>, AllocError> {
    Vec::from_slice(alloc, bytes)
}

#[test]
fn a_source_in_memory_gives_its_pieces(rt: HostRuntime) -> Result<(), Fail> {
    let alloc = rt.alloc();
    let bytes = bytes_in(alloc, b"0123456789")?;
    let mut source = MemSource::new(bytes, Vec::new(alloc)).in_pieces(3);
    let whole = read_whole(alloc, &mut source)?;
    assert_eq!(rt; whole.as_slice(), b"0123456789".as_slice());
    assert_eq!(rt; source.ends(), 1);
    assert_eq!(rt; source.faults(), 0);
    Ok(())
}

#[test]
fn a_source_in_memory_fails_at_a_call(rt: HostRuntime) -> Result<(), Fail> {
    let alloc = rt.alloc();
    let bytes = bytes_in(alloc, b"0123456789")?;
    let mut source = MemSource::new(bytes, vec![in alloc; 2]?).in_pieces(3);
    assert_eq!(rt;
        read_whole(alloc, &mut source).err(),
        Some(Stopped::ByFault)
    );
    assert_eq!(rt; source.left(), b"3456789".as_slice());
    let rest = read_whole(alloc, &mut source)?;
    assert_eq!(rt; rest.as_slice(), b"3456789".as_slice());
    assert_eq!(rt; source.faults(), 1);
    Ok(())
}

#[test]
fn a_sink_in_memory_takes_pieces(rt: HostRuntime) -> Result<(), Fail> {
    let alloc = rt.alloc();
    let mut sink = MemSink::new(alloc, 9, Vec::new(alloc))?.in_pieces(2);
    assert_eq!(rt; write_whole(&mut sink, b"01234"), Ok(()));
    assert_eq!(rt; sink.bytes(), b"01234".as_slice());
    assert_eq!(rt; sink.faults(), 0);
    Ok(())
}

#[test]
fn a_sink_in_memory_fails_at_a_call_and_past_its_room(rt: HostRuntime) -> Result<(), Fail> {
    let alloc = rt.alloc();
    // Writes of two bytes and then the flush: five bytes are put by the third call.
    for (room, fails, held) in [(9, 2, 2), (9, 4, 5), (3, 9, 3), (0, 9, 0)] {
        let mut sink = MemSink::new(alloc, room, vec![in alloc; fails]?)?.in_pieces(2);
        assert_eq!(rt;
            write_whole(&mut sink, b"01234"),
            Err(Stopped::ByFault),
            "room {room}"
        );
        assert_eq!(rt; sink.bytes().len(), held, "room {room}, call {fails}");
        assert_eq!(rt; sink.faults(), 1);
    }
    Ok(())
}

#[test]
fn a_shelf_in_memory_has_its_files_and_no_others(rt: HostRuntime) -> Result<(), Fail> {
    let alloc = rt.alloc();
    let mut files = Vec::new(alloc);
    files.push((String::from_str(alloc, "p")?, bytes_in(alloc, b"01234")?))?;
    files.push((String::from_str(alloc, "q")?, bytes_in(alloc, b"")?))?;
    let mut shelf = MemShelf::new(files, vec![in alloc; 5]?).in_pieces(3);
    let whole = read_file(alloc, &mut shelf, "p")?;
    assert_eq!(rt; whole.as_slice(), b"01234".as_slice());
    assert_eq!(rt;
        read_file(alloc, &mut shelf, "r").err(),
        Some(Stopped::ByFault)
    );
    assert_eq!(rt;
        read_file(alloc, &mut shelf, "q").err(),
        Some(Stopped::ByFault),
        "the fifth call"
    );
    let empty = read_file(alloc, &mut shelf, "q")?;
    assert_eq!(rt; empty.len(), 0);
    for (name, faults) in [("p", 0), ("q", 1), ("r", 1), ("s", 0)] {
        assert_eq!(rt; shelf.faults(name), faults, "{name}");
    }
    Ok(())
}

#[test]
fn a_list_of_texts_keeps_their_order(rt: HostRuntime) -> Result<(), Fail> {
    let alloc = rt.alloc();
    let mut texts = StringList::new(alloc);
    assert!(rt; texts.is_empty());
    texts.push(String::from_str(alloc, "one")?)?;
    texts.push(String::from_str(alloc, "two")?)?;
    let texts = StringList::from_vec(texts.into_vec());
    assert_eq!(rt; texts.len(), 2);
    for (at, text) in [(0, Some("one")), (1, Some("two")), (2, None)] {
        assert!(rt; texts.get(at) == text, "at {at}");
    }
    Ok(())
}

/// A name for a file of this process alone.
fn temp_name(rt: &HostRuntime, word: &str) -> io::Result<String> {
    let folder = env::temp_dir(rt)?;
    let folder = folder.as_path().to_string_lossy();
    let process = process::id(rt.process());
    Ok(format!(in rt.alloc(); "{folder}/link_io_{process}_{word}.tmp")?)
}

#[test]
fn a_real_file_is_written_and_read(rt: HostRuntime) -> Result<(), Fail> {
    let name = temp_name(&rt, "streams")?;
    let mut sink = StdSink::new(fs::create(&rt, name.as_str())?);
    assert_eq!(rt; write_whole(&mut sink, b"0123456789"), Ok(()));
    let mut source = StdSource::new(fs::open(&rt, name.as_str())?);
    let whole = read_whole(rt.alloc(), &mut source)?;
    assert_eq!(rt; whole.as_slice(), b"0123456789".as_slice());
    assert_eq!(rt; (sink.faults(), source.faults(), source.ends()), (0, 0, 1));
    fs::remove_file(&rt, name.as_str())?;
    Ok(())
}

#[test]
fn a_real_file_is_read_at_an_offset(rt: HostRuntime) -> Result<(), Fail> {
    let name = temp_name(&rt, "shelf")?;
    fs::write(&rt, name.as_str(), b"0123456789".as_slice())?;
    let mut shelf = FileShelf::new(rt, rt.alloc())?;
    let whole = read_file(rt.alloc(), &mut shelf, name.as_str())?;
    assert_eq!(rt; whole.as_slice(), b"0123456789".as_slice());
    let mut back = [0u8; 2];
    assert_eq!(rt; shelf.read_at(name.as_str(), 4, &mut back), Ok(2));
    assert_eq!(rt; back, *b"45");
    assert_eq!(rt; shelf.faults(), 0);
    fs::remove_file(&rt, name.as_str())?;
    Ok(())
}

#[test]
fn real_files_are_read_in_turn(rt: HostRuntime) -> Result<(), Fail> {
    let one = temp_name(&rt, "one")?;
    let two = temp_name(&rt, "two")?;
    fs::write(&rt, one.as_str(), b"012345".as_slice())?;
    fs::write(&rt, two.as_str(), b"6789ab".as_slice())?;
    let mut shelf = FileShelf::new(rt, rt.alloc())?;
    let mut piece = [0u8; 2];
    // Twice from one byte, behind another file, behind the read before, at a byte that was passed, and behind it.
    for (name, from, wanted) in [
        (&one, 0, *b"01"),
        (&one, 0, *b"01"),
        (&two, 2, *b"89"),
        (&one, 2, *b"23"),
        (&one, 4, *b"45"),
        (&one, 1, *b"12"),
        (&one, 3, *b"34"),
        (&two, 0, *b"67"),
        (&two, 2, *b"89"),
    ] {
        assert_eq!(rt; shelf.read_at(name.as_str(), from, &mut piece), Ok(2));
        assert_eq!(rt; piece, wanted, "{name} from {from}");
    }
    for from in [6, 7] {
        assert_eq!(rt; shelf.read_at(two.as_str(), from, &mut piece), Ok(0));
    }
    assert_eq!(rt; shelf.faults(), 0);
    fs::remove_file(&rt, one.as_str())?;
    fs::remove_file(&rt, two.as_str())?;
    Ok(())
}

/// From which byte to which each read of a file of 150,000 bytes goes, where there is room for 70,000.
const LARGE_READS: [(usize, usize); 4] = [
    (0, 70_000),
    (70_000, 140_000),
    (140_000, 150_000),
    (150_000, 150_000),
];

#[test]
fn a_large_real_file_is_written_and_read(rt: HostRuntime) -> Result<(), Fail> {
    let alloc = rt.alloc();
    let name = temp_name(&rt, "large")?;
    let mut bytes = Vec::new(alloc);
    for at in 0u32..150_000 {
        bytes.push((at % 251) as u8)?;
    }
    assert_eq!(rt; bytes.len(), 150_000);
    let mut sink = StdSink::new(fs::create(&rt, name.as_str())?);
    assert_eq!(rt; sink.write(&bytes), Ok(150_000));
    let mut source = StdSource::new(fs::open(&rt, name.as_str())?);
    let mut shelf = FileShelf::new(rt, alloc)?;
    let mut piece = [0u8; 70_000];
    for (from, to) in LARGE_READS {
        let wanted = bytes.get(from..to).ok_or("short")?;
        let read = shelf.read_at(name.as_str(), from as u64, &mut piece);
        assert_eq!(rt; read, Ok(wanted.len()));
        assert!(rt; piece.starts_with(wanted), "the shelf from {from}");
        assert_eq!(rt; source.read(&mut piece), Ok(wanted.len()));
        assert!(rt; piece.starts_with(wanted), "the source from {from}");
    }
    assert_eq!(rt; (source.ends(), source.faults(), shelf.faults()), (1, 0, 0));
    fs::remove_file(&rt, name.as_str())?;
    Ok(())
}

#[test]
fn real_faults_are_counted(rt: HostRuntime) -> Result<(), Fail> {
    let name = temp_name(&rt, "faults")?;
    fs::write(&rt, name.as_str(), b"0".as_slice())?;
    let mut sink = StdSink::new(fs::open(&rt, name.as_str())?);
    assert_eq!(rt;
        write_whole(&mut sink, b"1"),
        Err(Stopped::ByFault),
        "it was opened to be read"
    );
    fs::remove_file(&rt, name.as_str())?;
    let mut shelf = FileShelf::new(rt, rt.alloc())?;
    assert_eq!(rt;
        read_file(rt.alloc(), &mut shelf, name.as_str()).err(),
        Some(Stopped::ByFault)
    );
    assert_eq!(rt; (sink.faults(), shelf.faults()), (1, 1));
    Ok(())
}

/// A reader that a signal interrupts before it gives a byte, and that fails after it.
#[derive(Drop)]
struct Interrupted {
    reads: u8,
}

impl Read for Interrupted {
    fn read(&mut self, to: &mut [u8]) -> io::Result<usize> {
        self.reads = self.reads.saturating_add(1);
        match self.reads {
            1 | 2 => Err(io::Error::from(ErrorKind::Interrupted)),
            3 if !to.is_empty() => {
                to[0] = b'0';
                Ok(1)
            }
            _ => Err(io::Error::from(ErrorKind::UnexpectedEof)),
        }
    }
}

#[test]
fn an_interrupted_read_is_made_again(rt: HostRuntime) -> Result<(), Fail> {
    let mut source = StdSource::new(Interrupted { reads: 0 });
    let mut to = [0u8; 4];
    assert_eq!(rt; source.read(&mut to), Ok(1));
    assert_eq!(rt; source.faults(), 0);
    assert_eq!(rt; source.read(&mut to), Err(Failed));
    assert_eq!(rt; source.faults(), 1);
    assert_eq!(rt; source.ends(), 0);
    Ok(())
}

/// A writer whose every other call a signal interrupts, that takes one byte a call, and that fails from its fifth on.
#[derive(Drop)]
struct Halting {
    calls: u8,
}

impl Halting {
    fn next_call(&mut self) -> io::Result<()> {
        self.calls = self.calls.saturating_add(1);
        match self.calls {
            1 | 3 => Err(io::Error::from(ErrorKind::Interrupted)),
            2 | 4 => Ok(()),
            _ => Err(io::Error::from(ErrorKind::WriteZero)),
        }
    }
}

impl Write for Halting {
    fn write(&mut self, from: &[u8]) -> io::Result<usize> {
        self.next_call()?;
        Ok(from.len().min(1))
    }

    fn flush(&mut self) -> io::Result<()> {
        self.next_call()
    }
}

#[test]
fn an_interrupted_write_and_flush_are_made_again(rt: HostRuntime) -> Result<(), Fail> {
    let mut sink = StdSink::new(Halting { calls: 0 });
    assert_eq!(rt; sink.write(b"01"), Ok(1));
    assert_eq!(rt; sink.flush(), Ok(()));
    assert_eq!(rt; sink.faults(), 0);
    assert_eq!(rt; sink.flush(), Err(Failed));
    assert_eq!(rt; sink.write(b"0"), Err(Failed));
    assert_eq!(rt; sink.faults(), 2);
    Ok(())
}

#[test]
fn a_name_longer_than_the_system_opens_is_a_fault(rt: HostRuntime) -> Result<(), Fail> {
    let mut name = String::new(rt.alloc());
    for _ in 0..5_000u32 {
        name.push('n')?;
    }
    let mut shelf = FileShelf::new(rt, rt.alloc())?;
    let mut piece = [0u8; 2];
    assert_eq!(rt; shelf.read_at(name.as_str(), 0, &mut piece), Err(Failed));
    assert_eq!(rt; shelf.faults(), 1);
    Ok(())
}

#[test]
fn a_writer_that_takes_no_byte_is_at_fault(rt: HostRuntime) -> Result<(), Fail> {
    let mut room = [0u8; 3];
    let mut sink = StdSink::new(&mut room[..]);
    assert_eq!(rt; write_whole(&mut sink, b"01234"), Err(Stopped::ByFault));
    assert_eq!(rt; sink.faults(), 1);
    Ok(())
}
