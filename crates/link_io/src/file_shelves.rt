ghost use Rattle.std.specs.Prelude.{◌≡◌, ◌≤◌, ◌↔◌, ◌+◌, length, min, None, Some, IfOk, IsTrue, OnOk};
ghost use Rattle.std.specs.Io.KnownBytes.{Keeps, ReadConsumes};
ghost use Rattle.std.specs.String.{string_bytes, string_capacity};
ghost use Rattle.link_io.specs.Counts.{top};

use crate::counts::Count;
use crate::retries::read_retrying;
use crate::traits::{Failed, Shelf};
use std::alloc::{AllocError, Global};
use std::fs::Files;
use std::io::{Read, Seek, SeekFrom};
use std::marker::Model;
use std::{fs, io};

/// The longest name that is kept: the longest path that the systems we run on open.
const NAME_ROOM: usize = 4_096;

/// The files of the runtime. It tells nothing of them, and counts the faults of all names together.
///
/// The file that was read last stays open, so that reads which follow one another need no seek, and a pipe
/// can be read too. After a fault it is closed. Only `new` takes memory, the room for the open file's name, since a
/// read has no answer for want of it; a file whose name is longer than that is opened for each read.
#[derive(Drop)]
pub struct FileShelf<R: Files> {
    rt: R,
    name: String,
    opened: Option<Opened<R::File>>,
    faults: Count,
}

impl<R: Files> Model for FileShelf<R> {
    ghost use Rattle.std.specs.Prelude.{ℕ};

    ghost Value = { ℕ };

    ghost view = { λ shelf. shelf.faults };
}

impl<R: Files> FileShelf<R> {
    /// A shelf of which no file is open. An `Err` is want of memory for the open file's name, 4,096 bytes.
    pub fn new(rt: R, alloc: Global) -> Result<FileShelf<R>, AllocError>
    where
        R: Drop,
        ensures { IfOk result (λ shelf. shelf ≡ 0) }
    {
        Ok(FileShelf {
            rt,
            name: String::with_capacity(alloc, NAME_ROOM)?,
            opened: None,
            faults: Count::new(),
        })
    }

    /// How often a read has failed.
    pub fn faults(&self) -> u64
        ensures { result ≡ self.now }
    {
        self.faults.get()
    }

    fn try_read(&mut self, name: &str, from: u64, to: &mut [u8]) -> io::Result<usize>
        ensures count { IfOk result (λ n. n ≤ length to.new) }
        ensures faults { self.new ≡ self.old }
    {
        let mut opened = self.reopen(name)?;
        let count = opened.read_at(from, to)?;
        if keep_name(&mut self.name, name) {
            self.opened = Some(opened);
        }
        Ok(count)
    }

    /// The file of this name: the one that was open, if it has the name.
    fn reopen(&mut self, name: &str) -> io::Result<Opened<R::File>>
        ensures faults { self.new ≡ self.old }
    {
        match self.opened.take() {
            Some(opened) if self.name.as_str() == name => Ok(opened),
            _ => open(&self.rt, name),
        }
    }
}

impl<R: Files> Shelf for FileShelf<R> {
    ghost use Rattle.std.specs.Prelude.{false, refl};

    ghost seen = { λ faults. record { file = λ _. None; lacks = λ _. false; faults = λ _. faults } };

    ghost counts_with = { λ _ _. Unit {0} };

    ghost share_a_count = { λ _ _ _ _. refl };

    ghost lacks_no_file = { λ _ _ _. refl };

    fn read_at(&mut self, name: &str, from: u64, to: &mut [u8]) -> Result<usize, Failed> {
        match self.try_read(name, from, to) {
            Ok(count) => Ok(count),
            Err(_) => {
                self.faults.rise();
                Err(Failed)
            }
        }
    }
}

/// An open file, and the byte that its next read begins at.
#[derive(Drop)]
struct Opened<F> {
    file: F,
    position: u64,
}

impl<F: Read + Seek> Opened<F> {
    fn read_at(&mut self, from: u64, to: &mut [u8]) -> io::Result<usize>
        ensures count { IfOk result (λ n. n ≤ length to.new) }
        ensures position { IfOk result (λ n. self.new.position ≡ min (from + n) top) }
        // Where the file tells its bytes and lies at this position, they are the next, and 0 comes only at its end.
        ensures bytes { from ≡ self.old.position →
            ReadConsumes (F.remaining self.old.file) (F.remaining self.new.file) result to.new }
        // Where the file tells where it lies, it is read at `from`: it lay there before the read, with all its bytes, and what was
        // read is what it had there.
        ensures sought { F.stream_position self.old.file ≡ Some self.old.position → OnOk result ((there : F)
            × (F.stream_position there ≡ Some from)
            × Keeps (F.stream_bytes self.old.file) (F.stream_bytes there)
            × ReadConsumes (F.remaining there) (F.remaining self.new.file) result to.new) }
    {
        self.seek_to(from)?;
        let count = read_retrying(&mut self.file, to)?;
        self.position = self.position.saturating_add(count as u64);
        Ok(count)
    }

    /// Lets the next read begin at this byte. A file that lies there already isn't asked, so that a pipe is read too.
    fn seek_to(&mut self, from: u64) -> io::Result<()>
        ensures position { OnOk result (self.new.position ≡ from) }
        ensures lies { F.stream_position self.old.file ≡ Some self.old.position
            → OnOk result (F.stream_position self.new.file ≡ Some from) }
        ensures stays { from ≡ self.old.position → self.new ≡ self.old }
        ensures bytes { Keeps (F.stream_bytes self.old.file) (F.stream_bytes self.new.file) }
    {
        if from != self.position {
            self.file.seek(SeekFrom::Start(from))?;
            self.position = from;
        }
        Ok(())
    }
}

fn open<R: Files>(rt: &R, name: &str) -> io::Result<Opened<R::File>> {
    Ok(Opened {
        file: fs::open(rt, name)?,
        position: 0,
    })
}

/// Puts a name into the room that was taken for it, and answers whether it fits there. It takes no memory.
fn keep_name(room: &mut String, name: &str) -> bool
    ensures kept { IsTrue result → string_bytes room.new ≡ name.now }
    ensures fits { IsTrue result ↔ (length name.now ≤ string_capacity room.old) }
{
    if room.capacity() < name.len() {
        return false;
    }
    room.clear();
    room.push_str(name).is_ok()
}
