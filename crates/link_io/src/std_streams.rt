ghost use Rattle.std.specs.Prelude.{◌≡◌, ◌<◌, ◌≤◌, None, Ok, length, IfOk, OnOk, OnErr};
ghost use Rattle.std.specs.Io.KnownBytes.{Keeps, ReadConsumes, WriteAppends};
ghost use Rattle.link_io.specs.Counts.{Rose};

use crate::counts::Count;
use crate::retries::{flush_retrying, read_retrying, write_retrying};
use crate::traits::{Failed, Sink, Source};
use std::io::{Read, Write};
use std::marker::Model;

/// A reader of std as a source. It tells nothing of its bytes, and counts its errors and its ends. A read that a signal
/// interrupted is made again, up to 1,000,000 times, and is no error.
#[derive(Drop)]
pub struct StdSource<R> {
    reader: R,
    faults: Count,
    ends: Count,
}

impl<R> Model for StdSource<R> {
    ghost use Rattle.link_io.specs.Counts.{SourceCounts};

    ghost Value = { SourceCounts };

    ghost view = { λ source. record { faults = source.faults; ends = source.ends } };
}

impl<R> StdSource<R> {
    pub fn new(reader: R) -> StdSource<R>
        ensures { result ≡ record { faults = 0; ends = 0 } }
    {
        StdSource {
            reader,
            faults: Count::new(),
            ends: Count::new(),
        }
    }

    /// How often a read has failed.
    pub fn faults(&self) -> u64
        ensures { result ≡ self.now.faults }
    {
        self.faults.get()
    }

    /// How often a read has met the end.
    pub fn ends(&self) -> u64
        ensures { result ≡ self.now.ends }
    {
        self.ends.get()
    }
}

impl<R: Read> Source for StdSource<R> {
    ghost seen = { λ source. record { tape = None; ends = source.ends; faults = source.faults } };

    fn read(&mut self, to: &mut [u8]) -> Result<usize, Failed> {
        read_counted(&mut self.reader, &mut self.ends, &mut self.faults, to)
    }
}

/// One read, whose end or fault is counted. Where the reader tells its bytes, these are the next, none are lost at a fault,
/// and an end comes only where no byte is left.
fn read_counted<R: Read>(
    reader: &mut R,
    ends: &mut Count,
    faults: &mut Count,
    to: &mut [u8],
) -> Result<usize, Failed>
    ensures count { IfOk result (λ n. n ≤ length to.new) }
    ensures bytes { ReadConsumes (R.remaining reader.old) (R.remaining reader.new) result to.new }
    ensures end_counted { result ≡ Ok 0 → Rose ends.old ends.new }
    ensures no_end { IfOk result (λ n. 0 < n → ends.new ≡ ends.old) }
    ensures failed_no_end { OnErr result (ends.new ≡ ends.old) }
    ensures no_fault { OnOk result (faults.new ≡ faults.old) }
    ensures failed { OnErr result (Rose faults.old faults.new) }
{
    match read_retrying(reader, to) {
        Ok(0) => {
            ends.rise();
            Ok(0)
        }
        Ok(count) => Ok(count),
        Err(_) => {
            faults.rise();
            Err(Failed)
        }
    }
}

/// A writer of std as a sink. It tells nothing of its bytes, and counts its errors and the writes that took
/// no byte. A call that a signal interrupted is made again, up to 1,000,000 times, and is no error.
#[derive(Drop)]
pub struct StdSink<W> {
    writer: W,
    faults: Count,
}

impl<W> Model for StdSink<W> {
    ghost use Rattle.std.specs.Prelude.{ℕ};

    ghost Value = { ℕ };

    ghost view = { λ sink. sink.faults };
}

impl<W> StdSink<W> {
    pub fn new(writer: W) -> StdSink<W>
        ensures { result ≡ 0 }
    {
        StdSink {
            writer,
            faults: Count::new(),
        }
    }

    /// How often a call has failed or a write has taken no byte.
    pub fn faults(&self) -> u64
        ensures { result ≡ self.now }
    {
        self.faults.get()
    }
}

impl<W: Write> Sink for StdSink<W> {
    ghost seen = { λ faults. record { held = None; faults = faults } };

    fn write(&mut self, from: &[u8]) -> Result<usize, Failed> {
        write_counted(&mut self.writer, &mut self.faults, from)
    }

    fn flush(&mut self) -> Result<(), Failed> {
        flush_counted(&mut self.writer, &mut self.faults)
    }
}

/// One write, whose fault is counted; to take no byte is one too. Where the writer tells its bytes, as many were added as are
/// answered, and none at a fault.
fn write_counted<W: Write>(writer: &mut W, faults: &mut Count, from: &[u8]) -> Result<usize, Failed>
    ensures count { IfOk result (λ n. n ≤ length from.now) }
    ensures bytes { WriteAppends (W.contents writer.old) (W.contents writer.new) result from.now }
    ensures no_fault { IfOk result (λ n. 0 < n → faults.new ≡ faults.old) }
    ensures nothing { result ≡ Ok 0 → Rose faults.old faults.new }
    ensures failed { OnErr result (Rose faults.old faults.new) }
{
    match write_retrying(writer, from) {
        Ok(0) => {
            faults.rise();
            Ok(0)
        }
        Ok(count) => Ok(count),
        Err(_) => {
            faults.rise();
            Err(Failed)
        }
    }
}

/// One flush, whose fault is counted.
fn flush_counted<W: Write>(writer: &mut W, faults: &mut Count) -> Result<(), Failed>
    ensures bytes { Keeps (W.contents writer.old) (W.contents writer.new) }
    ensures no_fault { OnOk result (faults.new ≡ faults.old) }
    ensures failed { OnErr result (Rose faults.old faults.new) }
{
    match flush_retrying(writer) {
        Ok(()) => Ok(()),
        Err(_) => {
            faults.rise();
            Err(Failed)
        }
    }
}
