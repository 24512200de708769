ghost use Rattle.std.specs.Prelude.{◌≡◌, ◌≤◌, false, length, IfOk, OnOk};
ghost use Rattle.std.specs.Io.KnownBytes.{Keeps, ReadConsumes, WriteAppends};

use std::io;
use std::io::{ErrorKind, Read, Write};

/// How often a call that a signal interrupted is made again before it counts as failed.
const MOST_INTERRUPTIONS: u32 = 1_000_000;

fn was_interrupted<T>(outcome: &io::Result<T>) -> bool
    ensures { OnOk outcome.now (result ≡ false) }
{
    match outcome {
        Ok(_) => false,
        Err(error) => error.kind() == ErrorKind::Interrupted,
    }
}

/// What one read takes, where the reader tells it: an error takes nothing, and 0 bytes come only at its end.
pub(crate) fn read_retrying<R: Read>(reader: &mut R, to: &mut [u8]) -> io::Result<usize>
    ensures count { IfOk result (λ n. n ≤ length to.new) }
    ensures bytes { ReadConsumes (R.remaining reader.old) (R.remaining reader.new) result to.new }
{
    for _ in 0..MOST_INTERRUPTIONS {
        let outcome = reader.read(to);
        if !was_interrupted(&outcome) {
            return outcome;
        }
    }
    reader.read(to)
}

/// What one write puts out, where the writer tells it: as many bytes as it answers, and none at an error.
pub(crate) fn write_retrying<W: Write>(writer: &mut W, from: &[u8]) -> io::Result<usize>
    ensures count { IfOk result (λ n. n ≤ length from.now) }
    ensures bytes { WriteAppends (W.contents writer.old) (W.contents writer.new) result from.now }
{
    for _ in 0..MOST_INTERRUPTIONS {
        let outcome = writer.write(from);
        if !was_interrupted(&outcome) {
            return outcome;
        }
    }
    writer.write(from)
}

/// A flush leaves what the writer holds; that it is one, no clause can say.
pub(crate) fn flush_retrying<W: Write>(writer: &mut W) -> io::Result<()>
    ensures { Keeps (W.contents writer.old) (W.contents writer.new) }
{
    for _ in 0..MOST_INTERRUPTIONS {
        let outcome = writer.flush();
        if !was_interrupted(&outcome) {
            return outcome;
        }
    }
    writer.flush()
}
