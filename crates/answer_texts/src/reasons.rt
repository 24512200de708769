ghost use Rattle.std.specs.Prelude.{◌≡◌, ◌++◌, codes, decimal};
ghost use Rattle.node_tree.specs.Appends.{Appends};
ghost use Rattle.answer_texts.specs.Texts.{eval_fault_text, read_why_text, write_why_text, frame_why_text, reason_text};

use crate::values::append_number;
use node_tree::{EvalFault, ReadWhy, WriteWhy};
use std::alloc::AllocError;
use wire_frames::{FrameWhy, Reason};

/// The name of why bits aren't a value.
pub fn read_why_text(why: ReadWhy) -> &'static [u8]
    ensures { result.now ≡ read_why_text why }
{
    match why {
        ReadWhy::ConstMismatch => b"ConstMismatch",
        ReadWhy::NoCase => b"NoCase",
        ReadWhy::CountRange => b"CountRange",
        ReadWhy::LengthOverrun => b"LengthOverrun",
        ReadWhy::ZeroItem => b"ZeroItem",
        ReadWhy::ValueRange => b"ValueRange",
        ReadWhy::ChecksumMismatch => b"ChecksumMismatch",
        ReadWhy::NullAccess => b"NullAccess",
        ReadWhy::CastFails => b"CastFails",
        ReadWhy::EnumAttr => b"EnumAttr",
        ReadWhy::TooDeep => b"TooDeep",
        ReadWhy::TooLong => b"TooLong",
    }
}

fn eval_fault_text(fault: EvalFault) -> &'static [u8]
    ensures { result.now ≡ eval_fault_text fault }
{
    match fault {
        EvalFault::NullAccess => b"NullAccess",
        EvalFault::CastFails => b"CastFails",
        EvalFault::EnumAttr => b"EnumAttr",
    }
}

/// The name of why a value can't be written.
pub(crate) fn write_why_text(why: WriteWhy) -> &'static [u8]
    ensures { result.now ≡ write_why_text why }
{
    match why {
        WriteWhy::LocalDisagrees => b"LocalDisagrees",
        WriteWhy::CountDisagrees => b"CountDisagrees",
        WriteWhy::CaseDisagrees => b"CaseDisagrees",
        WriteWhy::ValueRange => b"ValueRange",
        WriteWhy::Shape => b"Shape",
        WriteWhy::ZeroItem => b"ZeroItem",
        WriteWhy::Eval(fault) => eval_fault_text(fault),
        WriteWhy::Unaligned => b"Unaligned",
        WriteWhy::TooLong => b"TooLong",
        WriteWhy::TooDeep => b"TooDeep",
    }
}

/// Adds words and a number. An `Err` leaves a text that begins as before.
pub(crate) fn append_numbered(
    text: &mut Vec<u8>,
    words: &[u8],
    number: u64,
) -> Result<(), AllocError>
    ensures { Appends result text.old.items text.new.items (words.now ++ decimal number) }
{
    text.extend_from_slice(words)?;
    append_number(text, number)
}

/// Adds words, a number and a space. An `Err` leaves a text that begins as before.
pub(crate) fn append_spaced(text: &mut Vec<u8>, words: &[u8], number: u64) -> Result<(), AllocError>
    ensures { Appends result text.old.items text.new.items
        (words.now ++ decimal number ++ codes " ") }
{
    append_numbered(text, words, number)?;
    text.extend_from_slice(b" ")
}

/// Adds words and two numbers. An `Err` leaves a text that begins as before.
pub(crate) fn append_pair(
    text: &mut Vec<u8>,
    words: &[u8],
    first: u64,
    second: u64,
) -> Result<(), AllocError>
    ensures { Appends result text.old.items text.new.items
        (words.now ++ decimal first ++ codes " " ++ decimal second) }
{
    append_spaced(text, words, first)?;
    append_number(text, second)
}

/// Adds why a frame can't be read. An `Err` leaves a text that begins as before.
fn append_frame_why(text: &mut Vec<u8>, why: FrameWhy) -> Result<(), AllocError>
    ensures { Appends result text.old.items text.new.items (frame_why_text why) }
{
    match why {
        FrameWhy::Length { got } => append_numbered(text, b"length ", u64::from(got)),
        FrameWhy::Short => text.extend_from_slice(b"short"),
        FrameWhy::Unused { bits } => append_numbered(text, b"unused ", u64::from(bits)),
        FrameWhy::Bad { bit, why } => {
            append_spaced(text, b"bad ", u64::from(bit))?;
            text.extend_from_slice(read_why_text(why))
        }
        FrameWhy::NotReply => text.extend_from_slice(b"not reply"),
    }
}

/// Adds that the frame with this number can't be read, and why. An `Err` leaves a text that begins as before.
pub(crate) fn append_undecodable(
    text: &mut Vec<u8>,
    index: u64,
    why: FrameWhy,
) -> Result<(), AllocError>
    ensures { Appends result text.old.items text.new.items
        (codes "undecodable " ++ decimal index ++ codes " " ++ frame_why_text why) }
{
    append_spaced(text, b"undecodable ", index)?;
    append_frame_why(text, why)
}

/// Adds why a connection closed. An `Err` leaves a text that begins as before.
pub(crate) fn append_reason(text: &mut Vec<u8>, reason: Reason) -> Result<(), AllocError>
    ensures { Appends result text.old.items text.new.items (reason_text reason) }
{
    match reason {
        Reason::PeerEnded => text.extend_from_slice(b"peer ended"),
        Reason::ReadFault => text.extend_from_slice(b"read fault"),
        Reason::WriteFault => text.extend_from_slice(b"write fault"),
        Reason::Undecodable { index, why } => append_undecodable(text, index, why),
        Reason::Worn => text.extend_from_slice(b"worn"),
        Reason::Asked => text.extend_from_slice(b"asked"),
        Reason::NoMemory => text.extend_from_slice(b"no memory"),
    }
}
