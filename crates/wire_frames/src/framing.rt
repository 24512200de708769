ghost use Rattle.std.specs.Prelude.{◌≡◌, ◌<◌, ◌≤◌, ◌+◌, ◌^◌, length, OnOk, OnErr};
ghost use Rattle.std.specs.Borrow.{sem};
ghost use Rattle.std.specs.Io.BufRead.{Rests};
ghost use Rattle.wire_frames.specs.Frames.{head_of, is_good, total_of};
ghost use Rattle.wire_frames.specs.Framings.{AnswersFront, after_next, fed, front_as, front_of, opened};
ghost use Rattle.wire_frames.specs.RawFrames.{number_at};

use crate::wires::LengthRule;
use bytes::BytesMut;
use std::alloc::{AllocError, Global};
use std::marker::Model;

/// What a framer answers: the next whole frame, that more bytes must come first, or that the next head tells of `got` bytes, as
/// no frame has. `index` frames were given before it, from 0.
#[derive(Clone, Copy, Debug)]
pub enum Framed<'a> {
    Frame(&'a [u8]),
    More,
    BadLength { index: u64, got: u32 },
}

/// Cuts a stream into frames, in whatever pieces it comes. It holds what came of the frames that weren't asked for yet, so no more
/// than a frame where each piece is followed by asking until no frame is left.
#[derive(Drop)]
pub struct Framer {
    rule: LengthRule,
    given: u64,
    /// How many bytes at the buffer's front are those of the frame that was given last.
    lent: usize,
    buffer: BytesMut,
}

impl Model for Framer {
    ghost use Rattle.std.specs.Prelude.{◌≤◌, drop, length};
    ghost use Rattle.wire_frames.specs.Framings.{Framing};

    ghost Value = { Framing };

    ghost view = { λ f. record { rule = f.rule; given = f.given; left = drop f.lent f.buffer.items } };

    ghost invariant = { λ f. f.lent ≤ length f.buffer.items };
}

/// What a stream begins with: a whole frame of so many bytes, less than one, or a head that tells of so many as no frame has.
#[derive(Clone, Copy, Debug, PartialEq, Eq)]
pub(crate) enum Beginning {
    Whole(usize),
    Partial,
    Bad(u32),
}

/// The number of the two bytes from `at` on.
fn read_number(bytes: &[u8], at: usize) -> usize
    requires { at + 1 < length bytes.now }
    ensures value { result ≡ number_at bytes.now at }
    ensures bound { result < 2 ^ 16 }
{
    usize::from(u16::from_be_bytes([bytes[at], bytes[at + 1]]))
}

/// How many bytes of a frame tell its length.
fn head_of(rule: LengthRule) -> usize
    ensures { result ≡ head_of rule }
{
    match rule {
        LengthRule::Raw => 2,
        LengthRule::Modbus => 6,
        LengthRule::Tpkt => 4,
    }
}

/// How many bytes a frame has, as its head tells.
fn total_of(rule: LengthRule, bytes: &[u8]) -> usize
    requires { head_of rule ≤ length bytes.now }
    ensures value { result ≡ total_of rule bytes.now }
    ensures bound { result < 2 ^ 17 }
{
    match rule {
        LengthRule::Raw => read_number(bytes, 0),
        LengthRule::Modbus => read_number(bytes, 4) + 6,
        LengthRule::Tpkt => read_number(bytes, 2),
    }
}

/// Whether a frame may have so many bytes.
fn is_good(rule: LengthRule, total: usize) -> bool
    ensures { result ≡ is_good rule total }
{
    match rule {
        LengthRule::Raw => 4 <= total && total <= 4_096,
        LengthRule::Modbus => 8 <= total && total <= 260,
        LengthRule::Tpkt => 7 <= total && total <= 4_096,
    }
}

/// What a stream begins with.
fn beginning_of(rule: LengthRule, bytes: &[u8]) -> Beginning
    ensures { front_as result ≡ front_of rule bytes.now }
{
    if bytes.len() < head_of(rule) {
        return Beginning::Partial;
    }
    let total = total_of(rule, bytes);
    if !is_good(rule, total) {
        Beginning::Bad(total as u32)
    } else if bytes.len() < total {
        Beginning::Partial
    } else {
        Beginning::Whole(total)
    }
}

impl Framer {
    ghost use Rattle.wire_frames.specs.contracts.framing.Framer.{the_row};

    /// A framer of a stream of which no byte came yet.
    pub fn new(alloc: Global, rule: LengthRule) -> Framer
        ensures { result ≡ opened rule }
    {
        Framer {
            rule,
            given: 0,
            lent: 0,
            buffer: BytesMut::new(alloc),
        }
    }

    /// Takes the stream's next bytes. An `Err` is want of memory, and changes nothing.
    pub fn feed(&mut self, piece: &[u8]) -> Result<(), AllocError>
        ensures fed { OnOk result (self.new ≡ fed piece.now self.old) }
        ensures kept { OnErr result (self.new ≡ self.old) }
    {
        self.buffer.extend_from_slice(piece)
    }

    /// The stream's next whole frame, which is lent until the next call. Without one, more bytes must come, or the next head tells
    /// of a number of bytes that no frame has, and then this is answered for good.
    pub fn next(&mut self) -> Framed<'_>
        ensures answer { AnswersFront (front_of self.old.rule self.old.left) self.old result }
        ensures* after { sem 𝓛 (Rests the_row self.entry (λ new. new ≡ after_next self.old)) }
    {
        self.buffer.advance(self.lent);
        self.lent = 0;
        match beginning_of(self.rule, self.buffer.as_slice()) {
            Beginning::Whole(size) => {
                self.lent = size;
                self.given = self.given.saturating_add(1);
                Framed::Frame(&self.buffer.as_slice()[..size])
            }
            Beginning::Partial => Framed::More,
            Beginning::Bad(got) => Framed::BadLength {
                index: self.given,
                got,
            },
        }
    }
}
