//! Cuts a made stream of frames into frames again, in pieces of one size, and tells how many came out. It is there to be timed:
//! `bench/framer.py` runs it.
//!
//! Its words are how many frames the stream has, up to 10,000,000, and how many bytes each piece has, up to 65,536.
#![tactic(auto)]

ghost use Rattle.std.specs.Prelude.{◌<◌, ◌≤◌};

use std::alloc::{AllocError, Global};
use std::rt::Env;
use std::{env, io};
use wire_frames::{Framed, Framer, LengthRule};

/// A request of Modbus that reads a register.
const FRAME: [u8; 12] = [0, 1, 0, 0, 0, 6, 1, 3, 0, 0, 0, 1];

/// How many frames of how many bytes a piece.
#[derive(Clone, Copy)]
struct Stream {
    frames: u32,
    piece: usize,
}

/// The front of the stream, with room for a piece from each byte of a frame on.
fn made_front(alloc: Global, piece: usize) -> Result<Vec<u8>, AllocError> {
    let mut front = Vec::new(alloc);
    for _ in 0..(piece.min(65_536) / FRAME.len() + 2) {
        front.extend_from_slice(&FRAME)?;
    }
    Ok(front)
}

/// How many frames are whole by now.
fn whole_frames(framer: &mut Framer, piece: usize) -> u64 {
    let mut count = 0u64;
    for _ in 0..piece.saturating_add(1) {
        match framer.next() {
            Framed::Frame(_) => count = count.saturating_add(1),
            _ => break,
        }
    }
    count
}

/// How many frames come out of the stream.
fn count_frames(alloc: Global, stream: Stream) -> Result<u64, AllocError> {
    let front = made_front(alloc, stream.piece)?;
    let mut framer = Framer::new(alloc, LengthRule::Modbus);
    let mut left = u64::from(stream.frames) * 12;
    let mut count = 0u64;
    let mut from = 0usize;
    for _ in 0..left {
        if left == 0 {
            break;
        }
        let size = stream.piece.min(left as usize);
        let Some(piece) = front.get(from..from.saturating_add(size)) else {
            break;
        };
        framer.feed(piece)?;
        count = count.saturating_add(whole_frames(&mut framer, size));
        left = left.saturating_sub(size as u64);
        from = from.saturating_add(size) % FRAME.len();
    }
    Ok(count)
}

/// The stream that the words tell of, or a small one.
fn told_stream(rt: &(impl Env + AllocGlobal)) -> io::Result<Stream> {
    let mut stream = Stream {
        frames: 1_000,
        piece: 7,
    };
    for (place, word) in env::args(rt)?.skip(1).enumerate() {
        let Ok(number) = word.as_str().parse::<u32>() else {
            continue;
        };
        if place == 0 {
            stream.frames = number.min(10_000_000);
        } else {
            stream.piece = (number as usize).clamp(1, 65_536);
        }
    }
    Ok(stream)
}

fn main(rt: HostRuntime) -> io::Result<()> {
    let stream = told_stream(&rt)?;
    let count = count_frames(rt.alloc(), stream)?;
    println!(rt; "{count} frames")?;
    Ok(())
}
