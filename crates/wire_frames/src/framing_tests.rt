ghost use Rattle.std.specs.Prelude.{◌≡◌};
ghost use Rattle.wire_frames.specs.Framings.{after_next};

use crate::{Framed, Framer, LengthRule};
use std::alloc::{AllocError, Global};
use std::process::Abort;
use std::test::Fail;

/// What a stream comes to: its frames joined, how many they are, and the bad length behind them, if one is.
#[derive(Debug, Drop)]
struct Cut {
    joined: Vec<u8>,
    frames: u64,
    bad: Option<u32>,
}

/// Takes a frame, if a whole one came. So a caller knows what a call leaves.
fn skip_frame(framer: &mut Framer) -> bool
    ensures { framer.new ≡ after_next framer.old }
{
    matches!(framer.next(), Framed::Frame(_))
}

/// Takes the frames that came, and the bad length behind them.
fn take_frames(framer: &mut Framer, cut: &mut Cut) -> Result<(), AllocError> {
    for _ in 0..u64::MAX {
        match framer.next() {
            Framed::Frame(frame) => {
                cut.joined.extend_from_slice(frame)?;
                cut.frames = cut.frames.saturating_add(1);
            }
            Framed::More => return Ok(()),
            Framed::BadLength { index, got } => {
                cut.bad = if index == cut.frames { Some(got) } else { None };
                return Ok(());
            }
        }
    }
    Ok(())
}

fn cut_into(alloc: Global, rule: LengthRule, bytes: &[u8], size: usize) -> Result<Cut, AllocError> {
    let mut framer = Framer::new(alloc, rule);
    let mut cut = Cut {
        joined: Vec::new(alloc),
        frames: 0,
        bad: None,
    };
    for byte in bytes.chunks(size.max(1)) {
        framer.feed(byte)?;
        take_frames(&mut framer, &mut cut)?;
    }
    Ok(cut)
}

/// A stream is so many whole frames, of so many bytes together, and then a bad length or none, in every cut.
fn check_cuts(
    rt: &impl Abort,
    alloc: Global,
    rule: LengthRule,
    bytes: &[u8],
    (frames, size): (u64, usize),
    bad: Option<u32>,
) -> Result<(), Fail> {
    for piece in [1, 2, 3, 7, 4_096] {
        let cut = cut_into(alloc, rule, bytes, piece)?;
        assert_eq!(rt; cut.frames, frames);
        assert!(rt; size <= bytes.len());
        assert_eq!(rt; cut.joined.as_slice(), &bytes[..size]);
        assert_eq!(rt; cut.bad, bad);
    }
    Ok(())
}

#[test]
fn frames_are_the_same_in_every_cut(rt: HostRuntime) -> Result<(), Fail> {
    let alloc = rt.alloc();
    let raw = LengthRule::Raw;
    check_cuts(&rt, alloc, raw, &[], (0, 0), None)?;
    check_cuts(&rt, alloc, raw, &[0, 4, 0, 1, 0, 5, 0, 2, 9], (2, 9), None)?;
    check_cuts(&rt, alloc, raw, &[0, 4, 0, 1, 0], (1, 4), None)?;
    check_cuts(&rt, alloc, raw, &[0, 4, 0, 1, 0, 3, 7], (1, 4), Some(3))?;
    check_cuts(&rt, alloc, raw, &[16, 1, 0, 4, 0, 1], (0, 0), Some(4_097))?;
    let modbus = LengthRule::Modbus;
    let reply = [
        0, 1, 0, 0, 0, 7, 1, 3, 4, 0, 10, 1, 2, 0, 2, 0, 0, 0, 3, 1, 131, 2,
    ];
    check_cuts(&rt, alloc, modbus, &reply, (2, 22), None)?;
    check_cuts(&rt, alloc, modbus, &reply[..21], (1, 13), None)?;
    check_cuts(&rt, alloc, modbus, &[0, 1, 0, 0, 0, 1], (0, 0), Some(7))?;
    check_cuts(&rt, alloc, modbus, &[0, 1, 0, 0, 0], (0, 0), None)?;
    check_cuts(&rt, alloc, modbus, &[0, 1, 0, 0, 0, 255], (0, 0), Some(261))?;
    check_cuts(
        &rt,
        alloc,
        modbus,
        &[0, 1, 0, 0, 255, 255],
        (0, 0),
        Some(65_541),
    )?;
    let tpkt = LengthRule::Tpkt;
    check_cuts(
        &rt,
        alloc,
        tpkt,
        &[3, 0, 0, 7, 2, 240, 128, 3, 0, 0, 6],
        (1, 7),
        Some(6),
    )
}

#[test]
fn the_longest_frames_are_whole(rt: HostRuntime) -> Result<(), Fail> {
    let alloc = rt.alloc();
    let mut stream = vec![in alloc; 0; 8_192]?;
    stream[0] = 16;
    stream[4_096] = 16;
    check_cuts(&rt, alloc, LengthRule::Raw, &stream, (2, 8_192), None)?;
    let mut adu = vec![in alloc; 0; 260]?;
    adu[5] = 254;
    check_cuts(&rt, alloc, LengthRule::Modbus, &adu, (1, 260), None)
}

#[test]
fn a_bad_length_stays_for_good(rt: HostRuntime) -> Result<(), Fail> {
    let mut framer = Framer::new(rt.alloc(), LengthRule::Raw);
    framer.feed(&[0, 4, 0, 1, 0, 3])?;
    assert!(rt; skip_frame(&mut framer));
    assert!(rt; !skip_frame(&mut framer));
    framer.feed(&[0, 4, 0, 1])?;
    match framer.next() {
        Framed::BadLength { index, got } => assert_eq!(rt; (index, got), (1, 3)),
        _ => return Err(Fail::from("a bad length")),
    }
    Ok(())
}
