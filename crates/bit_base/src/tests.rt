use crate::{BitOut, MOST_BYTES, Order, number_at, put_number};
use std::process::Abort;
use std::test::Fail;

const BYTES: [u8; 4] = [0xFF, 0x00, 0xA5, 0x3C];

/// First bit, width, the number in big order, and in little order where the width is whole bytes.
const READINGS: [(u32, u8, u64, Option<u64>); 12] = [
    (0, 8, 0xFF, Some(0xFF)),
    (3, 13, 0x1F00, None),
    (4, 16, 0xF00A, Some(0x0AF0)),
    (16, 16, 0xA53C, Some(0x3CA5)),
    (0, 32, 0xFF00_A53C, Some(0x3CA5_00FF)),
    (5, 24, 0xE0_14A7, Some(0xA7_14E0)),
    (20, 12, 0x53C, None),
    (6, 3, 6, None),
    (7, 1, 1, None),
    (8, 1, 0, None),
    (29, 1, 1, None),
    (31, 1, 0, None),
];

const NINE: [u8; 9] = [0x01, 0x23, 0x45, 0x67, 0x89, 0xAB, 0xCD, 0xEF, 0x01];

fn check_reading(
    rt: &impl Abort,
    bytes: &[u8],
    bit: u32,
    width: u8,
    big: u64,
    little: Option<u64>,
) {
    assert!(rt; bytes.len() <= MOST_BYTES);
    assert!(rt; width >= 1);
    assert!(rt; width <= 64);
    assert!(rt; bit <= 1000);
    assert!(rt; bit as usize + usize::from(width) <= 8 * bytes.len());
    assert_eq!(rt; number_at(bytes, bit, width, Order::Big), big);
    if let Some(little) = little {
        assert!(rt; width % 8 == 0);
        assert_eq!(rt; number_at(bytes, bit, width, Order::Little), little);
    }
}

#[test]
fn numbers_are_read_at_any_bit(rt: HostRuntime) {
    for (bit, width, big, little) in READINGS {
        check_reading(&rt, &BYTES, bit, width, big, little);
    }
}

#[test]
fn the_widest_numbers_touch_nine_bytes(rt: HostRuntime) {
    check_reading(
        &rt,
        &NINE,
        7,
        64,
        0x91A2_B3C4_D5E6_F780,
        Some(0x80F7_E6D5_C4B3_A291),
    );
    check_reading(
        &rt,
        &NINE,
        8,
        64,
        0x2345_6789_ABCD_EF01,
        Some(0x01EF_CDAB_8967_4523),
    );
    check_reading(&rt, &NINE, 0, 63, 0x0091_A2B3_C4D5_E6F7, None);
}

#[test]
fn numbers_are_put_and_their_neighbours_stay(rt: HostRuntime) {
    let mut ones = [0xFFu8; 3];
    put_number(&mut ones, 3, 13, Order::Big, 0);
    assert_eq!(rt; ones, [0xE0, 0x00, 0xFF]);
    let mut zeros = [0u8; 3];
    put_number(&mut zeros, 4, 16, Order::Big, 0xABCD);
    assert_eq!(rt; zeros, [0x0A, 0xBC, 0xD0]);
    put_number(&mut zeros, 4, 16, Order::Little, 0xABCD);
    assert_eq!(rt; zeros, [0x0C, 0xDA, 0xB0]);
    put_number(&mut zeros, 23, 1, Order::Big, 1);
    assert_eq!(rt; zeros, [0x0C, 0xDA, 0xB1]);
}

#[test]
fn the_widest_numbers_are_put(rt: HostRuntime) {
    let mut ones = [0xFFu8; 9];
    put_number(&mut ones, 7, 64, Order::Big, 0);
    assert_eq!(rt; ones, [0xFE, 0, 0, 0, 0, 0, 0, 0, 0x01]);
    let mut zeros = [0u8; 9];
    put_number(&mut zeros, 7, 64, Order::Big, 0x91A2_B3C4_D5E6_F780);
    assert_eq!(rt;
        zeros,
        [0x01, 0x23, 0x45, 0x67, 0x89, 0xAB, 0xCD, 0xEF, 0x00]
    );
    put_number(&mut zeros, 7, 64, Order::Little, 0x80F7_E6D5_C4B3_A291);
    assert_eq!(rt;
        zeros,
        [0x01, 0x23, 0x45, 0x67, 0x89, 0xAB, 0xCD, 0xEF, 0x00]
    );
}

#[test]
fn an_output_gives_its_bytes(rt: HostRuntime) -> Result<(), Fail> {
    let mut out = BitOut::new(rt.alloc());
    out.put(0b10110, 5, Order::Big)?;
    out.put(0b011, 3, Order::Big)?;
    out.put(0xABC, 12, Order::Big)?;
    out.put(0x1234, 16, Order::Little)?;
    out.put(0xF, 4, Order::Big)?;
    assert_eq!(rt; out.bits(), 40);
    let bytes = out.into_bytes()?;
    assert_eq!(rt; bytes.as_slice(), [0xB3, 0xAB, 0xC3, 0x41, 0x2F].as_slice());
    Ok(())
}

#[test]
fn an_output_of_no_whole_bytes_comes_back(rt: HostRuntime) -> Result<(), Fail> {
    let mut out = BitOut::new(rt.alloc());
    out.put(0b1010101, 7, Order::Big)?;
    match out.into_bytes() {
        Ok(_) => panic!(rt; "seven bits are no byte"),
        Err(mut out) => {
            assert_eq!(rt; out.bits(), 7);
            out.put(1, 1, Order::Big)?;
            let bytes = out.into_bytes()?;
            assert_eq!(rt; bytes.as_slice(), [0xAB].as_slice());
        }
    }
    Ok(())
}

#[test]
fn an_output_takes_the_widest_numbers(rt: HostRuntime) -> Result<(), Fail> {
    let empty = BitOut::new(rt.alloc()).into_bytes()?;
    assert_eq!(rt; empty.len(), 0);
    let mut out = BitOut::new(rt.alloc());
    out.put(5, 3, Order::Big)?;
    out.put(u64::MAX, 64, Order::Little)?;
    out.put(0, 5, Order::Big)?;
    let bytes = out.into_bytes()?;
    let wanted = [0xBF, 0xFF, 0xFF, 0xFF, 0xFF, 0xFF, 0xFF, 0xFF, 0xE0];
    assert_eq!(rt; bytes.as_slice(), wanted.as_slice());
    Ok(())
}
