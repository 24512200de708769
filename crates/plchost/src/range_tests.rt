//! The ends of the ranges: no clause refuses a body that finds no memory past some size.
use crate::tests::{ONE_BYTE, decoded};
use host_engine::{How, Rest, Status, ValueWhy, close, put_values};
use link_io::MemSink;
use mspec_meaning::can_read;
use mspec_tree::{Def, DefBody, Description, Place};
use node_tree::ReadWhy;
use sqlite_items::Items;
use std::alloc::{AllocError, Global};
use std::fmt::Write;
use std::test::Fail;

/// The 257th field stands at this place.
const TOO_MANY_FIELDS: &str = "description refused 1:5275 Limit\n";

const TEXT_TOO_LONG: &str = "description refused 1:1 TextTooLong\n";

/// A type `P` of so many fields of a byte.
fn type_of_bytes(alloc: Global, count: u32) -> Result<String, AllocError> {
    let mut text = String::from_str(alloc, "[type P")?;
    for number in 0..count {
        write!(text, " [simple uint 8 a{number}]")?;
    }
    text.push_str("]")?;
    Ok(text)
}

/// The listing of its value whose bytes are 7.
fn listing_of_sevens(alloc: Global, count: u32) -> Result<String, AllocError> {
    let mut text = String::new(alloc);
    for number in 0..count {
        write!(text, "a{number} = 7\n")?;
    }
    text.push_str("\n")?;
    Ok(text)
}

#[test]
fn a_type_has_up_to_256_fields(rt: HostRuntime) -> Result<(), Fail> {
    let sevens = [7u8; 257];
    for (count, status) in [(1u32, 0), (3, 0), (256, 0), (257, 1)] {
        let text = type_of_bytes(rt.alloc(), count)?;
        let listing = listing_of_sevens(rt.alloc(), count)?;
        let want = if status == 0 {
            listing.as_str()
        } else {
            TOO_MANY_FIELDS
        };
        let input = sevens.get(..count as usize).ok_or("short")?;
        let ran = decoded(rt.alloc(), text.as_bytes(), input, 100_000)?;
        assert_eq!(rt; ran.text.as_slice(), want.as_bytes(), "{count} fields");
        assert_eq!(rt; ran.status, status);
    }
    Ok(())
}

#[test]
fn a_description_has_up_to_1048576_bytes(rt: HostRuntime) -> Result<(), Fail> {
    for (bytes, want, status) in [
        (1_048_576, "a = 7\n\n", 0),
        (1_048_577, TEXT_TOO_LONG, 1),
        (1_100_000, TEXT_TOO_LONG, 1),
    ] {
        let mut text = Vec::from_slice(rt.alloc(), ONE_BYTE)?;
        text.resize(bytes, b' ')?;
        let ran = decoded(rt.alloc(), &text, b"\x07", 100_000)?;
        assert_eq!(rt; ran.text.as_slice(), want.as_bytes(), "{bytes} bytes");
        assert_eq!(rt; ran.status, status);
    }
    Ok(())
}

/// Where a value is refused and why, and the last line.
const REFUSED_VALUES: [(u64, ValueWhy, &str); 3] = [
    (
        0,
        ValueWhy::Reading(ReadWhy::ZeroItem),
        "value refused 0 ZeroItem\n",
    ),
    (12, ValueWhy::PartOfByte, "value refused 12 Unaligned\n"),
    (
        134_217_720,
        ValueWhy::Reading(ReadWhy::TooLong),
        "value refused 134217720 TooLong\n",
    ),
];

#[test]
fn a_refused_value_is_the_last_line_however_the_input_was_left(
    rt: HostRuntime,
) -> Result<(), Fail> {
    for (bit, why, want) in REFUSED_VALUES {
        for how in [How::Ended, How::Failed, How::Over] {
            let mut gathered = Vec::new(rt.alloc());
            let status = close(rt.alloc(), &mut gathered, how, Rest::Bad { bit, why })?;
            assert!(rt; matches!(status, Status::ValueRefused));
            assert_eq!(rt; gathered.as_slice(), want.as_bytes());
        }
    }
    Ok(())
}

/// A type without fields, which no text of the first form gives.
fn empty_type(alloc: Global) -> Result<Description, AllocError> {
    let place = Place { line: 1, column: 1 };
    let mut defs = Items::new(alloc);
    defs.push(Def {
        place,
        named: place,
        name: Items::from_slice(alloc, b"P")?,
        params: Items::new(alloc),
        order: None,
        body: DefBody::Plain(Items::new(alloc)),
    })?;
    Ok(Description { defs })
}

#[test]
fn a_value_without_bits_is_refused(rt: HostRuntime) -> Result<(), Fail> {
    let d = empty_type(rt.alloc())?;
    assert!(rt; can_read(&d, 0, &[]));
    let mut out = MemSink::new(rt.alloc(), 100, Vec::new(rt.alloc()))?;
    let mut gathered = Vec::new(rt.alloc());
    let rest = put_values(rt.alloc(), &mut out, &mut gathered, &d, 0, &[1, 2])?;
    let why = ValueWhy::Reading(ReadWhy::ZeroItem);
    assert_eq!(rt; rest, Rest::Bad { bit: 0, why });
    assert_eq!(rt; gathered.len(), 0);
    Ok(())
}
