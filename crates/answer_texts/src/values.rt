ghost use Rattle.std.specs.Prelude.{◌≡◌, ◌∷◌, ◌++◌, codes, IfOk};
ghost use Rattle.std.specs.List.{flat_map};
ghost use Rattle.std.specs.String.{string_bytes};
ghost use Rattle.hex.specs.Hex.{encode_lower};
ghost use Rattle.node_tree.specs.Appends.{Appends};
ghost use Rattle.answer_texts.specs.Texts.{items_text, raw_text, value_text, values_text};

use itoa::{Buffer, Integer};
use std::alloc::{AllocError, Global};
use wire_frames::{PlcValue, ValueList};

/// Adds bytes as pairs of small digits. An `Err` leaves a text that begins as before.
pub(crate) fn append_hex(text: &mut Vec<u8>, bytes: &[u8]) -> Result<(), AllocError>
    ensures { Appends result text.old.items text.new.items (encode_lower bytes.now) }
{
    let digits = hex::encode(*text.allocator(), bytes)?;
    text.extend_from_slice(digits.as_bytes())
}

/// Adds a number in decimal digits. An `Err` leaves a text that begins as before.
pub(crate) fn append_number<I: Integer>(text: &mut Vec<u8>, number: I) -> Result<(), AllocError>
    ensures { Appends result text.old.items text.new.items (I.text number) }
{
    let mut buffer = Buffer::new();
    text.extend_from_slice(buffer.format(number).as_bytes())
}

/// The digits of raw bits.
fn raw_digits(alloc: Global, bits: u64, width: u8) -> Result<String, AllocError>
    ensures { IfOk result (λ digits. codes "16#" ++ string_bytes digits ≡ raw_text bits width) }
{
    let bytes = bits.to_be_bytes();
    if width == 32 {
        hex::encode_upper(alloc, &bytes[4..])
    } else {
        hex::encode_upper(alloc, bytes)
    }
}

fn append_raw(text: &mut Vec<u8>, bits: u64, width: u8) -> Result<(), AllocError>
    ensures { Appends result text.old.items text.new.items (raw_text bits width) }
{
    let digits = raw_digits(*text.allocator(), bits, width)?;
    text.extend_from_slice(b"16#")?;
    text.extend_from_slice(digits.as_bytes())
}

fn append_value(text: &mut Vec<u8>, value: PlcValue) -> Result<(), AllocError>
    ensures { Appends result text.old.items text.new.items (value_text value) }
{
    match value {
        PlcValue::Bool(true) => text.extend_from_slice(b"true"),
        PlcValue::Bool(false) => text.extend_from_slice(b"false"),
        PlcValue::Whole(number) => append_number(text, number),
        PlcValue::Raw { bits, width } => append_raw(text, bits, width),
    }
}

/// Adds values, each behind a comma.
fn append_more(text: &mut Vec<u8>, values: &[PlcValue]) -> Result<(), AllocError>
    ensures { Appends result text.old.items text.new.items
        (flat_map (λ value. 44 ∷ value_text value) values.now) }
{
    for value in values {
        text.extend_from_slice(b",")?;
        append_value(text, *value)?;
    }
    Ok(())
}

fn append_values(text: &mut Vec<u8>, values: &[PlcValue]) -> Result<(), AllocError>
    ensures { Appends result text.old.items text.new.items (values_text values.now) }
{
    match values {
        [] => Ok(()),
        [first, more @ ..] => {
            append_value(text, *first)?;
            append_more(text, more)
        }
    }
}

/// Adds a word for each row. An `Err` leaves a text that begins as before.
pub(crate) fn append_rows(text: &mut Vec<u8>, rows: &[ValueList]) -> Result<(), AllocError>
    ensures { Appends result text.old.items text.new.items (items_text rows.now) }
{
    for row in rows {
        text.extend_from_slice(b" ")?;
        append_values(text, row.as_slice())?;
    }
    Ok(())
}
