ghost use Rattle.std.specs.Prelude.{◌≡◌, ◌≤◌, ◌*◌, length, MatchResult, OnOk, Ok, Err, ◌+◌};
ghost use Rattle.node_tree.specs.Bits.{bits_of, big_number, little_number};
ghost use Rattle.mspec_meaning.specs.Plain.{IsWidth};
ghost use Rattle.mspec_meaning.specs.Reads.{number, number_read, number_part, order_of};
ghost use Rattle.mspec_meaning.specs.Faults.{OfFault};

use mspec_tree::ByteOrder;
use node_tree::{ReadFault, ReadWhy};

/// No number of a value ends past this bit.
pub const BIT_LIMIT: u32 = 524_280;

/// The number that up to eight bytes spell, the most significant byte first.
pub fn big_endian(bytes: &[u8]) -> u64
    requires { length bytes.now ≤ 8 }
    ensures { result ≡ big_number (bits_of bytes.now) }
{
    let mut number: u64 = 0;
    for byte in bytes {
        number = number * 256 + u64::from(*byte);
    }
    number
}

/// The number that up to eight bytes spell, the least significant byte first.
pub fn little_endian(bytes: &[u8]) -> u64
    requires { length bytes.now ≤ 8 }
    ensures { result ≡ little_number (bits_of bytes.now) }
{
    let mut number: u64 = 0;
    for byte in bytes.iter().rev() {
        number = number * 256 + u64::from(*byte);
    }
    number
}

/// The number that up to eight bytes spell in this order of bytes.
pub fn number_of(order: ByteOrder, bytes: &[u8]) -> u64
    requires { length bytes.now ≤ 8 }
    ensures { result ≡ number order (bits_of bytes.now) }
{
    match order {
        ByteOrder::Big => big_endian(bytes),
        ByteOrder::Little => little_endian(bytes),
    }
}

/// The order of bytes of a field of `width` bits, by its own order and that of its definition.
pub fn order_of(own: Option<ByteOrder>, above: Option<ByteOrder>, width: u8) -> ByteOrder
    ensures { result ≡ order_of own above width }
{
    match (own, above) {
        (Some(order), _) => order,
        (None, Some(order)) if width % 8 == 0 => order,
        _ => ByteOrder::Big,
    }
}

/// The unsigned number of `width` bits from the byte `from` of a value on, in this order of bytes.
pub fn number_at(bytes: &[u8], from: usize, width: u8, order: ByteOrder) -> Result<u64, ReadFault>
    requires width { IsWidth width }
    requires from { 8 * from ≤ BIT_LIMIT }
    ensures within { OnOk result (8 * from + width ≤ BIT_LIMIT) }
    ensures number { MatchResult result
        (λ n. number_read order width (8 * from) (bits_of bytes.now) ≡ Ok (number_part n width (8 * from)))
        (λ e. OfFault e (λ fault. number_read order width (8 * from) (bits_of bytes.now) ≡ Err fault)) }
{
    let at = 8 * from as u32;
    if at + u32::from(width) > BIT_LIMIT {
        return Err(ReadFault::Bad {
            bit: at,
            why: ReadWhy::TooLong,
        });
    }
    let end = from + usize::from(width / 8);
    if bytes.len() < end {
        return Err(ReadFault::Short);
    }
    Ok(number_of(order, &bytes[from..end]))
}
