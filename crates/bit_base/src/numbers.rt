ghost use Rattle.std.specs.Prelude.{◌≡◌, ◌≤◌, ◌+◌, ◌*◌, ◌%◌, ◌^◌, ◌<◌, length, take, drop};
ghost use Rattle.node_tree.specs.Bits.{bits_of};
ghost use Rattle.bit_base.specs.Numbers.{number, spelling, put_bits};

use crate::orders::{Order, in_order};
use crate::windows::{field_of, number_of_bytes, set_bytes, window_of, with_field};

/// The most bytes that a slice or an output may have.
pub const MOST_BYTES: usize = 16_777_216;

/// The number of the bits `bit` up to `bit + width` of the bytes, most significant bit first; in little
/// order the groups of eight bits are taken from the last one on.
pub fn number_at(bytes: &[u8], bit: u32, width: u8, order: Order) -> u64
    requires some { 1 ≤ width }
    requires width { width ≤ 64 }
    requires groups { order ≡ Order.Little → width % 8 ≡ 0 }
    requires inside { bit + width ≤ 8 * length bytes.now }
    requires size { length bytes.now ≤ MOST_BYTES }
    ensures value { result ≡ number order (take width (drop bit (bits_of bytes.now))) }
    ensures fits { result < 2 ^ width }
{
    let place = window_of(bit, width);
    let touched = number_of_bytes(&bytes[place.from..place.to]);
    in_order(field_of(touched, place.behind, width), width, order)
}

/// Sets the bits `bit` up to `bit + width` of the bytes to those that spell the value, and no other bit.
pub fn put_number(bytes: &mut [u8], bit: u32, width: u8, order: Order, value: u64)
    requires some { 1 ≤ width }
    requires width { width ≤ 64 }
    requires fits { value < 2 ^ width }
    requires groups { order ≡ Order.Little → width % 8 ≡ 0 }
    requires inside { bit + width ≤ 8 * length bytes.old }
    requires size { length bytes.old ≤ MOST_BYTES }
    ensures { bits_of bytes.new ≡ put_bits (bits_of bytes.old) bit (spelling order width value) }
{
    let window = window_of(bit, width);
    let field = in_order(value, width, order);
    let touched = &mut bytes[window.from..window.to];
    let changed = with_field(number_of_bytes(touched), window.behind, width, field);
    set_bytes(touched, changed);
}
