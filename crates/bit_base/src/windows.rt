ghost use Rattle.std.specs.Prelude.{◌≡◌, ◌≤◌, ◌+◌, ◌*◌, ◌/◌, ◌%◌, ◌^◌, ◌<◌, length};
ghost use Rattle.node_tree.specs.Bits.{number_bits, big_number, bits_of};

/// The bytes that some bits touch, `from` up to `to`, and how many bits of the last one stand behind them.
#[derive(Clone, Copy)]
pub struct Window {
    pub from: usize,
    pub to: usize,
    pub behind: u32,
}

/// The window of so many bits from `bit` on.
pub fn window_of(bit: u32, width: u8) -> Window
    requires { bit + width < 2 ^ 31 }
    ensures first { 8 * result.from ≤ bit }
    ensures nearest { bit < 8 * result.from + 8 }
    ensures end { bit + width + result.behind ≡ 8 * result.to }
    ensures last { result.behind < 8 }
{
    let end = bit + u32::from(width);
    let to = end.div_ceil(8);
    Window {
        from: (bit / 8) as usize,
        to: to as usize,
        behind: 8 * to - end,
    }
}

/// The number that up to nine bytes spell, the most significant byte first.
pub fn number_of_bytes(bytes: &[u8]) -> u128
    requires { length bytes.now ≤ 9 }
    ensures value { result ≡ big_number (bits_of bytes.now) }
    ensures fits { result < 2 ^ 72 }
{
    let mut number: u128 = 0;
    for byte in bytes {
        number = number * 256 + u128::from(*byte);
    }
    number
}

/// Makes the bytes, at most nine, those that spell this number's last bits, the most significant byte first.
pub fn set_bytes(bytes: &mut [u8], number: u128)
    requires { length bytes.old ≤ 9 }
    ensures { bits_of bytes.new ≡ number_bits (8 * length bytes.old) number }
{
    let count = bytes.len();
    for (i, byte) in bytes.iter_mut().enumerate() {
        *byte = (number >> (8 * (count - 1 - i)) & 0xff) as u8;
    }
}

/// The so many bits of a window before those behind.
pub fn field_of(window: u128, behind: u32, width: u8) -> u64
    requires behind { behind < 8 }
    requires width { width ≤ 64 }
    ensures { result ≡ window / 2 ^ behind % 2 ^ width }
{
    let mask = (1u128 << width) - 1;
    (window >> behind & mask) as u64
}

/// The window with this field in the place of its so many bits before those behind.
pub fn with_field(window: u128, behind: u32, width: u8, field: u64) -> u128
    requires window { window < 2 ^ 72 }
    requires behind { behind < 8 }
    requires width { width ≤ 64 }
    requires field { field < 2 ^ width }
    ensures { result ≡ (window / 2 ^ (behind + width) * 2 ^ width + field) * 2 ^ behind + window % 2 ^ behind }
{
    let above = window >> (behind + u32::from(width));
    let below = window & ((1u128 << behind) - 1);
    let front = above << width | u128::from(field);
    front << behind | below
}
