ghost use Rattle.std.specs.Prelude.{◌≡◌, ◌≤◌, ◌*◌, ◌%◌, ◌^◌, ◌<◌};
ghost use Rattle.node_tree.specs.Bits.{number_bits, little_number};
ghost use Rattle.bit_base.specs.Numbers.{number, spelling};

/// The order of the groups of eight bits in a number: the most significant first, or the least.
#[derive(Clone, Copy, Debug, PartialEq, Eq)]
pub enum Order {
    Big,
    Little,
}

/// The number whose bytes, so many, are those of `number` in the other order.
fn turned(number: u64, count: u8) -> u64
    requires { count ≤ 8 }
    ensures { result ≡ little_number (number_bits (8 * count) number) }
{
    let mut rest = number;
    let mut turned: u64 = 0;
    for _done in 0..count {
        turned = turned * 256 + rest % 256;
        rest /= 256;
    }
    turned
}

/// The number that the so many bits of this one spell in an order of bytes. The bits of the result, in turn, are those
/// that spell this number in that order.
pub fn in_order(plain: u64, width: u8, order: Order) -> u64
    requires width { width ≤ 64 }
    requires groups { order ≡ Order.Little → width % 8 ≡ 0 }
    requires fits { plain < 2 ^ width }
    ensures value { result ≡ number order (number_bits width plain) }
    ensures bits { number_bits width result ≡ spelling order width plain }
    ensures fits { result < 2 ^ width }
{
    match order {
        Order::Big => plain,
        Order::Little => turned(plain, width / 8),
    }
}
