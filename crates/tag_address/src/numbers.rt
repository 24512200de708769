//! Decimal numbers in front of a text, without leading zeros.

ghost use Rattle.std.specs.Prelude.{◌≡◌, ◌+◌, ◌-◌, ◌*◌, ◌^◌, ◌≤◌, ◌<◌, ◌++◌, length, take, drop, decimal, IfSome, IfNone};
ghost use Rattle.std.specs.Option.{SomeIff};
ghost use Rattle.tag_address.specs.Parts.{GoesOn, IsLonger, IsNumber, IsNumberAt, IsStuckPart};

/// The number of one more digit, if it is at most `most`. No digit follows a leading zero.
fn with_digit(value: u32, byte: u8, most: u32) -> Option<u32>
    requires { value ≤ 65536 }
    ensures { SomeIff result (GoesOn value most byte) (value * 10 + (byte - 48)) }
{
    if value == 0 || !byte.is_ascii_digit() {
        return None;
    }
    let longer = value * 10 + u32::from(byte - b'0');
    if longer <= most { Some(longer) } else { None }
}

/// The number that goes on with the digits in front of a text, as long as it is at most `most`, and how many they are.
fn with_digits(mut value: u32, text: &[u8], most: u32) -> (u32, usize)
    requires within { value ≤ most }
    requires range { most ≤ 65536 }
    ensures { IsLonger value most text.now result.0 result.1 }
{
    for (place, byte) in text.iter().enumerate() {
        match with_digit(value, *byte, most) {
            Some(longer) => value = longer,
            None => return (value, place),
        }
    }
    (value, text.len())
}

/// The longest number from `least` to `most` in front of a text, and how many digits it has.
pub fn read_number(text: &[u8], least: u32, most: u32) -> Option<(u32, usize)>
    requires low { least ≤ 1 }
    requires order { least ≤ most }
    requires range { most ≤ 65536 }
    ensures found { IfSome result (λ r. IsNumberAt least most text.now r.0 r.1) }
    ensures missing { IfNone result (IsStuckPart (IsNumber least most) text.now 0) }
{
    if text.is_empty() || !text[0].is_ascii_digit() {
        return None;
    }
    let digit = u32::from(text[0] - b'0');
    if digit < least || digit > most {
        return None;
    }
    let (value, used) = with_digits(digit, &text[1..], most);
    Some((value, used + 1))
}
