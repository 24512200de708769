//! Powers of two, and binary digits.

ghost use Rattle.std.specs.Prelude.{◌≡◌, ◌-◌, ◌≤◌, ◌^◌};
ghost use Rattle.mspec_expr.specs.Kinds.{binary_digits};

/// 2 to this power.
pub fn power_of_two(exponent: u32) -> u128
    requires { exponent ≤ 64 }
    ensures value { result ≡ 2 ^ exponent }
    ensures bound { result ≤ 2 ^ 64 }
{
    2u128.pow(exponent)
}

/// How many binary digits a number has.
pub fn binary_digits(number: u128) -> u32
    ensures value { result ≡ binary_digits number }
    ensures bound { result ≤ 128 }
{
    if number == 0 { 0 } else { number.ilog2() + 1 }
}
