//! The types, their cases in `PlcData`, and their ranges.

ghost use Rattle.std.specs.Prelude.{◌≡◌, ◌≢◌, ◌↔◌, ℕ, ℤ, ◌<◌, IsTrue, IfSome, IfNone, false};
ghost use Rattle.data_io.specs.Data.{IsWhole, bytes_of, case_of, float_bits};
ghost use Rattle.wire_frames.specs.declared.kinds.PlcType.{PlcType};

use wire_frames::PlcType;

/// The number of a type's case.
pub fn case_number(kind: PlcType, registers: bool) -> u16
    ensures { result ≡ case_of registers kind }
{
    match kind {
        PlcType::Bool => if registers { 1 } else { 2 },
        PlcType::Byte => 3,
        PlcType::Word => 4,
        PlcType::Dword => 5,
        PlcType::Lword => 6,
        PlcType::Sint => 7,
        PlcType::Usint => 8,
        PlcType::Int => 9,
        PlcType::Uint => 10,
        PlcType::Dint => 11,
        PlcType::Udint => 12,
        PlcType::Lint => 13,
        PlcType::Ulint => 14,
        PlcType::Real => 15,
        PlcType::Lreal => 16,
    }
}

/// The type of a case that is a list.
pub fn listed_type(case: u16) -> Option<PlcType>
    ensures found { IfSome result (λ kind. (kind ≢ PlcType.Bool) × (case_of false kind ≡ case)) }
    ensures none { IfNone result ((kind : PlcType) → kind ≢ PlcType.Bool → case_of false kind ≡ case → ⊥) }
{
    let kind = match case {
        3 => PlcType::Byte,
        4 => PlcType::Word,
        5 => PlcType::Dword,
        6 => PlcType::Lword,
        7 => PlcType::Sint,
        8 => PlcType::Usint,
        9 => PlcType::Int,
        10 => PlcType::Uint,
        11 => PlcType::Dint,
        12 => PlcType::Udint,
        13 => PlcType::Lint,
        14 => PlcType::Ulint,
        15 => PlcType::Real,
        16 => PlcType::Lreal,
        _ => return None,
    };
    Some(kind)
}

/// How many bytes a value takes in a list; a flag stands in none.
pub fn byte_width(kind: PlcType) -> usize
    ensures { result ≡ bytes_of kind }
{
    match kind {
        PlcType::Bool => 0,
        PlcType::Byte | PlcType::Sint | PlcType::Usint => 1,
        PlcType::Word | PlcType::Int | PlcType::Uint => 2,
        PlcType::Dword | PlcType::Dint | PlcType::Udint | PlcType::Real => 4,
        PlcType::Lword | PlcType::Lint | PlcType::Ulint | PlcType::Lreal => 8,
    }
}

/// The bits of a type of floating numbers; 0 of another.
pub fn float_width(kind: PlcType) -> u8
    ensures { result ≡ float_bits kind }
{
    match kind {
        PlcType::Real => 32,
        PlcType::Lreal => 64,
        _ => 0,
    }
}

/// Whether a number is one of a type of whole numbers.
pub fn is_whole(kind: PlcType, n: i128) -> bool
    ensures { IsTrue result ↔ IsWhole kind n }
{
    match kind {
        PlcType::Bool | PlcType::Real | PlcType::Lreal => false,
        PlcType::Byte | PlcType::Usint => (0..=0xFF).contains(&n),
        PlcType::Word | PlcType::Uint => (0..=0xFFFF).contains(&n),
        PlcType::Dword | PlcType::Udint => (0..=0xFFFF_FFFF).contains(&n),
        PlcType::Lword | PlcType::Ulint => (0..=0xFFFF_FFFF_FFFF_FFFF).contains(&n),
        PlcType::Sint => (-0x80..=0x7F).contains(&n),
        PlcType::Int => (-0x8000..=0x7FFF).contains(&n),
        PlcType::Dint => (-0x8000_0000..=0x7FFF_FFFF).contains(&n),
        PlcType::Lint => (-0x8000_0000_0000_0000..=0x7FFF_FFFF_FFFF_FFFF).contains(&n),
    }
}
