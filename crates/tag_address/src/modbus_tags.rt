//! Tags of Modbus items, read part by part.

ghost use Rattle.std.specs.Prelude.{◌≡◌, ℕ, ◌+◌, ◌^◌, ◌<◌, ◌≤◌, ◌↔◌, [], ◌∷◌, IfOk, IfErr, OnOk};
ghost use Rattle.std.specs.List.{Contains};
ghost use Rattle.tag_address.specs.Parts.{Fits, IsBehindArea, IsBehindColon, IsBehindNumber, IsBehindType, IsBracketed, IsClose, IsCountUpTo, IsRead, IsRefusal, IsWhole, modbus_areas, types_for};
ghost use Rattle.tag_address.specs.Tags.{close_bracket, width_of};

use crate::numbers::read_number;
use crate::tags::TagWhy;
use crate::words::read_word;
use wire_frames::{Area, Item, PlcType};

/// One more than the number of the last coil, input or register.
const PAST_LAST: u32 = 65_537;

/// The most values that a tag names.
const MAX_COUNT: u32 = 65_535;

static AREAS: [Area; 4] = [
    Area::Coil,
    Area::DiscreteInput,
    Area::InputRegister,
    Area::HoldingRegister,
];

/// The types, by how many registers a value of them takes: four of one, four of two, and four of four.
static TYPES: [PlcType; 12] = [
    PlcType::Bool,
    PlcType::Word,
    PlcType::Int,
    PlcType::Uint,
    PlcType::Dword,
    PlcType::Dint,
    PlcType::Udint,
    PlcType::Real,
    PlcType::Lword,
    PlcType::Lint,
    PlcType::Ulint,
    PlcType::Lreal,
];

/// Where a text leaves the tags, in bytes from its beginning, and in which part.
#[derive(Clone, Copy, Debug, PartialEq, Eq)]
pub struct Refusal {
    pub place: usize,
    pub why: TagWhy,
}

impl Refusal {
    /// The same behind so many bytes more.
    fn behind(self, used: usize) -> Refusal
        requires { used + self.place < 2 ^ 64 }
        ensures place { result.place ≡ used + self.place }
        ensures why { result.why ≡ self.why }
    {
        Refusal {
            place: used + self.place,
            why: self.why,
        }
    }
}

/// How many coils, inputs or registers a value takes; 0 where no register holds one.
fn width(kind: PlcType) -> u32
    ensures { result ≡ width_of kind }
{
    match kind {
        PlcType::Byte | PlcType::Sint | PlcType::Usint => 0,
        PlcType::Bool | PlcType::Word | PlcType::Int | PlcType::Uint => 1,
        PlcType::Dword | PlcType::Dint | PlcType::Udint | PlcType::Real => 2,
        PlcType::Lword | PlcType::Lint | PlcType::Ulint | PlcType::Lreal => 4,
    }
}

/// The types of which a value lies in an area from this number on.
fn fitting_types(area: Area, number: u32) -> &'static [PlcType]
    requires { Contains modbus_areas area }
    ensures { result.now ≡ types_for area number }
{
    match area {
        Area::Coil | Area::DiscreteInput => &TYPES[..1],
        _ if number <= PAST_LAST - 4 => &TYPES[..12],
        _ if number <= PAST_LAST - 2 => &TYPES[..8],
        _ => &TYPES[..4],
    }
}

/// The most values of a type that lie in an area from this number on.
fn most_values(area: Area, number: u32, kind: PlcType) -> u32
    requires low { 1 ≤ number }
    requires fits { Fits area number kind 1 }
    ensures some { 1 ≤ result }
    ensures most { result ≤ 65535 }
    ensures all { (count : ℕ) → Fits area number kind count ↔ ((1 ≤ count) × (count ≤ result)) }
{
    let room = PAST_LAST - number;
    match (area, kind) {
        (Area::Coil | Area::DiscreteInput, _) => room.min(MAX_COUNT),
        (_, PlcType::Bool) => 1,
        _ => (room / width(kind)).min(MAX_COUNT),
    }
}

/// The closing bracket, and nothing behind it.
fn read_close(text: &[u8]) -> Result<(), Refusal>
    ensures read { OnOk result (text.now ≡ close_bracket ∷ []) }
    ensures refused { IfErr result (λ r. (count : ℕ) → IsRefusal (IsClose count) 2 1 text.now r.place r.why) }
{
    if text.is_empty() || text[0] != b']' {
        return Err(Refusal {
            place: 0,
            why: TagWhy::Count,
        });
    }
    if text.len() > 1 {
        return Err(Refusal {
            place: 1,
            why: TagWhy::End,
        });
    }
    Ok(())
}

/// A count behind its opening bracket.
fn read_bracketed(text: &[u8], most: u32) -> Result<u16, Refusal>
    requires some { 1 ≤ most }
    requires range { most ≤ 65535 }
    ensures read { IfOk result (λ count. IsRead (IsBracketed most) text.now count) }
    ensures refused { IfErr result (λ r. IsRefusal (IsBracketed most) 2 1 text.now r.place r.why) }
{
    let Some((count, used)) = read_number(text, 1, most) else {
        return Err(Refusal {
            place: 0,
            why: TagWhy::Count,
        });
    };
    match read_close(&text[used..]) {
        Ok(()) => Ok(count as u16),
        Err(refusal) => Err(refusal.behind(used)),
    }
}

/// A count in brackets, or none, which is 1.
fn read_count(text: &[u8], most: u32) -> Result<u16, Refusal>
    requires some { 1 ≤ most }
    requires range { most ≤ 65535 }
    ensures read { IfOk result (λ count. IsRead (IsCountUpTo most) text.now count) }
    ensures refused { IfErr result (λ r. IsRefusal (IsCountUpTo most) 2 0 text.now r.place r.why) }
{
    if text.is_empty() {
        return Ok(1);
    }
    if text[0] != b'[' {
        return Err(Refusal {
            place: 0,
            why: TagWhy::End,
        });
    }
    match read_bracketed(&text[1..], most) {
        Ok(count) => Ok(count),
        Err(refusal) => Err(refusal.behind(1)),
    }
}

/// The count behind a type, and with it the item.
fn read_behind_type(area: Area, number: u32, kind: PlcType, text: &[u8]) -> Result<Item, Refusal>
    requires low { 1 ≤ number }
    requires high { number ≤ 65536 }
    requires fits { Fits area number kind 1 }
    ensures read { IfOk result (λ item. IsRead (IsBehindType area number kind) text.now item) }
    ensures refused { IfErr result (λ r. IsRefusal (IsBehindType area number kind) 2 0 text.now r.place r.why) }
{
    match read_count(text, most_values(area, number, kind)) {
        Ok(count) => Ok(Item {
            area,
            block: 0,
            start: (number - 1) as u16,
            bit: 0,
            kind,
            count,
        }),
        Err(refusal) => Err(refusal),
    }
}

/// The type behind the second colon, and what follows.
fn read_behind_colon(area: Area, number: u32, text: &[u8]) -> Result<Item, Refusal>
    requires area { Contains modbus_areas area }
    requires low { 1 ≤ number }
    requires high { number ≤ 65536 }
    ensures read { IfOk result (λ item. IsRead (IsBehindColon area number) text.now item) }
    ensures refused { IfErr result (λ r. IsRefusal (IsBehindColon area number) 2 0 text.now r.place r.why) }
{
    match read_word(fitting_types(area, number), text) {
        Ok((kind, used)) => match read_behind_type(area, number, kind, &text[used..]) {
            Ok(item) => Ok(item),
            Err(refusal) => Err(refusal.behind(used)),
        },
        Err(place) => Err(Refusal {
            place,
            why: TagWhy::Type,
        }),
    }
}

/// The colon behind the number, and what follows.
fn read_behind_number(area: Area, number: u32, text: &[u8]) -> Result<Item, Refusal>
    requires area { Contains modbus_areas area }
    requires low { 1 ≤ number }
    requires high { number ≤ 65536 }
    ensures read { IfOk result (λ item. IsRead (IsBehindNumber area number) text.now item) }
    ensures refused { IfErr result (λ r. IsRefusal (IsBehindNumber area number) 1 0 text.now r.place r.why) }
{
    if text.is_empty() || text[0] != b':' {
        return Err(Refusal {
            place: 0,
            why: TagWhy::Number,
        });
    }
    match read_behind_colon(area, number, &text[1..]) {
        Ok(item) => Ok(item),
        Err(refusal) => Err(refusal.behind(1)),
    }
}

/// The number behind the area, and what follows.
fn read_behind_area(area: Area, text: &[u8]) -> Result<Item, Refusal>
    requires { Contains modbus_areas area }
    ensures read { IfOk result (λ item. IsRead (IsBehindArea area) text.now item) }
    ensures refused { IfErr result (λ r. IsRefusal (IsBehindArea area) 1 0 text.now r.place r.why) }
{
    match read_number(text, 1, PAST_LAST - 1) {
        Some((number, used)) => match read_behind_number(area, number, &text[used..]) {
            Ok(item) => Ok(item),
            Err(refusal) => Err(refusal.behind(used)),
        },
        None => Err(Refusal {
            place: 0,
            why: TagWhy::Number,
        }),
    }
}

/// The item that a tag of Modbus names.
pub fn read_modbus_tag(text: &[u8]) -> Result<Item, Refusal>
    ensures read { IfOk result (λ item. IsRead IsWhole text.now item) }
    ensures refused { IfErr result (λ r. IsRefusal IsWhole 0 0 text.now r.place r.why) }
{
    match read_word(&AREAS, text) {
        Ok((area, used)) => match read_behind_area(area, &text[used..]) {
            Ok(item) => Ok(item),
            Err(refusal) => Err(refusal.behind(used)),
        },
        Err(place) => Err(Refusal {
            place,
            why: TagWhy::Area,
        }),
    }
}
