//! Words in front of a text.

ghost use Rattle.std.specs.Prelude.{◌≡◌, ℕ, ◌<◌, ◌≤◌, List, length, take, slice_index, IfOk, IfErr};
ghost use Rattle.tag_address.specs.Parts.{AreAlike, IsStuckPart, IsWord, IsWordAt};
ghost use Rattle.tag_address.specs.Tags.{area_text, type_text};

use wire_frames::{Area, PlcType};

/// Values that a text names by a word.
pub trait Spelled: Copy {
    ghost spelling: { Self → List ℕ };

    /// The word.
    fn spelling_bytes(&self) -> &'static [u8]
        ensures { result.now ≡ spelling self.now };
}

impl Spelled for Area {
    ghost spelling = { area_text };

    /// How a tag begins.
    fn spelling_bytes(&self) -> &'static [u8] {
        match self {
            Area::Coil => b"coil:",
            Area::DiscreteInput => b"discrete-input:",
            Area::InputRegister => b"input-register:",
            Area::HoldingRegister => b"holding-register:",
            Area::S7Input | Area::S7Output | Area::S7Flag | Area::S7Block => b"",
        }
    }
}

impl Spelled for PlcType {
    ghost spelling = { type_text };

    /// Its name in IEC 61131-3.
    fn spelling_bytes(&self) -> &'static [u8] {
        match self {
            PlcType::Bool => b"BOOL",
            PlcType::Byte => b"BYTE",
            PlcType::Word => b"WORD",
            PlcType::Dword => b"DWORD",
            PlcType::Lword => b"LWORD",
            PlcType::Sint => b"SINT",
            PlcType::Usint => b"USINT",
            PlcType::Int => b"INT",
            PlcType::Uint => b"UINT",
            PlcType::Dint => b"DINT",
            PlcType::Udint => b"UDINT",
            PlcType::Lint => b"LINT",
            PlcType::Ulint => b"ULINT",
            PlcType::Real => b"REAL",
            PlcType::Lreal => b"LREAL",
        }
    }
}

/// How many bytes a word and a text have in common at their beginning.
pub fn common_front(word: &[u8], text: &[u8]) -> usize
    ensures { AreAlike word.now text.now result }
{
    for (place, byte) in word.iter().enumerate() {
        if place >= text.len() || text[place] != *byte {
            return place;
        }
    }
    word.len()
}

/// The word of a list with which a text begins, and its length, or the place at which the text leaves all of them.
pub fn read_word<W: Spelled>(words: &[W], text: &[u8]) -> Result<(W, usize), usize>
    requires { 0 < length words.now }
    ensures found { IfOk result (λ r. IsWordAt W.spelling words.now text.now r.0 r.1) }
    ensures stuck { IfErr result (λ place. IsStuckPart (IsWord W.spelling words.now) text.now place) }
{
    let mut furthest = 0;
    for word in words {
        let spelling = word.spelling_bytes();
        let common = common_front(spelling, text);
        if common == spelling.len() {
            return Ok((*word, common));
        }
        if common > furthest {
            furthest = common;
        }
    }
    Err(furthest)
}
