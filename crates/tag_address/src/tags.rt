ghost use Rattle.std.specs.Prelude.{◌≡◌, ◌<◌, ◌^◌, length, IfOk, IfErr};
ghost use Rattle.wire_frames.specs.declared.kinds.Item.{Item};
ghost use Rattle.tag_address.specs.Tags.{IsRefused, IsTag};

use crate::modbus_tags::{Refusal, read_modbus_tag};
use wire_frames::Item;

/// The protocol whose items a tag names.
#[derive(Clone, Copy, Debug, PartialEq, Eq)]
pub enum TagKind {
    Modbus,
    S7,
}

/// The part of a tag to which the first byte that can't stand there belongs; `End` behind a whole tag, and where the text ends
/// too early.
#[derive(Clone, Copy, Debug, PartialEq, Eq)]
pub enum TagWhy {
    Area,
    Number,
    Bit,
    Type,
    Size,
    Count,
    End,
}

/// The place, in bytes from 0, at which a text leaves the tags, and the part to which it belongs.
#[derive(Clone, Copy, Debug, PartialEq, Eq)]
pub struct TagFault {
    pub place: u32,
    pub why: TagWhy,
}

/// The fault of a text that leaves the tags at this place. A text that ends too early has its fault at its end.
fn fault_of(text: &[u8], refusal: Refusal) -> TagFault
    requires { refusal.place < 2 ^ 32 }
    ensures place { result.place ≡ refusal.place }
    ensures early { refusal.place ≡ length text.now → result.why ≡ TagWhy.End }
    ensures part { refusal.place < length text.now → result.why ≡ refusal.why }
{
    let why = if refusal.place == text.len() {
        TagWhy::End
    } else {
        refusal.why
    };
    TagFault {
        place: refusal.place as u32,
        why,
    }
}

/// Reads a tag, a text that names an item: for Modbus an area, a number that counts from 1, a type, and a count in brackets, as in
/// `holding-register:1:UINT[4]`. No text is a tag of S7 so far. A text that is no tag is refused at the first byte with which no tag
/// begins.
pub fn read_tag(kind: TagKind, text: &[u8]) -> Result<Item, TagFault>
    ensures read { IfOk result (λ item. IsTag kind text.now item) }
    ensures exact { (item : Item) → IsTag kind text.now item → result ≡ Ok item }
    ensures refused { IfErr result (λ fault. IsRefused kind text.now fault.place fault.why) }
{
    match kind {
        TagKind::Modbus => match read_modbus_tag(text) {
            Ok(item) => Ok(item),
            Err(refusal) => Err(fault_of(text, refusal)),
        },
        TagKind::S7 => {
            let refusal = Refusal {
                place: 0,
                why: TagWhy::Area,
            };
            Err(fault_of(text, refusal))
        }
    }
}
