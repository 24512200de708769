//! The one text of an item that is printed.

ghost use Rattle.std.specs.Prelude.{◌≡◌, ℕ, ◌+◌, ◌≤◌, ◌<◌, ◌++◌, ◌==◌, List, length, take, drop, decimal, if◌then◌else◌, [], ◌∷◌};
ghost use Rattle.tag_address.specs.declared.tags.TagKind.{TagKind};
ghost use Rattle.tag_address.specs.Tags.{IsModbusItem, IsTag, in_brackets, printed, with_count};

use crate::words::Spelled;
use itoa::Buffer;
use wire_frames::Item;

/// Writes bytes at a place, and gives the place behind them.
fn put(to: &mut [u8], at: usize, bytes: &[u8]) -> usize
    requires { at + length bytes.now ≤ length to.old }
    ensures end { result ≡ at + length bytes.now }
    ensures written { take result to.new ≡ take at to.old ++ bytes.now }
    ensures rest { drop result to.new ≡ drop result to.old }
{
    let end = at + bytes.len();
    to[at..end].copy_from_slice(bytes);
    end
}

/// Writes a decimal number at a place, and gives the place behind it.
fn put_number(to: &mut [u8], at: usize, number: u32) -> usize
    requires { at + length (decimal number) ≤ length to.old }
    ensures end { result ≡ at + length (decimal number) }
    ensures written { take result to.new ≡ take at to.old ++ decimal number }
    ensures rest { drop result to.new ≡ drop result to.old }
{
    let mut buffer = Buffer::new();
    put(to, at, buffer.format(number).as_bytes())
}

/// Writes what stands before the count.
fn put_head(to: &mut [u8], item: &Item) -> usize
    requires room { 35 ≤ length to.old }
    requires item { IsModbusItem item.now }
    ensures written { take result to.new ≡ with_count item.now [] }
    ensures end { result ≡ length (with_count item.now []) }
    ensures rest { drop result to.new ≡ drop result to.old }
{
    let place = put(to, 0, item.area.spelling_bytes());
    let colon = put_number(to, place, u32::from(item.start) + 1);
    let kind = put(to, colon, b":");
    put(to, kind, item.kind.spelling_bytes())
}

/// Writes a count in brackets at a place, and gives the place behind it.
fn put_count(to: &mut [u8], at: usize, count: u16) -> usize
    requires { at + length (in_brackets count) ≤ length to.old }
    ensures written { take result to.new ≡ take at to.old ++ in_brackets count }
    ensures end { result ≡ at + length (in_brackets count) }
    ensures rest { drop result to.new ≡ drop result to.old }
{
    let open = put(to, at, b"[");
    let close = put_number(to, open, u32::from(count));
    put(to, close, b"]")
}

/// Writes the text of an item that a tag names, and gives its length; a count of 1 isn't written. Other bytes stay. The text is
/// a tag that names the same item.
pub fn print_tag(item: &Item, to: &mut [u8; 40]) -> usize
    requires { (kind : TagKind) × (text : List ℕ) × IsTag kind text item.now }
    ensures text { take result to.new ≡ printed item.now }
    ensures length { result ≡ length (printed item.now) }
    ensures rest { drop result to.new ≡ drop result to.old }
    ensures read { (kind : TagKind) (text : List ℕ) → IsTag kind text item.now → IsTag kind (take result to.new) item.now }
{
    let head = put_head(to, item);
    if item.count == 1 {
        head
    } else {
        put_count(to, head, item.count)
    }
}
