//! Numbers, literals and types.

ghost use Rattle.std.specs.Prelude.{◌≡◌, ◌++◌, decimal, OnOk};
ghost use Rattle.mspec_lexer.specs.Spellings.{spelling};
ghost use Rattle.mspec_lexer.specs.Tokens.{text_of};
ghost use Rattle.mspec_printer.specs.Printed.{Writes, indent, lit, minus_sign, number, operator, order, simple};

use itoa::Buffer;
use mspec_tree::{ByteOrder, Lit, Op, Simple};
use std::alloc::AllocError;

pub fn append_number(text: &mut Vec<u8>, value: u128) -> Result<(), AllocError>
    ensures { OnOk result (text.new.items ≡ text.old.items ++ decimal value) }
{
    let mut buffer = Buffer::new();
    text.extend_from_slice(buffer.format(value).as_bytes())
}

fn append_sign(text: &mut Vec<u8>, negative: bool) -> Result<(), AllocError>
    ensures { Writes result text.old.items text.new.items (minus_sign negative) }
{
    if negative {
        text.extend_from_slice(b"-")
    } else {
        Ok(())
    }
}

pub fn append_lit(text: &mut Vec<u8>, value: Lit) -> Result<(), AllocError>
    ensures { Writes result text.old.items text.new.items (lit value) }
{
    match value {
        Lit::Num { negative, size } => {
            append_sign(text, negative)?;
            append_number(text, size)
        }
        Lit::Flag(true) => text.extend_from_slice(b"true"),
        Lit::Flag(false) => text.extend_from_slice(b"false"),
    }
}

fn append_width(text: &mut Vec<u8>, word: &[u8], width: u8) -> Result<(), AllocError>
    ensures { OnOk result (text.new.items ≡ text.old.items ++ (word.now ++ decimal width)) }
{
    text.extend_from_slice(word)?;
    append_number(text, u128::from(width))
}

pub fn append_simple(text: &mut Vec<u8>, written: Simple) -> Result<(), AllocError>
    ensures { Writes result text.old.items text.new.items (simple written) }
{
    match written {
        Simple::Bit => text.extend_from_slice(b"bit"),
        Simple::Byte => text.extend_from_slice(b"byte"),
        Simple::Uint(width) => append_width(text, b"uint ", width),
        Simple::Int(width) => append_width(text, b"int ", width),
        Simple::Float(width) => append_width(text, b"float ", width),
    }
}

/// Adds an operator without the blanks around it.
pub fn append_operator(text: &mut Vec<u8>, with: Op) -> Result<(), AllocError>
    ensures { OnOk result (text.new.items ≡ text.old.items ++ spelling (operator with)) }
{
    match with {
        Op::Or => text.extend_from_slice(b"||"),
        Op::And => text.extend_from_slice(b"&&"),
        Op::BitOr => text.extend_from_slice(b"|"),
        Op::BitAnd => text.extend_from_slice(b"&"),
        Op::Eq => text.extend_from_slice(b"=="),
        Op::Ne => text.extend_from_slice(b"!="),
        Op::Lt => text.extend_from_slice(b"<"),
        Op::Le => text.extend_from_slice(b"<="),
        Op::Gt => text.extend_from_slice(b">"),
        Op::Ge => text.extend_from_slice(b">="),
        Op::Shl => text.extend_from_slice(b"<<"),
        Op::Shr => text.extend_from_slice(b">>"),
        Op::Add => text.extend_from_slice(b"+"),
        Op::Sub => text.extend_from_slice(b"-"),
        Op::Mul => text.extend_from_slice(b"*"),
        Op::Div => text.extend_from_slice(b"/"),
        Op::Rem => text.extend_from_slice(b"%"),
    }
}

/// Adds a byte order, if there is one, behind a blank.
pub fn append_order(text: &mut Vec<u8>, which: Option<ByteOrder>) -> Result<(), AllocError>
    ensures { Writes result text.old.items text.new.items (order which) }
{
    match which {
        None => Ok(()),
        Some(ByteOrder::Big) => text.extend_from_slice(b" byteOrder='BIG_ENDIAN'"),
        Some(ByteOrder::Little) => text.extend_from_slice(b" byteOrder='LITTLE_ENDIAN'"),
    }
}
