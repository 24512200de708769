//! Each rule on expressions, on small types.

use crate::{CheckFault, check};
use mspec_tree::{
    Body, Case, Constant, Def, DefBody, Description, Expr, ExprBox, ExprList, Field, FieldList,
    Key, KeyList, Lit, Name, Op, Param, ParamList, Place, Ref, Shape, Simple,
};
use sqlite_items::{Boxed, Items};
use std::alloc::{AllocError, Global};
use std::process::Abort;
use std::test::Fail;

fn at(line: u32, column: u32) -> Place {
    Place { line, column }
}

fn spelt(alloc: Global, text: &str) -> Result<Name, AllocError> {
    Items::from_slice(alloc, text.as_bytes())
}

fn number(size: u128) -> Lit {
    let negative = false;
    Lit::Num { negative, size }
}

// ---- expressions

fn operand_shape(alloc: Global, text: &str) -> Result<Shape, AllocError> {
    if let Ok(size) = text.parse::<u128>() {
        return Ok(Shape::Lit(number(size)));
    }
    match text {
        "true" => Ok(Shape::Lit(Lit::Flag(true))),
        "curPos" => Ok(Shape::CurPos),
        "lengthInBytes" => Ok(Shape::Length),
        "lastItem" => Ok(Shape::LastItem),
        "SUM_BYTES" => Ok(Shape::SumBytes),
        _ => Ok(Shape::Name(spelt(alloc, text)?)),
    }
}

fn operand(alloc: Global, place: Place, text: &str) -> Result<ExprBox, AllocError> {
    let shape = operand_shape(alloc, text)?;
    Boxed::new(alloc, Expr { place, shape })
}

fn prefixed(alloc: Global, line: u32, word: &str, text: &str) -> Result<Shape, AllocError> {
    let inner = operand(alloc, at(line, 6), text)?;
    match word {
        "COUNT" => Ok(Shape::Count(inner)),
        _ => Ok(Shape::Not(inner)),
    }
}

fn two(alloc: Global, line: u32, a: &str, word: &str, b: &str) -> Result<Shape, AllocError> {
    let left = operand(alloc, at(line, 4), a)?;
    if word == "." {
        return Ok(Shape::Dot(left, spelt(alloc, b)?));
    }
    let right = operand(alloc, at(line, 6), b)?;
    match word {
        "+" => Ok(Shape::Two(Op::Add, left, right)),
        "*" => Ok(Shape::Two(Op::Mul, left, right)),
        "/" => Ok(Shape::Two(Op::Div, left, right)),
        _ => Ok(Shape::Two(Op::BitAnd, left, right)),
    }
}

/// An operand, a prefix with one, or an operator between two, at column 5. Operands stand at 4 and 6.
fn value(alloc: Global, line: u32, text: &str) -> Result<Expr, AllocError> {
    let place = at(line, 5);
    let Some((first, rest)) = text.split_once(' ') else {
        let shape = operand_shape(alloc, text)?;
        return Ok(Expr { place, shape });
    };
    let shape = match rest.split_once(' ') {
        Some((word, last)) => two(alloc, line, first, word, last)?,
        None => prefixed(alloc, line, first, rest)?,
    };
    Ok(Expr { place, shape })
}

// ---- fields

fn simple(word: &str) -> Simple {
    match word.parse::<u8>() {
        Ok(1) | Err(_) => Simple::Bit,
        Ok(width) => Simple::Uint(width),
    }
}

/// A type, whose name stands at column 2.
fn kind(alloc: Global, line: u32, word: &str, args: ExprList) -> Result<Ref, AllocError> {
    if word.parse::<u8>().is_ok() {
        return Ok(Ref::Plain(simple(word)));
    }
    let name = spelt(alloc, word)?;
    let place = at(line, 2);
    Ok(Ref::Named { place, name, args })
}

/// A field's first word, type, name and expression.
#[derive(Clone, Copy)]
struct Line<'a> {
    word: &'a str,
    kind: &'a str,
    name: &'a str,
    value: &'a str,
}

fn line_of(text: &str) -> Line<'_> {
    let (word, rest) = text.split_once(' ').unwrap_or((text, ""));
    let (kind, rest) = rest.split_once(' ').unwrap_or((rest, ""));
    let (name, value) = rest.split_once(' ').unwrap_or((rest, ""));
    Line {
        word,
        kind,
        name,
        value,
    }
}

/// A value of a type with one argument.
fn given(alloc: Global, line: u32, word: &str, arg: Expr) -> Result<Body, AllocError> {
    let mut args = Items::new(alloc);
    args.push(arg)?;
    Ok(Body::Simple(kind(alloc, line, word, args)?))
}

fn body(alloc: Global, line: u32, of: Line<'_>) -> Result<Body, AllocError> {
    let written = simple(of.kind);
    let value = value(alloc, line, of.value)?;
    if of.word == "given" {
        return given(alloc, line, of.kind, value);
    }
    let kind = kind(alloc, line, of.kind, Items::new(alloc))?;
    Ok(match of.word {
        "simple" => Body::Simple(kind),
        "const" => Body::Const(written, number(1)),
        "implicit" => Body::Implicit(kind, value),
        "virtual" => Body::Virtual(kind, value),
        "optional" => Body::Optional(kind, value),
        "checksum" => Body::Checksum(written, value),
        "padding" => Body::Padding(written, number(0), value),
        _ => Body::CountArray(kind, value),
    })
}

/// A field, whose bracket stands at column 1 of its line, and its name at 3.
fn field(alloc: Global, line: u32, text: &str) -> Result<Field, AllocError> {
    let of = line_of(text);
    let name = spelt(alloc, of.name)?;
    Ok(Field {
        place: at(line, 1),
        named: at(line, 3),
        name,
        order: None,
        body: body(alloc, line, of)?,
    })
}

/// Fields that are parted by `;`, the first one on this line.
fn fields(alloc: Global, first: u32, text: &str) -> Result<FieldList, AllocError> {
    let mut fields = Items::new(alloc);
    let mut line = first;
    for part in text.split(';') {
        if !part.trim().is_empty() {
            fields.push(field(alloc, line, part.trim())?)?;
            line = line.saturating_add(1);
        }
    }
    Ok(fields)
}

// ---- a switch

fn keys(alloc: Global, word: &str) -> Result<KeyList, AllocError> {
    let key = match word {
        "*" => Key::Any,
        "true" => Key::Lit(Lit::Flag(true)),
        "1" => Key::Lit(number(1)),
        _ => Key::Constant(spelt(alloc, word)?),
    };
    let mut keys = Items::new(alloc);
    keys.push(key)?;
    Ok(keys)
}

/// A switch on `k` at line 10, with one case at line 11: its key, and its fields from line 12 on.
fn switch(alloc: Global, text: &str) -> Result<Field, AllocError> {
    let (key, inner) = text.split_once(' ').unwrap_or((text, ""));
    let case = Case {
        place: at(11, 1),
        named: at(11, 3),
        keys: keys(alloc, key)?,
        name: spelt(alloc, "C")?,
        fields: fields(alloc, 12, inner)?,
    };
    let mut cases = Items::new(alloc);
    cases.push(case)?;
    let mut names = Items::new(alloc);
    names.push(spelt(alloc, "k")?)?;
    Ok(Field {
        place: at(10, 1),
        named: at(10, 1),
        name: Items::new(alloc),
        order: None,
        body: Body::Switch(names, cases),
    })
}

/// Fields from line 1 on, a switch in braces, if there is one, and fields from line 20 on.
fn def_body(alloc: Global, text: &str) -> Result<DefBody, AllocError> {
    let Some((before, rest)) = text.split_once('{') else {
        return Ok(DefBody::Plain(fields(alloc, 1, text)?));
    };
    let (case, behind) = rest.split_once('}').unwrap_or((rest, ""));
    let mut all = fields(alloc, 1, before)?;
    all.push(switch(alloc, case.trim())?)?;
    all.append(fields(alloc, 20, behind)?)?;
    Ok(DefBody::Switched(all))
}

// ---- a description

fn params(alloc: Global, name: &str, width: u8) -> Result<ParamList, AllocError> {
    let mut params = Items::new(alloc);
    params.push(Param {
        place: at(30, 1),
        kind: Ref::Plain(if width == 1 {
            Simple::Bit
        } else {
            Simple::Uint(width)
        }),
        name: spelt(alloc, name)?,
    })?;
    Ok(params)
}

fn def(alloc: Global, name: &str, params: ParamList, body: DefBody) -> Result<Def, AllocError> {
    Ok(Def {
        place: at(31, 1),
        named: at(31, 1),
        name: spelt(alloc, name)?,
        params,
        order: None,
        body,
    })
}

fn enum_body(alloc: Global) -> Result<DefBody, AllocError> {
    let mut constants = Items::new(alloc);
    constants.push(Constant {
        place: at(32, 1),
        value: number(1),
        name: spelt(alloc, "ON")?,
        attrs: Items::new(alloc),
    })?;
    Ok(DefBody::Enum(Simple::Byte, constants))
}

/// The type `T(uint 8 q)` with these fields, `[type S(bit f) [simple uint 8 x]]` and `[enum byte E ['1' ON]]`.
fn description(alloc: Global, text: &str) -> Result<Description, AllocError> {
    let own = def_body(alloc, text)?;
    let other = DefBody::Plain(fields(alloc, 33, "simple 8 x")?);
    let mut defs = Items::new(alloc);
    defs.push(def(alloc, "T", params(alloc, "q", 8)?, own)?)?;
    defs.push(def(alloc, "S", params(alloc, "f", 1)?, other)?)?;
    defs.push(def(alloc, "E", Items::new(alloc), enum_body(alloc)?)?)?;
    Ok(Description { defs })
}

// ---- rows

fn answer(alloc: Global, text: &str) -> Result<String, AllocError> {
    match check(alloc, description(alloc, text)?) {
        Ok(_) => format!(in alloc; "accepted"),
        Err(CheckFault::At { place, why }) => {
            let Place { line, column } = place;
            format!(in alloc; "{line}:{column} {why:?}")
        }
        Err(CheckFault::NoMemory) => format!(in alloc; "no memory"),
    }
}

fn has_row(rt: &impl Abort, alloc: Global, row: &str) -> Result<(), AllocError> {
    if let Some((text, wanted)) = row.split_once(" = ") {
        let found = answer(alloc, text)?;
        assert!(rt; found.as_str() == wanted, "{row}: {found}");
    }
    Ok(())
}

const ROWS: &str = "simple 8 a; virtual 8 v z = 2:5 Expr(UnknownName)
simple 8 a; virtual 8 v a + true = 2:5 Expr(KindMismatch)
simple 1 a; virtual 8 v a + z = 2:5 Expr(KindMismatch)
simple 64 a; virtual 64 v a * a = 2:5 Expr(TooWide)
simple 8 a; virtual 8 v a / a = 2:5 Expr(DivisorMayBeZero)
virtual 1 v 1 + z = 1:5 Expr(KindMismatch)
virtual 8 v v = 1:5 Expr(UnknownName)
implicit 8 v w; simple 8 w = accepted
virtual 8 w 1; implicit 8 v w = 2:5 Expr(UnknownName)
implicit 8 v c; const 8 c = 1:5 Expr(UnknownName)
const 8 c; implicit 8 v c; const 8 e; implicit 8 w e + q = accepted
implicit 8 v 1; const 8 c; checksum 8 s v; virtual 16 w c + s = accepted
implicit 8 v lengthInBytes = accepted
virtual 8 v lengthInBytes = 1:5 Expr(UnknownName)
virtual 1 v lastItem = 1:5 Expr(UnknownName)
checksum 8 s SUM_BYTES & 255 = accepted
virtual 8 v SUM_BYTES = 1:5 Expr(UnknownName)
simple 8 a; count 8 l a; padding 8 p COUNT l = accepted
padding 8 p lastItem = 1:5 Expr(KindMismatch)
padding 8 p q = 1:5 PaddingScope
padding 8 p 1 + curPos = 1:6 PaddingScope
padding 8 p COUNT z = 1:6 Expr(UnknownName)
given S s true; padding 8 p s . x = 2:5 PaddingScope
padding 8 p E . ON = 1:4 PaddingScope
optional 8 o 1 = 1:5 Expr(KindMismatch)
count 8 l true = 1:5 Expr(KindMismatch)
given S s true; virtual 8 v s . x = accepted
given S s q = 1:2 Arguments
simple E e; given T t e = accepted
simple 8 k { 1 simple 8 c } virtual 8 v c = 20:5 Expr(UnknownName)
simple 8 k { 1 virtual 8 v z } simple 8 z = 12:5 Expr(UnknownName)
simple 8 k { 1 simple 8 c; virtual 16 v k + c } simple 8 z = accepted
simple 8 k; implicit 8 i y { 1 simple 8 y } = 2:5 Expr(UnknownName)
simple 8 k { 1 implicit 16 v z + y; simple 8 y } simple 8 z = accepted
simple 8 k { true } = 11:1 CaseKey
simple 1 k { true } = accepted
simple E k { ON } = accepted
simple E k { OFF } = 11:1 CaseKey
simple E k { 1 } = 11:1 CaseKey
simple 8 a { * } = 10:1 Expr(UnknownName)
virtual 8 v z; simple 8 a; simple 8 a = 1:5 Expr(UnknownName)
simple 8 a; simple 8 a; virtual 8 v z = 2:3 DoubledName
simple B b; virtual 8 v z = 1:2 UnknownType";

#[test]
fn each_rule_is_told_at_its_place(rt: HostRuntime) -> Result<(), Fail> {
    let alloc = rt.alloc();
    for row in ROWS.lines() {
        has_row(&rt, alloc, row)?;
    }
    Ok(())
}
