//! Each operator and word at its ends.

use crate::range_of;
use mspec_expr::{ItemOf, Meant, MeantList, MeantName, Range, RangeFault, Scope, Words};
use mspec_tree::{
    Body, Case, CaseList, Constant, Def, DefBody, Description, Expr, ExprBox, Field, FieldList,
    Lit, Name, Op, Param, Place, Ref, Shape, Simple,
};
use sqlite_items::{Boxed, Items};
use std::alloc::{AllocError, Global};
use std::process::Abort;
use std::test::Fail;

fn at(column: u32) -> Place {
    Place { line: 1, column }
}

fn spelt(alloc: Global, text: &str) -> Result<Name, AllocError> {
    Items::from_slice(alloc, text.as_bytes())
}

// ---- expressions

fn expr(column: u32, shape: Shape) -> Expr {
    Expr {
        place: at(column),
        shape,
    }
}

/// A number, a flag, `null`, a word or a name, as it is spelt.
fn operand_shape(alloc: Global, text: &str) -> Result<Shape, AllocError> {
    if let Ok(size) = text.parse::<u128>() {
        let negative = false;
        return Ok(Shape::Lit(Lit::Num { negative, size }));
    }
    match text {
        "true" => Ok(Shape::Lit(Lit::Flag(true))),
        "null" => Ok(Shape::Null),
        "curPos" => Ok(Shape::CurPos),
        "lengthInBytes" => Ok(Shape::Length),
        "lastItem" => Ok(Shape::LastItem),
        "SUM_BYTES" => Ok(Shape::SumBytes),
        "XOR_BYTES" => Ok(Shape::XorBytes),
        _ => Ok(Shape::Name(spelt(alloc, text)?)),
    }
}

fn boxed(alloc: Global, column: u32, text: &str) -> Result<ExprBox, AllocError> {
    let shape = operand_shape(alloc, text)?;
    Boxed::new(alloc, expr(column, shape))
}

fn operator(word: &str) -> Op {
    match word {
        "+" => Op::Add,
        "-" => Op::Sub,
        "*" => Op::Mul,
        "/" => Op::Div,
        "%" => Op::Rem,
        "&" => Op::BitAnd,
        "|" => Op::BitOr,
        "<<" => Op::Shl,
        ">>" => Op::Shr,
        "<" => Op::Lt,
        ">=" => Op::Ge,
        "==" => Op::Eq,
        "!=" => Op::Ne,
        "&&" => Op::And,
        _ => Op::Or,
    }
}

fn two(alloc: Global, word: &str, a: &str, b: &str) -> Result<Shape, AllocError> {
    let left = boxed(alloc, 1, a)?;
    let right = boxed(alloc, 3, b)?;
    Ok(Shape::Two(operator(word), left, right))
}

fn dot(alloc: Global, inner: ExprBox, name: &str) -> Result<Shape, AllocError> {
    Ok(Shape::Dot(inner, spelt(alloc, name)?))
}

/// A value as one of a case, at 1:3.
fn cast(alloc: Global, of: &str, case: &str) -> Result<ExprBox, AllocError> {
    let inner = boxed(alloc, 1, of)?;
    let case = spelt(alloc, case)?;
    Boxed::new(alloc, expr(3, Shape::Cast(inner, case)))
}

fn chosen(alloc: Global, a: &str, b: &str) -> Result<Shape, AllocError> {
    let condition = boxed(alloc, 1, "f")?;
    let first = boxed(alloc, 3, a)?;
    let second = boxed(alloc, 4, b)?;
    Ok(Shape::If(condition, first, second))
}

/// The expression of a row. Its operator stands at 1:2, its operands at 1:1, 1:3 and 1:4.
fn shape(alloc: Global, row: Row<'_>) -> Result<Shape, AllocError> {
    match row.form {
        "one" => operand_shape(alloc, row.a),
        "neg" => Ok(Shape::Neg(boxed(alloc, 3, row.a)?)),
        "!" => Ok(Shape::Not(boxed(alloc, 3, row.a)?)),
        "COUNT" => Ok(Shape::Count(boxed(alloc, 3, row.a)?)),
        "length" => Ok(Shape::LengthOf(boxed(alloc, 1, row.a)?)),
        "." => dot(alloc, boxed(alloc, 1, row.a)?, row.b),
        "CAST" => dot(alloc, cast(alloc, "g", row.a)?, row.b),
        "castb" => dot(alloc, cast(alloc, "b", row.a)?, row.b),
        "?" => chosen(alloc, row.a, row.b),
        word => two(alloc, word, row.a, row.b),
    }
}

// ---- the description

fn number_field(alloc: Global, name: &str, width: u8) -> Result<Field, AllocError> {
    Ok(Field {
        place: at(1),
        named: at(1),
        name: spelt(alloc, name)?,
        order: None,
        body: Body::Simple(Ref::Plain(Simple::Uint(width))),
    })
}

fn one_field(alloc: Global, name: &str, width: u8) -> Result<FieldList, AllocError> {
    let field = number_field(alloc, name, width)?;
    let mut fields = Items::new(alloc);
    fields.push(field)?;
    Ok(fields)
}

fn case(alloc: Global, name: &str, field: &str, width: u8) -> Result<Case, AllocError> {
    let fields = one_field(alloc, field, width)?;
    Ok(Case {
        place: at(1),
        named: at(1),
        keys: Items::new(alloc),
        name: spelt(alloc, name)?,
        fields,
    })
}

fn cases(alloc: Global) -> Result<CaseList, AllocError> {
    let mut cases = Items::new(alloc);
    for (name, field, width) in [("A", "x", 16), ("B", "y", 24)] {
        cases.push(case(alloc, name, field, width)?)?;
    }
    Ok(cases)
}

fn switch(alloc: Global) -> Result<Field, AllocError> {
    let cases = cases(alloc)?;
    Ok(Field {
        place: at(1),
        named: at(1),
        name: Items::new(alloc),
        order: None,
        body: Body::Switch(Items::new(alloc), cases),
    })
}

/// `[discriminatedType D [simple uint 8 k] [typeSwitch k [A [simple uint 16 x]] [B [simple uint 24 y]]]]`
fn switched(alloc: Global) -> Result<Def, AllocError> {
    let mut fields = one_field(alloc, "k", 8)?;
    fields.push(switch(alloc)?)?;
    Ok(Def {
        place: at(1),
        named: at(1),
        name: spelt(alloc, "D")?,
        params: Items::new(alloc),
        order: None,
        body: DefBody::Switched(fields),
    })
}

fn constant(alloc: Global) -> Result<Constant, AllocError> {
    Ok(Constant {
        place: at(1),
        value: Lit::Flag(true),
        name: spelt(alloc, "ON")?,
        attrs: Items::new(alloc),
    })
}

fn param(alloc: Global) -> Result<Param, AllocError> {
    Ok(Param {
        place: at(1),
        kind: Ref::Plain(Simple::Uint(4)),
        name: spelt(alloc, "size")?,
    })
}

/// `[enum byte E(uint 4 size) ['true' ON]]`
fn an_enum(alloc: Global) -> Result<Def, AllocError> {
    let mut constants = Items::new(alloc);
    constants.push(constant(alloc)?)?;
    let mut params = Items::new(alloc);
    params.push(param(alloc)?)?;
    Ok(Def {
        place: at(1),
        named: at(1),
        name: spelt(alloc, "E")?,
        params,
        order: None,
        body: DefBody::Enum(Simple::Byte, constants),
    })
}

fn description(alloc: Global) -> Result<Description, AllocError> {
    let mut defs = Items::new(alloc);
    defs.push(an_enum(alloc)?)?;
    defs.push(switched(alloc)?)?;
    Ok(Description { defs })
}

// ---- the scope

fn number(low: i128, high: i128) -> Meant {
    Meant::Number(Range { low, high })
}

/// `b` and `w` are numbers of 8 and 64 bits, `i` and `j` such with a sign, `h` one of 6 bits, `v` one of too many, `o` an
/// optional one of 8 bits.
fn kind(name: &str) -> Meant {
    match name {
        "b" | "o" => number(0, 255),
        "w" => number(0, 18_446_744_073_709_551_615),
        "i" => number(-128, 127),
        "j" => number(-9_223_372_036_854_775_808, 9_223_372_036_854_775_807),
        "h" => number(0, 63),
        "p" => number(2, 3),
        "v" => number(1, 0),
        "f" => Meant::Flag,
        "e" => Meant::EnumOf(0),
        "g" => Meant::GroupOf { def: 1, case: 0 },
        "l" => Meant::ListOf(ItemOf::Bits(8)),
        _ => Meant::Raw,
    }
}

fn names(alloc: Global) -> Result<MeantList, AllocError> {
    let mut names = Items::new(alloc);
    for text in "b w i j h p v f e g l r o".split(' ') {
        let name = spelt(alloc, text)?;
        names.push(MeantName {
            name,
            meant: kind(text),
            optional: text == "o",
        })?;
    }
    Ok(names)
}

fn scope(alloc: Global, allowed: bool) -> Result<Scope, AllocError> {
    let words = Words {
        length: allowed,
        last_item: allowed,
        sums: allowed,
    };
    Ok(Scope {
        names: names(alloc)?,
        words,
    })
}

// ---- rows

/// A form with its operands, and the answer: a range, a kind, or a fault with its column.
#[derive(Clone, Copy)]
struct Row<'a> {
    form: &'a str,
    a: &'a str,
    b: &'a str,
    answer: &'a str,
}

fn row_of(line: &str) -> Option<Row<'_>> {
    let (given, answer) = line.split_once(" = ")?;
    let (form, operands) = given.split_once(' ')?;
    let (a, b) = operands.split_once(' ').unwrap_or((operands, ""));
    Some(Row { form, a, b, answer })
}

fn shown(alloc: Global, answer: Result<Meant, RangeFault>) -> Result<String, AllocError> {
    match answer {
        Ok(Meant::Number(Range { low, high })) => format!(in alloc; "{low} {high}"),
        Ok(meant) => format!(in alloc; "{meant:?}"),
        Err(RangeFault::At { place, why }) => {
            let column = place.column;
            format!(in alloc; "{why:?} {column}")
        }
        Err(RangeFault::NoMemory) => format!(in alloc; "no memory"),
    }
}

fn has_row(
    rt: &impl Abort,
    alloc: Global,
    d: &Description,
    scope: &Scope,
    line: &str,
) -> Result<(), AllocError> {
    if let Some(row) = row_of(line) {
        let e = expr(2, shape(alloc, row)?);
        let text = shown(alloc, range_of(d, scope, &e))?;
        assert!(rt; text.as_str() == row.answer, "{line}: {text}");
    }
    Ok(())
}

fn have_rows(rt: &impl Abort, alloc: Global, allowed: bool, rows: &str) -> Result<(), AllocError> {
    let d = description(alloc)?;
    let scope = scope(alloc, allowed)?;
    for line in rows.lines() {
        has_row(rt, alloc, &d, &scope, line)?;
    }
    Ok(())
}

const NUMBERS: &str = "+ b i = -128 382
+ w 0 = 0 18446744073709551615
+ w 1 = TooWide 2
- b i = -127 383
- j 1 = TooWide 2
- w w = TooWide 2
* i i = -16256 16384
* i b = -32640 32385
* w 1 = 0 18446744073709551615
* w w = TooWide 2
* j j = TooWide 2
/ b p = 0 127
/ i p = -128 128
/ w i = TooWide 2
/ b i = DivisorMayBeZero 2
/ b b = DivisorMayBeZero 2
% 1 p = 0 2
% i p = -2 2
% b 0 = DivisorMayBeZero 2
& b h = 0 63
& i 1 = OperandRange 2
| h 64 = 0 127
| 0 0 = 0 0
| w w = 0 18446744073709551615
| 1 i = OperandRange 2
<< 1 h = 1 9223372036854775808
<< p p = 8 24
<< 2 h = TooWide 2
<< 1 b = TooWide 2
<< 0 b = OperandRange 2
>> w h = 0 18446744073709551615
>> 255 p = 31 63
>> 1 64 = OperandRange 2
neg i = -127 128
neg w = TooWide 2
neg 9223372036854775808 = -9223372036854775808 -9223372036854775808
neg 9223372036854775809 = TooWide 2
one 18446744073709551615 = 18446744073709551615 18446744073709551615
one 18446744073709551616 = TooWide 2
? b i = -128 255
/ 1 v = 1 0
? v 1 = 1 0
neg 18446744073709551616 = TooWide 3";

#[test]
fn numbers_have_ranges(rt: HostRuntime) -> Result<(), Fail> {
    have_rows(&rt, rt.alloc(), false, NUMBERS)?;
    Ok(())
}

const KINDS: &str = "one v = 1 0
one true = Flag
one null = Null
one z = UnknownName 2
one E = UnknownName 2
neg f = KindMismatch 2
+ v f = KindMismatch 2
+ f z = KindMismatch 2
+ b z = UnknownName 3
+ e 1 = 1 256
< e v = Flag
>= b f = KindMismatch 2
&& f true = Flag
|| f b = KindMismatch 2
== o null = Flag
!= null b = KindMismatch 2
== f b = KindMismatch 2
! f = Flag
! v = KindMismatch 2
COUNT l = 0 16777216
COUNT b = KindMismatch 2
length o = 0 65535
length b = KindMismatch 2
. g k = 0 255
. g x = UnknownName 2
CAST B y = 0 16777215
CAST C y = UnknownName 3
castb B y = KindMismatch 3
. E ON = EnumOf(0)
. e size = 0 15
. b size = UnknownName 2
? f b = KindMismatch 2
one curPos = 0 65535
one lengthInBytes = UnknownName 2
one lastItem = UnknownName 2
one SUM_BYTES = UnknownName 2
one XOR_BYTES = UnknownName 2";

const WORDS: &str = "one lengthInBytes = 0 65535
one lastItem = Flag
one SUM_BYTES = 0 16711425
one XOR_BYTES = 0 255";

#[test]
fn kinds_come_from_operators_and_words(rt: HostRuntime) -> Result<(), Fail> {
    have_rows(&rt, rt.alloc(), false, KINDS)?;
    have_rows(&rt, rt.alloc(), true, WORDS)?;
    Ok(())
}
