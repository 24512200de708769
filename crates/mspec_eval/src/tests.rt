//! Each operator and word at its ends.

use crate::eval;
use mspec_expr::{Env, EvalRefusal, ItemOf, Meant, MeantName, NodeName, Range, Scope, Words};
use mspec_tree::{
    Body, Case, CaseList, Constant, ConstantList, Def, DefBody, Description, Expr, ExprBox, Field,
    FieldList, Lit, LitList, Name, Op, Param, Place, Ref, Shape, Simple,
};
use node_tree::{ByteList, Node, NodeList};
use sqlite_items::{Boxed, Items};
use std::alloc::{AllocError, Global};
use std::process::Abort;
use std::test::Fail;

const HERE: Place = Place { line: 1, column: 1 };

fn spelt(alloc: Global, text: &str) -> Result<Name, AllocError> {
    Items::from_slice(alloc, text.as_bytes())
}

// ---- expressions

/// A number, a flag, `null`, a word or a name, as it is spelt.
fn operand(alloc: Global, text: &str) -> Result<Shape, AllocError> {
    if let Ok(size) = text.parse::<u128>() {
        let negative = false;
        return Ok(Shape::Lit(Lit::Num { negative, size }));
    }
    match text {
        "true" => Ok(Shape::Lit(Lit::Flag(true))),
        "null" => Ok(Shape::Null),
        "curPos" => Ok(Shape::CurPos),
        "lengthInBytes" => Ok(Shape::Length),
        "lastItem" => Ok(Shape::LastItem),
        "SUM_BYTES" => Ok(Shape::SumBytes),
        "XOR_BYTES" => Ok(Shape::XorBytes),
        _ => Ok(Shape::Name(spelt(alloc, text)?)),
    }
}

fn expr(shape: Shape) -> Expr {
    Expr { place: HERE, shape }
}

fn boxed(alloc: Global, text: &str) -> Result<ExprBox, AllocError> {
    let shape = operand(alloc, text)?;
    Boxed::new(alloc, expr(shape))
}

fn operator(word: &str) -> Op {
    match word {
        "+" => Op::Add,
        "-" => Op::Sub,
        "*" => Op::Mul,
        "/" => Op::Div,
        "%" => Op::Rem,
        "&" => Op::BitAnd,
        "|" => Op::BitOr,
        "<<" => Op::Shl,
        ">>" => Op::Shr,
        "<" => Op::Lt,
        "<=" => Op::Le,
        ">" => Op::Gt,
        ">=" => Op::Ge,
        "==" => Op::Eq,
        "!=" => Op::Ne,
        "&&" => Op::And,
        _ => Op::Or,
    }
}

fn two(alloc: Global, word: &str, a: &str, b: &str) -> Result<Shape, AllocError> {
    let left = boxed(alloc, a)?;
    let right = boxed(alloc, b)?;
    Ok(Shape::Two(operator(word), left, right))
}

/// One operator over another one's outcome and the same right side.
fn again(alloc: Global, first: Op, then: Op, a: &str, b: &str) -> Result<Shape, AllocError> {
    let left = boxed(alloc, a)?;
    let right = boxed(alloc, b)?;
    let inner = Boxed::new(alloc, expr(Shape::Two(first, left, right)))?;
    let outer = boxed(alloc, b)?;
    Ok(Shape::Two(then, inner, outer))
}

fn dot(alloc: Global, inner: ExprBox, name: &str) -> Result<Shape, AllocError> {
    Ok(Shape::Dot(inner, spelt(alloc, name)?))
}

/// A field of the case B of a value.
fn cast(alloc: Global, of: &str, name: &str) -> Result<Shape, AllocError> {
    let inner = boxed(alloc, of)?;
    let case = spelt(alloc, "B")?;
    let taken = Boxed::new(alloc, expr(Shape::Cast(inner, case)))?;
    dot(alloc, taken, name)
}

/// A value as one of a case that it isn't, beside another operand.
fn beside_a_wrong_cast(alloc: Global, a: &str, b: &str) -> Result<Shape, AllocError> {
    let inner = boxed(alloc, a)?;
    let case = spelt(alloc, "A")?;
    let taken = Boxed::new(alloc, expr(Shape::Cast(inner, case)))?;
    let left = Boxed::new(alloc, expr(dot(alloc, taken, "x")?))?;
    let right = boxed(alloc, b)?;
    Ok(Shape::Two(Op::Add, left, right))
}

fn chosen(alloc: Global, condition: &str, a: &str, b: &str) -> Result<Shape, AllocError> {
    let condition = boxed(alloc, condition)?;
    let first = boxed(alloc, a)?;
    let second = boxed(alloc, b)?;
    Ok(Shape::If(condition, first, second))
}

/// The expression of a row.
fn shape(alloc: Global, row: Row<'_>) -> Result<Shape, AllocError> {
    match row.form {
        "one" => operand(alloc, row.a),
        "neg" => Ok(Shape::Neg(boxed(alloc, row.a)?)),
        "!" => Ok(Shape::Not(boxed(alloc, row.a)?)),
        "COUNT" => Ok(Shape::Count(boxed(alloc, row.a)?)),
        "length" => Ok(Shape::LengthOf(boxed(alloc, row.a)?)),
        "." => dot(alloc, boxed(alloc, row.a)?, row.b),
        "CAST" => cast(alloc, row.a, row.b),
        "CAST+" => beside_a_wrong_cast(alloc, row.a, row.b),
        "?" => chosen(alloc, "f", row.a, row.b),
        ":" => chosen(alloc, "n", row.a, row.b),
        "+-" => again(alloc, Op::Add, Op::Sub, row.a, row.b),
        "*/" => again(alloc, Op::Mul, Op::Div, row.a, row.b),
        word => two(alloc, word, row.a, row.b),
    }
}

// ---- the description

fn field(alloc: Global, name: &str, body: Body) -> Result<Field, AllocError> {
    Ok(Field {
        place: HERE,
        named: HERE,
        name: spelt(alloc, name)?,
        order: None,
        body,
    })
}

fn fields(alloc: Global, first: Field) -> Result<FieldList, AllocError> {
    let mut fields = Items::new(alloc);
    fields.push(first)?;
    Ok(fields)
}

fn number_field(alloc: Global, name: &str, width: u8) -> Result<Field, AllocError> {
    field(alloc, name, Body::Simple(Ref::Plain(Simple::Uint(width))))
}

fn padding(alloc: Global, width: u8, count: Shape) -> Result<Field, AllocError> {
    let zero = Lit::Num {
        negative: false,
        size: 0,
    };
    field(
        alloc,
        "v",
        Body::Padding(Simple::Uint(width), zero, expr(count)),
    )
}

fn case(alloc: Global, name: &str, inner: &str, width: u8) -> Result<Case, AllocError> {
    let own = number_field(alloc, inner, width)?;
    Ok(Case {
        place: HERE,
        named: HERE,
        keys: Items::new(alloc),
        name: spelt(alloc, name)?,
        fields: fields(alloc, own)?,
    })
}

fn cases(alloc: Global) -> Result<CaseList, AllocError> {
    let mut cases = Items::new(alloc);
    for (name, inner, width) in [("A", "x", 16), ("B", "y", 24)] {
        cases.push(case(alloc, name, inner, width)?)?;
    }
    Ok(cases)
}

fn def(alloc: Global, name: &str, body: DefBody) -> Result<Def, AllocError> {
    Ok(Def {
        place: HERE,
        named: HERE,
        name: spelt(alloc, name)?,
        params: Items::new(alloc),
        order: None,
        body,
    })
}

/// `[discriminatedType D [simple uint 8 k] [typeSwitch k [A [simple uint 16 x]] [B [simple uint 24 y]]]]`
fn switched(alloc: Global) -> Result<Def, AllocError> {
    let key = number_field(alloc, "k", 8)?;
    let mut own = fields(alloc, key)?;
    let cases = cases(alloc)?;
    let switch = field(alloc, "", Body::Switch(Items::new(alloc), cases))?;
    own.push(switch)?;
    def(alloc, "D", DefBody::Switched(own))
}

/// `[type P [simple uint 8 k] [padding uint 4 v '0' 'k + 1']]`
fn padded(alloc: Global) -> Result<Def, AllocError> {
    let key = number_field(alloc, "k", 8)?;
    let mut own = fields(alloc, key)?;
    let count = two(alloc, "+", "k", "1")?;
    own.push(padding(alloc, 4, count)?)?;
    def(alloc, "P", DefBody::Plain(own))
}

/// `[type Q [padding uint 8 v '0' 'lastItem ? 0 : 1']]`
fn padded_unless_last(alloc: Global) -> Result<Def, AllocError> {
    let count = chosen(alloc, "lastItem", "0", "1")?;
    let only = padding(alloc, 8, count)?;
    let own = fields(alloc, only)?;
    def(alloc, "Q", DefBody::Plain(own))
}

fn constant(alloc: Global, size: u128, name: &str, attrs: LitList) -> Result<Constant, AllocError> {
    let negative = false;
    Ok(Constant {
        place: HERE,
        value: Lit::Num { negative, size },
        name: spelt(alloc, name)?,
        attrs,
    })
}

fn attribute(alloc: Global, size: u128) -> Result<LitList, AllocError> {
    let negative = false;
    let mut attrs = Items::new(alloc);
    attrs.push(Lit::Num { negative, size })?;
    Ok(attrs)
}

fn constants(alloc: Global) -> Result<ConstantList, AllocError> {
    let mut constants = Items::new(alloc);
    constants.push(constant(alloc, 1, "A", Items::new(alloc))?)?;
    let four = attribute(alloc, 4)?;
    constants.push(constant(alloc, 2, "B", four)?)?;
    let mut five = attribute(alloc, 5)?;
    five.push(Lit::Flag(true))?;
    constants.push(constant(alloc, 2, "D", five)?)?;
    Ok(constants)
}

fn param(alloc: Global, simple: Simple, name: &str) -> Result<Param, AllocError> {
    Ok(Param {
        place: HERE,
        kind: Ref::Plain(simple),
        name: spelt(alloc, name)?,
    })
}

/// `[enum byte E(uint 4 size, bit on) ['1' A] ['2' B ['4']] ['2' D ['5', 'true']]]`
fn an_enum(alloc: Global) -> Result<Def, AllocError> {
    let mut params = Items::new(alloc);
    params.push(param(alloc, Simple::Uint(4), "size")?)?;
    params.push(param(alloc, Simple::Bit, "on")?)?;
    Ok(Def {
        place: HERE,
        named: HERE,
        name: spelt(alloc, "E")?,
        params,
        order: None,
        body: DefBody::Enum(Simple::Byte, constants(alloc)?),
    })
}

fn description(alloc: Global) -> Result<Description, AllocError> {
    let mut defs = Items::new(alloc);
    defs.push(an_enum(alloc)?)?;
    defs.push(switched(alloc)?)?;
    defs.push(padded(alloc)?)?;
    defs.push(padded_unless_last(alloc)?)?;
    Ok(Description { defs })
}

// ---- names

fn number(low: i128, high: i128) -> Meant {
    Meant::Number(Range { low, high })
}

/// What the names below are. `o` and `p` are optional fields, and so is the group `a`.
fn kind(name: &str) -> Meant {
    match name {
        "b" | "o" | "p" => number(0, 255),
        "i" | "m" => number(-128, 127),
        "j" => number(-9_223_372_036_854_775_808, 9_223_372_036_854_775_807),
        "w" => number(0, 18_446_744_073_709_551_615),
        "f" | "n" => Meant::Flag,
        "e" | "u" | "q" => Meant::EnumOf(0),
        "g" | "a" => Meant::GroupOf { def: 1, case: 0 },
        "s" => Meant::GroupOf { def: 2, case: 0 },
        "l" => Meant::ListOf(ItemOf::Bits(12)),
        "t" => Meant::ListOf(ItemOf::GroupOf {
            def: 3,
            counted: true,
        }),
        "k" => Meant::ListOf(ItemOf::GroupOf {
            def: 3,
            counted: false,
        }),
        "y" => Meant::Bytes,
        _ => Meant::Raw,
    }
}

fn numbers(alloc: Global, numbers: &[i128]) -> Result<NodeList, AllocError> {
    let mut list = Items::new(alloc);
    for number in numbers {
        list.push(Node::Num(*number))?;
    }
    Ok(list)
}

fn group(case: u16, entries: NodeList) -> Node {
    Node::Group { case, entries }
}

/// Two items with unset paddings.
fn items(alloc: Global) -> Result<Node, AllocError> {
    let mut list = Items::new(alloc);
    for _ in 0..2 {
        let mut entries = Items::new(alloc);
        entries.push(Node::Unset)?;
        list.push(group(0, entries))?;
    }
    Ok(Node::List(list))
}

fn with_padding(alloc: Global) -> Result<Node, AllocError> {
    let mut entries = numbers(alloc, &[2])?;
    entries.push(Node::Unset)?;
    Ok(group(0, entries))
}

fn node(alloc: Global, name: &str) -> Result<Node, AllocError> {
    match name {
        "b" => Ok(Node::Num(200)),
        "i" => Ok(Node::Num(-7)),
        "m" => Ok(Node::Num(-4)),
        "j" => Ok(Node::Num(-9_223_372_036_854_775_808)),
        "w" => Ok(Node::Num(18_446_744_073_709_551_615)),
        "p" => Ok(Node::Num(5)),
        "f" => Ok(Node::Flag(true)),
        "n" => Ok(Node::Flag(false)),
        "u" => Ok(Node::Num(1)),
        "e" => Ok(Node::Num(2)),
        "q" => Ok(Node::Num(9)),
        "g" => Ok(group(2, numbers(alloc, &[3, 70_000])?)),
        "s" => with_padding(alloc),
        "l" => Ok(Node::List(numbers(alloc, &[1, 2, 3])?)),
        "t" | "k" => items(alloc),
        "y" => Ok(Node::Blob(ByteList::from_slice(alloc, b"ab")?)),
        "r" => Ok(Node::Raw { bits: 0, width: 32 }),
        _ => Ok(Node::Absent),
    }
}

const NAMES: &str = "b i m j w p f n u e q g s l t k y r o a";

fn scope(alloc: Global) -> Result<Scope, AllocError> {
    let mut names = Items::new(alloc);
    for text in NAMES.split(' ') {
        let name = spelt(alloc, text)?;
        names.push(MeantName {
            name,
            meant: kind(text),
            optional: matches!(text, "o" | "p" | "a"),
        })?;
    }
    let words = Words {
        length: true,
        last_item: true,
        sums: true,
    };
    Ok(Scope { names, words })
}

/// The position is inside the tenth byte of a type that begins at the second.
fn env(alloc: Global) -> Result<Env, AllocError> {
    let mut names = Items::new(alloc);
    for text in NAMES.split(' ') {
        let name = spelt(alloc, text)?;
        let node = node(alloc, text)?;
        names.push(NodeName { name, node })?;
    }
    Ok(Env {
        names,
        position: 83,
        first: 8,
        length: 300,
        last_item: true,
        sum: 1_000,
        xor: 90,
    })
}

// ---- rows

/// A form with its operands, and the answer: a number or a fault.
#[derive(Clone, Copy)]
struct Row<'a> {
    form: &'a str,
    a: &'a str,
    b: &'a str,
    answer: &'a str,
}

fn row_of(line: &str) -> Option<Row<'_>> {
    let (given, answer) = line.split_once(" = ")?;
    let (form, operands) = given.split_once(' ')?;
    let (a, b) = operands.split_once(' ').unwrap_or((operands, ""));
    Some(Row { form, a, b, answer })
}

fn shown(alloc: Global, answer: Result<i128, EvalRefusal>) -> Result<String, AllocError> {
    match answer {
        Ok(number) => format!(in alloc; "{number}"),
        Err(EvalRefusal::Fails(fault)) => format!(in alloc; "{fault:?}"),
        Err(EvalRefusal::NoMemory) => format!(in alloc; "no memory"),
    }
}

fn has_row(
    rt: &impl Abort,
    alloc: Global,
    d: &Description,
    scope: &Scope,
    env: &Env,
    line: &str,
) -> Result<(), AllocError> {
    if let Some(row) = row_of(line) {
        let e = expr(shape(alloc, row)?);
        let text = shown(alloc, eval(d, scope, env, &e))?;
        assert!(rt; text.as_str() == row.answer, "{line}: {text}");
    }
    Ok(())
}

fn have_rows(rt: &impl Abort, alloc: Global, rows: &str) -> Result<(), AllocError> {
    let d = description(alloc)?;
    let scope = scope(alloc)?;
    let env = env(alloc)?;
    for line in rows.lines() {
        has_row(rt, alloc, &d, &scope, &env, line)?;
    }
    Ok(())
}

const OPERATORS: &str = "one 18446744073709551615 = 18446744073709551615
one 18446744073709551616 = NullAccess
one true = 1
one null = NullAccess
+ b i = 193
+ w 0 = 18446744073709551615
+ w 1 = NullAccess
+- w 1 = NullAccess
- i b = -207
- j 0 = -9223372036854775808
- j 1 = NullAccess
* i m = 28
* w 1 = 18446744073709551615
* w w = NullAccess
* j j = NullAccess
*/ w 2 = NullAccess
/ i 4 = -1
/ 7 m = -1
/ i m = 1
/ j 1 = -9223372036854775808
% i 4 = -3
% 7 m = 3
% i m = -3
<< 1 63 = 9223372036854775808
<< 1 64 = NullAccess
<< 3 2 = 12
>> w 63 = 1
>> 200 3 = 25
& 12 10 = 8
& w w = 18446744073709551615
| 12 10 = 14
< 1 2 = 1
< 2 2 = 0
<= 2 2 = 1
<= 3 2 = 0
> 2 2 = 0
> i m = 0
>= 2 2 = 1
>= i m = 0
== 2 e = 1
== f n = 0
!= 2 3 = 1
neg i = 7
neg j = 9223372036854775808
neg w = NullAccess
neg 9223372036854775808 = -9223372036854775808
! f = 0
! n = 1
|| n f = 1
|| n n = 0
|| f o = 1
|| n o = NullAccess
|| o f = NullAccess
&& f f = 1
&& f n = 0
&& n o = 0
&& f o = NullAccess
&& o n = NullAccess
? b o = 200
? o b = NullAccess
: o b = 200
: b o = NullAccess
CAST+ g o = CastFails";

#[test]
fn operators_have_values(rt: HostRuntime) -> Result<(), Fail> {
    have_rows(&rt, rt.alloc(), OPERATORS)?;
    Ok(())
}

const NAMED: &str = "one b = 200
one f = 1
one e = 2
one o = NullAccess
one l = NullAccess
one E = NullAccess
one zz = NullAccess
== o null = 1
== null p = 0
!= o null = 0
!= null p = 1
COUNT l = 3
COUNT y = 2
COUNT o = NullAccess
length p = 1
length o = 0
length a = 0
length g = 4
length l = 5
length y = 2
length s = 3
length t = 1
length k = 2
. g k = 3
. g y = 70000
. g x = NullAccess
. a k = NullAccess
. b k = NullAccess
CAST g y = 70000
CAST g k = 3
CAST a y = NullAccess
. E B = 2
. E C = EnumAttr
. e size = 4
. e on = 1
. e none = EnumAttr
. u size = EnumAttr
. q size = EnumAttr
one curPos = 9
one lengthInBytes = 300
one lastItem = 1
one SUM_BYTES = 1000
one XOR_BYTES = 90";

#[test]
fn names_and_words_have_values(rt: HostRuntime) -> Result<(), Fail> {
    have_rows(&rt, rt.alloc(), NAMED)?;
    Ok(())
}
