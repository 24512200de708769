use crate::print_description;
use mspec_tree::{
    Body, ByteOrder, Case, CaseList, Constant, Def, DefBody, Description, Expr, ExprBox, ExprList,
    Field, FieldList, Key, Lit, LitList, Name, Op, Param, ParamList, Place, Ref, Shape, Simple,
};
use sqlite_items::{Boxed, Items};
use std::alloc::{AllocError, Global};
use std::process::Abort;
use std::test::Fail;

const NO_PLACE: Place = Place { line: 1, column: 1 };

fn name(alloc: Global, text: &str) -> Result<Name, AllocError> {
    Ok(Items::from_vec(Vec::from_slice(alloc, text.as_bytes())?))
}

fn number(size: u128) -> Lit {
    Lit::Num {
        negative: false,
        size,
    }
}

fn boxed(alloc: Global, shape: Shape) -> Result<ExprBox, AllocError> {
    Boxed::new(
        alloc,
        Expr {
            place: NO_PLACE,
            shape,
        },
    )
}

fn named(alloc: Global, text: &str) -> Result<ExprBox, AllocError> {
    boxed(alloc, Shape::Name(name(alloc, text)?))
}

fn name_expr(alloc: Global, text: &str) -> Result<Expr, AllocError> {
    Ok(Expr {
        place: NO_PLACE,
        shape: Shape::Name(name(alloc, text)?),
    })
}

fn ref_to(alloc: Global, text: &str, args: ExprList) -> Result<Ref, AllocError> {
    Ok(Ref::Named {
        place: NO_PLACE,
        name: name(alloc, text)?,
        args,
    })
}

fn field(alloc: Global, text: &str, body: Body) -> Result<Field, AllocError> {
    Ok(Field {
        place: NO_PLACE,
        named: NO_PLACE,
        name: name(alloc, text)?,
        order: None,
        body,
    })
}

fn def(alloc: Global, text: &str, body: DefBody) -> Result<Def, AllocError> {
    Ok(Def {
        place: NO_PLACE,
        named: NO_PLACE,
        name: name(alloc, text)?,
        params: Items::new(alloc),
        order: None,
        body,
    })
}

fn case(alloc: Global, text: &str, keys: Vec<Key>, fields: FieldList) -> Result<Case, AllocError> {
    Ok(Case {
        place: NO_PLACE,
        named: NO_PLACE,
        keys: Items::from_vec(keys),
        name: name(alloc, text)?,
        fields,
    })
}

/// A type of one virtual field with this expression.
fn of_expression(alloc: Global, shape: Shape) -> Result<Description, AllocError> {
    let e = Expr {
        place: NO_PLACE,
        shape,
    };
    let body = Body::Virtual(Ref::Plain(Simple::Int(16)), e);
    let fields = Items::from_vec(vec![in alloc; field(alloc, "v", body)?]?);
    let plain = def(alloc, "T", DefBody::Plain(fields))?;
    Ok(Description {
        defs: Items::from_vec(vec![in alloc; plain]?),
    })
}

#[test]
fn a_description_without_definitions_prints_no_byte(rt: HostRuntime) -> Result<(), Fail> {
    let alloc = rt.alloc();
    let empty = Description {
        defs: Items::new(alloc),
    };
    let text = print_description(alloc, &empty)?;
    assert!(rt; text.is_empty());
    Ok(())
}

/// `a - (-1)`
fn difference(alloc: Global) -> Result<Shape, AllocError> {
    let one = boxed(alloc, Shape::Lit(number(1)))?;
    let minus_one = boxed(alloc, Shape::Neg(one))?;
    Ok(Shape::Two(Op::Sub, named(alloc, "a")?, minus_one))
}

/// `(-a).b`
fn path_behind_minus(alloc: Global) -> Result<Shape, AllocError> {
    let negative = boxed(alloc, Shape::Neg(named(alloc, "a")?))?;
    Ok(Shape::Dot(negative, name(alloc, "b")?))
}

/// `-a.b`
fn minus_before_path(alloc: Global) -> Result<Shape, AllocError> {
    let path = boxed(alloc, Shape::Dot(named(alloc, "a")?, name(alloc, "b")?))?;
    Ok(Shape::Neg(path))
}

/// `COUNT(f ? a : b) * 2`
fn product(alloc: Global) -> Result<Shape, AllocError> {
    let choice = Shape::If(named(alloc, "f")?, named(alloc, "a")?, named(alloc, "b")?);
    let count = boxed(alloc, Shape::Count(boxed(alloc, choice)?))?;
    let two = boxed(alloc, Shape::Lit(number(2)))?;
    Ok(Shape::Two(Op::Mul, count, two))
}

/// The expression prints so in a virtual field.
fn check_expression(
    rt: &impl Abort,
    alloc: Global,
    shape: Shape,
    text: &[u8],
) -> Result<(), AllocError> {
    let printed = print_description(alloc, &of_expression(alloc, shape)?)?;
    assert_eq!(rt; printed.as_slice(), text);
    Ok(())
}

#[test]
fn each_operand_that_is_no_path_stands_in_parentheses(rt: HostRuntime) -> Result<(), Fail> {
    let alloc = rt.alloc();
    let text = b"[type T\n  [virtual int 16 v 'a - (-1)']\n]\n";
    check_expression(&rt, alloc, difference(alloc)?, text)?;
    let text = b"[type T\n  [virtual int 16 v '(-a).b']\n]\n";
    check_expression(&rt, alloc, path_behind_minus(alloc)?, text)?;
    let text = b"[type T\n  [virtual int 16 v '-a.b']\n]\n";
    check_expression(&rt, alloc, minus_before_path(alloc)?, text)?;
    let text = b"[type T\n  [virtual int 16 v 'COUNT(f ? a : b) * 2']\n]\n";
    check_expression(&rt, alloc, product(alloc)?, text)?;
    Ok(())
}

fn switch(alloc: Global) -> Result<Body, AllocError> {
    let byte = field(alloc, "x", Body::Simple(Ref::Plain(Simple::Byte)))?;
    let both = vec![in alloc; Key::Lit(number(1)), Key::Lit(Lit::Flag(true))]?;
    let first = case(alloc, "A", both, Items::from_vec(vec![in alloc; byte]?))?;
    let any = vec![in alloc; Key::Any, Key::Constant(name(alloc, "ON")?)]?;
    let second = case(alloc, "B", any, Items::new(alloc))?;
    let third = case(alloc, "C", Vec::new(alloc), Items::new(alloc))?;
    let cases: CaseList = Items::from_vec(vec![in alloc; first, second, third]?);
    let names = vec![in alloc; name(alloc, "k")?, name(alloc, "f")?]?;
    Ok(Body::Switch(Items::from_vec(names), cases))
}

#[test]
fn a_switch_and_its_cases_print_as_definitions_do(rt: HostRuntime) -> Result<(), Fail> {
    let alloc = rt.alloc();
    let key = field(alloc, "k", Body::Discriminator(Ref::Plain(Simple::Uint(8))))?;
    let choice = field(alloc, "", switch(alloc)?)?;
    let members = Items::from_vec(vec![in alloc; key, choice]?);
    let mut switched = def(alloc, "D", DefBody::Switched(members))?;
    let flag = Param {
        place: NO_PLACE,
        kind: Ref::Plain(Simple::Bit),
        name: name(alloc, "f")?,
    };
    let other = Param {
        place: NO_PLACE,
        kind: ref_to(alloc, "E", Items::new(alloc))?,
        name: name(alloc, "e")?,
    };
    let params: ParamList = Items::from_vec(vec![in alloc; flag, other]?);
    switched.params = params;
    switched.order = Some(ByteOrder::Little);
    let d = Description {
        defs: Items::from_vec(vec![in alloc; switched]?),
    };
    let text = print_description(alloc, &d)?;
    let expected =
        b"[discriminatedType D(bit f, E e) byteOrder='LITTLE_ENDIAN'\n  [discriminator uint 8 k]\n  [typeSwitch k, f\n    ['1', 'true' A\n      [simple byte x]\n    ]\n    ['*', 'ON' B\n    ]\n    [C\n    ]\n  ]\n]\n";
    assert_eq!(rt; text.as_slice(), expected.as_slice());
    Ok(())
}

fn constant(
    alloc: Global,
    text: &str,
    value: u128,
    attrs: LitList,
) -> Result<Constant, AllocError> {
    Ok(Constant {
        place: NO_PLACE,
        value: number(value),
        name: name(alloc, text)?,
        attrs,
    })
}

#[test]
fn constants_print_one_to_a_line(rt: HostRuntime) -> Result<(), Fail> {
    let alloc = rt.alloc();
    let attrs = Items::from_vec(vec![in alloc; number(4), Lit::Flag(true)]?);
    let first = constant(alloc, "A", 1, attrs)?;
    let second = constant(alloc, "B", 2, Items::new(alloc))?;
    let constants = Items::from_vec(vec![in alloc; first, second]?);
    let numbers = def(alloc, "E", DefBody::Enum(Simple::Uint(8), constants))?;
    let d = Description {
        defs: Items::from_vec(vec![in alloc; numbers]?),
    };
    let text = print_description(alloc, &d)?;
    let expected = b"[enum uint 8 E\n  ['1' A ['4', 'true']]\n  ['2' B]\n]\n";
    assert_eq!(rt; text.as_slice(), expected.as_slice());
    Ok(())
}

/// A type of one field prints it so.
fn check_field(
    rt: &impl Abort,
    alloc: Global,
    field: Field,
    text: &[u8],
) -> Result<(), AllocError> {
    let plain = def(
        alloc,
        "T",
        DefBody::Plain(Items::from_vec(vec![in alloc; field]?)),
    )?;
    let d = Description {
        defs: Items::from_vec(vec![in alloc; plain]?),
    };
    let printed = print_description(alloc, &d)?;
    assert_eq!(rt; printed.as_slice(), text);
    Ok(())
}

const BYTE: Simple = Simple::Uint(8);

/// What prints between a field's bracket and the next, of each kind whose type is plain.
fn check_numbers(rt: &impl Abort, alloc: Global) -> Result<(), AllocError> {
    let fixed = field(alloc, "a", Body::Const(BYTE, number(255)))?;
    check_field(rt, alloc, fixed, b"[type T\n  [const uint 8 a 255]\n]\n")?;
    let reserved = field(alloc, "", Body::Reserved(BYTE, number(10)))?;
    check_field(
        rt,
        alloc,
        reserved,
        b"[type T\n  [reserved uint 8 '10']\n]\n",
    )?;
    let checksum = field(alloc, "s", Body::Checksum(BYTE, name_expr(alloc, "n")?))?;
    check_field(
        rt,
        alloc,
        checksum,
        b"[type T\n  [checksum uint 8 s 'n']\n]\n",
    )
}

fn check_padding(rt: &impl Abort, alloc: Global) -> Result<(), AllocError> {
    let minus_zero = Lit::Num {
        negative: true,
        size: 0,
    };
    let body = Body::Padding(BYTE, minus_zero, name_expr(alloc, "n")?);
    let text = b"[type T\n  [padding uint 8 p '-0' 'n']\n]\n";
    check_field(rt, alloc, field(alloc, "p", body)?, text)?;
    let body = Body::Implicit(Ref::Plain(BYTE), name_expr(alloc, "n")?);
    let text = b"[type T\n  [implicit uint 8 i 'n']\n]\n";
    check_field(rt, alloc, field(alloc, "i", body)?, text)
}

fn check_optional(rt: &impl Abort, alloc: Global) -> Result<(), AllocError> {
    let args = Items::from_vec(vec![in alloc; name_expr(alloc, "b")?, name_expr(alloc, "c")?]?);
    let body = Body::Optional(ref_to(alloc, "T", args)?, name_expr(alloc, "f")?);
    let text = b"[type T\n  [optional T('b', 'c') o 'f']\n]\n";
    check_field(rt, alloc, field(alloc, "o", body)?, text)
}

fn check_arrays(rt: &impl Abort, alloc: Global) -> Result<(), AllocError> {
    let body = Body::CountArray(Ref::Plain(Simple::Byte), name_expr(alloc, "n")?);
    let text = b"[type T\n  [array byte v count 'n']\n]\n";
    check_field(rt, alloc, field(alloc, "v", body)?, text)?;
    let body = Body::LengthArray(Ref::Plain(Simple::Float(32)), name_expr(alloc, "n")?);
    let mut ordered = field(alloc, "w", body)?;
    ordered.order = Some(ByteOrder::Big);
    let text = b"[type T\n  [array float 32 w length 'n' byteOrder='BIG_ENDIAN']\n]\n";
    check_field(rt, alloc, ordered, text)
}

#[test]
fn each_kind_of_field_prints_on_its_line(rt: HostRuntime) -> Result<(), Fail> {
    let alloc = rt.alloc();
    check_numbers(&rt, alloc)?;
    check_padding(&rt, alloc)?;
    check_optional(&rt, alloc)?;
    check_arrays(&rt, alloc)?;
    Ok(())
}
