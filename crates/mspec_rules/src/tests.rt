//! What is told of small descriptions, and where; columns stand for places.

use crate::type_wrong;
use crate::wrongs::CheckWhy;
use mspec_expr::ExprWhy;
use mspec_tree::{
    Body, Def, DefBody, DefList, Description, Field, FieldList, Lit, Name, Place, Simple,
};
use sqlite_items::Items;
use std::alloc::{AllocError, Global};
use std::test::Fail;

fn at(column: u32) -> Place {
    Place { line: 1, column }
}

fn spelt(alloc: Global, text: &[u8]) -> Result<Name, AllocError> {
    Items::from_slice(alloc, text)
}

/// A type whose bracket stands at a column, its name one column on.
fn def(alloc: Global, column: u32, name: &[u8], fields: FieldList) -> Result<Def, AllocError> {
    Ok(Def {
        place: at(column),
        named: at(column.saturating_add(1)),
        name: spelt(alloc, name)?,
        params: Items::new(alloc),
        order: None,
        body: DefBody::Plain(fields),
    })
}

fn told(d: &Description) -> Option<(u32, CheckWhy)> {
    type_wrong(d).map(|wrong| (wrong.place.column, wrong.why))
}

// ---- names

/// Types without fields, ten columns apart, each named by one letter.
fn types(alloc: Global, letters: &[u8]) -> Result<DefList, AllocError> {
    let mut defs = Items::new(alloc);
    let mut column = 1u32;
    for letter in letters {
        defs.push(def(alloc, column, &[*letter], Items::new(alloc))?)?;
        column = column.saturating_add(10);
    }
    Ok(defs)
}

#[test]
fn the_second_of_two_names_is_told(rt: HostRuntime) -> Result<(), Fail> {
    let rows = [
        ("", None),
        ("ABC", None),
        ("ABCAB", Some((32, CheckWhy::DoubledName))),
        ("ABBA", Some((22, CheckWhy::DoubledName))),
    ];
    for (letters, wanted) in rows {
        let defs = types(rt.alloc(), letters.as_bytes())?;
        let d = Description { defs };
        assert_eq!(rt; told(&d), wanted);
    }
    Ok(())
}

// ---- types and literals

/// A type of one field at column 5, which is a constant.
fn constant(alloc: Global, simple: Simple, value: Lit) -> Result<DefList, AllocError> {
    let mut fields = Items::new(alloc);
    fields.push(Field {
        place: at(5),
        named: at(8),
        name: spelt(alloc, b"a")?,
        order: None,
        body: Body::Const(simple, value),
    })?;
    let mut defs = Items::new(alloc);
    defs.push(def(alloc, 1, b"A", fields)?)?;
    Ok(defs)
}

fn signed(number: i64) -> Lit {
    Lit::Num {
        negative: number < 0,
        size: u128::from(number.unsigned_abs()),
    }
}

#[test]
fn one_place_tells_its_lowest_rule(rt: HostRuntime) -> Result<(), Fail> {
    let rows = [
        (Simple::Uint(8), signed(255), None),
        (Simple::Int(8), signed(-128), None),
        (Simple::Bit, Lit::Flag(true), None),
        (Simple::Uint(8), signed(256), Some(CheckWhy::ConstRange)),
        (Simple::Int(8), signed(-129), Some(CheckWhy::ConstRange)),
        (Simple::Bit, signed(1), Some(CheckWhy::ConstRange)),
        (Simple::Uint(65), signed(0), Some(CheckWhy::WidthRange)),
        (
            Simple::Float(20),
            signed(0),
            Some(CheckWhy::Expr(ExprWhy::KindMismatch)),
        ),
    ];
    for (simple, value, wanted) in rows {
        let defs = constant(rt.alloc(), simple, value)?;
        let d = Description { defs };
        assert_eq!(rt; told(&d), wanted.map(|why| (5, why)));
    }
    Ok(())
}
