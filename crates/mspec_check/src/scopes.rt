//! Names as expressions see them. The names that a field sees are kept in one list, to which each named field is added behind it, and
//! from which those of a case are taken again.

ghost use Rattle.std.specs.Prelude.{◌≡◌, ◌≤◌, ◌++◌, [], ◌∷◌, IfOk, OnOk, length, take};
ghost use Rattle.mspec_expr.specs.Kinds.{layer};
ghost use Rattle.mspec_check.specs.Scopes.{checksum_words, field_seen, fields_seen, implicit_words, is_const, is_named, is_known, no_words, padding_words, param_seen, params_seen, seen_given};
ghost use Rattle.mspec_check.specs.Sites.{around, is_shown};

use crate::sites::Site;
use mspec_expr::{MeantName, Scope, Words, field_meant, ref_meant};
use mspec_tree::{Body, Description, Field, Param};
use sqlite_items::Items;
use std::alloc::{AllocError, Global};

/// Which fields are seen.
#[derive(Clone, Copy, Debug, PartialEq, Eq)]
pub(crate) enum Shown {
    /// Each that has a name.
    Named,
    /// Const fields and those that are given.
    Known,
    /// Those that are given when a value is written: simple, discriminator, optional and array fields.
    Given,
}

pub(crate) const NO_WORDS: Words = Words {
    length: false,
    last_item: false,
    sums: false,
};

const IMPLICIT_WORDS: Words = Words {
    length: true,
    last_item: false,
    sums: false,
};

pub(crate) const PADDING_WORDS: Words = Words {
    length: false,
    last_item: true,
    sums: false,
};

pub(crate) const CHECKSUM_WORDS: Words = Words {
    length: false,
    last_item: false,
    sums: true,
};

fn param_seen(alloc: Global, d: &Description, param: &Param) -> Result<MeantName, AllocError>
    ensures { IfOk result (λ seen. seen ≡ param_seen d.now param.now) }
{
    let name = Items::from_slice(alloc, param.name.as_slice())?;
    Ok(MeantName {
        name,
        meant: ref_meant(d, &param.kind),
        optional: false,
    })
}

fn field_seen(alloc: Global, d: &Description, field: &Field) -> Result<MeantName, AllocError>
    ensures { IfOk result (λ seen. seen ≡ field_seen d.now field.now) }
{
    let name = Items::from_slice(alloc, field.name.as_slice())?;
    Ok(MeantName {
        name,
        meant: field_meant(d, field),
        optional: matches!(&field.body, Body::Optional(..)),
    })
}

pub(crate) fn is_named(field: &Field) -> bool
    ensures { result ≡ is_named (layer field.now) }
{
    !matches!(&field.body, Body::Reserved(..) | Body::Switch(..))
}

pub(crate) fn is_const(field: &Field) -> bool
    ensures { result ≡ is_const (layer field.now) }
{
    matches!(&field.body, Body::Const(..))
}

fn is_given(field: &Field) -> bool
    ensures { result ≡ is_shown Shown.Given (layer field.now) }
{
    matches!(
        &field.body,
        Body::Simple(_)
            | Body::Discriminator(_)
            | Body::Optional(..)
            | Body::CountArray(..)
            | Body::LengthArray(..)
    )
}

fn is_shown(shown: Shown, field: &Field) -> bool
    ensures { result ≡ is_shown shown (layer field.now) }
{
    match shown {
        Shown::Named => is_named(field),
        Shown::Known => is_const(field) || is_given(field),
        Shown::Given => is_given(field),
    }
}

/// Adds a definition's parameters to the names that are seen.
pub(crate) fn see_params(
    alloc: Global,
    d: &Description,
    scope: &mut Scope,
    params: &[Param],
) -> Result<(), AllocError>
    ensures { OnOk result (scope.new.names ≡ scope.old.names ++ params_seen d.now params.now) }
{
    for param in params {
        scope.names.push(param_seen(alloc, d, param)?)?;
    }
    Ok(())
}

/// Adds a field to the names that are seen, if it is one of these.
pub(crate) fn see_field(
    alloc: Global,
    d: &Description,
    scope: &mut Scope,
    shown: Shown,
    field: &Field,
) -> Result<(), AllocError>
    ensures { OnOk result (scope.new.names ≡ scope.old.names ++ fields_seen d.now (is_shown shown) (field.now ∷ [])) }
{
    if is_shown(shown, field) {
        scope.names.push(field_seen(alloc, d, field)?)?;
    }
    Ok(())
}

fn see_fields(
    alloc: Global,
    d: &Description,
    scope: &mut Scope,
    shown: Shown,
    fields: &[Field],
) -> Result<(), AllocError>
    ensures { OnOk result (scope.new.names ≡ scope.old.names ++ fields_seen d.now (is_shown shown) fields.now) }
{
    for field in fields {
        see_field(alloc, d, scope, shown, field)?;
    }
    Ok(())
}

/// What an implicit expression sees.
pub(crate) fn seen_given(alloc: Global, d: &Description, site: &Site) -> Result<Scope, AllocError>
    ensures { IfOk result (λ scope. scope ≡ seen_given d.now (around site.now)) }
{
    let mut scope = Scope {
        names: Items::new(alloc),
        words: NO_WORDS,
    };
    see_params(alloc, d, &mut scope, site.params)?;
    see_fields(alloc, d, &mut scope, Shown::Known, site.outer_before)?;
    see_fields(alloc, d, &mut scope, Shown::Known, site.before)?;
    see_fields(alloc, d, &mut scope, Shown::Given, site.after)?;
    see_fields(alloc, d, &mut scope, Shown::Given, site.outer_after)?;
    let names = scope.names;
    Ok(Scope {
        names,
        words: IMPLICIT_WORDS,
    })
}

/// Takes the names behind the first ones away.
pub(crate) fn forget(scope: &mut Scope, count: usize)
    requires { count ≤ length scope.old.names }
    ensures { scope.new.names ≡ take count scope.old.names }
{
    while scope.names.len() > count {
        scope.names.pop();
    }
}
