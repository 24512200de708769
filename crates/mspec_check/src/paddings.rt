//! What a padding's expression may have.

ghost use Rattle.std.specs.Prelude.{◌≡◌, ◌&&◌, find};
ghost use Rattle.std.specs.Option.{option_copied};
ghost use Rattle.std.specs.Str.{bytes_eq};
ghost use Rattle.mspec_tree.specs.declared.exprs.Expr.{out-Expr};
ghost use Rattle.mspec_tree.specs.declared.exprs.Shape.{out-Shape};
ghost use Rattle.mspec_tree.specs.declared.fields.Field.{out-Field};
ghost use Rattle.mspec_expr.specs.Kinds.{layer};
ghost use Rattle.mspec_rules.specs.Wrongs.{found};
ghost use Rattle.mspec_check.specs.Paddings.{else_unless, field_before, is_counted, is_value, may_be_array, parts_at, role_named, role_of};
ghost use Rattle.mspec_check.specs.Scopes.{is_named};
ghost use Rattle.mspec_check.specs.Sites.{around, earlier_of};

use crate::scopes::is_named;
use crate::sites::Site;
use mspec_expr::{is_named as is_spelt, param_named};
use mspec_rules::{CheckWhy, Rule, Wrong, earlier, told_if};
use mspec_tree::{Body, Expr, Field, Place, Shape};

/// What an earlier name is to a padding.
#[derive(Clone, Copy, Debug, PartialEq, Eq)]
pub(crate) enum Role {
    /// A simple or discriminator field.
    Value,
    Array,
    /// Any other field, or a parameter.
    Other,
}

fn role_of(field: &Field) -> Role
    ensures { result ≡ role_of (layer field.now) }
{
    match &field.body {
        Body::Simple(_) | Body::Discriminator(_) => Role::Value,
        Body::CountArray(..) | Body::LengthArray(..) => Role::Array,
        _ => Role::Other,
    }
}

fn is_of_name(name: &[u8], field: &Field) -> bool
    ensures { result ≡ (is_named (layer field.now) && bytes_eq (out-Field field.now).name name.now) }
{
    is_named(field) && is_spelt(&field.name, name)
}

fn field_before<'a>(name: &[u8], earlier: &'a [Field]) -> Option<&'a Field>
    ensures { option_copied result ≡ field_before name.now earlier.now }
{
    earlier.iter().find(|field| is_of_name(name, field))
}

/// The first field of this name before a place.
fn field_at<'a>(name: &[u8], site: &Site<'a>) -> Option<&'a Field>
    ensures { option_copied result ≡ field_before name.now (earlier_of site.now) }
{
    match field_before(name, site.outer_before) {
        Some(field) => Some(field),
        None => field_before(name, site.before),
    }
}

/// What a name is that is seen.
fn role_named(site: &Site, name: &[u8]) -> Option<Role>
    ensures { result ≡ role_named (around site.now) name.now }
{
    if param_named(site.params, name).is_some() {
        return Some(Role::Other);
    }
    match field_at(name, site) {
        Some(field) => Some(role_of(field)),
        None => None,
    }
}

fn is_value(site: &Site, name: &[u8]) -> bool
    ensures { result ≡ is_value (role_named (around site.now) name.now) }
{
    matches!(role_named(site, name), Some(Role::Value))
}

/// Whether `COUNT` may stand before this.
fn is_counted(site: &Site, e: &Expr) -> bool
    ensures { result ≡ is_counted (around site.now) (out-Shape (out-Expr e.now).shape) }
{
    match &e.shape {
        Shape::Name(name) => matches!(role_named(site, name.as_slice()), None | Some(Role::Array)),
        _ => false,
    }
}

fn else_unless(right: bool, place: Place) -> Option<Wrong>
    ensures { result ≡ found (else_unless right place) }
{
    told_if(None, !right, place, Rule::Paddings, CheckWhy::PaddingScope)
}

#[tactic(auto, using(crate::proofs::Told::found_both))]
/// The first part of an expression of at most so many levels that is something else.
pub(crate) fn parts_wrong(site: &Site, e: &Expr, levels: u8) -> Option<Wrong>
    ensures { result ≡ found (parts_at levels (around site.now) e.now) }
{
    let place = e.place;
    if levels == 0 {
        return None;
    }
    let under = levels - 1;
    match &e.shape {
        Shape::Lit(_) | Shape::LastItem => None,
        Shape::Name(name) => else_unless(is_value(site, name.as_slice()), place),
        Shape::Count(a) => else_unless(is_counted(site, a.get()), place),
        Shape::Not(a) | Shape::Neg(a) => parts_wrong(site, a.get(), under),
        Shape::Two(_, a, b) => {
            let left = parts_wrong(site, a.get(), under);
            earlier(left, parts_wrong(site, b.get(), under))
        }
        Shape::If(c, a, b) => {
            let condition = parts_wrong(site, c.get(), under);
            let first = earlier(condition, parts_wrong(site, a.get(), under));
            earlier(first, parts_wrong(site, b.get(), under))
        }
        Shape::Dot(a, _) | Shape::LengthOf(a) | Shape::Cast(a, _) => {
            let own = else_unless(false, place);
            earlier(own, parts_wrong(site, a.get(), under))
        }
        _ => else_unless(false, place),
    }
}
