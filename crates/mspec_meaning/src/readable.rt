ghost use Rattle.std.specs.Prelude.{◌↔◌, IsTrue};
ghost use Rattle.mspec_meaning.specs.Plain.{IsPlainField, ArePlain, HasPlainFields, CanRead};

use mspec_tree::{Body, DefBody, Description, Field, Ref, Simple};

fn is_plain_field(field: &Field) -> bool
    ensures { IsTrue result ↔ IsPlainField field.now }
{
    matches!(
        &field.body,
        Body::Simple(Ref::Plain(Simple::Uint(8 | 16 | 32 | 64)))
    )
}

fn are_plain(fields: &[Field]) -> bool
    ensures { IsTrue result ↔ ArePlain fields.now }
{
    fields.iter().all(is_plain_field)
}

fn has_plain_fields(body: &DefBody) -> bool
    ensures { IsTrue result ↔ HasPlainFields body.now }
{
    match body {
        DefBody::Plain(fields) => are_plain(fields.as_slice()),
        _ => false,
    }
}

/// Whether the definition at the place `def` can be read with these arguments so far: it is a type without
/// parameters, each of whose fields is a `simple` unsigned number of 8, 16, 32 or 64 bits in any order of bytes, and
/// there are no arguments. Where there is no definition at that place, it can't.
pub fn can_read(d: &Description, def: u16, args: &[i128]) -> bool
    ensures { IsTrue result ↔ CanRead d.now def args.now }
{
    match d.defs.get(usize::from(def)) {
        Some(found) => {
            found.params.is_empty() && args.is_empty() && has_plain_fields(&found.body)
        }
        None => false,
    }
}
