//! Where a field stands.

ghost use Rattle.std.specs.Prelude.{◌≡◌, ◌<◌, [], length};
ghost use Rattle.mspec_check.specs.Sites.{around, around_outer, field_around};

use mspec_tree::{Field, Param};

/// What stands around a list of fields: the parameters of its definition, and where it is a case's, the fields before the switch
/// and those behind it.
#[derive(Clone, Copy)]
pub(crate) struct Outer<'a> {
    pub params: &'a [Param],
    pub before: &'a [Field],
    pub after: &'a [Field],
}

/// What stands around a field: of its own list, and of its parent's where it stands in a case.
#[derive(Clone, Copy)]
pub(crate) struct Site<'a> {
    pub params: &'a [Param],
    pub outer_before: &'a [Field],
    pub before: &'a [Field],
    pub after: &'a [Field],
    pub outer_after: &'a [Field],
}

/// The field at a place in a list.
pub(crate) fn site_at<'a>(outer: &Outer<'a>, fields: &'a [Field], place: usize) -> Site<'a>
    requires { place < length fields.now }
    ensures outer_before { result.outer_before.now ≡ outer.now.before.now }
    ensures outer_after { result.outer_after.now ≡ outer.now.after.now }
    ensures around { around result ≡ field_around outer.now fields.now place }
{
    Site {
        params: outer.params,
        outer_before: outer.before,
        before: &fields[..place],
        after: &fields[place + 1..],
        outer_after: outer.after,
    }
}

/// What stands around the fields of a switch's cases, for a switch of a definition's own list.
pub(crate) fn outer_of<'a>(site: &Site<'a>) -> Outer<'a>
    requires before { site.now.outer_before.now ≡ [] }
    requires after { site.now.outer_after.now ≡ [] }
    ensures { around_outer result ≡ around site.now }
{
    Outer {
        params: site.params,
        before: site.before,
        after: site.after,
    }
}
