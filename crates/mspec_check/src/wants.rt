//! Which kinds of expressions fit a place.

ghost use Rattle.std.specs.Prelude.{◌≡◌};
ghost use Rattle.mspec_expr.specs.Ranges.{is_kind};
ghost use Rattle.mspec_check.specs.Arguments.{meant_reverse};
ghost use Rattle.mspec_check.specs.Wants.{fits, want_of};

use mspec_expr::Meant;

/// What a place wants of its expression.
#[derive(Clone, Copy, Debug, PartialEq, Eq)]
pub enum Want {
    /// Nothing.
    AnyKind,
    /// A number or an enum value.
    Numbers,
    Flags,
    /// A number, an enum value or a flag.
    Values,
}

/// What a type wants.
pub(crate) fn want_of(meant: Meant) -> Want
    ensures { result ≡ want_of meant }
{
    match meant {
        Meant::Number(_) | Meant::EnumOf(_) => Want::Numbers,
        Meant::Flag => Want::Flags,
        _ => Want::AnyKind,
    }
}

/// Whether an expression fits its place; one that is nothing does.
pub(crate) fn fits(want: Want, meant: Option<Meant>) -> bool
    ensures { result ≡ is_kind (fits want) meant }
{
    match want {
        Want::AnyKind => true,
        Want::Numbers => matches!(meant, None | Some(Meant::Number(_) | Meant::EnumOf(_))),
        Want::Flags => matches!(meant, None | Some(Meant::Flag)),
        Want::Values => matches!(
            meant,
            None | Some(Meant::Number(_) | Meant::EnumOf(_) | Meant::Flag)
        ),
    }
}

/// A flag where a number is wanted, or the reverse.
pub(crate) fn is_reverse(want: Want, meant: Option<Meant>) -> bool
    ensures { result ≡ meant_reverse want meant }
{
    match want {
        Want::Numbers => matches!(meant, Some(Meant::Flag)),
        Want::Flags => matches!(meant, Some(Meant::Number(_) | Meant::EnumOf(_))),
        _ => false,
    }
}
