//! What is kept of an expression while those around it are judged.

ghost use Rattle.std.specs.Prelude.{◌≡◌, ◌||◌, List};
ghost use Rattle.mspec_expr.specs.declared.kinds.Fault.{Fault};
ghost use Rattle.mspec_expr.specs.Ranges.{Judged, field_is, is, is_array, is_flag, is_group, is_kind, is_null, is_number, nothing, unknown};
ghost use Rattle.mspec_ranges.specs.Verdicts.{Tells, earlier, earliest};

use crate::faults::earlier;
use mspec_expr::{ExprWhy, Fault, Meant};
use mspec_tree::Place;

/// What an expression is, if it is anything, whether it is an optional field, and the first of all that is wrong in it.
#[derive(Clone, Copy)]
pub(crate) struct Verdict {
    pub meant: Option<Meant>,
    pub optional: bool,
    pub fault: Option<Fault>,
}

/// It is this, without a fault of its own.
pub(crate) fn is(meant: Meant, fault: Option<Fault>) -> Verdict
    ensures { (faults : List Fault) → fault ≡ earliest faults → Tells result (is meant faults) }
{
    Verdict {
        meant: Some(meant),
        optional: false,
        fault,
    }
}

/// It is a field.
pub(crate) fn field_is(meant: Meant, optional: bool, fault: Option<Fault>) -> Verdict
    ensures { (faults : List Fault) → fault ≡ earliest faults → Tells result (field_is meant optional faults) }
{
    Verdict {
        meant: Some(meant),
        optional,
        fault,
    }
}

/// It is nothing, for this reason.
pub(crate) fn nothing(place: Place, why: ExprWhy, fault: Option<Fault>) -> Verdict
    ensures { (faults : List Fault) → fault ≡ earliest faults → Tells result (nothing place why faults) }
{
    Verdict {
        meant: None,
        optional: false,
        fault: earlier(Some(Fault { place, why }), fault),
    }
}

/// It is nothing, since a part of it is nothing.
pub(crate) fn unknown(fault: Option<Fault>) -> Verdict
    ensures { (faults : List Fault) → fault ≡ earliest faults → Tells result (unknown faults) }
{
    Verdict {
        meant: None,
        optional: false,
        fault,
    }
}

/// Whether it is a number or an enum value, if it is anything.
pub(crate) fn may_be_number(meant: Option<Meant>) -> bool
    ensures { result ≡ is_kind is_number meant }
{
    matches!(meant, None | Some(Meant::Number(_) | Meant::EnumOf(_)))
}

/// Whether it is a flag, if it is anything.
pub(crate) fn may_be_flag(meant: Option<Meant>) -> bool
    ensures { result ≡ is_kind is_flag meant }
{
    matches!(meant, None | Some(Meant::Flag))
}

/// Whether it is `null`, if it is anything.
pub(crate) fn may_be_null(meant: Option<Meant>) -> bool
    ensures { result ≡ is_kind is_null meant }
{
    matches!(meant, None | Some(Meant::Null))
}

/// Whether it is an array, if it is anything.
pub(crate) fn may_be_array(meant: Option<Meant>) -> bool
    ensures { result ≡ is_kind is_array meant }
{
    matches!(meant, None | Some(Meant::ListOf(_) | Meant::Bytes))
}

/// Whether it is a group or an array, if it is anything.
pub(crate) fn may_have_length(meant: Option<Meant>) -> bool
    ensures { result ≡ is_kind (λ meant. is_group meant || is_array meant) meant }
{
    matches!(
        meant,
        None | Some(Meant::GroupOf { .. } | Meant::ListOf(_) | Meant::Bytes)
    )
}
