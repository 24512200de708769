//! What a description means: the values of its expressions, and how bits are read and written by it.
//!
//! `specs/` has the definitions; each file is one subject, to be read in this order: `Counted`, `Kinds`, `Values`, `Sizes`; for
//! reading `Contexts`, `Reads`, `Stream`; for writing `Visits`, `Desks`, `Writes`; then `Arguments`, `Ranges`, `Fits`. `Worked` has
//! examples, over the descriptions in `Examples`.
#![tactic(auto)]

mod kinds;
mod laws;
mod names;
mod powers;
mod scopes;
mod types;

pub use kinds::{EvalRefusal, ExprWhy, Fault, ItemOf, Meant, Range, RangeFault, Target};
pub use laws::{
    depth_is_enough, more_bits, one_stream, values_lie_in_ranges, values_stay_inside,
    worked_examples,
};
pub use names::{
    case_fields, constant_named, constants_of, def_at, def_named, fields_of, first_cases, is_named,
    meant_named, param_named, params_of,
};
pub use powers::{binary_digits, power_of_two};
pub use scopes::{Env, MeantList, MeantName, NodeName, NodeNameList, Scope, Words};
pub use types::{
    NO_RANGE, base_of, field_meant, items_meant, own_range, ref_meant, simple_meant, target_named,
    width,
};
