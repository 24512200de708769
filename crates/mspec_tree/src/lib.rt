//! The syntax tree of a description in mspec, the language in which Apache PLC4X describes protocols.
//!
//! Its forms are this project's profile of the format, after PLC4X's documentation, with quoted expressions: the operators and how
//! they group, the two forms of `CAST`, and `curPos`, `lengthInBytes`, `lastItem`, `SUM_BYTES` and `XOR_BYTES` are this
//! project's own. `docs/LANGUAGE.md` says what this compiler takes of it.
#![tactic(auto)]

mod defs;
mod exprs;
mod fields;
mod words;

pub use defs::{
    Constant, ConstantList, Def, DefBody, DefList, Description, LitList, Param, ParamList,
};
pub use exprs::{Expr, ExprBox, ExprList, Ref, Shape};
pub use fields::{Body, Case, CaseList, Field, FieldList, KeyList, NameList};
pub use words::{ByteOrder, Key, Lit, Name, Op, Place, Simple};
