//! Validates the names that Git uses, returns why a name is invalid, and repairs reference names.
//!
//! | Module | Names |
//! |---|---|
//! | [`tag`] | tag names, whose rule is part of that of every reference name |
//! | [`reference`] | partial names, full names and branch names; repair and join |
//! | [`submodule`] | submodule names |
//! | [`path`] | path components, and their join |
//! | [`text`] | what an error prints, in its parts |
//!
//! Only the joins and `reference::name_partial_or_sanitize` allocate. The rules are in
//! docs/RULES.md, and the definitions that the contracts cite are in `specs/`.
#![tactic(auto)]

mod adjacent;
mod bytes;
mod lanes;
pub mod path;
mod pieces;
pub mod reference;
mod scan;
pub mod submodule;
pub mod tag;
pub mod text;
