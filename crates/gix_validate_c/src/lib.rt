//! The functions of `git_names` for C: a static library with the C calling convention.
//!
//! | Module | Functions |
//! |---|---|
//! | [`names`] | validate one name: the number of its fault, and its offset |
//! | [`many`] | the same for many names in one buffer |
//! | [`texts`] | write the printed text of a name's fault to the caller's buffer |
//! | [`sanitize`] | repair a reference name in the caller's buffer |
//! | [`suggest`] | suggest a branch name for one that a person typed |
//! | [`version`] | the version of the library |
//!
//! A slice is a pointer and a length. Lengths and offsets are in bytes. No function has a
//! precondition other than those of C: the memory is there, nobody else writes to it during the
//! call, and a buffer to which a function writes overlaps no other argument. No function fails or
//! allocates. docs/RULES.md, "Calls for C", has the numbers, the flags and the results.
#![tactic(auto)]

mod fault;
mod flags;
pub mod many;
pub mod names;
pub mod sanitize;
pub mod suggest;
pub mod texts;
pub mod version;
