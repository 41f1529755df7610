//! The tests of `gix_validate`, `typed_names`, `git_names` and `gitmodules`:
//!
//! - Tables of worked names, and what docs/RULES.md gives for each (`rows`, and of typed names
//!   `members`, of short and whole ones `short_and_whole`, and of
//!   each kind of `git_names` `kinds`), and of the texts of errors (`printed`).
//! - An independent second implementation of docs/RULES.md. (The first is the definitions in
//!   `crates/gix_validate/specs`, against which the library is proved.) It uses nothing from the
//!   library, and its algorithms are different: it searches names for what they may not have
//!   instead of scanning them, and lists all names instead of comparing prefixes. An error is
//!   represented by its name in docs/RULES.md.
//! - Tests that pass tens of thousands of names to `gix_validate` and to the second implementation,
//!   and compare the results. All names of up to two bytes are among them.
//! - A law that no clause of the library states (`laws`).
//! - Tests of what no clause says: that calls which may fail succeed, and what `Debug` prints. Also
//!   callers that show what the ghost members of the types' traits say.
//!
//! The tests are proved to be safe and to end, and the crate is written so that these proofs are
//! short. A failed allocation ends a test, because each `?` would be another exit, on which
//! everything alive is dropped. A function has one loop or few calls, and a loop gets a list as a
//! parameter, so that the list isn't part of the proof. Most tables are byte strings, not lists
//! (`table`). There are no closures, because each is three more functions to prove. Few different
//! functions of the standard library are called.
#![tactic(auto)]

#[cfg(test)]
mod agree;
#[cfg(test)]
mod kinds;
pub mod laws;
#[cfg(test)]
mod members;
#[cfg(test)]
mod path;
#[cfg(test)]
mod printed;
#[cfg(test)]
mod reference;
#[cfg(test)]
mod refused_memory;
#[cfg(test)]
mod rows;
#[cfg(test)]
mod short_and_whole;
#[cfg(test)]
mod submodules;
#[cfg(test)]
mod table;
#[cfg(test)]
mod tests;
#[cfg(test)]
mod text;
