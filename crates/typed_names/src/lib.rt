//! Borrowed Git names whose rule is an invariant: `new` checks it once, and it holds from then on.
//!
//! A value of one of these types keeps the byte string that was passed to `new`, for as long as the
//! bytes live. The rule accepts that string, so code that gets such a value need not check it
//! again. The values are `Copy`, and nothing here allocates (docs/RULES.md, "Typed names").
//!
//! [`TagName`], [`PartialName`], [`FullName`], [`BranchName`] and [`SubmoduleName`] are one type,
//! [`Name<'a, R>`](Name), whose [`Rule`] is [`Tag`], [`Partial`], [`Full`], [`Branch`] or
//! [`Submodule`]. A [`Component`] is checked under a mode and options, and its type keeps less than
//! `new` checked, so it has a type of its own. A rule has no values, so it is an enum without
//! variants. `Debug` prints the rule's constant `TYPE_NAME`, because a derived `Debug` would print
//! `Name` for all five.
//!
//! Each branch name is a full name, each full name a partial name, and each partial name a tag
//! name: `From` converts each into the next. [`Pieces`] iterates over the pieces of a tag name.
//!
//! Two names of one type are equal if and only if their bytes are. Each prints its bytes, and each
//! is an `AsSlice<u8>`, which is what Rattle has for Rust's `AsRef<[u8]>`. They have no order and
//! no hash. Names of two types can't be compared: convert the narrower one with `From` first.
//!
//! ```
//! let head = TagName::new(BStr::from("refs/heads/main"))?;
//! head.pieces(); // `refs`, then `heads`, then `main`
//! head.after_first_slash(); // the tag name `heads/main`
//! ```
#![tactic(auto)]

pub use crate::component::Component;
pub use crate::name::{BranchName, FullName, Name, PartialName, SubmoduleName, TagName};
pub use crate::pieces::Pieces;
pub use crate::rule::{Branch, Full, Partial, Rule, Submodule, Tag};

mod component;
mod name;
mod pieces;
mod rule;
