//! A function for each kind of name that programs get.
//!
//! | Function | Names |
//! |---|---|
//! | [`branch`] | branches as people write them, such as `main` |
//! | [`branch_ref`] | full branch names, such as `refs/heads/main` |
//! | [`tag`] | tags as people write them, such as `v1.2.3` |
//! | [`reference`] | full reference names, such as `HEAD` and `refs/remotes/origin/main` |
//! | [`safe_ref`] | full names that a store may use as paths |
//! | [`partial`], [`tag_name`] | names that are a part of a full name |
//! | [`path`] | whole paths, such as `src/main.rs` |
//! | [`submodule`] | submodule names |
//! | [`component`], [`symlink`] | names of files and directories, and of symbolic links |
//!
//! [`branch_ref`], [`reference`], [`partial`] and [`tag_name`] are functions of `gix_validate`
//! under other names, and the other rules build on those of `gix_validate`. Only [`full_name`],
//! [`join`] and [`suggest`] allocate.
#![tactic(auto)]

mod branches;
mod components;
mod faults;
mod messages;
mod offsets;
mod paths;
mod references;
mod submodules;
mod suggestions;
mod tags;

pub use branches::{Short, ShortName, ShortNameError, branch, full_name};
pub use components::{component, symlink};
pub use faults::{Fault, Kind, Reason, check};
pub use gix_validate::reference::{
    branch_name as branch_ref, name as reference, name_partial as partial,
};
pub use gix_validate::tag::name as tag_name;
pub use messages::Message;
pub use paths::{PathError, join, path};
pub use references::{SafeRefError, safe_ref};
pub use submodules::{SubmoduleError, submodule};
pub use suggestions::{suggest, suggest_into};
pub use tags::tag;
