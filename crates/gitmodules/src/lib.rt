//! A reader for `.gitmodules` files: it finds each section of a submodule and the section's name
//! (docs/RULES.md, "The names in a .gitmodules file").
//!
//! [`Sections::new`] takes the bytes of the file. The iterator yields each `[` that begins a
//! submodule's section, in order, with the section's name, or without one if the section can't be
//! read. It looks at each `[` of the file, in comments and values too. The values are not read.
//!
//! [`submodule_names`] returns the names of all sections, or the first one that is invalid.
//!
//! ```
//! let mut sections = Sections::new(b"[core]\n[submodule \"a\\\"b\"]\n\tpath = x\n[submodule.c]\n");
//! // at offset 7, the name `a"b`
//! // at offset 36, a section that can't be read
//! ```
//!
//! **Why the values need not be read.** Git reads a section's header from a `[` on, and what it
//! finds depends only on the bytes after that `[`. Whether Git looks for a header at a `[` depends
//! on what is before it: a comment, a value with quotes, or a line that continues. This reader looks
//! at every `[`, so it needs no rule for these: it finds every section that Git sees, and others,
//! such as one in a comment. A reader that followed Git through these, and disagreed with it once,
//! would miss a name; `git config --blob` itself stops at a byte 0xFF that a checkout reads past. A
//! caller that has the file in memory needs no stream, so the reader is a crate of its own.
//!
//! Git still reads the old form `[submodule.name]`, but no longer writes it; here such a section
//! can't be read. A NUL, a newline (LF) or the byte 0xFF ends a name in one of Git's ways of
//! reading, so a section with one of them in its name can't be read either.
//!
//! Offsets and lengths are in bytes. Only [`EscapedName::push_to`] and [`submodule_names`] allocate.
#![tactic(auto)]

pub use crate::escaped::EscapedName;
pub use crate::names::{NamesError, submodule_names};
pub use crate::reader::{Section, Sections};

mod escaped;
mod names;
mod reader;
