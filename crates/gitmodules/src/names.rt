//! The names of the submodules in a `.gitmodules` file.

ghost use Rattle.std.specs.Prelude.{◌≡◌, Some, None, All, map, IfOk, IfErr};
ghost use Rattle.bstr.specs.Owned.{bstring_bytes};
ghost use Rattle.gitmodules.specs.Headers.{section_pair};
ghost use Rattle.gitmodules.specs.Sections.{sections};
ghost use Rattle.gix_validate.specs.Submodule.{fault_of};
ghost use Rattle.gitmodules.specs.SubmoduleNames.{IsErrorOf, IsFirstError};

use crate::reader::{Section, Sections};
use bstr::{BStr, BString};
use gix_validate::submodule::{self, NameError};
use std::alloc::{AllocError, Global};
use thiserror::Error;

/// Why the names of a file were not read. Offsets are in bytes.
#[derive(Debug, Drop, Error)]
pub enum NamesError {
    /// The name of the section at this offset is invalid.
    #[error("the section at offset {offset}: {fault}")]
    Name { offset: usize, fault: NameError },
    /// The section at this offset can't be read.
    #[error("the section at offset {offset} can't be read")]
    Unreadable { offset: usize },
    /// Out of memory.
    #[error("out of memory")]
    Memory(AllocError),
}

/// Returns the names of the submodules in a `.gitmodules` file: the name of each section, in order
/// (docs/RULES.md, "The names in a .gitmodules file").
///
/// The sections are those of [`Sections`], which also finds some that Git doesn't see, such as one
/// in a comment.
///
/// ```
/// submodule_names(alloc, b"[submodule \"a\"]\n[core]\n[submodule \"b/c\"]\n")?; // `a` and `b/c`
/// ```
///
/// # Errors
///
/// The error of the first section whose name is invalid or that can't be read, or `Memory`.
///
/// # Memory
///
/// It allocates each name, and the list of them.
#[tactic(auto, using(crate::proofs::NamesSoFar::read_one_more))]
pub fn submodule_names(alloc: Global, file: &[u8]) -> Result<Vec<BString>, NamesError>
    ensures names { IfOk result (λ names. map (λ name. Some (bstring_bytes name)) names.items
        ≡ map (λ section. section.1) (sections 0 file.now)) }
    ensures accepted { IfOk result (λ names.
        All (λ name. fault_of (bstring_bytes name) ≡ None) names.items) }
    ensures refused { IfErr result (IsFirstError (sections 0 file.now)) }
{
    let mut names = Vec::new(alloc);
    for section in Sections::new(file) {
        let name = submodule_name(alloc, &section)?;
        names
            .push(name)
            .map_err(|_| NamesError::Memory(AllocError))?;
    }
    Ok(names)
}

/// The name of a section.
fn submodule_name(alloc: Global, section: &Section<'_>) -> Result<BString, NamesError>
    ensures name { IfOk result (λ name. section.now.name ≡ Some (bstring_bytes name)) }
    ensures accepted { IfOk result (λ name. fault_of (bstring_bytes name) ≡ None) }
    ensures refused { IfErr result (IsErrorOf (section_pair section.now)) }
{
    let offset = section.offset;
    let Some(escaped) = &section.name else {
        return Err(NamesError::Unreadable { offset });
    };
    let mut name = Vec::new(alloc);
    escaped.push_to(&mut name).map_err(NamesError::Memory)?;
    submodule::name(BStr::new(&name)).map_err(|fault| NamesError::Name { offset, fault })?;
    Ok(BString::new(name))
}
