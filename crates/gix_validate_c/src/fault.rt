//! The number of a fault.

ghost use Rattle.std.specs.Prelude.{◌≡◌, ◌↔◌, ◌≤◌, ℕ, IsOk, MatchResult};
ghost use Rattle.gix_validate_c.specs.Numbers.{tag_number, reference_number, submodule_number};
ghost use Rattle.gix_validate_c.specs.Numbers.{component_number, short_name_number, path_number};
ghost use Rattle.gix_validate_c.specs.Numbers.{safe_ref_number, protected_submodule_number};

use bstr::BStr;
use git_names::{PathError, SafeRefError, ShortNameError, SubmoduleError};
use gix_validate::path::ComponentError;
use gix_validate::{reference, submodule, tag};

/// A fault that has a number.
pub(crate) trait Fault {
    ghost number: { Self → ℕ };

    /// The number of the fault, which is the same in each type that has the fault. Numbers never
    /// change, and a new fault gets the next one.
    fn number(self) -> u8
        ensures number { result ≡ number self }
        ensures some { 1 ≤ result };
}

impl Fault for tag::NameError {
    ghost number = { tag_number };

    fn number(self) -> u8 {
        reference::NameError::from(self).number()
    }
}

impl Fault for reference::NameError {
    ghost number = { reference_number };

    fn number(self) -> u8 {
        match self {
            Self::InvalidByte { .. } => 1,
            Self::StartsWithSlash => 2,
            Self::RepeatedSlash => 3,
            Self::RepeatedDot => 4,
            Self::LockFileSuffix => 5,
            Self::ReflogPortion => 6,
            Self::Asterisk => 7,
            Self::StartsWithDot => 8,
            Self::EndsWithDot => 9,
            Self::EndsWithSlash => 10,
            Self::Empty => 11,
            Self::SomeLowercase => 12,
            Self::Reserved { .. } => 13,
        }
    }
}

impl Fault for submodule::NameError {
    ghost number = { submodule_number };

    fn number(self) -> u8 {
        match self {
            Self::Empty => 11,
            Self::ParentComponent => 14,
        }
    }
}

impl Fault for ComponentError {
    ghost number = { component_number };

    fn number(self) -> u8 {
        match self {
            Self::Empty => 11,
            Self::PathSeparator => 15,
            Self::WindowsPathPrefix => 16,
            Self::WindowsReservedName => 17,
            Self::WindowsIllegalCharacter => 18,
            Self::DotGitDir => 19,
            Self::SymlinkedGitModules => 20,
            Self::Relative => 21,
        }
    }
}

impl Fault for ShortNameError {
    ghost number = { short_name_number };

    fn number(self) -> u8 {
        match self {
            Self::Name(error) => error.number(),
            Self::StartsWithDash => 22,
        }
    }
}

impl Fault for PathError {
    ghost number = { path_number };

    fn number(self) -> u8 {
        match self {
            Self::EmptyPart { .. } => 23,
            Self::InvalidPart { error, .. } => error.number(),
            Self::Nul { .. } => 24,
        }
    }
}

impl Fault for SafeRefError {
    ghost number = { safe_ref_number };

    fn number(self) -> u8 {
        match self {
            Self::Name(error) => error.number(),
            Self::OutsideRefs => 25,
            Self::Piece(error) => error.number(),
        }
    }
}

impl Fault for SubmoduleError {
    ghost number = { protected_submodule_number };

    fn number(self) -> u8 {
        match self {
            Self::Name(error) => error.number(),
            Self::Part(error) => error.number(),
            Self::Disguised { .. } => 26,
        }
    }
}

/// The number of the result: that of the fault, or 0.
pub(crate) fn code<E: Fault + Drop>(answer: Result<BStr<'_>, E>) -> u8
    ensures number { MatchResult answer.entry (λ _. result ≡ 0) (λ fault. result ≡ E.number fault) }
    ensures none { (result ≡ 0) ↔ IsOk answer.entry }
{
    match answer {
        Ok(_) => 0,
        Err(fault) => fault.number(),
    }
}
