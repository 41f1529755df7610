//! Reference names: partial, full and branch names, their repair, and the join of two names.
//!
//! Each full name is a partial name, and each branch name a full name. `name_partial`, `name` and
//! `branch_name` don't allocate. On `Ok` each returns the value that it was passed.

ghost use Rattle.std.specs.Prelude.{◌≡◌, ◌==◌, ◌≢◌, ◌↔◌, ◌⊎◌, ◌+◌, ◌≤◌, [], ◌∷◌, ◌++◌, length};
ghost use Rattle.std.specs.Prelude.{codes, All, Contains, IsOk, IfOk, IsTrue, MatchResult, vec_len};
ghost use Rattle.std.specs.Prelude.{vec_capacity, Some, None};
ghost use Rattle.std.specs.List.{list_all};
ghost use Rattle.std.specs.Str.{byte};
ghost use Rattle.bstr.specs.BStr.{bstr_bytes};
ghost use Rattle.bstr.specs.Owned.{bstring_bytes};
ghost use Rattle.gix_validate.specs.Reference.{is_standalone_byte, has_slash_or_stands_alone};
ghost use Rattle.gix_validate.specs.Reference.{is_partial_name, is_full_name, is_branch_name};
ghost use Rattle.gix_validate.specs.Reference.{reserved as reserved_fault, partial_fault_of};
ghost use Rattle.gix_validate.specs.Reference.{full_fault_of, branch_fault_of, text_of};
ghost use Rattle.gix_validate.specs.Faults.{Validates};
ghost use Rattle.gix_validate.specs.Printed.{printed};
ghost use Rattle.gix_validate.specs.Pieces.{joined};
ghost use Rattle.gix_validate.specs.Tag.{fault_of as tag_fault_of, is_tag_name};

use crate::adjacent::is_clear;
use crate::pieces::{Slash, joined};
use crate::text::Text;
use crate::{scan, tag};
use arrayvec::ArrayVec;
use bstr::{BStr, BString};
use std::alloc::{AllocError, Global};
use std::error::Error;
use std::fmt;
use std::slice::from_ref;

mod sanitize;

pub use sanitize::{name_partial_or_sanitize, sanitize_in_place};

/// Why a name is not a valid reference name (docs/RULES.md, "Reference names").
///
/// The first eleven are those of [`tag::NameError`].
#[derive(Debug, Drop)]
pub enum NameError {
    InvalidByte { byte: u8 },
    StartsWithSlash,
    RepeatedSlash,
    RepeatedDot,
    LockFileSuffix,
    ReflogPortion,
    Asterisk,
    StartsWithDot,
    EndsWithDot,
    EndsWithSlash,
    Empty,
    /// It has no slash, and a byte other than `A` to `Z` and `_`, such as a digit.
    SomeLowercase,
    /// It is reserved: `@`, `HEAD` as a branch or tag, or `refs/heads/HEAD`.
    Reserved { name: ArrayVec<u8, 15> },
}

impl NameError {
    /// What it prints (docs/RULES.md, "Printed texts"). It doesn't allocate.
    pub fn text(&self) -> Text<'_>
        ensures text { printed result ≡ text_of self.now }
    {
        match self {
            Self::InvalidByte { byte } => Text {
                words: "Reference name contains invalid byte: ",
                quoted: Some(from_ref(byte)),
            },
            Self::StartsWithSlash => Text::plain("Reference name cannot start with a slash"),
            Self::RepeatedSlash => Text::plain("Reference name cannot contain repeated slashes"),
            Self::RepeatedDot => Text::plain("Reference name cannot contain repeated dots"),
            Self::LockFileSuffix => Text::plain("Reference name cannot end with '.lock'"),
            Self::ReflogPortion => Text::plain("Reference name cannot contain '@{'"),
            Self::Asterisk => Text::plain("Reference name cannot contain '*'"),
            Self::StartsWithDot => Text::plain("Reference name cannot start with a dot"),
            Self::EndsWithDot => Text::plain("Reference name cannot end with a dot"),
            Self::EndsWithSlash => Text::plain("Reference name cannot end with a slash"),
            Self::Empty => Text::plain("Reference name cannot be empty"),
            Self::SomeLowercase => {
                Text::plain("Standalone references must be all uppercased, like 'HEAD'")
            }
            Self::Reserved { name } => Text {
                words: "Reference name is reserved and cannot be used: ",
                quoted: Some(name.as_slice()),
            },
        }
    }
}

impl fmt::Display for NameError {
    ghost output = { λ e. Some (text_of e) };

    fn fmt<W: fmt::Write>(&self, f: &mut fmt::Formatter<W>) -> fmt::Result {
        self.text().fmt(f)
    }
}

impl Error for NameError {}

/// Converts to the variant of the same name, and keeps the byte of `InvalidByte`.
impl From<tag::NameError> for NameError {
    ghost use Rattle.gix_validate.specs.Reference.{carried};

    ghost from_gives = { λ fault e. e ≡ carried fault };

    fn from(fault: tag::NameError) -> NameError {
        match fault {
            tag::NameError::InvalidByte { byte } => NameError::InvalidByte { byte },
            tag::NameError::StartsWithSlash => NameError::StartsWithSlash,
            tag::NameError::RepeatedSlash => NameError::RepeatedSlash,
            tag::NameError::RepeatedDot => NameError::RepeatedDot,
            tag::NameError::LockFileSuffix => NameError::LockFileSuffix,
            tag::NameError::ReflogPortion => NameError::ReflogPortion,
            tag::NameError::Asterisk => NameError::Asterisk,
            tag::NameError::StartsWithDot => NameError::StartsWithDot,
            tag::NameError::EndsWithDot => NameError::EndsWithDot,
            tag::NameError::EndsWithSlash => NameError::EndsWithSlash,
            tag::NameError::Empty => NameError::Empty,
        }
    }
}

/// Returns `path` if it is a valid partial name, such as `main`: any tag name but `@`
/// (docs/RULES.md, "Reference names").
///
/// ```
/// name_partial(BStr::from("main"))?; // `main`
/// name_partial(BStr::from("@")); // Reserved, with the name `@`
/// ```
///
/// # Errors
///
/// The error of [`tag::name`] if there is one, and otherwise `Reserved` with `@`.
#[tactic(auto, using(crate::proofs::References::reserved_names), unfolding(crate::specs::Reference::partial_fault_of, crate::specs::Reference::is_partial_name))]
#[inline(always)]
pub fn name_partial<'a>(path: BStr<'a>) -> Result<BStr<'a>, NameError>
    ensures answer { Validates partial_fault_of (bstr_bytes path.entry) result }
    ensures grammar { IsOk result ↔ IsTrue (is_partial_name (bstr_bytes path.entry)) }
    ensures same { IfOk result (λ name. name ≡ path.entry) }
    // A tag name, but not `@`.
    ensures tag_name { let x = bstr_bytes path.entry in
        IsOk result ↔ (IsTrue (is_tag_name x) × (x ≢ codes "@")) }
{
    unless_reserved(tag::name(path)?, b"@")
}

/// Returns `path` if it is a valid full name, such as `HEAD` or `refs/heads/main`: a partial name
/// that has a slash, or only the letters `A` to `Z` and `_` (docs/RULES.md, "Reference names").
///
/// ```
/// name(BStr::from("refs/heads/main"))?; // `refs/heads/main`
/// name(BStr::from("main")); // SomeLowercase
/// ```
///
/// # Errors
///
/// The error of [`name_partial`] if there is one, and otherwise `SomeLowercase`.
#[inline(always)]
pub fn name<'a>(path: BStr<'a>) -> Result<BStr<'a>, NameError>
    ensures answer { Validates full_fault_of (bstr_bytes path.entry) result }
    ensures grammar { IsOk result ↔ IsTrue (is_full_name (bstr_bytes path.entry)) }
    ensures same { IfOk result (λ name. name ≡ path.entry) }
    // A partial name that has a slash, or whose bytes may each stand alone.
    ensures partial_name { let x = bstr_bytes path.entry in
        IsOk result
        ↔ (IsTrue (is_partial_name x)
        × (Contains x (byte "/") ⊎ All (λ b. IsTrue (is_standalone_byte b)) x)) }
{
    if is_clear(path.as_bytes()) {
        return full_name(path);
    }
    match name_on_walk(path) {
        Ok(name) => Ok(name),
        Err(fault) => Err(fault),
    }
}

/// The result of `name` for a name that isn't clear. (As a part of `name` it would make a frame for
/// each name, and so would a call that writes to the place of the result.)
#[inline(never)]
#[tactic(auto, using(crate::proofs::TagNames::Grammar::tag_grammar_law), unfolding(crate::specs::Reference::full_fault_of, crate::specs::Reference::partial_fault_of, crate::specs::Reference::is_full_name, crate::specs::Reference::is_partial_name))]
fn name_on_walk<'a>(path: BStr<'a>) -> Result<BStr<'a>, NameError>
    ensures answer { Validates full_fault_of (bstr_bytes path.entry) result }
    ensures grammar { IsOk result ↔ IsTrue (is_full_name (bstr_bytes path.entry)) }
    ensures same { IfOk result (λ name. name ≡ path.entry) }
{
    full_name(tag::name_on_walk(path)?)
}

/// Returns a tag name if it is a full name.
#[inline(always)]
#[tactic(auto, using(crate::proofs::References::reserved_names, crate::proofs::TagNames::Grammar::tag_grammar_law), unfolding(crate::specs::Reference::full_fault_of, crate::specs::Reference::partial_fault_of, crate::specs::Reference::is_full_name, crate::specs::Reference::is_partial_name))]
fn full_name<'a>(name: BStr<'a>) -> Result<BStr<'a>, NameError>
    requires { tag_fault_of (bstr_bytes name) ≡ None }
    ensures answer { Validates full_fault_of (bstr_bytes name.entry) result }
    ensures grammar { IsOk result ↔ IsTrue (is_full_name (bstr_bytes name.entry)) }
    ensures same { IfOk result (λ full. full ≡ name.entry) }
{
    let name = unless_reserved(name, b"@")?;
    if has_slash_or_stands_alone(name.as_bytes()) {
        Ok(name)
    } else {
        Err(NameError::SomeLowercase)
    }
}

/// Returns `path` if it may be the full name of a branch: any full name but `refs/heads/HEAD`
/// (docs/RULES.md, "Reference names").
///
/// ```
/// branch_name(BStr::from("refs/heads/main"))?; // `refs/heads/main`
/// branch_name(BStr::from("refs/heads/HEAD")); // Reserved, with the name `refs/heads/HEAD`
/// ```
///
/// # Errors
///
/// The error of [`name`] if there is one, and otherwise `Reserved` with `refs/heads/HEAD`.
#[tactic(auto, using(crate::proofs::References::reserved_names), unfolding(crate::specs::Reference::branch_fault_of, crate::specs::Reference::is_branch_name))]
#[inline(always)]
pub fn branch_name<'a>(path: BStr<'a>) -> Result<BStr<'a>, NameError>
    ensures answer { Validates branch_fault_of (bstr_bytes path.entry) result }
    ensures grammar { IsOk result ↔ IsTrue (is_branch_name (bstr_bytes path.entry)) }
    ensures same { IfOk result (λ name. name ≡ path.entry) }
    // A full name, but not `refs/heads/HEAD`.
    ensures full_name { let x = bstr_bytes path.entry in IsOk result
        ↔ (IsTrue (is_full_name x) × (x ≢ codes "refs/heads/HEAD")) }
{
    unless_reserved(name(path)?, b"refs/heads/HEAD")
}

/// Joins two tag names with a slash. The result is a full name (docs/RULES.md, "Joining").
///
/// Both have to be valid tag names, as [`tag::name`] returns them. A call for which that can't be
/// proved doesn't compile.
///
/// ```
/// join(alloc, tag::name(BStr::from("refs"))?, tag::name(BStr::from("v1.0"))?)?; // `refs/v1.0`
/// ```
///
/// # Errors
///
/// Out of memory, and nothing else.
///
/// # Memory
///
/// It allocates once, before it writes a byte. A length above `isize::MAX` bytes counts as out of
/// memory.
#[tactic(auto, using(crate::proofs::References::joined_is_full))]
pub fn join(alloc: Global, a: BStr<'_>, b: BStr<'_>) -> Result<BString, AllocError>
    requires first { IsTrue (is_tag_name (bstr_bytes a)) }
    requires second { IsTrue (is_tag_name (bstr_bytes b)) }
    ensures bytes { IfOk result (λ name.
        bstring_bytes name ≡ joined (bstr_bytes a.entry ∷ bstr_bytes b.entry ∷ [])) }
    ensures valid { IfOk result (λ name. IsTrue (is_full_name (bstring_bytes name))) }
{
    joined(alloc, &[a, b])
}

/// Returns any name except the reserved one, which has to fit in the error.
#[inline]
fn unless_reserved<'a>(name: BStr<'a>, reserved: &[u8]) -> Result<BStr<'a>, NameError>
    requires { length reserved.now ≤ 15 }
    ensures { MatchResult result
        (λ given. (given ≡ name.entry) × (bstr_bytes name.entry ≢ reserved.now))
        (λ fault. (fault ≡ reserved_fault reserved.now) × (bstr_bytes name.entry ≡ reserved.now)) }
{
    if name.as_bytes() == reserved {
        let name = ArrayVec::try_from(reserved).unwrap();
        return Err(NameError::Reserved { name });
    }
    Ok(name)
}

/// Whether the name has a slash, or is valid without one.
#[inline(always)]
#[tactic(auto, using(crate::proofs::References::slash_found))]
fn has_slash_or_stands_alone(bytes: &[u8]) -> bool
    ensures { result ≡ has_slash_or_stands_alone bytes.now }
{
    scan::first::<Slash>(bytes, bytes).is_some() || stands_alone(bytes)
}

/// Whether each byte may be in a name without a slash. Most names fail by their first letter.
fn stands_alone(bytes: &[u8]) -> bool
    ensures { result ≡ list_all is_standalone_byte bytes.now }
{
    !matches!(bytes.first(), Some(b'a'..=b'z'))
        && bytes.iter().all(|byte| matches!(*byte, b'A'..=b'Z' | b'_'))
}
