//! Submodule names: any nonempty name without a part `..`, where both `/` and `\` separate parts.
//! Nothing else is refused: `/etc` is a submodule name.

ghost use Rattle.std.specs.Prelude.{◌≡◌, ◌↔◌, ◌&&◌, ◌==◌, ◌≤◌, length, IsOk, IfOk, IsTrue, Some};
ghost use Rattle.std.specs.Str.{byte};
ghost use Rattle.bstr.specs.BStr.{bstr_bytes};
ghost use Rattle.gix_validate.specs.Submodule.{fault_of, has_parent_part, is_separator};
ghost use Rattle.gix_validate.specs.Submodule.{is_submodule_name, text_of};
ghost use Rattle.gix_validate.specs.Faults.{Validates};
ghost use Rattle.gix_validate.specs.Printed.{printed};

use crate::scan::{self, Pattern};
use crate::text::Text;
use bstr::BStr;
use std::error::Error;
use std::fmt;
use std::simd::prelude::*;

/// Why a name is not a valid submodule name (docs/RULES.md, "Submodule names").
#[derive(Debug, Drop)]
pub enum NameError {
    /// It is empty.
    Empty,
    /// A part of it is `..`. Both `/` and `\` separate parts.
    ParentComponent,
}

impl NameError {
    /// What it prints (docs/RULES.md, "Printed texts"). It doesn't allocate.
    pub fn text(&self) -> Text<'_>
        ensures text { printed result ≡ text_of self.now }
    {
        match self {
            Self::Empty => Text::plain("Submodule names cannot be empty"),
            Self::ParentComponent => Text::plain("Submodules names must not contains '..'"),
        }
    }
}

impl fmt::Display for NameError {
    ghost output = { λ e. Some (text_of e) };

    fn fmt<W: fmt::Write>(&self, f: &mut fmt::Formatter<W>) -> fmt::Result {
        self.text().fmt(f)
    }
}

impl Error for NameError {}

/// Returns `name` if it is a valid submodule name: it isn't empty, and none of its parts is `..`.
/// Both `/` and `\` separate parts, and parts may be empty (docs/RULES.md, "Submodule names").
/// The function doesn't allocate. On `Ok` it returns the value that it was passed.
///
/// ```
/// name(BStr::from("vendor/package"))?; // `vendor/package`
/// name(BStr::from("a\\..")); // ParentComponent
/// ```
///
/// # Errors
///
/// `Empty` for the empty name, and otherwise `ParentComponent`.
#[tactic(auto, unfolding(crate::specs::Submodule::fault_of, crate::specs::Submodule::is_submodule_name))]
#[inline(always)]
pub fn name<'a>(name: BStr<'a>) -> Result<BStr<'a>, NameError>
    ensures answer { Validates fault_of (bstr_bytes name.entry) result }
    ensures grammar { IsOk result ↔ IsTrue (is_submodule_name (bstr_bytes name.entry)) }
    ensures same { IfOk result (λ given. given ≡ name.entry) }
{
    let bytes = name.as_bytes();
    if bytes.is_empty() {
        return Err(NameError::Empty);
    }
    if has_parent_part(bytes) {
        return Err(NameError::ParentComponent);
    }
    Ok(name)
}

enum TwoDots {}

impl Pattern for TwoDots {
    ghost hit = { λ a b. a == byte "." && b == byte "." };

    #[inline(always)]
    fn hits(front: u8x16, back: u8x16) -> u64 {
        let dot = u8x16::splat(b'.');
        (front.simd_eq(dot) & back.simd_eq(dot)).to_bitmask()
    }
}

/// Whether some part is `..`. Most names have no two dots in a row, so they aren't split.
#[inline(always)]
#[tactic(auto, using(crate::proofs::Submodules::without_two_dots))]
fn has_parent_part(bytes: &[u8]) -> bool
    requires { 1 ≤ length bytes.now }
    ensures { result ≡ has_parent_part bytes.now }
{
    scan::first_pair::<TwoDots>(bytes).is_some() && has_parent_by_parts(bytes)
}

/// The same, by a look at each part.
#[inline(never)]
fn has_parent_by_parts(bytes: &[u8]) -> bool
    ensures { result ≡ has_parent_part bytes.now }
{
    let mut parts = bytes.split(|byte| is_separator(*byte));
    parts.any(|part| part == b"..".as_slice())
}

#[inline(always)]
fn is_separator(byte: u8) -> bool
    ensures { result ≡ is_separator byte }
{
    matches!(byte, b'/' | b'\\')
}
