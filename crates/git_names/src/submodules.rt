//! Submodule names, which become paths below `.git/modules`.

ghost use Rattle.std.specs.Prelude.{◌≡◌, ◌↔◌, ◌≤◌, ◌||◌, Some, IsOk, IfOk, IfErr, IsTrue, length, codes};
ghost use Rattle.std.specs.Str.{bytes_eq};
ghost use Rattle.bstr.specs.BStr.{bstr_bytes};
ghost use Rattle.gix_validate.specs.Bytes.{is_empty};
ghost use Rattle.gix_validate.specs.Faults.{Validates};
ghost use Rattle.gix_validate.specs.Hfs.{hfs_form};
ghost use Rattle.gix_validate.specs.Ntfs.{ntfs_form};
ghost use Rattle.gix_validate.specs.Pieces.{pieces};
ghost use Rattle.gix_validate.specs.Printed.{printed};
ghost use Rattle.gix_validate.specs.Submodule.{is_submodule_name};
ghost use Rattle.git_names.specs.Submodules.{disguised_from, fault_of, is_disguised, is_protected};
ghost use Rattle.git_names.specs.Submodules.{is_submodule, text_of};

mod hfs;

use crate::paths::{PathError, first_slash, path};
use crate::submodules::hfs::is_dots_on_hfs;
use bstr::BStr;
use gix_validate::path::ComponentOptions;
use gix_validate::submodule;
use gix_validate::text::Text;
use std::error::Error;
use std::fmt;

/// Why a name is not a valid submodule name under the options (docs/RULES.md, "Submodule names").
#[derive(Debug, Drop)]
pub enum SubmoduleError {
    /// It isn't a submodule name under any options.
    Name(submodule::NameError),
    /// It isn't a valid path.
    Part(PathError),
    /// A part may be taken for `.` or `..`. HFS and NTFS protection say how.
    Disguised {
        /// Where in the name the part begins, in bytes.
        offset: usize,
    },
}

impl SubmoduleError {
    /// What it prints (docs/RULES.md, "Printed texts"). It doesn't allocate.
    pub fn text(&self) -> Text<'_>
        ensures text { printed result ≡ text_of self.now }
    {
        match self {
            Self::Name(error) => error.text(),
            Self::Part(error) => error.text(),
            Self::Disguised { .. } => Text {
                words: "A part of a submodule name must not be taken for '.' or '..'",
                quoted: None,
            },
        }
    }
}

impl fmt::Display for SubmoduleError {
    ghost output = { λ e. Some (text_of e) };

    fn fmt<W: fmt::Write>(&self, f: &mut fmt::Formatter<W>) -> fmt::Result {
        self.text().fmt(f)
    }
}

impl Error for SubmoduleError {}

/// Returns `name` if it is a valid submodule name (docs/RULES.md, "Submodule names").
///
/// Under no options this is the rule of `gix_validate::submodule::name`. But clients keep a
/// submodule's repository in `.git/modules/` followed by its name, so under an option the name also
/// has to be a valid path, and no part of it may be read as `.` or `..`, as `.. ` is on Windows.
/// The function doesn't allocate. On `Ok` it returns the value that it was passed.
///
/// ```
/// submodule(BStr::from("vendor/lib"), ComponentOptions::default())?; // `vendor/lib`
/// submodule(BStr::from("a/../b"), ComponentOptions::default()); // Name, with ParentComponent
/// submodule(BStr::from("a/.. /b"), ComponentOptions::default()); // Part, at offset 2
/// ```
///
/// # Errors
///
/// The error of `gix_validate::submodule::name` if there is one, otherwise that of [`path`], and
/// otherwise `Disguised`.
#[tactic(auto, using(crate::proofs::SubmoduleLemmas::submodule_laws), unfolding(crate::specs::Submodules::fault_of))]
pub fn submodule<'a>(name: BStr<'a>, options: ComponentOptions) -> Result<BStr<'a>, SubmoduleError>
    ensures answer { Validates (fault_of options) (bstr_bytes name.entry) result }
    ensures grammar { IsOk result ↔ IsTrue (is_submodule options (bstr_bytes name.entry)) }
    ensures same { IfOk result (λ kept. kept ≡ name.entry) }
    ensures crate_rule { IfOk result (λ kept. IsTrue (is_submodule_name (bstr_bytes kept))) }
{
    if let Err(fault) = submodule::name(name) {
        return Err(SubmoduleError::Name(fault));
    }
    if !is_protected(options) {
        return Ok(name);
    }
    if let Err(fault) = path(name, None, options) {
        return Err(SubmoduleError::Part(fault));
    }
    match first_disguised(name.as_bytes(), options) {
        None => Ok(name),
        Some(offset) => Err(SubmoduleError::Disguised { offset }),
    }
}

fn is_protected(options: ComponentOptions) -> bool
    ensures { result ≡ is_protected options }
{
    options.protect_windows || options.protect_hfs || options.protect_ntfs
}

/// Where the first disguised part begins.
#[tactic(auto, using(crate::proofs::SubmoduleLemmas::disguised_parts))]
fn first_disguised(name: &[u8], options: ComponentOptions) -> Option<usize>
    ensures { result ≡ disguised_from options 0 (pieces name.now) }
{
    let mut start = 0;
    while let Some(end) = first_slash(name, start) {
        if is_disguised(&name[start..end], options) {
            return Some(start);
        }
        start = end + 1;
    }
    if is_disguised(&name[start..], options) {
        return Some(start);
    }
    None
}

#[tactic(auto, unfolding(crate::specs::Submodules::is_disguised))]
fn is_disguised(part: &[u8], options: ComponentOptions) -> bool
    ensures { result ≡ is_disguised options part.now }
{
    options.protect_hfs && is_dots_on_hfs(part) || options.protect_ntfs && is_nothing_on_ntfs(part)
}

/// Whether nothing is left of the part where NTFS stops to read it and ignores dots and spaces.
#[tactic(auto, using(crate::proofs::SubmoduleLemmas::ntfs_steps))]
fn is_nothing_on_ntfs(part: &[u8]) -> bool
    ensures { result ≡ is_empty (ntfs_form part.now) }
{
    for byte in part {
        match byte {
            b'.' | b' ' => {}
            b':' | b'\\' => return true,
            _ => return false,
        }
    }
    true
}
