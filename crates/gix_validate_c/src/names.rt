//! Validation of one name.
//!
//! The parameters are a name, flags, and the number of a kind (docs/RULES.md, "Calls for C"):
//!
//! | Number | Kind | Rule |
//! |---|---|---|
//! | 0 | branch, such as `main` | [`git_names::branch`] |
//! | 1 | full branch name, such as `refs/heads/main` | [`git_names::branch_ref`] |
//! | 2 | tag, such as `v1.2.3` | [`git_names::tag`] |
//! | 3 | full reference name | [`git_names::reference`] |
//! | 4 | partial reference name | [`git_names::partial`] |
//! | 5 | tag name, as in `gix_validate` | [`git_names::tag_name`] |
//! | 6 | safe reference name | [`git_names::safe_ref`] |
//! | 7 | path | [`git_names::path`] |
//! | 8 | path of a symbolic link | [`git_names::path`] |
//! | 9 | path component | [`git_names::component`] |
//! | 10 | name of a symbolic link | [`git_names::symlink`] |
//! | 11 | submodule name | [`git_names::submodule`] |
//!
//! The flags are 1 for the rules for Windows, 2 for those for HFS+ and 4 for those for NTFS. Other
//! bits are ignored, and so are all flags for kinds 0 to 5.

ghost use Rattle.std.specs.Prelude.{◌≡◌, ◌⊎◌, ◌↔◌, ◌<◌, ◌≤◌, ◌%◌, ℕ, IsTrue, Some, length};
ghost use Rattle.bstr.specs.BStr.{bstr_bytes};
ghost use Rattle.gix_validate.specs.Windows.{is_device};
ghost use Rattle.gix_validate.specs.declared.tag.NameError.TheVariants.{LockFileSuffix};
ghost use Rattle.git_names.specs.declared.faults.Kind.TheVariants as kind;
ghost use Rattle.gix_validate_c.specs.Flags.{options_of};
ghost use Rattle.gix_validate_c.specs.Kinds.{kind_of, is_of_kind, number_by, offset_by};

use crate::fault::{Fault, code};
use crate::flags::options_of;
use bstr::BStr;
use git_names::Kind;
use gix_validate::path::{ComponentMode, component_is_windows_device};
use gix_validate::{submodule, tag as tag_names};

/// Returns 0 if the name is a valid name of this kind, and otherwise the number of its fault. 255
/// means that there is no such kind.
///
/// ```c
/// gix_validate_fault_of("main", 4, 0, 0);     // 0: a branch
/// gix_validate_fault_of("a..b", 4, 0, 0);     // 4, RepeatedDot
/// gix_validate_fault_of("src/.git", 8, 7, 7); // 19, DotGitDir: no path
/// ```
#[tactic(auto, using(crate::proofs::FlagLemmas::low_flags))]
#[unsafe(no_mangle)]
pub extern "C" fn gix_validate_fault_of(name: &[u8], flags: u32, kind: u32) -> u32
    ensures answer { result ≡ number_by (kind_of kind) flags name.now }
    ensures grammar { (result ≡ 0) ↔ IsTrue (is_of_kind (kind_of kind) flags name.now) }
    ensures range { (result ≤ 26) ⊎ (result ≡ 255) }
    ensures low_bits { result ≡ number_by (kind_of kind) (flags % 8) name.now }
{
    number_by(kind, BStr::new(name), flags)
}

/// Returns what [`gix_validate_fault_of`] returns, and writes where that fault is (docs/RULES.md,
/// "Offsets"): its offset in bytes, the length of the name if it is valid, and 0 if there is no such
/// kind.
///
/// ```c
/// gix_validate_fault_at("v1..2", 5, 0, 2, &at);     // 4, RepeatedDot, and `at` is 3, the second dot
/// gix_validate_fault_at("src/aux.c", 9, 7, 7, &at); // 17, and `at` is 4, where the device begins
/// gix_validate_fault_at("v1.2", 4, 0, 2, &at);      // 0, and `at` is 4: valid
/// ```
#[unsafe(no_mangle)]
pub extern "C" fn gix_validate_fault_at(
    name: &[u8],
    flags: u32,
    kind: u32,
    offset: &mut usize,
) -> u32
    ensures answer { result ≡ number_by (kind_of kind) flags name.now }
    ensures offset { offset.new ≡ offset_by (kind_of kind) flags name.now }
    ensures bounds { offset.new ≤ length name.now }
{
    let (number, at) = if kind < 6 {
        reference_fault_at(kind, BStr::new(name))
    } else {
        other_fault_at(kind, BStr::new(name), flags)
    };
    *offset = at;
    number
}

/// Whether Windows takes the name for a device, in any ASCII letter case (docs/RULES.md, "Path
/// components").
///
/// ```c
/// gix_validate_is_windows_device("nul.txt", 7); // true
/// gix_validate_is_windows_device("com0", 4);    // false
/// ```
#[unsafe(no_mangle)]
pub extern "C" fn gix_validate_is_windows_device(name: &[u8]) -> bool
    ensures { IsTrue result ↔ IsTrue (is_device name.now) }
{
    component_is_windows_device(BStr::new(name))
}

/// The kind with this number.
#[inline(always)]
pub(crate) fn kind_of(number: u32) -> Option<Kind>
    ensures { result ≡ kind_of number }
{
    match number {
        0 => Some(Kind::Branch),
        1 => Some(Kind::BranchRef),
        2 => Some(Kind::Tag),
        3 => Some(Kind::Reference),
        4 => Some(Kind::Partial),
        5 => Some(Kind::TagName),
        6 => Some(Kind::SafeRef),
        7 => Some(Kind::Path),
        8 => Some(Kind::SymlinkPath),
        9 => Some(Kind::Component),
        10 => Some(Kind::Symlink),
        11 => Some(Kind::Submodule),
        _ => None,
    }
}

/// The number of the name's fault, 0 if it has none, and 255 if there is no such kind.
// (Each kind has a function of its own, and `fault_of` ends in a jump to it that moves no argument.
// In one function all kinds would set up the frame that the largest needs, which takes some fifty
// instructions. The comparisons find most kinds sooner than a table of jumps would.)
#[inline(always)]
pub(crate) fn number_by(kind: u32, name: BStr<'_>, flags: u32) -> u32
    ensures number { result ≡ number_by (kind_of kind) flags (bstr_bytes name.entry) }
    ensures grammar { (result ≡ 0) ↔ IsTrue (is_of_kind (kind_of kind) flags (bstr_bytes name.entry)) }
    ensures range { (result ≤ 26) ⊎ (result ≡ 255) }
{
    if kind < 6 {
        number_of_reference(kind, name)
    } else {
        number_under(kind, name, flags)
    }
}

/// The same of the kinds without flags.
#[inline(always)]
fn number_of_reference(kind: u32, name: BStr<'_>) -> u32
    requires { kind < 6 }
    ensures number { (flags : ℕ) → result ≡ number_by (kind_of kind) flags (bstr_bytes name.entry) }
    ensures grammar { (flags : ℕ) → (result ≡ 0) ↔ IsTrue (is_of_kind (kind_of kind) flags (bstr_bytes name.entry)) }
    ensures range { result ≤ 26 }
{
    if kind == 5 {
        tag_name(name)
    } else if kind < 3 {
        match kind {
            0 => branch(name),
            1 => branch_ref(name),
            _ => tag(name),
        }
    } else if kind == 3 {
        reference(name)
    } else {
        partial(name)
    }
}

/// The same of the kinds that have flags.
#[inline(always)]
fn number_under(kind: u32, name: BStr<'_>, flags: u32) -> u32
    requires { 6 ≤ kind }
    ensures number { result ≡ number_by (kind_of kind) flags (bstr_bytes name.entry) }
    ensures grammar { (result ≡ 0) ↔ IsTrue (is_of_kind (kind_of kind) flags (bstr_bytes name.entry)) }
    ensures range { (result ≤ 26) ⊎ (result ≡ 255) }
{
    if kind == 11 {
        submodule(name, flags)
    } else if kind == 9 {
        component(name, flags)
    } else if kind < 8 {
        match kind {
            7 => path(name, flags),
            _ => safe_ref(name, flags),
        }
    } else {
        match kind {
            8 => symlink_path(name, flags),
            10 => symlink(name, flags),
            _ => 255,
        }
    }
}

/// The number and the offset of the name's fault as one of the first six kinds. A fault that is one
/// of the tag name comes with its offset.
#[inline(always)]
fn reference_fault_at(kind: u32, name: BStr<'_>) -> (u32, usize)
    requires { kind < 6 }
    ensures number { (flags : ℕ) → result.0 ≡ number_by (kind_of kind) flags (bstr_bytes name.entry) }
    ensures offset { (flags : ℕ) → result.1 ≡ offset_by (kind_of kind) flags (bstr_bytes name.entry) }
    ensures bounds { result.1 ≤ length (bstr_bytes name.entry) }
{
    match tag_names::first_fault(name) {
        Some((fault, offset)) if !is_lock(&fault) => (fault.number().into(), offset),
        _ => other_fault_at(kind, name, 0),
    }
}

/// Whether the fault is `.lock` at the end of a piece, whose offset is that where it begins.
fn is_lock(fault: &tag_names::NameError) -> bool
    ensures { IsTrue result ↔ (fault.now ≡ LockFileSuffix) }
{
    matches!(fault, tag_names::NameError::LockFileSuffix)
}

/// The number and the offset of the name's fault, by a look for each.
#[inline(always)]
fn other_fault_at(kind: u32, name: BStr<'_>, flags: u32) -> (u32, usize)
    ensures number { result.0 ≡ number_by (kind_of kind) flags (bstr_bytes name.entry) }
    ensures offset { result.1 ≡ offset_by (kind_of kind) flags (bstr_bytes name.entry) }
    ensures bounds { result.1 ≤ length (bstr_bytes name.entry) }
{
    let number = number_by(kind, name, flags);
    if number == 0 {
        return (0, name.as_bytes().len());
    }
    (number, offset_of_fault(kind, name, flags))
}

/// The offset of the fault of a name that has one, or 0 if there is no such kind.
#[inline(never)]
fn offset_of_fault(kind: u32, name: BStr<'_>, flags: u32) -> usize
    ensures offset { result ≡ offset_by (kind_of kind) flags (bstr_bytes name.entry) }
    ensures bounds { result ≤ length (bstr_bytes name.entry) }
{
    match kind_of(kind) {
        None => 0,
        Some(kind) => match git_names::check(kind, name, options_of(flags)) {
            Ok(_) => name.as_bytes().len(),
            Err(fault) => fault.offset,
        },
    }
}

/// The number of the name's fault as a branch.
#[inline(never)]
fn branch(name: BStr<'_>) -> u32
    ensures number { result ≡ number_by (Some kind.Branch) 0 (bstr_bytes name.entry) }
    ensures grammar { (result ≡ 0) ↔ IsTrue (is_of_kind (Some kind.Branch) 0 (bstr_bytes name.entry)) }
    ensures range { result ≤ 26 }
{
    code(git_names::branch(name)).into()
}

/// The number of the name's fault as a full branch name.
#[inline(never)]
fn branch_ref(name: BStr<'_>) -> u32
    ensures number { result ≡ number_by (Some kind.BranchRef) 0 (bstr_bytes name.entry) }
    ensures grammar { (result ≡ 0) ↔ IsTrue (is_of_kind (Some kind.BranchRef) 0 (bstr_bytes name.entry)) }
    ensures range { result ≤ 26 }
{
    code(git_names::branch_ref(name)).into()
}

/// The number of the name's fault as a tag.
#[inline(never)]
fn tag(name: BStr<'_>) -> u32
    ensures number { result ≡ number_by (Some kind.Tag) 0 (bstr_bytes name.entry) }
    ensures grammar { (result ≡ 0) ↔ IsTrue (is_of_kind (Some kind.Tag) 0 (bstr_bytes name.entry)) }
    ensures range { result ≤ 26 }
{
    code(git_names::tag(name)).into()
}

/// The number of the name's fault as a full reference name.
#[inline(never)]
fn reference(name: BStr<'_>) -> u32
    ensures number { result ≡ number_by (Some kind.Reference) 0 (bstr_bytes name.entry) }
    ensures grammar { (result ≡ 0) ↔ IsTrue (is_of_kind (Some kind.Reference) 0 (bstr_bytes name.entry)) }
    ensures range { result ≤ 26 }
{
    code(git_names::reference(name)).into()
}

/// The number of the name's fault as a partial reference name.
#[inline(never)]
fn partial(name: BStr<'_>) -> u32
    ensures number { result ≡ number_by (Some kind.Partial) 0 (bstr_bytes name.entry) }
    ensures grammar { (result ≡ 0) ↔ IsTrue (is_of_kind (Some kind.Partial) 0 (bstr_bytes name.entry)) }
    ensures range { result ≤ 26 }
{
    code(git_names::partial(name)).into()
}

/// The number of the name's fault as a tag name.
#[inline(never)]
fn tag_name(name: BStr<'_>) -> u32
    ensures number { result ≡ number_by (Some kind.TagName) 0 (bstr_bytes name.entry) }
    ensures grammar { (result ≡ 0) ↔ IsTrue (is_of_kind (Some kind.TagName) 0 (bstr_bytes name.entry)) }
    ensures range { result ≤ 26 }
{
    code(git_names::tag_name(name)).into()
}

/// The number of the name's fault as a safe reference name.
#[inline(never)]
fn safe_ref(name: BStr<'_>, flags: u32) -> u32
    ensures number { result ≡ number_by (Some kind.SafeRef) flags (bstr_bytes name.entry) }
    ensures grammar { (result ≡ 0) ↔ IsTrue (is_of_kind (Some kind.SafeRef) flags (bstr_bytes name.entry)) }
    ensures range { result ≤ 26 }
{
    code(git_names::safe_ref(name, options_of(flags))).into()
}

/// The number of the name's fault as a path.
#[inline(never)]
fn path(name: BStr<'_>, flags: u32) -> u32
    ensures number { result ≡ number_by (Some kind.Path) flags (bstr_bytes name.entry) }
    ensures grammar { (result ≡ 0) ↔ IsTrue (is_of_kind (Some kind.Path) flags (bstr_bytes name.entry)) }
    ensures range { result ≤ 26 }
{
    code(git_names::path(name, None, options_of(flags))).into()
}

/// The number of the name's fault as the path of a symbolic link.
#[inline(never)]
fn symlink_path(name: BStr<'_>, flags: u32) -> u32
    ensures number { result ≡ number_by (Some kind.SymlinkPath) flags (bstr_bytes name.entry) }
    ensures grammar { (result ≡ 0) ↔ IsTrue (is_of_kind (Some kind.SymlinkPath) flags (bstr_bytes name.entry)) }
    ensures range { result ≤ 26 }
{
    code(git_names::path(name, Some(ComponentMode::Symlink), options_of(flags))).into()
}

/// The number of the name's fault as a path component.
// (It isn't cold. But so `fault_of` first compares its kind with that of submodules, which have
// fewer instructions to spare.)
#[cold]
#[inline(never)]
fn component(name: BStr<'_>, flags: u32) -> u32
    ensures number { result ≡ number_by (Some kind.Component) flags (bstr_bytes name.entry) }
    ensures grammar { (result ≡ 0) ↔ IsTrue (is_of_kind (Some kind.Component) flags (bstr_bytes name.entry)) }
    ensures range { result ≤ 26 }
{
    code(git_names::component(name, options_of(flags))).into()
}

/// The number of the name's fault as the name of a symbolic link.
#[inline(never)]
fn symlink(name: BStr<'_>, flags: u32) -> u32
    ensures number { result ≡ number_by (Some kind.Symlink) flags (bstr_bytes name.entry) }
    ensures grammar { (result ≡ 0) ↔ IsTrue (is_of_kind (Some kind.Symlink) flags (bstr_bytes name.entry)) }
    ensures range { result ≤ 26 }
{
    code(git_names::symlink(name, options_of(flags))).into()
}

/// The number of the name's fault as a submodule name. Most names are checked without flags, which
/// takes no frame.
#[inline(never)]
#[tactic(auto, unfolding(git_names::specs::Submodules::fault_of, git_names::specs::Submodules::is_submodule))]
fn submodule(name: BStr<'_>, flags: u32) -> u32
    ensures number { result ≡ number_by (Some kind.Submodule) flags (bstr_bytes name.entry) }
    ensures grammar { (result ≡ 0) ↔ IsTrue (is_of_kind (Some kind.Submodule) flags (bstr_bytes name.entry)) }
    ensures range { result ≤ 26 }
{
    let options = options_of(flags);
    if options.protect_windows || options.protect_hfs || options.protect_ntfs {
        return protected_submodule(name, flags);
    }
    code(submodule::name(name)).into()
}

/// The number of the name's fault as a submodule name under any flags.
#[inline(never)]
fn protected_submodule(name: BStr<'_>, flags: u32) -> u32
    ensures number { result ≡ number_by (Some kind.Submodule) flags (bstr_bytes name.entry) }
    ensures grammar { (result ≡ 0) ↔ IsTrue (is_of_kind (Some kind.Submodule) flags (bstr_bytes name.entry)) }
    ensures range { result ≤ 26 }
{
    code(git_names::submodule(name, options_of(flags))).into()
}
