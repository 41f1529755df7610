//! One check for all kinds of names, whose error has an offset.

ghost use Rattle.std.specs.Prelude.{◌≡◌, ◌↔◌, ◌≤◌, IsOk, IfOk, IfSome, IsTrue, IfErr, None, Some, length};
ghost use Rattle.std.specs.Prelude.{option_map};
ghost use Rattle.std.specs.Result.{result_err};
ghost use Rattle.bstr.specs.BStr.{bstr_bytes};
ghost use Rattle.gix_validate.specs.Faults.{Validates};
ghost use Rattle.gix_validate.specs.Printed.{printed};
ghost use Rattle.git_names.specs.Kinds.{fault_of, is_name, reason_of, text_of};
ghost use Rattle.git_names.specs.Offsets.{offset_of};
ghost use Rattle.git_names.specs.Private.Starts.{path_start};

use crate::branches::{ShortNameError, branch};
use crate::components::{component, symlink};
use crate::offsets::{
    component_offset, path_offset, reference_offset, submodule_offset, tag_name_offset,
};
use crate::paths::{PathError, path};
use crate::references::{SafeRefError, safe_ref};
use crate::submodules::{SubmoduleError, submodule};
use crate::tags::tag;
use bstr::BStr;
use gix_validate::path::{ComponentError, ComponentMode, ComponentOptions};
use gix_validate::text::Text;
use gix_validate::{reference, tag as tag_names};
use std::error::Error;
use std::fmt;

/// The kind of name that a check is for.
#[derive(Debug, Copy, Clone, PartialEq, Eq)]
pub enum Kind {
    Branch,
    BranchRef,
    Tag,
    Reference,
    Partial,
    TagName,
    SafeRef,
    Path,
    /// The path of a symbolic link.
    SymlinkPath,
    Component,
    /// The name of a symbolic link.
    Symlink,
    Submodule,
}

/// Why a name is not of a kind: the error that the function for that kind returns.
#[derive(Debug, Drop)]
pub enum Reason {
    /// For a branch or tag, as people write it.
    Short(ShortNameError),
    /// For a full branch name, another full name or a partial name.
    Reference(reference::NameError),
    /// For a tag name.
    TagName(tag_names::NameError),
    /// For a safe reference name.
    SafeRef(SafeRefError),
    /// For a whole path.
    Path(PathError),
    /// For a component, or the name of a symbolic link.
    Component(ComponentError),
    /// For a submodule name.
    Submodule(SubmoduleError),
}

impl Reason {
    /// What it prints (docs/RULES.md, "Printed texts"). It doesn't allocate.
    pub fn text(&self) -> Text<'_>
        ensures text { printed result ≡ text_of self.now }
    {
        match self {
            Self::Short(error) => error.text(),
            Self::Reference(error) => error.text(),
            Self::TagName(error) => error.text(),
            Self::SafeRef(error) => error.text(),
            Self::Path(error) => error.text(),
            Self::Component(error) => error.text(),
            Self::Submodule(error) => error.text(),
        }
    }
}

impl fmt::Display for Reason {
    ghost output = { λ reason. Some (text_of reason) };

    fn fmt<W: fmt::Write>(&self, f: &mut fmt::Formatter<W>) -> fmt::Result {
        self.text().fmt(f)
    }
}

impl Error for Reason {}

/// What is wrong with a name, and where.
#[derive(Debug, Drop)]
pub struct Fault {
    pub reason: Reason,
    /// Where in the name the reason is, in bytes (docs/RULES.md, "Offsets").
    pub offset: usize,
}

/// Prints the text of the reason.
impl fmt::Display for Fault {
    ghost output = { λ fault. Some (text_of fault.reason) };

    fn fmt<W: fmt::Write>(&self, f: &mut fmt::Formatter<W>) -> fmt::Result {
        self.reason.text().fmt(f)
    }
}

impl Error for Fault {}

/// Returns `name` if it is a valid name of this kind.
///
/// This does what the function for that kind does, and its error also has an offset. The options
/// are for paths, components, submodules and safe reference names. The function doesn't allocate.
/// On `Ok` it returns the value that it was passed.
///
/// ```
/// check(Kind::Branch, BStr::from("main"), ComponentOptions::default())?; // `main`
/// check(Kind::Branch, BStr::from("a b"), ComponentOptions::default()); // InvalidByte, at 1
/// check(Kind::Reference, BStr::from("x.lock/y"), ComponentOptions::default()); // LockFileSuffix, at 1
/// ```
///
/// # Errors
///
/// The error that the function for that kind returns, with its offset in bytes.
pub fn check<'a>(kind: Kind, name: BStr<'a>, options: ComponentOptions) -> Result<BStr<'a>, Fault>
    ensures answer { Validates (fault_of options kind) (bstr_bytes name.entry) result }
    ensures grammar { IsOk result ↔ IsTrue (is_name options kind (bstr_bytes name.entry)) }
    ensures same { IfOk result (λ kept. kept ≡ name.entry) }
    ensures within { IfErr result (λ fault. fault.offset ≤ length (bstr_bytes name.entry)) }
{
    match reason_by_kind(kind, name, options) {
        None => Ok(name),
        Some(reason) => {
            let offset = offset(&reason, name.as_bytes(), options);
            Err(Fault { reason, offset })
        }
    }
}

#[tactic(auto, using(crate::proofs::OffsetLemmas::starts_within))]
fn reason_by_kind(kind: Kind, name: BStr<'_>, options: ComponentOptions) -> Option<Reason>
    ensures reason { result ≡ reason_of options kind (bstr_bytes name.entry) }
    ensures grammar { (result ≡ None) ↔ IsTrue (is_name options kind (bstr_bytes name.entry)) }
    ensures within { IfSome result (λ reason. path_start reason ≤ length (bstr_bytes name.entry)) }
{
    match kind {
        Kind::Branch => short_reason(branch(name)),
        Kind::BranchRef => reference_reason(reference::branch_name(name)),
        Kind::Tag => short_reason(tag(name)),
        Kind::Reference => reference_reason(reference::name(name)),
        Kind::Partial => reference_reason(reference::name_partial(name)),
        Kind::TagName => match tag_names::name(name) {
            Err(error) => Some(Reason::TagName(error)),
            Ok(_) => None,
        },
        Kind::SafeRef => match safe_ref(name, options) {
            Err(error) => Some(Reason::SafeRef(error)),
            Ok(_) => None,
        },
        Kind::Path => path_reason(path(name, None, options)),
        Kind::SymlinkPath => path_reason(path(name, Some(ComponentMode::Symlink), options)),
        Kind::Component => component_reason(component(name, options)),
        Kind::Symlink => component_reason(symlink(name, options)),
        Kind::Submodule => match submodule(name, options) {
            Err(error) => Some(Reason::Submodule(error)),
            Ok(_) => None,
        },
    }
}

/// The error of a short name as a reason; `None` if the name is valid.
fn short_reason(checked: Result<BStr<'_>, ShortNameError>) -> Option<Reason>
    ensures { result ≡ option_map (λ e. Reason.Short e) (result_err checked.entry) }
{
    match checked {
        Err(error) => Some(Reason::Short(error)),
        Ok(_) => None,
    }
}

/// The error of a full or partial reference name as a reason; `None` if the name is valid.
fn reference_reason(checked: Result<BStr<'_>, reference::NameError>) -> Option<Reason>
    ensures { result ≡ option_map (λ e. Reason.Reference e) (result_err checked.entry) }
{
    match checked {
        Err(error) => Some(Reason::Reference(error)),
        Ok(_) => None,
    }
}

/// The error of a path as a reason; `None` if the path is valid.
fn path_reason(checked: Result<BStr<'_>, PathError>) -> Option<Reason>
    ensures { result ≡ option_map (λ e. Reason.Path e) (result_err checked.entry) }
{
    match checked {
        Err(error) => Some(Reason::Path(error)),
        Ok(_) => None,
    }
}

/// The error of a component as a reason; `None` if the component is valid.
fn component_reason(checked: Result<BStr<'_>, ComponentError>) -> Option<Reason>
    ensures { result ≡ option_map (λ e. Reason.Component e) (result_err checked.entry) }
{
    match checked {
        Err(error) => Some(Reason::Component(error)),
        Ok(_) => None,
    }
}

/// Where the reason is.
fn offset(reason: &Reason, name: &[u8], options: ComponentOptions) -> usize
    requires { path_start reason.now ≤ length name.now }
    ensures offset { result ≡ offset_of options name.now reason.now }
    ensures within { result ≤ length name.now }
{
    match reason {
        Reason::Short(ShortNameError::Name(error)) => reference_offset(error, name),
        Reason::Short(ShortNameError::StartsWithDash) => 0,
        Reason::Reference(error) => reference_offset(error, name),
        Reason::TagName(error) => tag_name_offset(error, name),
        Reason::SafeRef(SafeRefError::Name(error)) => reference_offset(error, name),
        Reason::SafeRef(SafeRefError::OutsideRefs) => 0,
        Reason::SafeRef(SafeRefError::Piece(error)) => path_offset(error, name, options),
        Reason::Path(error) => path_offset(error, name, options),
        Reason::Component(error) => component_offset(error, name, options),
        Reason::Submodule(SubmoduleError::Name(error)) => submodule_offset(error, name),
        Reason::Submodule(SubmoduleError::Part(error)) => path_offset(error, name, options),
        Reason::Submodule(SubmoduleError::Disguised { offset }) => *offset,
    }
}
