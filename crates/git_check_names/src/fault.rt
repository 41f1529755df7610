//! Why a name is invalid, and where.

ghost use Rattle.std.specs.Prelude.{◌≡◌, ◌↔◌, ◌+◌, ◌<◌, ◌^◌, IsTrue, None, length, option_map};
ghost use Rattle.std.specs.List.{position};
ghost use Rattle.gix_validate.specs.Pieces.{pieces};
ghost use Rattle.gix_validate.specs.Reference.{carried};
ghost use Rattle.git_names.specs.Paths.{is_nul};
ghost use Rattle.git_names.specs.Kinds.{fault_of as fault_by_kind, is_name as is_name_by_kind};
ghost use Rattle.git_check_names.specs.Faults.{component_word, path_word, reason_word, reference_word};
ghost use Rattle.git_check_names.specs.Faults.{fault_of, is_accepting_path, is_name, nul_fault_of};
ghost use Rattle.git_check_names.specs.Faults.{part_fault_of, parts_fault_of, path_fault_of};
ghost use Rattle.git_check_names.specs.Faults.{protections_for};
ghost use Rattle.git_check_names.specs.Options.{as_options};
ghost use Rattle.git_check_names.specs.Private.{IsFirstPart};

use crate::options::CheckOptions;
use bstr::BStr;
use git_names::{
    Fault, Kind, PathError, Reason, SafeRefError, ShortNameError, SubmoduleError, check,
};
use gix_validate::path::{ComponentError, ComponentOptions};
use gix_validate::{reference, submodule, tag};
use programs::accepted::without_windows;
use programs::text::split_once;

/// Why a name is not valid as this kind, and where; `None` if it is (git-check-names(1)).
///
/// ```
/// fault_of(&options, Kind::Branch, b"main"); // None
/// fault_of(&options, Kind::Path, b"a//b"); // `EmptyPart`, at 2
/// ```
///
/// It does not allocate.
pub fn fault_of(options: &CheckOptions<'_>, kind: Kind, name: &[u8]) -> Option<Fault>
    ensures fault { result ≡ fault_of (as_options options.now) kind name.now }
    ensures grammar { (result ≡ None) ↔ IsTrue (is_name (as_options options.now) kind name.now) }
{
    match kind {
        Kind::Path if !options.accepted.is_empty() => path_fault(options, name),
        Kind::Component => fault_under(protections_for(options, name), kind, name),
        _ => fault_under(options.protections, kind, name),
    }
}

/// Why a name is not valid as this kind under these switches, which apply to each part of a path.
fn fault_under(protections: ComponentOptions, kind: Kind, name: &[u8]) -> Option<Fault>
    ensures fault { result ≡ fault_by_kind protections kind name.now }
    ensures grammar { (result ≡ None) ↔ IsTrue (is_name_by_kind protections kind name.now) }
{
    match check(kind, BStr::new(name), protections) {
        Ok(_) => None,
        Err(fault) => Some(fault),
    }
}

/// The switches for a component.
fn protections_for(options: &CheckOptions<'_>, name: &[u8]) -> ComponentOptions
    ensures { result ≡ protections_for (as_options options.now) name.now }
{
    if options.accepted.contains(name) {
        without_windows(options.protections)
    } else {
        options.protections
    }
}

/// Why a name is not a valid path if some parts are accepted.
#[tactic(auto, using(crate::proofs::AcceptedPaths::path_laws))]
fn path_fault(options: &CheckOptions<'_>, name: &[u8]) -> Option<Fault>
    ensures fault { result ≡ path_fault_of (as_options options.now) name.now }
    ensures grammar { (result ≡ None) ↔ IsTrue (is_accepting_path (as_options options.now) name.now) }
{
    match parts_fault(options, name) {
        None => nul_fault(name),
        Some(fault) => Some(fault),
    }
}

/// The first part of a path, and what follows its slash, if it has one.
#[tactic(auto, using(crate::proofs::AcceptedPaths::parts_cut))]
fn first_part(path: &[u8]) -> Option<(&[u8], &[u8])>
    ensures { IsFirstPart path.now (option_map (λ parts. (parts.0.now, parts.1.now)) result) }
{
    split_once(b'/', path)
}

/// The fault of the first part that has one.
fn parts_fault(options: &CheckOptions<'_>, name: &[u8]) -> Option<Fault>
    ensures { result ≡ parts_fault_of (as_options options.now) 0 (pieces name.now) }
{
    let (mut rest, mut offset) = (name, 0);
    while let Some((part, after)) = first_part(rest) {
        if let Some(fault) = part_fault(options, offset, part) {
            return Some(fault);
        }
        offset += part.len() + 1;
        rest = after;
    }
    part_fault(options, offset, rest)
}

/// The fault of a part that begins at this offset.
fn part_fault(options: &CheckOptions<'_>, offset: usize, part: &[u8]) -> Option<Fault>
    requires { offset + length part.now < 2 ^ 64 }
    ensures { result ≡ part_fault_of (as_options options.now) offset part.now }
{
    if part.is_empty() {
        let reason = Reason::Path(PathError::EmptyPart { offset });
        return Some(Fault { reason, offset });
    }
    match check(
        Kind::Component,
        BStr::new(part),
        protections_for(options, part),
    ) {
        Err(
            Fault {
                reason: Reason::Component(error),
                offset: within,
            },
        ) => Some(Fault {
            reason: Reason::Path(PathError::InvalidPart { offset, error }),
            offset: offset + within,
        }),
        // (A component has no other fault.)
        Err(fault) => Some(fault),
        Ok(_) => None,
    }
}

/// The fault of a path with a NUL, if it has one.
fn nul_fault(name: &[u8]) -> Option<Fault>
    ensures { result ≡ nul_fault_of name.now }
{
    match first_nul(name) {
        None => None,
        Some(offset) => {
            let reason = Reason::Path(PathError::Nul { offset });
            Some(Fault { reason, offset })
        }
    }
}

fn first_nul(name: &[u8]) -> Option<usize>
    ensures { result ≡ position is_nul name.now }
{
    name.iter().position(|byte| *byte == 0)
}

/// The name of the error, such as `RepeatedSlash`.
///
/// It does not allocate.
pub fn reason_word(reason: &Reason) -> &'static str
    ensures word { result.now ≡ reason_word reason.now }
{
    match reason {
        Reason::Short(ShortNameError::Name(error)) => reference_word(error),
        Reason::Short(ShortNameError::StartsWithDash) => "StartsWithDash",
        Reason::Reference(error) => reference_word(error),
        Reason::TagName(error) => tag_word(error),
        Reason::SafeRef(SafeRefError::Name(error)) => reference_word(error),
        Reason::SafeRef(SafeRefError::OutsideRefs) => "OutsideRefs",
        Reason::SafeRef(SafeRefError::Piece(error)) => path_word(error),
        Reason::Path(error) => path_word(error),
        Reason::Component(error) => component_word(error),
        Reason::Submodule(SubmoduleError::Name(submodule::NameError::Empty)) => "Empty",
        Reason::Submodule(SubmoduleError::Name(submodule::NameError::ParentComponent)) => {
            "ParentComponent"
        }
        Reason::Submodule(SubmoduleError::Part(error)) => path_word(error),
        Reason::Submodule(SubmoduleError::Disguised { .. }) => "Disguised",
    }
}

fn path_word(error: &PathError) -> &'static str
    ensures { result.now ≡ path_word error.now }
{
    match error {
        PathError::EmptyPart { .. } => "EmptyPart",
        PathError::InvalidPart { error, .. } => component_word(error),
        PathError::Nul { .. } => "Nul",
    }
}

fn tag_word(error: &tag::NameError) -> &'static str
    ensures { result.now ≡ reference_word (carried error.now) }
{
    match error {
        tag::NameError::InvalidByte { .. } => "InvalidByte",
        tag::NameError::StartsWithSlash => "StartsWithSlash",
        tag::NameError::RepeatedSlash => "RepeatedSlash",
        tag::NameError::RepeatedDot => "RepeatedDot",
        tag::NameError::LockFileSuffix => "LockFileSuffix",
        tag::NameError::ReflogPortion => "ReflogPortion",
        tag::NameError::Asterisk => "Asterisk",
        tag::NameError::StartsWithDot => "StartsWithDot",
        tag::NameError::EndsWithDot => "EndsWithDot",
        tag::NameError::EndsWithSlash => "EndsWithSlash",
        tag::NameError::Empty => "Empty",
    }
}

fn reference_word(error: &reference::NameError) -> &'static str
    ensures { result.now ≡ reference_word error.now }
{
    match error {
        reference::NameError::InvalidByte { .. } => "InvalidByte",
        reference::NameError::StartsWithSlash => "StartsWithSlash",
        reference::NameError::RepeatedSlash => "RepeatedSlash",
        reference::NameError::RepeatedDot => "RepeatedDot",
        reference::NameError::LockFileSuffix => "LockFileSuffix",
        reference::NameError::ReflogPortion => "ReflogPortion",
        reference::NameError::Asterisk => "Asterisk",
        reference::NameError::StartsWithDot => "StartsWithDot",
        reference::NameError::EndsWithDot => "EndsWithDot",
        reference::NameError::EndsWithSlash => "EndsWithSlash",
        reference::NameError::Empty => "Empty",
        reference::NameError::SomeLowercase => "SomeLowercase",
        reference::NameError::Reserved { .. } => "Reserved",
    }
}

fn component_word(error: &ComponentError) -> &'static str
    ensures { result.now ≡ component_word error.now }
{
    match error {
        ComponentError::Empty => "Empty",
        ComponentError::PathSeparator => "PathSeparator",
        ComponentError::WindowsPathPrefix => "WindowsPathPrefix",
        ComponentError::WindowsReservedName => "WindowsReservedName",
        ComponentError::WindowsIllegalCharacter => "WindowsIllegalCharacter",
        ComponentError::DotGitDir => "DotGitDir",
        ComponentError::SymlinkedGitModules => "SymlinkedGitModules",
        ComponentError::Relative => "Relative",
    }
}
