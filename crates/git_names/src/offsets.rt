//! Where in a name its error is (docs/RULES.md, "Offsets").

ghost use Rattle.std.specs.Prelude.{◌≡◌, IfSome, ◌+◌, ◌-◌, ◌==◌, ◌≤◌, ◌<◌, ◌||◌, ◌&&◌, drop, length, not};
ghost use Rattle.std.specs.List.{position, suffix_len};
ghost use Rattle.std.specs.Str.{byte};
ghost use Rattle.gix_validate.specs.Faults.{at_first_offset};
ghost use Rattle.gix_validate.specs.Pieces.{is_slash};
ghost use Rattle.gix_validate.specs.Reference.{carried, is_standalone_byte};
ghost use Rattle.gix_validate.specs.Submodule.{is_separator};
ghost use Rattle.gix_validate.specs.Windows.{is_illegal_byte};
ghost use Rattle.git_names.specs.Offsets.{at_or, colon_of_prefix, component_offset_of, end_start};
ghost use Rattle.git_names.specs.Offsets.{has_parent_at};
ghost use Rattle.git_names.specs.Offsets.{is_dot_or_space, lock_start, part_at, path_offset_of};
ghost use Rattle.git_names.specs.Offsets.{reference_offset_of, separates, submodule_offset_of};
ghost use Rattle.git_names.specs.Offsets.{parent_at, tag_offset_of};
ghost use Rattle.git_names.specs.Paths.{offset_of};

use crate::paths::PathError;
use bstr::BStr;
use gix_validate::path::{ComponentError, ComponentOptions};
use gix_validate::{reference, submodule, tag};

#[tactic(auto, using(crate::proofs::OffsetLemmas::reference_within))]
pub(crate) fn reference_offset(error: &reference::NameError, name: &[u8]) -> usize
    ensures offset { result ≡ reference_offset_of name.now error.now }
    ensures within { result ≤ length name.now }
{
    match error {
        reference::NameError::Reserved { .. } => 0,
        reference::NameError::SomeLowercase => at_or(0, first_not_alone(name)),
        reference::NameError::LockFileSuffix => lock_start(name, tag_offset(name)),
        reference::NameError::InvalidByte { .. } => tag_offset(name),
        reference::NameError::StartsWithSlash => tag_offset(name),
        reference::NameError::RepeatedSlash => tag_offset(name),
        reference::NameError::RepeatedDot => tag_offset(name),
        reference::NameError::ReflogPortion => tag_offset(name),
        reference::NameError::Asterisk => tag_offset(name),
        reference::NameError::StartsWithDot => tag_offset(name),
        reference::NameError::EndsWithDot => tag_offset(name),
        reference::NameError::EndsWithSlash => tag_offset(name),
        reference::NameError::Empty => tag_offset(name),
    }
}

#[tactic(auto, using(crate::proofs::OffsetLemmas::reference_within))]
pub(crate) fn tag_name_offset(error: &tag::NameError, name: &[u8]) -> usize
    ensures offset { result ≡ reference_offset_of name.now (carried error.now) }
    ensures within { result ≤ length name.now }
{
    match error {
        tag::NameError::LockFileSuffix => lock_start(name, tag_offset(name)),
        tag::NameError::InvalidByte { .. } => tag_offset(name),
        tag::NameError::StartsWithSlash => tag_offset(name),
        tag::NameError::RepeatedSlash => tag_offset(name),
        tag::NameError::RepeatedDot => tag_offset(name),
        tag::NameError::ReflogPortion => tag_offset(name),
        tag::NameError::Asterisk => tag_offset(name),
        tag::NameError::StartsWithDot => tag_offset(name),
        tag::NameError::EndsWithDot => tag_offset(name),
        tag::NameError::EndsWithSlash => tag_offset(name),
        tag::NameError::Empty => tag_offset(name),
    }
}

/// Where the error of a tag name is.
#[tactic(auto, using(crate::proofs::OffsetLemmas::tag_within))]
fn tag_offset(name: &[u8]) -> usize
    ensures offset { result ≡ tag_offset_of name.now }
    ensures within { result ≤ length name.now }
{
    match tag::fault_offset(BStr::new(name)) {
        None => 0,
        Some(offset) => offset,
    }
}

/// Where the `.lock` begins whose error is at this offset.
fn lock_start(name: &[u8], offset: usize) -> usize
    ensures start { result ≡ lock_start name.now offset }
    ensures within { result ≤ offset }
{
    if offset < name.len() && name[offset] == b'/' {
        offset.saturating_sub(5)
    } else {
        offset.saturating_sub(4)
    }
}

/// The first byte that may not be in a name without a slash.
fn first_not_alone(name: &[u8]) -> Option<usize>
    ensures { result ≡ position (λ b. not (is_standalone_byte b)) name.now }
{
    name.iter()
        .position(|byte| !matches!(*byte, b'A'..=b'Z' | b'_'))
}

fn at_or(other: usize, offset: Option<usize>) -> usize
    ensures { result ≡ at_or other offset }
{
    match offset {
        None => other,
        Some(offset) => offset,
    }
}

#[tactic(auto, using(crate::proofs::OffsetLemmas::component_within))]
pub(crate) fn component_offset(
    error: &ComponentError,
    name: &[u8],
    options: ComponentOptions,
) -> usize
    ensures offset { result ≡ component_offset_of options name.now error.now }
    ensures within { result ≤ length name.now }
{
    match error {
        ComponentError::PathSeparator => at_or(0, first_separator(name, options)),
        ComponentError::WindowsPathPrefix => colon_of_prefix(name),
        ComponentError::WindowsIllegalCharacter => at_or(end_start(name), first_illegal(name)),
        ComponentError::Empty => 0,
        ComponentError::WindowsReservedName => 0,
        ComponentError::DotGitDir => 0,
        ComponentError::SymlinkedGitModules => 0,
        ComponentError::Relative => 0,
    }
}

fn first_separator(name: &[u8], options: ComponentOptions) -> Option<usize>
    ensures { result ≡ position (separates options) name.now }
{
    let windows = options.protect_windows;
    name.iter()
        .position(|byte| *byte == b'/' || windows && *byte == b'\\')
}

fn first_colon(name: &[u8]) -> Option<usize>
    ensures { result ≡ position (λ b. b == byte ":") name.now }
{
    name.iter().position(|byte| *byte == b':')
}

/// The first colon after the first byte.
fn colon_of_prefix(name: &[u8]) -> usize
    ensures { result ≡ colon_of_prefix name.now }
{
    match name {
        [] => 0,
        [_, rest @ ..] => 1 + at_or(0, first_colon(rest)),
    }
}

fn first_illegal(name: &[u8]) -> Option<usize>
    ensures { result ≡ position is_illegal_byte name.now }
{
    name.iter().position(|byte| is_illegal_byte(*byte))
}

#[tactic(auto, unfolding(gix_validate::specs::Windows::is_illegal_byte))]
fn is_illegal_byte(byte: u8) -> bool
    ensures { result ≡ is_illegal_byte byte }
{
    byte < b' ' || matches!(byte, b'<' | b'>' | b':' | b'"' | b'|' | b'?' | b'*')
}

/// Where the dots and spaces at the end begin.
fn end_start(name: &[u8]) -> usize
    ensures { result ≡ end_start name.now }
{
    let mut end = name.len();
    while end > 0 && matches!(name[end - 1], b'.' | b' ') {
        end -= 1;
    }
    end
}

#[tactic(auto, using(crate::proofs::OffsetLemmas::path_offset_within))]
pub(crate) fn path_offset(error: &PathError, name: &[u8], options: ComponentOptions) -> usize
    requires { offset_of error.now ≤ length name.now }
    ensures offset { result ≡ path_offset_of options name.now error.now }
    ensures within { result ≤ length name.now }
{
    match error {
        PathError::EmptyPart { offset } => *offset,
        PathError::InvalidPart { offset, error } => {
            *offset + component_offset(error, part_at(name, *offset), options)
        }
        PathError::Nul { offset } => *offset,
    }
}

/// The bytes from the offset to the next slash.
pub(crate) fn part_at(name: &[u8], offset: usize) -> &[u8]
    requires { offset ≤ length name.now }
    ensures part { result.now ≡ part_at name.now offset }
    ensures within { length result.now ≤ length name.now }
{
    let rest = &name[offset..];
    match next_slash(rest) {
        None => rest,
        Some(end) => &rest[..end],
    }
}

#[tactic(auto, using(crate::proofs::OffsetLemmas::position_within))]
pub(crate) fn next_slash(name: &[u8]) -> Option<usize>
    ensures slash { result ≡ position is_slash name.now }
    ensures within { IfSome result (λ at. at < length name.now) }
{
    name.iter().position(|byte| *byte == b'/')
}

#[tactic(auto, using(crate::proofs::OffsetLemmas::submodule_within))]
pub(crate) fn submodule_offset(error: &submodule::NameError, name: &[u8]) -> usize
    ensures offset { result ≡ submodule_offset_of name.now error.now }
    ensures within { result ≤ length name.now }
{
    match error {
        submodule::NameError::Empty => 0,
        submodule::NameError::ParentComponent => first_parent(name),
    }
}

/// The first part `..`.
#[tactic(auto, using(crate::proofs::OffsetLemmas::parents))]
fn first_parent(name: &[u8]) -> usize
    ensures offset { result ≡ at_or 0 (at_first_offset (parent_at name.now) (length name.now)) }
    ensures within { result ≤ length name.now }
{
    for offset in 0..name.len() {
        if has_parent_at(name, offset) {
            return offset;
        }
    }
    0
}

fn has_parent_at(name: &[u8], offset: usize) -> bool
    requires { offset < length name.now }
    ensures { result ≡ has_parent_at name.now offset }
{
    (offset == 0 || is_separator(name[offset - 1])) && starts_with_parent(&name[offset..])
}

/// Whether the first part is `..`.
fn starts_with_parent(name: &[u8]) -> bool
    ensures { result ≡ has_parent_at name.now 0 }
{
    match name {
        [b'.', b'.'] => true,
        [b'.', b'.', after, ..] => is_separator(*after),
        _ => false,
    }
}

fn is_separator(byte: u8) -> bool
    ensures { result ≡ is_separator byte }
{
    matches!(byte, b'/' | b'\\')
}
