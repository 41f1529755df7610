//! Tag names, whose rule is part of that of every reference name.

ghost use Rattle.std.specs.Prelude.{◌≡◌, ◌↔◌, ◌<◌, ◌≤◌, ◌+◌, ◌-◌, length, slice_index, codes, Some};
ghost use Rattle.std.specs.Prelude.{IsNone, IfSome, option_map, IsOk, IfOk, IsTrue, MatchOption};
ghost use Rattle.bstr.specs.BStr.{bstr_bytes};
ghost use Rattle.gix_validate.specs.Tag.{Fault, ◌at◌, fault_at, fault_of, fault_offset_of};
ghost use Rattle.gix_validate.specs.Tag.{first_fault, is_tag_name, text_of};
ghost use Rattle.gix_validate.specs.TagLaws.{HasAtMostOneFaultPerOffset, PiecesAreTheOnlySplit};
ghost use Rattle.gix_validate.specs.Bytes.{ends};
ghost use Rattle.gix_validate.specs.Faults.{Validates, at_first_offset};
ghost use Rattle.gix_validate.specs.Printed.{printed};
ghost use Rattle.gix_validate.specs.Private.Adjacent.{fault_of_byte, may_be_faulty, suspect_at};
ghost use Rattle.gix_validate.specs.Private.Scan.{NoneBelow};

use crate::adjacent::{clear_front, is_clear};
use crate::bytes::may_be_faulty;
use crate::text::Text;
use bstr::BStr;
use std::error::Error;
use std::fmt;
use std::slice::from_ref;

/// Why a name is not a valid tag name. docs/RULES.md, "Printed texts", has what each prints.
#[derive(Debug, Drop)]
pub enum NameError {
    /// It has a byte below 0x20, a space, DEL, or one of `:` `?` `[` `\` `^` `~`.
    /// The first is `byte`.
    InvalidByte { byte: u8 },
    /// It starts with a slash.
    StartsWithSlash,
    /// It has two slashes in a row.
    RepeatedSlash,
    /// It has two dots in a row.
    RepeatedDot,
    /// A piece between slashes ends in `.lock`.
    LockFileSuffix,
    /// It has `@{`.
    ReflogPortion,
    /// It has a `*`.
    Asterisk,
    /// A piece between slashes starts with a dot.
    StartsWithDot,
    /// It ends in a dot.
    EndsWithDot,
    /// It ends in a slash.
    EndsWithSlash,
    /// It is empty.
    Empty,
}

impl NameError {
    /// What it prints (docs/RULES.md, "Printed texts"). It doesn't allocate.
    pub fn text(&self) -> Text<'_>
        ensures text { printed result ≡ text_of self.now }
    {
        match self {
            Self::InvalidByte { byte } => Text {
                words: "A ref must not contain invalid bytes or ascii control characters: ",
                quoted: Some(from_ref(byte)),
            },
            Self::StartsWithSlash => {
                Text::plain("A reference name must not start with a slash '/'")
            }
            Self::RepeatedSlash => Text::plain(
                "Multiple slashes in a row are not allowed as they may change the reference's meaning",
            ),
            Self::RepeatedDot => {
                Text::plain("A ref must not contain '..' as it may be mistaken for a range")
            }
            Self::LockFileSuffix => Text::plain("A ref must not end with '.lock'"),
            Self::ReflogPortion => {
                Text::plain("A ref must not contain '@{' which is a part of a ref-log")
            }
            Self::Asterisk => Text::plain("A ref must not contain '*' character"),
            Self::StartsWithDot => Text::plain("A ref must not start with a '.'"),
            Self::EndsWithDot => Text::plain("A ref must not end with a '.'"),
            Self::EndsWithSlash => Text::plain("A ref must not end with a '/'"),
            Self::Empty => Text::plain("A ref must not be empty"),
        }
    }
}

impl fmt::Display for NameError {
    ghost output = { λ e. Some (text_of e) };

    fn fmt<W: fmt::Write>(&self, f: &mut fmt::Formatter<W>) -> fmt::Result {
        self.text().fmt(f)
    }
}

impl Error for NameError {}

/// Returns `input` if it is a valid tag name, and otherwise its first error.
///
/// Slashes split a tag name into pieces. No piece is empty, has an invalid byte or a `*`, starts
/// with a dot, ends in `.lock`, or contains `..` or `@{`. The whole name doesn't end in a dot. The
/// input needn't be UTF-8. The function doesn't allocate. On `Ok` it returns the value that it was
/// passed.
///
/// ```
/// tag::name(BStr::from("v1.2.3"))?; // `v1.2.3`
/// tag::name(BStr::from("v1..2")); // RepeatedDot
/// ```
///
/// # Errors
///
/// The first error in the order of docs/RULES.md, "Tag names", which has this rule.
#[inline(always)]
#[tactic(auto, using(crate::proofs::TagNames::ClearTexts::clear_has_no_fault, crate::proofs::TagNames::Grammar::tag_grammar_law, crate::proofs::TagNames::Laws::tag_laws))]
pub fn name<'a>(input: BStr<'a>) -> Result<BStr<'a>, NameError>
    ensures answer { Validates fault_of (bstr_bytes input.entry) result }
    ensures grammar { IsOk result ↔ IsTrue (is_tag_name (bstr_bytes input.entry)) }
    ensures same { IfOk result (λ name. name ≡ input.entry) }
    ensures one_fault { HasAtMostOneFaultPerOffset (bstr_bytes input.entry) }
    ensures pieces { PiecesAreTheOnlySplit (bstr_bytes input.entry) }
{
    if is_clear(input.as_bytes()) {
        Ok(input)
    } else {
        name_on_walk(input)
    }
}

/// The result of `name` for a name that isn't clear. (As a part of `name` it would make clear names
/// four instructions slower.)
#[inline(always)]
#[tactic(auto, unfolding(crate::specs::Tag::fault_of))]
pub(crate) fn name_on_walk<'a>(input: BStr<'a>) -> Result<BStr<'a>, NameError>
    ensures answer { Validates fault_of (bstr_bytes input.entry) result }
    ensures same { IfOk result (λ name. name ≡ input.entry) }
{
    match fault_on_walk(input.as_bytes()) {
        None => Ok(input),
        Some((fault, _)) => Err(fault),
    }
}

/// The offset in bytes of a tag name's first error, or `None` if the name is valid. An error at the
/// end, such as `EndsWithDot`, is at the last byte, and the error of an empty name is at 0. The
/// function doesn't allocate.
///
/// ```
/// tag::fault_offset(BStr::from("v1..2")); // Some(3), the second dot
/// tag::fault_offset(BStr::from("v1.2")); // None
/// ```
#[tactic(auto, using(crate::proofs::TagNames::Grammar::offset_grammar_law, crate::proofs::TagNames::ClearTexts::offset_within, crate::proofs::TagNames::Grammar::halves_law), unfolding(crate::specs::Tag::fault_offset_of))]
pub fn fault_offset(input: BStr<'_>) -> Option<usize>
    ensures offset { result ≡ fault_offset_of (bstr_bytes input.entry) }
    // The error that `name` returns is at this offset.
    ensures error { IfSome result (λ i.
        first_fault (bstr_bytes input.entry) ≡ (fault_of (bstr_bytes input.entry) at i)) }
    ensures grammar { IsNone result ↔ IsTrue (is_tag_name (bstr_bytes input.entry)) }
    ensures within { IfSome result (λ i. i ≤ length (bstr_bytes input.entry) - 1) }
{
    match first_fault(input) {
        None => None,
        Some((_, offset)) => Some(offset),
    }
}

/// A tag name's first error and the offset of that, as [`fault_offset`] returns it, or `None` if the
/// name is valid. The function doesn't allocate.
///
/// ```
/// tag::first_fault(BStr::from("v1..2")); // Some((RepeatedDot, 3))
/// tag::first_fault(BStr::from("v1.2")); // None
/// ```
#[inline(always)]
#[tactic(auto, using(crate::proofs::TagNames::Grammar::first_fault_law, crate::proofs::TagNames::ClearTexts::clear_has_no_first_fault))]
pub fn first_fault(input: BStr<'_>) -> Option<(NameError, usize)>
    ensures fault { result ≡ option_map (λ fault. (fault.error, fault.offset)) (first_fault (bstr_bytes input.entry)) }
    ensures grammar { IsNone result ↔ IsTrue (is_tag_name (bstr_bytes input.entry)) }
    ensures within { IfSome result (λ fault. fault.1 ≤ length (bstr_bytes input.entry) - 1) }
{
    let bytes = input.as_bytes();
    if bytes.is_empty() {
        return Some((NameError::Empty, 0));
    }
    let front = clear_front(bytes);
    if front == bytes.len() {
        return None;
    }
    fault_past(bytes, front)
}

/// The first error of a name, in the order of docs/RULES.md, "Tag names", and its offset.
#[inline(never)]
#[tactic(auto, unfolding(crate::specs::Tag::first_fault))]
fn fault_on_walk(bytes: &[u8]) -> Option<(NameError, usize)>
    ensures { result ≡ option_map (λ fault. (fault.error, fault.offset)) (first_fault bytes.now) }
{
    if bytes.is_empty() {
        return Some((NameError::Empty, 0));
    }
    fault_past(bytes, clear_front(bytes))
}

/// The same, if so many bytes at the front of a name need no closer check.
#[inline(never)]
fn fault_past(bytes: &[u8], front: usize) -> Option<(NameError, usize)>
    requires some { 0 < length bytes.now }
    requires within { front ≤ length bytes.now }
    requires quiet { NoneBelow (suspect_at bytes.now) front }
    ensures { result ≡ option_map (λ fault. (fault.error, fault.offset)) (first_fault bytes.now) }
{
    let last = bytes.len() - 1;
    if bytes[last] == b'/' {
        return Some((NameError::EndsWithSlash, last));
    }
    if bytes[0] == b'/' {
        return Some((NameError::StartsWithSlash, 0));
    }
    if let Some(fault) = fault_at_first_offset(bytes, front) {
        return Some(fault);
    }
    if bytes[0] == b'.' {
        return Some((NameError::StartsWithDot, 0));
    }
    if bytes[last] == b'.' {
        return Some((NameError::EndsWithDot, last));
    }
    None
}

/// The error at the lowest offset that has one, and that offset. Most bytes need one look into a
/// table.
#[tactic(auto, using(crate::proofs::TagNames::ClearTexts::least_fault))]
fn fault_at_first_offset(bytes: &[u8], front: usize) -> Option<(NameError, usize)>
    requires some { 0 < length bytes.now }
    requires within { front ≤ length bytes.now }
    requires quiet { NoneBelow (suspect_at bytes.now) front }
    ensures { result ≡ option_map (λ fault. (fault.error, fault.offset))
        (at_first_offset (fault_at bytes.now) (length bytes.now)) }
{
    for offset in front..bytes.len() {
        let byte = bytes[offset];
        if may_be_faulty(byte) {
            if let Some(fault) = fault_of_byte(&bytes[..offset], byte) {
                return Some((fault, offset));
            }
        }
    }
    if bytes.ends_with(b".lock") && bytes.len() != 5 {
        return Some((NameError::LockFileSuffix, bytes.len() - 1));
    }
    None
}

/// The error of a byte that may be one, by the bytes before it, if another byte follows.
#[inline]
#[tactic(auto, unfolding(crate::specs::Private::Adjacent::fault_of_byte, crate::specs::Tag::fault_table, crate::specs::Bytes::is_bad))]
fn fault_of_byte(before: &[u8], byte: u8) -> Option<NameError>
    requires { IsTrue (may_be_faulty byte) }
    ensures { result ≡ fault_of_byte before.now byte }
{
    match (byte, before) {
        (b'*', _) => Some(NameError::Asterisk),
        (b'.', [.., b'.']) => Some(NameError::RepeatedDot),
        (b'.', [.., b'/']) => Some(NameError::StartsWithDot),
        (b'{', [.., b'@']) => Some(NameError::ReflogPortion),
        (b'/', [.., b'/']) => Some(NameError::RepeatedSlash),
        (b'/', _) if ends_in_lock(before) => Some(NameError::LockFileSuffix),
        (b'.' | b'{' | b'/', _) => None,
        _ => Some(NameError::InvalidByte { byte }),
    }
}

/// Whether the bytes end in `.lock`. Few end in its last letter.
#[inline]
#[tactic(auto, using(crate::proofs::TagNames::FaultTable::lock_ends_in_k))]
fn ends_in_lock(text: &[u8]) -> bool
    ensures { result ≡ ends text.now (codes ".lock") }
{
    text.ends_with(b"k") && text.ends_with(b".lock")
}
