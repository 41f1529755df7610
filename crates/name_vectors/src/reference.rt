//! Tag names, reference names, submodule names and sanitised names (docs/RULES.md, the sections of
//! these names).

use crate::text::{Host, before_first, contains_one, has_bad, is, is_bad};
use bstr::ByteSlice;

/// An error of a name, as docs/RULES.md calls it, and what is quoted after its text, if anything
/// is. For a valid name both are empty.
pub(crate) type Fault<'a> = (&'static [u8], &'a [u8]);

pub(crate) const VALID: Fault<'static> = (b"", b"");

/// The errors at an offset: what the bytes before it end with, what the bytes from it on start with.
const AT_OFFSET: &[(&[u8], &[u8], &[u8])] = &[
    (b"", b"*", b"Asterisk"),
    (b".", b".", b"RepeatedDot"),
    (b"/", b".", b"StartsWithDot"),
    (b"@", b"{", b"ReflogPortion"),
    (b"/", b"/", b"RepeatedSlash"),
    (b".lock", b"/", b"LockFileSuffix"),
];

/// The error at the lowest offset that has one.
fn at_lowest_offset(text: &[u8]) -> Fault<'_> {
    for offset in 0..text.len() {
        let fault = at_offset(&text[..offset], &text[offset..]);
        if !fault.0.is_empty() {
            return fault;
        }
    }
    VALID
}

/// The error at an offset, given the bytes before it and those from it on.
fn at_offset<'a>(before: &[u8], here: &'a [u8]) -> Fault<'a> {
    for (last, next, word) in AT_OFFSET {
        if before.ends_with(last) && here.starts_with(next) {
            return (word, b"");
        }
    }
    match here {
        [byte, ..] if is_bad(*byte) => (b"InvalidByte", &here[..1]),
        _ => VALID,
    }
}

/// The error, or if there is none, the next one if its condition holds.
pub(crate) fn or<'a>(fault: Fault<'a>, holds: bool, next: Fault<'a>) -> Fault<'a> {
    if fault.0.is_empty() && holds {
        next
    } else {
        fault
    }
}

/// The first error as a tag name.
fn of_tag(text: &[u8]) -> Fault<'_> {
    match text {
        b"" => (b"Empty", b""),
        [.., b'/'] => (b"EndsWithSlash", b""),
        [b'/', ..] => (b"StartsWithSlash", b""),
        _ => between_dots(text),
    }
}

/// The error at the lowest offset, or if there is none, that of `.lock` at the end, or of a dot at
/// the start or the end. (The last byte of `.lock` at the end has no other error.)
fn between_dots(text: &[u8]) -> Fault<'_> {
    let is_lock_file = text.ends_with(b".lock") && text.len() > 5;
    let lowest = at_lowest_offset(text);
    let fault = or(lowest, is_lock_file, (b"LockFileSuffix", b""));
    let fault = or(fault, text.starts_with(b"."), (b"StartsWithDot", b""));
    or(fault, text.ends_with(b"."), (b"EndsWithDot", b""))
}

/// The first error as a tag name, a partial name, a full name and a branch name.
pub(crate) fn of_references(text: &[u8]) -> [Fault<'_>; 4] {
    let tag = of_tag(text);
    let partial = or(tag, is(text, b"@"), (b"Reserved", text));
    let full = or(partial, !may_stand(text), (b"SomeLowercase", b""));
    let is_head = is(text, b"refs/heads/HEAD");
    [tag, partial, full, or(full, is_head, (b"Reserved", text))]
}

/// Whether the name has a slash, or only bytes that a name without one may have.
fn may_stand(text: &[u8]) -> bool {
    let other = text.find_not_byteset(b"ABCDEFGHIJKLMNOPQRSTUVWXYZ_");
    other.is_none() || text.contains(&b'/')
}

/// Whether the name, which is also given between slashes, has nothing that a tag name may not have.
fn is_tag(text: &[u8], between_slashes: &[u8]) -> bool {
    let has_other = contains_one(
        between_slashes,
        &[b"*", b"//", b"/.", b"..", b"@{", b".lock/"],
    );
    !has_other && !text.ends_with(b".") && !has_bad(text)
}

/// How many of these four rules accept the name, by what it may not have.
pub(crate) fn accepting(text: &[u8], between_slashes: &[u8]) -> usize {
    match text {
        _ if !is_tag(text, between_slashes) => 0,
        _ if is(text, b"@") => 1,
        _ if !may_stand(text) => 2,
        _ if is(text, b"refs/heads/HEAD") => 3,
        _ => 4,
    }
}

/// The error of a submodule name, one of whose parts is `..`.
pub(crate) fn of_submodule(text: &[u8], between_slashes: &[u8]) -> &'static [u8] {
    let parents: &[&[u8]] = &[b"/../", b"/..\\", b"\\../", b"\\..\\"];
    match contains_one(between_slashes, parents) {
        _ if text.is_empty() => b"Empty",
        true => b"ParentComponent",
        false => b"",
    }
}

/// The sanitised name.
pub(crate) fn sanitized(rt: &impl Host, text: &[u8]) -> Vec<u8> {
    let mut name = Vec::new(rt.alloc());
    let mut rest = text;
    for _ in 0..text.len() {
        let piece = before_first(rest, b"/");
        push_piece(rt, &mut name, piece);
        rest = after(rest, piece.len());
    }
    let is_reserved = name.is_empty() || name.as_slice() == b"@".as_slice();
    if is_reserved || name.ends_with(b".") {
        name.pop();
        name.push(b'-').expect(rt, "memory");
    }
    name
}

/// What follows the byte at this offset.
fn after(text: &[u8], offset: usize) -> &[u8] {
    match text.get(offset..) {
        Some([_, rest @ ..]) => rest,
        _ => b"",
    }
}

/// Adds a piece of a name to those before it, unless it is empty.
fn push_piece(rt: &impl Host, name: &mut Vec<u8>, piece: &[u8]) {
    if !piece.is_empty() {
        let separator: &[u8] = if name.is_empty() { b"" } else { b"/" };
        let text = cleaned(rt, piece);
        name.extend_from_slice(separator).expect(rt, "memory");
        name.extend_from_slice(cut(&text)).expect(rt, "memory");
    }
}

/// The piece with each run cleaned. A run is all dots in a row, or one other byte.
fn cleaned(rt: &impl Host, piece: &[u8]) -> Vec<u8> {
    let mut text = Vec::new(rt.alloc());
    for offset in 0..piece.len() {
        let (before, byte) = (&piece[..offset], piece[offset]);
        if byte != b'.' || !before.ends_with(b".") {
            text.push(cleaned_byte(before, byte)).expect(rt, "memory");
        }
    }
    text
}

/// The byte, or a dash if a piece may not have it after these.
fn cleaned_byte(before: &[u8], byte: u8) -> u8 {
    match byte {
        b'*' => b'-',
        b'.' if before.is_empty() => b'-',
        b'{' if before.ends_with(b"@") => b'-',
        _ if is_bad(byte) => b'-',
        _ => byte,
    }
}

/// The piece without each `.lock` at its end.
fn cut(piece: &[u8]) -> &[u8] {
    let mut front = piece;
    for _ in 0..piece.len() {
        front = front.strip_suffix(b".lock").unwrap_or(front);
    }
    front
}
