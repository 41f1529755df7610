//! Functions on byte strings for the rules and the tests (docs/RULES.md, "Bytes"), and what these
//! need of the runtime.

use bstr::ByteSlice;
use std::process::Abort;

/// What a check needs of the runtime.
pub(crate) trait Host: Abort + AllocGlobal {}

impl<T: Abort + AllocGlobal> Host for T {}

/// The byte strings, one after the other.
pub(crate) fn joined(rt: &impl Host, parts: &[&[u8]]) -> Vec<u8> {
    parts.concat(rt.alloc()).expect(rt, "memory")
}

/// The three byte strings, one after the other.
pub(crate) fn between(rt: &impl Host, front: &[u8], text: &[u8], back: &[u8]) -> Vec<u8> {
    joined(rt, &[front, text, back])
}

/// Whether the byte string is the word. (A comparison with an array is longer to prove.)
pub(crate) fn is(text: &[u8], word: &[u8]) -> bool {
    text == word
}

/// Whether the byte is a bad byte: 0x00 to 0x1F, DEL, the space, and `:` `?` `[` `\` `^` `~`. (`*` has
/// an error of its own.)
pub(crate) fn is_bad(byte: u8) -> bool {
    match byte {
        0x00..=0x1F | 0x7F | b' ' => true,
        b':' | b'?' | b'[' | b'\\' | b'^' | b'~' => true,
        _ => false,
    }
}

/// Whether a byte of the byte string is a bad byte.
pub(crate) fn has_bad(text: &[u8]) -> bool {
    for byte in text {
        if is_bad(*byte) {
            return true;
        }
    }
    false
}

/// Whether one of the words is anywhere in the byte string.
pub(crate) fn contains_one(text: &[u8], words: &[&[u8]]) -> bool {
    for word in words {
        if text.contains_str(word) {
            return true;
        }
    }
    false
}

/// The part before the first of the given bytes, or the whole byte string if it has none of them.
pub(crate) fn before_first<'a>(text: &'a [u8], bytes: &[u8]) -> &'a [u8] {
    let end = text.find_byteset(bytes).unwrap_or(text.len());
    &text[..end]
}

/// The byte string without the given bytes at its end.
pub(crate) fn trimmed<'a>(text: &'a [u8], bytes: &[u8]) -> &'a [u8] {
    let end = match text.rfind_not_byteset(bytes) {
        Some(last) => last + 1,
        None => 0,
    };
    &text[..end]
}

/// Whether the byte string, or one that begins with it if `may_go_on`, is in the table. Each row has
/// a least and a greatest byte string, and means all whose byte at each index is between theirs.
pub(crate) fn is_in(text: &[u8], may_go_on: bool, rows: &[(&[u8], &[u8])]) -> bool {
    for (least, greatest) in rows {
        if (may_go_on || text.len() == least.len()) && is_between(text, least, greatest) {
            return true;
        }
    }
    false
}

/// Whether the others are at least as long, and each byte is between those at its index.
fn is_between(text: &[u8], least: &[u8], greatest: &[u8]) -> bool {
    if text.len() > least.len() || text.len() > greatest.len() {
        return false;
    }
    for index in 0..text.len() {
        if text[index] < least[index] || text[index] > greatest[index] {
            return false;
        }
    }
    true
}
