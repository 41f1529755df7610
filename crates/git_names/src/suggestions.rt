//! Suggestions for invalid branch names. A name is repaired piece by piece, into another buffer.

ghost use Rattle.std.specs.Prelude.{◌≡◌, ◌↔◌, ◌≤◌, ◌<◌, ◌+◌, ◌⊎◌, false, [], length, take, drop, IsTrue};
ghost use Rattle.std.specs.Prelude.{IsOk, IfOk, MatchOption, IfSome, IsNone, None, Some, codes};
ghost use Rattle.std.specs.Prelude.{option_map, vec_capacity, if◌then◌else◌};
ghost use Rattle.bstr.specs.BStr.{bstr_bytes};
ghost use Rattle.bstr.specs.Owned.{bstring_bytes};
ghost use Rattle.git_names.specs.Private.Written.{appended};
ghost use Rattle.git_names.specs.ShortNames.{is_short_name};
ghost use Rattle.git_names.specs.Suggestions.{becomes_dash, dashed, has_nothing_to_keep};
ghost use Rattle.git_names.specs.Suggestions.{is_dot_or_dash, is_first_or_again, is_no_branch};
ghost use Rattle.git_names.specs.Suggestions.{repaired, suggested_piece, suggestion, thinned, trimmed};

use crate::branches::branch;
use crate::paths::first_slash;
use bstr::{BStr, BString};
use std::alloc::{AllocError, Global};

/// Suggests a branch name for a name that a person typed (docs/RULES.md, "Suggestions").
///
/// A valid short name is its own suggestion. In any other name each run of bytes that a branch may
/// not have becomes a dash, and bytes with which a piece may not begin or end are removed. There is
/// no suggestion if nothing is left, or only `@` or `HEAD`.
///
/// ```
/// suggest(alloc, BStr::from("Fix: it's done.."))?; // Some, `Fix-it's-done`
/// suggest(alloc, BStr::from("main"))?; // Some, `main`
/// suggest(alloc, BStr::from("..."))?; // None
/// ```
///
/// # Errors
///
/// Out of memory, and nothing else.
///
/// # Memory
///
/// It allocates once, before it writes a byte: the length of `name`.
#[tactic(auto, using(crate::proofs::SuggestionLaws::suggestion_laws))]
pub fn suggest(alloc: Global, name: BStr<'_>) -> Result<Option<BString>, AllocError>
    ensures text { IfOk result (λ found. option_map bstring_bytes found ≡ suggestion (bstr_bytes name.entry)) }
    ensures valid { IfOk result (λ found. IfSome found (λ t. IsTrue (is_short_name (bstring_bytes t)))) }
    ensures unchanged { IfOk result (λ found. IfSome found (λ t.
        (bstring_bytes t ≡ bstr_bytes name.entry) ↔ IsTrue (is_short_name (bstr_bytes name.entry)))) }
    ensures bounds { IfOk result (λ found. IfSome found (λ t.
        length (bstring_bytes t) ≤ length (bstr_bytes name.entry))) }
    ensures again { IfOk result (λ found. IfSome found (λ t.
        suggestion (bstring_bytes t) ≡ Some (bstring_bytes t))) }
    // Without a suggestion there was no byte to keep, or only `@` or `HEAD` was left.
    ensures none { IfOk result (λ found. IsNone found → let x = bstr_bytes name.entry in
        IsTrue (has_nothing_to_keep x) ⊎ (repaired x ≡ codes "@") ⊎ (repaired x ≡ codes "HEAD")) }
{
    let mut branch = Vec::with_capacity(alloc, name.as_bytes().len())?;
    if fill_suggestion(&mut branch, name)? {
        Ok(Some(BString::new(branch)))
    } else {
        Ok(None)
    }
}

/// Writes the suggestion to an empty vector, and returns whether there is one. The vector has room
/// for exactly the name, so this never fails.
fn fill_suggestion(branch: &mut Vec<u8>, name: BStr<'_>) -> Result<bool, AllocError>
    requires empty { branch.old.items ≡ [] }
    requires room { vec_capacity branch.old ≡ length (bstr_bytes name) }
    ensures succeeds { IsOk result }
    ensures text { IfOk result (λ found. suggestion (bstr_bytes name.entry)
        ≡ (if found then Some branch.new.items else None)) }
{
    branch.extend_from_slice(name.as_bytes())?;
    match write_suggestion(name, branch.as_mut_slice()) {
        Some(len) => {
            branch.truncate(len);
            Ok(true)
        }
        None => Ok(false),
    }
}

/// Writes what [`suggest`] returns to the start of the buffer, and returns its length, or `None` if
/// there is no suggestion or the buffer is shorter than `name`.
///
/// A shorter buffer is unchanged. Otherwise the bytes from the length of `name` on are unchanged,
/// and those between the suggestion and that offset are unspecified. The function doesn't allocate.
///
/// ```
/// let mut buffer = [0; 8];
/// suggest_into(BStr::from(".hidden"), &mut buffer); // Some(6), and the buffer begins with `hidden`
/// suggest_into(BStr::from("..."), &mut buffer); // None
/// ```
pub fn suggest_into(name: BStr<'_>, buffer: &mut [u8]) -> Option<usize>
    ensures text { MatchOption result
        (length (bstr_bytes name.entry) ≤ length buffer.old → suggestion (bstr_bytes name.entry) ≡ None)
        (λ len. suggestion (bstr_bytes name.entry) ≡ Some (take len buffer.new)) }
    ensures untouched { length buffer.old < length (bstr_bytes name.entry) → buffer.new ≡ buffer.old }
    ensures within { IfSome result (λ len. len ≤ length (bstr_bytes name.entry)) }
    ensures valid { IfSome result (λ len. IsTrue (is_short_name (take len buffer.new))) }
    ensures rest { let n = length (bstr_bytes name.entry) in drop n buffer.new ≡ drop n buffer.old }
{
    let len = name.as_bytes().len();
    if buffer.len() < len {
        return None;
    }
    write_suggestion(name, &mut buffer[..len])
}

/// Writes the suggestion to the start of the buffer, and returns its length, or `None` if there is no
/// suggestion. What is in the buffer after the suggestion, or if there is none, is unspecified.
#[tactic(auto, using(crate::proofs::SuggestionLaws::suggestion_laws))]
fn write_suggestion(name: BStr<'_>, buffer: &mut [u8]) -> Option<usize>
    requires room { length (bstr_bytes name) ≤ length buffer.old }
    ensures text { MatchOption result
        (suggestion (bstr_bytes name.entry) ≡ None)
        (λ len. suggestion (bstr_bytes name.entry) ≡ Some (take len buffer.new)) }
    ensures within { IfSome result (λ len. len ≤ length (bstr_bytes name.entry)) }
    ensures valid { IfSome result (λ len. IsTrue (is_short_name (take len buffer.new))) }
{
    let bytes = name.as_bytes();
    if branch(name).is_ok() {
        buffer[..bytes.len()].copy_from_slice(bytes);
        return Some(bytes.len());
    }
    let len = write_repaired(bytes, buffer);
    if is_no_branch(&buffer[..len]) {
        None
    } else {
        Some(len)
    }
}

fn is_no_branch(name: &[u8]) -> bool
    ensures { result ≡ is_no_branch name.now }
{
    name.is_empty() || name == b"@".as_slice() || name == b"HEAD".as_slice()
}

/// Writes the changed name, and returns its length.
fn write_repaired(name: &[u8], buffer: &mut [u8]) -> usize
    requires room { length name.now ≤ length buffer.old }
    ensures within { result ≤ length name.now }
    ensures text { take result buffer.new ≡ repaired name.now }
{
    let mut end = 0;
    let mut start = 0;
    while let Some(slash) = first_slash(name, start) {
        end = append_piece(&name[start..slash], buffer, end);
        start = slash + 1;
    }
    append_piece(&name[start..], buffer, end)
}

/// Writes the changed piece after the first `end` bytes, with a slash before it unless it is the
/// first, and returns how many bytes there are then. A piece of which nothing is left is not
/// written.
fn append_piece(piece: &[u8], buffer: &mut [u8], end: usize) -> usize
    requires room { end + 1 + length piece.now ≤ length buffer.old ⊎ ((end ≡ 0) × (length piece.now ≤ length buffer.old)) }
    ensures within { result ≤ end + 1 + length piece.now }
    ensures first { end ≡ 0 → result ≤ length piece.now }
    ensures text { take result buffer.new ≡ appended (take end buffer.old) (suggested_piece piece.now) }
{
    let start = if end == 0 { 0 } else { end + 1 };
    let len = write_piece(piece, &mut buffer[start..]);
    if len == 0 {
        return end;
    }
    if end > 0 {
        buffer[end] = b'/';
    }
    start + len
}

/// Writes the changed piece, and returns its length.
fn write_piece(piece: &[u8], buffer: &mut [u8]) -> usize
    requires room { length piece.now ≤ length buffer.old }
    ensures within { result ≤ length piece.now }
    ensures text { take result buffer.new ≡ suggested_piece piece.now }
{
    let len = write_thinned(piece, buffer);
    length_of_trimmed(&buffer[..len])
}

/// Writes the piece with dashes for the bytes that become one, without dots and dashes at its
/// start, and with one dot or dash for several in a row.
#[tactic(auto, using(crate::proofs::SuggestionLemmas::thinned_steps))]
fn write_thinned(piece: &[u8], buffer: &mut [u8]) -> usize
    requires room { length piece.now ≤ length buffer.old }
    ensures within { result ≤ length piece.now }
    ensures text { take result buffer.new ≡ thinned None (dashed false piece.now) }
{
    let mut end = 0;
    let mut kept = None;
    let mut after_at = false;
    for byte in piece {
        let dashed = if becomes_dash(after_at, *byte) {
            b'-'
        } else {
            *byte
        };
        after_at = *byte == b'@';
        if !is_dot_or_dash(dashed) || !is_first_or_again(kept, dashed) {
            buffer[end] = dashed;
            end += 1;
            kept = Some(dashed);
        }
    }
    end
}

/// Whether a dash replaces the byte.
#[tactic(auto, unfolding(gix_validate::specs::Bytes::is_bad))]
fn becomes_dash(after_at: bool, byte: u8) -> bool
    ensures { result ≡ becomes_dash after_at byte }
{
    match byte {
        0..=b' ' | 0x7F | b':' | b'?' | b'[' | b'\\' | b'^' | b'~' | b'*' | b'-' => true,
        b'{' => after_at,
        _ => false,
    }
}

fn is_dot_or_dash(byte: u8) -> bool
    ensures { result ≡ is_dot_or_dash byte }
{
    matches!(byte, b'.' | b'-')
}

/// Whether no byte was kept before this one, or the last one kept is the same.
fn is_first_or_again(kept: Option<u8>, byte: u8) -> bool
    ensures { result ≡ is_first_or_again kept byte }
{
    match kept {
        None => true,
        Some(kept) => kept == byte,
    }
}

/// The length of the bytes without the dots, the dashes and each `.lock` at their end.
#[tactic(auto, using(crate::proofs::SuggestionLemmas::trimmed_fronts))]
fn length_of_trimmed(text: &[u8]) -> usize
    ensures within { result ≤ length text.now }
    ensures front { take result text.now ≡ trimmed text.now }
{
    let mut end = text.len();
    while end > 0 {
        if is_dot_or_dash(text[end - 1]) {
            end -= 1;
        } else if text[..end].ends_with(b".lock") {
            end -= 5;
        } else {
            return end;
        }
    }
    end
}
