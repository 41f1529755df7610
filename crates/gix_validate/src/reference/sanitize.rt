//! The repair of names that are not partial names. A scan stops at the first byte that may have to
//! change (see `adjacent`), and from that byte a walk reads and writes in one buffer.

ghost use Rattle.std.specs.Prelude.{◌≡◌, ◌≢◌, ℕ, false, ◌↔◌, ◌+◌, ◌-◌, ◌≤◌, ◌<◌, ◌==◌, ◌||◌, ◌&&◌};
ghost use Rattle.std.specs.Prelude.{◌++◌, [], ◌∷◌, max, if◌then◌else◌, length, take, drop, get_or};
ghost use Rattle.std.specs.Prelude.{set, codes, IsTrue, IsOk, IfOk, Some, None, slice_range};
ghost use Rattle.std.specs.Prelude.{vec_capacity};
ghost use Rattle.std.specs.Str.{byte};
ghost use Rattle.bstr.specs.BStr.{bstr_bytes};
ghost use Rattle.bstr.specs.Owned.{bstring_bytes};
ghost use Rattle.gix_validate.specs.Sanitized.{Dots, Other, byte_of, cut, mended_pieces};
ghost use Rattle.gix_validate.specs.Sanitized.{repaired_dot, repaired_at, repaired_nothing};
ghost use Rattle.gix_validate.specs.Sanitized.{sanitized, IsPiecewise};
ghost use Rattle.gix_validate.specs.Pieces.{is_slash, joined};
ghost use Rattle.gix_validate.specs.Reference.{is_partial_name};
ghost use Rattle.gix_validate.specs.Private.Scan.{NoneBelow};
ghost use Rattle.gix_validate.specs.Private.Adjacent.{may_be_faulty, suspect_at};

use crate::adjacent::clear_front;
use crate::bytes::may_be_faulty;
use bstr::{BStr, BString};
use std::alloc::{AllocError, Global};

/// Returns a copy of a name, repaired unless the name is a valid partial name (docs/RULES.md,
/// "Sanitised names").
///
/// On success the result is a valid partial name, and equals the input if and only if the input was
/// one. Each nonempty piece of `path` becomes one piece of the result. If nothing is left, the
/// result is `-`. The result has at least one byte, and at most as many as `path`, or one if `path`
/// is empty. Lengths are in bytes.
///
/// ```
/// name_partial_or_sanitize(alloc, BStr::from("refs//heads/../x.lock"))?; // `refs/heads/-/x`
/// ```
///
/// # Errors
///
/// Out of memory, and nothing else.
///
/// # Memory
///
/// It allocates once, before it writes a byte: the length of `path`, or one byte if that is empty.
#[tactic(auto, using(crate::proofs::Sanitizing::Laws::sanitized_laws))]
pub fn name_partial_or_sanitize(alloc: Global, path: BStr<'_>) -> Result<BString, AllocError>
    ensures text { IfOk result (λ name. bstring_bytes name ≡ sanitized (bstr_bytes path.entry)) }
    ensures partial { IfOk result (λ name. IsTrue (is_partial_name (bstring_bytes name))) }
    ensures unchanged { IfOk result (λ name.
        (bstring_bytes name ≡ bstr_bytes path.entry) ↔ IsTrue (is_partial_name (bstr_bytes path.entry))) }
    ensures bounds { IfOk result (λ name.
        (1 ≤ length (bstring_bytes name))
        × (length (bstring_bytes name) ≤ max 1 (length (bstr_bytes path.entry)))) }
    ensures again { IfOk result (λ name. sanitized (bstring_bytes name) ≡ bstring_bytes name) }
    ensures piecewise { IfOk result (λ name. IsPiecewise (bstr_bytes path.entry) (bstring_bytes name)) }
{
    let mut name = Vec::with_capacity(alloc, path.as_bytes().len().max(1))?;
    fill_sanitized(&mut name, path.as_bytes())?;
    Ok(BString::new(name))
}

/// Writes the sanitised path to an empty vector. The vector has room for exactly the path, or for
/// one byte if that is empty, so this never fails.
fn fill_sanitized(name: &mut Vec<u8>, path: &[u8]) -> Result<(), AllocError>
    requires empty { name.old.items ≡ [] }
    requires room { vec_capacity name.old ≡ max 1 (length path.now) }
    ensures succeeds { IsOk result }
    ensures text { name.new.items ≡ sanitized path.now }
{
    name.extend_from_slice(path)?;
    if path.is_empty() {
        name.push(b'-')?;
    }
    let len = sanitize_in_place(name.as_mut_slice(), path.len());
    name.truncate(len);
    Ok(())
}

/// Repairs the name in the first `len` bytes of `buf` in place, and returns the length of the
/// repaired name (docs/RULES.md, "Sanitised names").
///
/// The repaired name is at the start of `buf`. It is a valid partial name, the one that
/// [`name_partial_or_sanitize`] returns for these `len` bytes.
///
/// The buffer has to hold the name, and at least one byte, because even an empty name becomes `-`.
/// A call for which that can't be proved doesn't compile. The bytes from offset `len` on, or from 1
/// on if `len` is 0, are unchanged. The bytes between the repaired name and that offset are
/// unspecified. Offsets and lengths are in bytes.
///
/// ```
/// let mut buffer = *b"..azz";
/// sanitize_in_place(&mut buffer, 3); // 2, and the buffer begins with `-a` and ends in `zz`
/// ```
///
/// It never fails and doesn't allocate.
#[tactic(auto, using(crate::proofs::Sanitizing::OneBuffer::laws_in_place))]
pub fn sanitize_in_place(buf: &mut [u8], len: usize) -> usize
    requires some { 1 ≤ length buf.old }
    requires within { len ≤ length buf.old }
    ensures bounds { (1 ≤ result) × (result ≤ max 1 len) }
    ensures text { take result buf.new ≡ sanitized (take len buf.old) }
    ensures partial { IsTrue (is_partial_name (take result buf.new)) }
    ensures unchanged { (take result buf.new ≡ take len buf.old)
        ↔ IsTrue (is_partial_name (take len buf.old)) }
    ensures again { sanitized (take result buf.new) ≡ take result buf.new }
    ensures piecewise { IsPiecewise (take len buf.old) (take result buf.new) }
    ensures rest { drop (max 1 len) buf.new ≡ drop (max 1 len) buf.old }
{
    write_sanitized(buf, len)
}

/// Repairs the name in the first `len` bytes of `buf`, and returns the length of the repaired name.
/// The other clauses of `sanitize_in_place` follow from these.
#[inline(always)]
#[tactic(auto, using(crate::proofs::Sanitizing::OneBuffer::in_place))]
fn write_sanitized(buf: &mut [u8], len: usize) -> usize
    requires some { 1 ≤ length buf.old }
    requires within { len ≤ length buf.old }
    ensures bounds { (1 ≤ result) × (result ≤ max 1 len) }
    ensures text { take result buf.new ≡ sanitized (take len buf.old) }
    ensures rest { drop (max 1 len) buf.new ≡ drop (max 1 len) buf.old }
{
    let clear = if len > 1 { clear_front(&buf[..len]) } else { 0 };
    if clear > 0 && clear == len {
        return len;
    }
    let end = mend_pieces(&mut buf[..len], clear);
    repair_end(buf, end)
}

/// Writes the nonempty pieces of the name over it, each cleaned and cut, and returns how many bytes
/// it wrote. The first `clear` bytes are unchanged. A byte is written at the offset of the byte
/// that was just read, or before it, so a variable keeps the byte before that one. Only the cuts
/// look at what was written.
fn mend_pieces(text: &mut [u8], clear: usize) -> usize
    requires within { clear ≤ length text.old }
    requires clear { NoneBelow (suspect_at text.old) clear }
    ensures within { result ≤ length text.old }
    ensures text { take result text.new ≡ joined (mended_pieces text.old) }
{
    let mut end = clear;
    let mut previous = if clear == 0 { b'/' } else { text[clear - 1] };
    for read in clear..text.len() {
        let byte = text[read];
        if !may_be_faulty(byte) {
            text[end] = byte;
            end += 1;
        } else if byte != b'/' {
            if let Some(mended) = mended_byte(previous, byte) {
                text[end] = mended;
                end += 1;
            }
        } else if previous != b'/' {
            end = close_piece(text, end);
        }
        previous = byte;
    }
    if previous == b'/' {
        end.saturating_sub(1)
    } else {
        length_of_cut(&text[..end])
    }
}

/// What replaces a byte of a piece, unless the byte is plain. It depends on the byte before, which
/// is a slash for the first byte of a piece. If there are several dots in a row, only the first is
/// written.
#[tactic(auto, unfolding(crate::specs::Bytes::is_bad))]
fn mended_byte(previous: u8, next: u8) -> Option<u8>
    requires no_slash { next ≢ byte "/" }
    requires faulty { IsTrue (may_be_faulty next) }
    ensures adds { let before = if is_slash previous then None else Some previous in
        result ≡ (if next == byte "."
        then (if previous == byte "." then None else Some (byte_of before Dots))
        else Some (byte_of before (Other next))) }
{
    match next {
        b'{' if previous != b'@' => Some(b'{'),
        b'.' if previous == b'.' => None,
        b'.' if previous != b'/' => Some(b'.'),
        _ => Some(b'-'),
    }
}

/// Cuts the first `end` bytes, writes a slash after them, and returns the offset after that.
fn close_piece(text: &mut [u8], end: usize) -> usize
    requires room { end < length text.old }
    ensures within { result ≤ end + 1 }
    ensures text { take result text.new ≡ cut (take end text.old) ++ codes "/" }
    ensures rest { drop (end + 1) text.new ≡ drop (end + 1) text.old }
{
    let end = length_of_cut(&text[..end]);
    text[end] = b'/';
    end + 1
}

/// The length of the bytes without each `.lock` at their end.
#[tactic(auto, using(crate::proofs::Sanitizing::LockSuffixes::lock_by_lock))]
fn length_of_cut(text: &[u8]) -> usize
    ensures within { result ≤ length text.now }
    ensures front { take result text.now ≡ cut text.now }
{
    let mut end = text.len();
    while text[..end].ends_with(b".lock") {
        end -= 5;
    }
    end
}

/// Makes the last three repairs to the first `end` bytes of `buf`, and returns the length of the
/// result.
fn repair_end(buf: &mut [u8], end: usize) -> usize
    requires some { 1 ≤ length buf.old }
    requires within { end ≤ length buf.old }
    ensures text { take result buf.new ≡ repaired_nothing (repaired_at (repaired_dot (take end buf.old))) }
    ensures size { result ≡ max 1 end }
    ensures rest { drop (max 1 end) buf.new ≡ drop (max 1 end) buf.old }
{
    if end == 0 {
        buf[0] = b'-';
        return 1;
    }
    let last = buf[end - 1];
    if last == b'.' || (last == b'@' && end == 1) {
        buf[end - 1] = b'-';
    }
    end
}
