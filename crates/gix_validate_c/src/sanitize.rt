//! The repair of reference names, in the caller's buffer (docs/RULES.md, "Sanitised names" and
//! "Calls for C").
//!
//! Each function returns the length of the repaired name, a valid partial name, which is at the
//! start of the buffer. That name has at least one byte, and at most as many as the given name, or
//! one if that is empty. So 0 means that the buffer was too small; then nothing was written.
//! Lengths and offsets are in bytes. The functions don't allocate.

ghost use Rattle.std.specs.Prelude.{◌≡◌, ◌↔◌, ◌≤◌, max, length, take, drop, IsTrue};
ghost use Rattle.gix_validate.specs.Reference.{is_partial_name};
ghost use Rattle.gix_validate.specs.Sanitized.{sanitized};

use gix_validate::reference;

/// Repairs the name in the first `name_len` bytes of the buffer, and returns the length of the
/// repaired name.
///
/// If the buffer has no byte, or fewer than `name_len`, it returns 0 and leaves the buffer
/// unchanged. Otherwise the bytes from offset `name_len` on, or from 1 on if that is 0, are
/// unchanged. The bytes between the repaired name and that offset are unspecified.
///
/// ```c
/// uint8_t buffer[] = "..azz";
/// gix_validate_sanitize_in_place(buffer, 5, 3); // 2, and the buffer begins with "-a" and ends in "zz"
/// ```
#[unsafe(no_mangle)]
pub extern "C" fn gix_validate_sanitize_in_place(buffer: &mut [u8], name_len: usize) -> usize
    ensures answered { (1 ≤ result) ↔ (max 1 name_len ≤ length buffer.old) }
    ensures untouched { result ≡ 0 → buffer.new ≡ buffer.old }
    ensures bounds { result ≤ max 1 name_len }
    ensures text { 1 ≤ result → take result buffer.new ≡ sanitized (take name_len buffer.old) }
    ensures partial { 1 ≤ result → IsTrue (is_partial_name (take result buffer.new)) }
    ensures unchanged { 1 ≤ result
        → (take result buffer.new ≡ take name_len buffer.old)
        ↔ IsTrue (is_partial_name (take name_len buffer.old)) }
    ensures rest { drop (max 1 name_len) buffer.new ≡ drop (max 1 name_len) buffer.old }
{
    if buffer.len() < name_len.max(1) {
        return 0;
    }
    reference::sanitize_in_place(buffer, name_len)
}

/// Copies the name to the start of the buffer, repairs it there, and returns the length of the
/// repaired name.
///
/// If the buffer has no byte, or fewer than the name, it returns 0 and leaves the buffer unchanged.
/// Otherwise the bytes from the length of the name on, or from 1 on if that is 0, are unchanged.
/// The bytes between the repaired name and that offset are unspecified. The name and the buffer may
/// not overlap.
///
/// ```c
/// uint8_t buffer[32];
/// gix_validate_sanitize("refs//heads/../x.lock", 21, buffer, sizeof buffer); // 14, "refs/heads/-/x"
/// ```
#[unsafe(no_mangle)]
pub extern "C" fn gix_validate_sanitize(name: &[u8], buffer: &mut [u8]) -> usize
    ensures answered { (1 ≤ result) ↔ (max 1 (length name.now) ≤ length buffer.old) }
    ensures untouched { result ≡ 0 → buffer.new ≡ buffer.old }
    ensures bounds { result ≤ max 1 (length name.now) }
    ensures text { 1 ≤ result → take result buffer.new ≡ sanitized name.now }
    ensures partial { 1 ≤ result → IsTrue (is_partial_name (take result buffer.new)) }
    ensures unchanged { 1 ≤ result → (take result buffer.new ≡ name.now) ↔ IsTrue (is_partial_name name.now) }
    ensures rest { drop (max 1 (length name.now)) buffer.new ≡ drop (max 1 (length name.now)) buffer.old }
{
    if buffer.len() < name.len().max(1) {
        return 0;
    }
    buffer[..name.len()].copy_from_slice(name);
    reference::sanitize_in_place(buffer, name.len())
}
