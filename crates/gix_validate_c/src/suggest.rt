//! A branch name for one that a person typed.

ghost use Rattle.std.specs.Prelude.{◌≡◌, ◌<◌, ◌≤◌, length, take, drop, IsTrue, None, Some};
ghost use Rattle.git_names.specs.ShortNames.{is_short_name};
ghost use Rattle.git_names.specs.Suggestions.{suggestion};

use bstr::BStr;

/// Writes the branch name that [`git_names::suggest`] suggests to the start of the buffer, and
/// returns its length in bytes: at least 1, and at most that of the name. Returns 0 if there is no
/// suggestion, or if the buffer is shorter than the name (docs/RULES.md, "Suggestions").
///
/// A shorter buffer is unchanged. Otherwise the bytes from the length of the name on are unchanged,
/// and those before it that the suggestion doesn't need are unspecified. The suggestion isn't
/// NUL-terminated. The name and the buffer may not overlap. The function doesn't allocate.
///
/// ```c
/// uint8_t buffer[32];
/// gix_validate_suggest("Fix: it's done..", 16, buffer, sizeof buffer); // 13, "Fix-it's-done"
/// gix_validate_suggest("...", 3, buffer, sizeof buffer); // 0
/// ```
#[tactic(auto, using(crate::proofs::NoEmptyBranch::no_empty_branch))]
#[unsafe(no_mangle)]
pub extern "C" fn gix_validate_suggest(name: &[u8], buffer: &mut [u8]) -> usize
    ensures text { 1 ≤ result → suggestion name.now ≡ Some (take result buffer.new) }
    ensures none { length name.now ≤ length buffer.old → result ≡ 0 → suggestion name.now ≡ None }
    ensures valid { 1 ≤ result → IsTrue (is_short_name (take result buffer.new)) }
    ensures bounds { result ≤ length name.now }
    ensures untouched { length buffer.old < length name.now → buffer.new ≡ buffer.old }
    ensures rest { drop (length name.now) buffer.new ≡ drop (length name.now) buffer.old }
{
    match git_names::suggest_into(BStr::new(name), buffer) {
        None => 0,
        Some(len) => len,
    }
}
