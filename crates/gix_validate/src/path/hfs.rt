//! How a name is read on HFS+, which ignores sixteen characters.

ghost use Rattle.std.specs.Prelude.{◌≡◌, false, ◌<◌, ◌∷◌, [], MatchOption, codes, length, drop};
ghost use Rattle.std.specs.Prelude.{slice_index};
ghost use Rattle.std.specs.Str.{bytes_eq};
ghost use Rattle.gix_validate.specs.Bytes.{lower};
ghost use Rattle.gix_validate.specs.Hfs.{hfs_form, is_ignored};

use crate::path::ascii_case::bytes_eq_ignore_ascii_case;

#[tactic(auto, unfolding(crate::specs::Bytes::lower_byte))]
pub(super) fn is_git(name: &[u8]) -> bool
    ensures { result ≡ bytes_eq (lower (hfs_form name.now)) (codes ".git") }
{
    reads_as(name, b".git")
}

#[tactic(auto, unfolding(crate::specs::Bytes::lower_byte))]
pub(super) fn is_modules(name: &[u8]) -> bool
    ensures { result ≡ bytes_eq (lower (hfs_form name.now)) (codes ".gitmodules") }
{
    reads_as(name, b".gitmodules")
}

/// Whether the name without the ignored characters is the word, in any ASCII case.
#[tactic(auto, using(crate::proofs::Components::HfsForm::word_steps))]
#[inline(always)]
fn reads_as(name: &[u8], word: &[u8]) -> bool
    ensures { result ≡ bytes_eq (lower (hfs_form name.now)) (lower word.now) }
{
    let mut rest = name;
    for wanted in word {
        let Some((byte, after)) = next_kept(rest) else {
            return false;
        };
        if !bytes_eq_ignore_ascii_case(byte, *wanted) {
            return false;
        }
        rest = after;
    }
    next_kept(rest).is_none()
}

/// The first byte that isn't ignored, and what follows it.
#[inline(always)]
#[tactic(auto, unfolding(crate::specs::Hfs::hfs_form))]
fn next_kept(bytes: &[u8]) -> Option<(u8, &[u8])>
    ensures { MatchOption result (hfs_form bytes.now ≡ [])
        (λ kept. hfs_form bytes.now ≡ kept.0 ∷ hfs_form kept.1.now) }
{
    let mut rest = bytes;
    while let Some(after) = after_ignored(rest) {
        rest = after;
    }
    let (byte, after) = rest.split_first()?;
    Some((*byte, after))
}

/// What follows the ignored character that the bytes begin with, if they begin with one.
#[inline(always)]
#[tactic(auto, unfolding(crate::specs::Hfs::hfs_form))]
fn after_ignored(bytes: &[u8]) -> Option<&[u8]>
    ensures { MatchOption result
        (0 < length bytes.now → hfs_form bytes.now ≡ slice_index bytes.now 0 ∷ hfs_form (drop 1 bytes.now))
        (λ rest. (hfs_form bytes.now ≡ hfs_form rest.now) × (length rest.now < length bytes.now)) }
{
    match bytes {
        [a, b, c, rest @ ..] if is_ignored(*a, *b, *c) => Some(rest),
        _ => None,
    }
}

#[tactic(auto, unfolding(crate::specs::Hfs::is_ignored))]
#[inline(always)]
fn is_ignored(a: u8, b: u8, c: u8) -> bool
    ensures { result ≡ is_ignored a b c }
{
    match (a, b) {
        (0xE2, 0x80) => matches!(c, 0x8C..=0x8F | 0xAA..=0xAE),
        (0xE2, 0x81) => matches!(c, 0xAA..=0xAF),
        (0xEF, 0xBB) => c == 0xBF,
        _ => false,
    }
}
