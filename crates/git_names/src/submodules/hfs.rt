//! How a part is read on HFS+, which ignores sixteen characters.

ghost use Rattle.std.specs.Prelude.{◌≡◌, ◌<◌, ◌∷◌, ◌||◌, [], MatchOption, codes, length, drop};
ghost use Rattle.std.specs.Prelude.{slice_index};
ghost use Rattle.std.specs.Str.{bytes_eq};
ghost use Rattle.gix_validate.specs.Hfs.{hfs_form, is_ignored};

/// Whether the part without the ignored characters is one dot or two.
pub(super) fn is_dots_on_hfs(part: &[u8]) -> bool
    ensures { result ≡ (bytes_eq (hfs_form part.now) (codes ".") || bytes_eq (hfs_form part.now) (codes "..")) }
{
    let Some((b'.', after)) = next_kept(part) else {
        return false;
    };
    match next_kept(after) {
        None => true,
        Some((b'.', rest)) => next_kept(rest).is_none(),
        Some(_) => false,
    }
}

/// The first byte that isn't ignored, and what follows it.
#[tactic(auto, unfolding(gix_validate::specs::Hfs::hfs_form))]
fn next_kept(bytes: &[u8]) -> Option<(u8, &[u8])>
    ensures { MatchOption result (hfs_form bytes.now ≡ [])
        (λ kept. hfs_form bytes.now ≡ kept.0 ∷ hfs_form kept.1.now) }
{
    let mut rest = bytes;
    while let Some(after) = after_ignored(rest) {
        rest = after;
    }
    let (byte, after) = rest.split_first()?;
    Some((*byte, after))
}

/// What follows the ignored character that the bytes begin with, if they begin with one.
#[tactic(auto, unfolding(gix_validate::specs::Hfs::hfs_form))]
fn after_ignored(bytes: &[u8]) -> Option<&[u8]>
    ensures { MatchOption result
        (0 < length bytes.now → hfs_form bytes.now ≡ slice_index bytes.now 0 ∷ hfs_form (drop 1 bytes.now))
        (λ rest. (hfs_form bytes.now ≡ hfs_form rest.now) × (length rest.now < length bytes.now)) }
{
    match bytes {
        [a, b, c, rest @ ..] if is_ignored(*a, *b, *c) => Some(rest),
        _ => None,
    }
}

#[tactic(auto, unfolding(gix_validate::specs::Hfs::is_ignored))]
fn is_ignored(a: u8, b: u8, c: u8) -> bool
    ensures { result ≡ is_ignored a b c }
{
    match (a, b) {
        (0xE2, 0x80) => matches!(c, 0x8C..=0x8F | 0xAA..=0xAE),
        (0xE2, 0x81) => matches!(c, 0xAA..=0xAF),
        (0xEF, 0xBB) => c == 0xBF,
        _ => false,
    }
}
