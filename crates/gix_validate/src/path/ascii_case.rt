//! Words in any ASCII case. Rust's own `eq_ignore_ascii_case` isn't unrolled for a constant word:
//! with it `component` takes up to an eighth more instructions (`bench/run`).

ghost use Rattle.std.specs.Prelude.{◌≡◌, ◌==◌, true, false, drop, length, MatchOption};
ghost use Rattle.std.specs.Str.{bytes_eq};
ghost use Rattle.gix_validate.specs.Bytes.{begins, lower, lower_byte};

/// What follows the word, if the bytes begin with it in any ASCII case.
#[inline(always)]
#[tactic(auto, using(crate::proofs::Texts::LetterCase::begins_word, crate::proofs::Texts::LetterCase::begins_short))]
pub(super) fn strip_prefix_ignore_ascii_case<'a>(text: &'a [u8], word: &[u8]) -> Option<&'a [u8]>
    ensures { MatchOption result (begins (lower text.now) (lower word.now) ≡ false)
        (λ rest. (begins (lower text.now) (lower word.now) ≡ true)
        × (rest.now ≡ drop (length word.now) text.now)) }
{
    match text.split_at_checked(word.len()) {
        Some((front, rest)) if eq_ignore_ascii_case(front, word) => Some(rest),
        _ => None,
    }
}

#[inline(always)]
pub(super) fn eq_ignore_ascii_case(text: &[u8], word: &[u8]) -> bool
    ensures { result ≡ bytes_eq (lower text.now) (lower word.now) }
{
    if text.len() != word.len() {
        return false;
    }
    for (offset, wanted) in word.iter().enumerate() {
        if !bytes_eq_ignore_ascii_case(text[offset], *wanted) {
            return false;
        }
    }
    true
}

#[inline(always)]
#[tactic(auto, unfolding(crate::specs::Bytes::lower_byte))]
pub(super) fn bytes_eq_ignore_ascii_case(byte: u8, wanted: u8) -> bool
    ensures { result ≡ (lower_byte byte == lower_byte wanted) }
{
    byte == wanted.to_ascii_lowercase() || byte == wanted.to_ascii_uppercase()
}
