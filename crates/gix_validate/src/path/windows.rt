//! Names that mean something else on Windows, and names that it forbids.
//!
//! Device names begin with one of six words. A table says which of these words have a given letter
//! at each of the first three offsets, because a branch for each letter is hard to predict. The one
//! branch on the result is hardly ever taken.

ghost use Rattle.std.specs.Prelude.{◌≡◌, ◌≤◌, false, length, ◌==◌, ◌||◌, ◌∷◌, [], ◌++◌, ◌%◌};
ghost use Rattle.std.specs.Prelude.{slice_index, bit_and, codes, IsTrue, not};
ghost use Rattle.std.specs.List.{list_all, list_any};
ghost use Rattle.std.specs.Str.{byte, bytes_eq};
ghost use Rattle.gix_validate.specs.Bytes.{lower, is_among, is_empty, ends};
ghost use Rattle.gix_validate.specs.Units.{first_unit_len};
ghost use Rattle.gix_validate.specs.Ntfs.{is_digit};
ghost use Rattle.gix_validate.specs.Windows.{device_form, is_device, is_illegal_byte};

use crate::path::ascii_case::strip_prefix_ignore_ascii_case;
use crate::path::units::first_unit_len;

pub(super) fn has_prefix(name: &[u8]) -> bool
    ensures { result ≡ (slice_index name.now (first_unit_len name.now) == byte ":") }
{
    name.get(first_unit_len(name)) == Some(&b':')
}

pub(super) fn ends_illegally(name: &[u8]) -> bool
    ensures { result ≡ (ends name.now (codes ".") || ends name.now (codes " ")) }
{
    matches!(name.last(), Some(b'.' | b' '))
}

/// The six words that device names begin with, and the start of `.git`, a bit for each.
const AUX: u8 = 0x01;

const CON: u8 = 0x02;

const COM: u8 = 0x04;

const LPT: u8 = 0x08;

const NUL: u8 = 0x10;

const PRN: u8 = 0x20;

const DOT_GIT: u8 = 0x40;

const DEVICES: u8 = AUX | CON | COM | LPT | NUL | PRN;

/// The words that may have a byte as their first, second or third letter, by the low five bits of the
/// byte, which are the same for an uppercase letter.
#[rattlefmt::skip]
const BY_LETTER: [[u8; 32]; 3] = [
    [
        0, AUX, 0, CON | COM, 0, 0, 0, 0, // a, c
        0, 0, 0, 0, LPT, 0, NUL | DOT_GIT, 0, // l, n and `.`
        PRN, 0, 0, 0, 0, 0, 0, 0, // p
        0, 0, 0, 0, 0, 0, 0, 0,
    ],
    [
        0, 0, 0, 0, 0, 0, 0, DOT_GIT, // g
        0, 0, 0, 0, 0, 0, 0, CON | COM, // o
        LPT, 0, PRN, 0, 0, AUX | NUL, 0, 0, // p, r, u
        0, 0, 0, 0, 0, 0, 0, 0,
    ],
    [
        0, 0, 0, 0, 0, 0, 0, 0,
        0, DOT_GIT, 0, 0, NUL, COM, CON | PRN, 0, // i, l, m, n
        0, 0, 0, 0, LPT, 0, 0, 0, // t
        AUX, 0, 0, 0, 0, 0, 0, 0, // x
    ],
];

/// Whether a name may be a device, `.git` or `.gitmodules` in any ASCII case, by its first three
/// letters and its length.
#[inline(always)]
pub(super) fn may_be_special(name: &[u8]) -> bool
    ensures { result ≡ false
        → (is_device name.now
        || (bytes_eq (lower name.now) (codes ".git") || bytes_eq (lower name.now) (codes ".gitmodules")))
        ≡ false }
{
    if name.len() < 3 {
        return false;
    }
    let words = BY_LETTER[0][usize::from(name[0] % 32)]
        & BY_LETTER[1][usize::from(name[1] % 32)]
        & BY_LETTER[2][usize::from(name[2] % 32)];
    words != 0
        && (words & DEVICES != 0
            || name.len() == b".git".len()
            || name.len() == b".gitmodules".len())
}

#[inline(always)]
pub(super) fn is_device(name: &[u8]) -> bool
    ensures { result ≡ is_device name.now }
{
    may_be_special(name) && is_device_by_letters(name)
}

/// Whether the name is a device, by its first three letters and what follows them.
#[inline(always)]
pub(super) fn is_device_by_letters(name: &[u8]) -> bool
    ensures { result ≡ is_device name.now }
{
    match name {
        [b'a' | b'A', b'u' | b'U', b'x' | b'X', rest @ ..] => ends_device_form(rest),
        [b'c' | b'C', b'o' | b'O', b'n' | b'N', rest @ ..] => ends_console(rest),
        [b'c' | b'C', b'o' | b'O', b'm' | b'M', rest @ ..] => ends_in_nonzero_digit(rest),
        [b'l' | b'L', b'p' | b'P', b't' | b'T', rest @ ..] => ends_in_digit(rest),
        [b'n' | b'N', b'u' | b'U', b'l' | b'L', rest @ ..] => ends_device_form(rest),
        [b'p' | b'P', b'r' | b'R', b'n' | b'N', rest @ ..] => ends_device_form(rest),
        _ => false,
    }
}

/// Whether the device form ends after `con`, or is one of the console's two other names.
#[inline(always)]
#[tactic(auto, unfolding(crate::specs::Bytes::lower_byte))]
fn ends_console(rest: &[u8]) -> bool
    ensures { result ≡ (is_empty (device_form rest.now)
        || (bytes_eq (lower (device_form rest.now)) (codes "in$")
        || bytes_eq (lower (device_form rest.now)) (codes "out$"))) }
{
    ends_device_form(rest) || device_form_is(rest, b"IN$") || device_form_is(rest, b"OUT$")
}

/// Whether the device form of the name is the word, in any ASCII case. The word has no byte that
/// ends a form or is cut from its end.
#[inline(always)]
#[tactic(auto, using(crate::proofs::Components::Devices::device_word))]
fn device_form_is(name: &[u8], word: &[u8]) -> bool
    requires { IsTrue (list_all (λ b. not (is_among (codes " .:\\") b)) word.now) }
    ensures { result ≡ bytes_eq (lower (device_form name.now)) (lower word.now) }
{
    strip_prefix_ignore_ascii_case(name, word).is_some_and(|rest| ends_device_form(rest))
}

#[inline(always)]
fn ends_in_digit(rest: &[u8]) -> bool
    ensures { result
        ≡ list_any (λ digit. bytes_eq (lower (device_form rest.now)) (digit ∷ [])) (codes "0123456789") }
{
    matches!(rest, [b'0'..=b'9', after @ ..] if ends_device_form(after))
}

#[inline(always)]
fn ends_in_nonzero_digit(rest: &[u8]) -> bool
    ensures { result
        ≡ list_any (λ digit. bytes_eq (lower (device_form rest.now)) (digit ∷ [])) (codes "123456789") }
{
    matches!(rest, [b'1'..=b'9', after @ ..] if ends_device_form(after))
}

/// Whether what follows a word adds nothing to the device form.
#[tactic(auto, using(crate::proofs::Components::Devices::device_left, crate::proofs::Components::Devices::device_all_left))]
#[inline(always)]
fn ends_device_form(rest: &[u8]) -> bool
    ensures { result ≡ is_empty (device_form rest.now) }
{
    for byte in rest {
        match byte {
            b' ' => {}
            b'.' | b':' => return true,
            _ => return false,
        }
    }
    true
}
