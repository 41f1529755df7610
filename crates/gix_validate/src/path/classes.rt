//! One look at a short name finds which classes of bytes it has. In a long name `scan` searches for
//! one thing at a time.

ghost use Rattle.std.specs.Prelude.{◌≡◌, ◌==◌, false, IsTrue, ◌≤◌, ◌<◌, ◌+◌, ◌&&◌, ◌||◌, not};
ghost use Rattle.std.specs.Prelude.{length, map};
ghost use Rattle.std.specs.Str.{byte};
ghost use Rattle.std.specs.List.{list_any};
ghost use Rattle.std.specs.Simd.Lanes.{chunk};
ghost use Rattle.gix_validate.specs.Private.Classes.{has_class, any_class, class_of, HaveClassesOf};
ghost use Rattle.gix_validate.specs.declared.path.classes.TheConstants.{ILLEGAL};
ghost use Rattle.gix_validate.specs.Bytes.{is_among};
ghost use Rattle.gix_validate.specs.Windows.{is_illegal_byte};

use crate::lanes::{
    LANES, classify, first_and_last_four, first_and_last_two, halves, has_nonzero, nonzero_lanes,
};
use crate::pieces::Slash;
use crate::scan::{self, FOUR_BLOCKS, Pattern};
use std::simd::prelude::*;

/// The length of four blocks. A name of at most this length is checked in one go.
pub(super) const MAX_SHORT: usize = FOUR_BLOCKS;

const TWO_BLOCKS: usize = 2 * LANES;

// The classes of bytes, a bit for each. The bytes of a class have one high nibble, except the
// control bytes, which have two.

/// A byte below 0x20.
const CONTROL: u8 = 0x01;
/// `"` or `*`.
const QUOTE_OR_STAR: u8 = 0x02;
/// `:`, `<`, `>` or `?`.
const COLON_ANGLE_OR_MARK: u8 = 0x04;
/// A backslash.
const BACKSLASH: u8 = 0x08;
/// `|`.
const PIPE: u8 = 0x10;
/// 0xE2 or 0xEF.
const IGNORABLE_LEAD: u8 = 0x20;
/// A slash.
pub(super) const SLASH: u8 = 0x40;
/// `~`.
const TILDE: u8 = 0x80;

/// The four classes that Windows forbids.
const ILLEGAL: u8 = CONTROL | QUOTE_OR_STAR | COLON_ANGLE_OR_MARK | PIPE;
/// The two classes that separate components.
pub(super) const SEPARATORS: u8 = SLASH | BACKSLASH;
/// All classes.
pub(super) const ALL_CLASSES: u8 = 0xFF;

/// The classes that a byte with this low nibble may have.
#[rattlefmt::skip]
const BY_LOW_NIBBLE: [u8; 16] = [
    CONTROL, CONTROL, // 0, 1
    CONTROL | QUOTE_OR_STAR | IGNORABLE_LEAD, // 2: `"`, 0xE2
    CONTROL, CONTROL, CONTROL, CONTROL, CONTROL, CONTROL, CONTROL, // 3 to 9
    CONTROL | QUOTE_OR_STAR | COLON_ANGLE_OR_MARK, // A: `*`, `:`
    CONTROL, // B
    CONTROL | COLON_ANGLE_OR_MARK | BACKSLASH | PIPE, // C: `<`, `\`, `|`
    CONTROL, // D
    CONTROL | COLON_ANGLE_OR_MARK | TILDE, // E: `>`, `~`
    CONTROL | COLON_ANGLE_OR_MARK | IGNORABLE_LEAD | SLASH, // F: `?`, 0xEF, `/`
];

/// The classes that a byte with this high nibble may have. The bits that both tables have for a
/// byte are its class, if it has one.
#[rattlefmt::skip]
const BY_HIGH_NIBBLE: [u8; 16] = [
    CONTROL, CONTROL, QUOTE_OR_STAR | SLASH, COLON_ANGLE_OR_MARK, // 0 to 3
    0, BACKSLASH, 0, PIPE | TILDE, // 4 to 7
    0, 0, 0, 0, // 8 to B
    0, 0, IGNORABLE_LEAD, 0, // C to F
];

enum Illegal {}

impl Pattern for Illegal {
    ghost hit = { λ a b. has_class ILLEGAL a };

    #[inline(always)]
    fn hits(front: u8x16, _back: u8x16) -> u64 {
        nonzero_lanes(classes_in(front) & u8x16::splat(ILLEGAL))
    }
}

#[tactic(auto, using(crate::proofs::Blocks::ByteClasses::any_is, crate::proofs::Blocks::ByteClasses::illegal_is))]
pub(super) fn has_illegal_byte(name: &[u8]) -> bool
    requires { 1 ≤ length name.now }
    ensures { result ≡ list_any is_illegal_byte name.now }
{
    if name.len() > MAX_SHORT {
        scan::has::<Illegal>(name)
    } else {
        has_class(classes_of(name), ILLEGAL)
    }
}

enum Separator {}

impl Pattern for Separator {
    ghost hit = { λ a b. a == byte "/" || a == byte "\\" };

    #[inline(always)]
    fn hits(front: u8x16, _back: u8x16) -> u64 {
        let slashes = front.simd_eq(u8x16::splat(b'/'));
        (slashes | front.simd_eq(u8x16::splat(b'\\'))).to_bitmask()
    }
}

/// Whether a name that is empty or isn't short has a slash, or, with Windows protection, a backslash.
#[inline(always)]
#[tactic(auto, using(crate::proofs::Blocks::Parts::none_of_empty))]
pub(super) fn has_separator(name: &[u8], windows: bool) -> bool
    requires { 1 ≤ length name.now → MAX_SHORT < length name.now }
    ensures { result ≡ (is_among name.now (byte "/") || (windows && is_among name.now (byte "\\"))) }
{
    if name.is_empty() {
        false
    } else if windows {
        scan::has::<Separator>(name)
    } else {
        scan::has::<Slash>(name)
    }
}

/// The classes of the bytes of a short name, in any of sixteen lanes. From eight bytes to two
/// blocks, all names are checked in the same way: a branch on the length would be mispredicted.
#[inline(always)]
pub(super) fn classes_of(name: &[u8]) -> u8x16
    requires some { 1 ≤ length name.now }
    requires short { length name.now ≤ MAX_SHORT }
    ensures { HaveClassesOf result name.now }
{
    if name.len() >= 8 && name.len() <= TWO_BLOCKS {
        let last = name.len() - 8;
        let front = halves(name, 0, last.min(8));
        let back = halves(name, name.len().saturating_sub(LANES), last);
        return classes_in(front) | classes_in(back);
    }
    if name.len() > TWO_BLOCKS {
        let last = name.len() - TWO_BLOCKS;
        return classes_at(name, 0)
            | classes_at(name, LANES)
            | classes_at(name, last)
            | classes_at(name, last + LANES);
    }
    if name.len() >= 4 {
        return classes_in(first_and_last_four(name));
    }
    if name.len() >= 2 {
        return classes_in(first_and_last_two(name));
    }
    classes_in(u8x16::splat(name[0]))
}

#[inline(always)]
fn classes_at(name: &[u8], at: usize) -> u8x16
    requires { at + LANES ≤ length name.now }
    ensures { result ≡ map class_of (chunk at LANES name.now) }
{
    classes_in(u8x16::from_slice(&name[at..]))
}

#[inline(always)]
#[tactic(auto, using(crate::proofs::Blocks::ByteClasses::classes_by_tables))]
fn classes_in(block: u8x16) -> u8x16
    ensures { result ≡ map class_of block }
{
    classify(BY_LOW_NIBBLE, BY_HIGH_NIBBLE, block)
}

#[inline(always)]
#[tactic(auto, using(crate::proofs::Blocks::ByteClasses::mask_tested))]
pub(super) fn has_class(classes: u8x16, mask: u8) -> bool
    ensures { result ≡ any_class mask classes }
{
    has_nonzero(classes & u8x16::splat(mask))
}
