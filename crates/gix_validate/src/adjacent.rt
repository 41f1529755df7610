//! Whether a name has adjacent bytes that need a closer check, sixteen pairs at a time.
//!
//! Most names have nothing that an error could be made of: no bad byte, no `*` or `{`, no dot or
//! slash at the start, at the end, or after a dot or a slash, and no `l` after a dot, as each
//! `.lock` has. Such a name is clear: a tag name and, if it has two bytes or more, its own sanitised
//! form; both are proved. Apart from the ends, only neighbours are compared, so a block is tested at
//! once. (A test for a dot or slash after the `k` of `.lock` would also fail on `task/` and
//! `pack.1`.) The contract says exactly which names are clear: a test that rejects every name would
//! be right, but slow.

ghost use Rattle.std.specs.Prelude.{◌≡◌, ◌↔◌, ◌<◌, ◌≤◌, ◌+◌, ◌-◌, ◌^◌, ◌==◌, ◌||◌, ◌&&◌, ℕ, false};
ghost use Rattle.std.specs.Prelude.{if◌then◌else◌, IsTrue, map, length, slice_index, codes};
ghost use Rattle.std.specs.Int.{bit_at};
ghost use Rattle.std.specs.Str.{byte};
ghost use Rattle.gix_validate.specs.Bytes.{is_among, ends};
ghost use Rattle.gix_validate.specs.Private.Adjacent.{is_suspect, suspect_at, IsClear};
ghost use Rattle.gix_validate.specs.Private.Scan.{Finds, NoneBelow};

use crate::bytes::may_be_faulty;
use crate::lanes::{classify, nonzero_lanes};
use crate::scan::{self, Pattern};
use std::simd::prelude::*;

// The classes of bytes that may be suspect, a bit for each. Bad bytes, `*` and `{` are suspect
// anywhere. A class contains the suspect bytes of one high nibble, or of several high nibbles that
// have the same low nibbles.

/// A suspect byte from 0x00 to 0x1F.
const SUSPECT_0X: u8 = 0x01;
/// A suspect byte from 0x20 to 0x2F.
const SUSPECT_2X: u8 = 0x02;
/// A suspect byte from 0x30 to 0x3F.
const SUSPECT_3X: u8 = 0x04;
/// A suspect byte from 0x50 to 0x5F.
const SUSPECT_5X: u8 = 0x08;
/// A suspect byte from 0x70 to 0x7F.
const SUSPECT_7X: u8 = 0x10;
/// A dot or a slash, suspect after a dot or a slash.
const BREAK: u8 = 0x20;
/// `l`, suspect after a dot.
const LETTER: u8 = 0x40;
/// The classes that are suspect after any byte.
const ANYWHERE: u8 = SUSPECT_0X | SUSPECT_2X | SUSPECT_3X | SUSPECT_5X | SUSPECT_7X;
/// The classes that are suspect after a slash.
const AFTER_SLASH: u8 = ANYWHERE | BREAK;
/// The classes that are suspect after a dot.
const AFTER_DOT: u8 = AFTER_SLASH | LETTER;

/// The classes that a byte with this low nibble may have.
#[rattlefmt::skip]
const CLASSES_BY_LOW_NIBBLE: [u8; 16] = [
    SUSPECT_0X | SUSPECT_2X, SUSPECT_0X, // 00
    SUSPECT_0X, SUSPECT_0X, // 02
    SUSPECT_0X, SUSPECT_0X, // 04
    SUSPECT_0X, SUSPECT_0X, // 06
    SUSPECT_0X, SUSPECT_0X, // 08
    SUSPECT_0X | SUSPECT_2X | SUSPECT_3X, SUSPECT_0X | SUSPECT_5X | SUSPECT_7X, // 0A
    LETTER | SUSPECT_0X | SUSPECT_5X, SUSPECT_0X, // 0C
    BREAK | SUSPECT_0X | SUSPECT_5X | SUSPECT_7X, BREAK | SUSPECT_0X | SUSPECT_3X | SUSPECT_7X, // 0E
];

/// The classes that a byte with this high nibble may have. The bits that both tables have for a
/// byte are its class, if it has one.
#[rattlefmt::skip]
const CLASSES_BY_HIGH_NIBBLE: [u8; 16] = [
    SUSPECT_0X, SUSPECT_0X, BREAK | SUSPECT_2X, SUSPECT_3X, // 00
    0, SUSPECT_5X, LETTER, SUSPECT_7X, // 04
    0, 0, 0, 0, // 08
    0, 0, 0, 0, // 0C
];

/// The classes that are suspect after a dot, after a slash, and after any other byte.
#[rattlefmt::skip]
const SUSPECT_AFTER: [u8; 16] = [
    AFTER_DOT, AFTER_SLASH, ANYWHERE, ANYWHERE, ANYWHERE, ANYWHERE, ANYWHERE, ANYWHERE,
    ANYWHERE, ANYWHERE, ANYWHERE, ANYWHERE, ANYWHERE, ANYWHERE, ANYWHERE, ANYWHERE,
];

/// Whether a name is clear, and so a tag name. Any other name may be a tag name too.
#[inline(always)]
pub(crate) fn is_clear(text: &[u8]) -> bool
    ensures { IsTrue result ↔ IsClear text.now }
{
    if text.is_empty() || may_be_faulty(text[0]) || ends_in_break(text) {
        return false;
    }
    scan::first_pair::<Suspect>(text).is_none()
}

/// How many bytes at the front of a name need no closer check: all of them if and only if the name
/// is clear. A walk over the others finds each error, and each byte that a repair changes.
#[inline(always)]
pub(crate) fn clear_front(text: &[u8]) -> usize
    requires { 0 < length text.now }
    ensures within { result ≤ length text.now }
    ensures quiet { NoneBelow (suspect_at text.now) result }
    ensures all { (result ≡ length text.now) ↔ IsClear text.now }
{
    if may_be_faulty(text[0]) {
        return 0;
    }
    match scan::first_pair::<Suspect>(text) {
        Some(offset) => offset + 1,
        None if ends_in_break(text) => text.len() - 1,
        None => text.len(),
    }
}

/// Whether the name ends with a dot or a slash.
#[inline(always)]
fn ends_in_break(text: &[u8]) -> bool
    ensures { result ≡ (ends text.now (codes ".") || ends text.now (codes "/")) }
{
    matches!(text.last(), Some(b'.' | b'/'))
}

enum Suspect {}

impl Pattern for Suspect {
    ghost hit = { is_suspect };

    #[inline(always)]
    fn hits(front: u8x16, back: u8x16) -> u64 {
        let suspect = classify(CLASSES_BY_LOW_NIBBLE, CLASSES_BY_HIGH_NIBBLE, back)
            & suspect_after(front);
        // LLVM compiles this test to one instruction, and a test of the mask to more.
        if suspect.reduce_or() == 0 {
            return 0;
        }
        nonzero_lanes(suspect)
    }
}

/// The classes that are suspect after each byte.
#[inline(always)]
#[tactic(auto, using(crate::proofs::Blocks::Lanes::reaches_ok, crate::proofs::Blocks::Lanes::suspect_classes))]
fn suspect_after(bytes: u8x16) -> u8x16
    ensures { result ≡ map
        (λ b. if b == byte "." then AFTER_DOT else if b == byte "/" then AFTER_SLASH else ANYWHERE) bytes }
{
    // A dot becomes 0, and a slash 1.
    let from_dot = bytes ^ u8x16::splat(b'.');
    u8x16::from_array(SUSPECT_AFTER).swizzle_dyn(from_dot.simd_min(u8x16::splat(15)))
}
