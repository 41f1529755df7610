//! Functions on blocks, which are sixteen bytes that are checked together. The index of a byte in
//! its block is its lane.

ghost use Rattle.std.specs.Prelude.{◌≡◌, ◌≢◌, ◌↔◌, IsTrue, true, ℕ, ◌<◌, ◌≤◌, ◌+◌, ◌-◌, ◌/◌, ◌%◌};
ghost use Rattle.std.specs.Prelude.{◌^◌, ◌==◌, ◌||◌, map, length, slice_index, bit_and};
ghost use Rattle.std.specs.Prelude.{if◌then◌else◌};
ghost use Rattle.std.specs.Int.{bit_at};
ghost use Rattle.std.specs.List.{list_any};
ghost use Rattle.std.specs.Simd.Lanes.{chunk};
ghost use Rattle.gix_validate.specs.Private.Scan.{HasParts, is_nonzero};

use std::simd::prelude::*;

pub(crate) const LANES: usize = 16;

/// Eight bytes from one offset on, and eight from another.
#[inline(always)]
pub(crate) fn halves(text: &[u8], first: usize, second: usize) -> u8x16
    requires first { first + 8 ≤ length text.now }
    requires second { second + 8 ≤ length text.now }
    ensures { HasParts 8 first second text.now result }
{
    let front = u8x8::from_slice(&text[first..]);
    let back = u8x8::from_slice(&text[second..]);
    front.shuffle(back, [0, 1, 2, 3, 4, 5, 6, 7, 8, 9, 10, 11, 12, 13, 14, 15])
}

/// The first four bytes and the last four, and the same again.
#[inline(always)]
pub(crate) fn first_and_last_four(text: &[u8]) -> u8x16
    requires { 4 ≤ length text.now }
    ensures { HasParts 4 0 (length text.now - 4) text.now result }
{
    let front = u8x4::from_slice(text);
    let back = u8x4::from_slice(&text[text.len() - 4..]);
    front.shuffle(back, [0, 1, 2, 3, 4, 5, 6, 7, 0, 1, 2, 3, 4, 5, 6, 7])
}

/// The first two bytes and the last two, again and again.
#[inline(always)]
pub(crate) fn first_and_last_two(text: &[u8]) -> u8x16
    requires { 2 ≤ length text.now }
    ensures { HasParts 2 0 (length text.now - 2) text.now result }
{
    let front = u8x2::from_slice(text);
    let back = u8x2::from_slice(&text[text.len() - 2..]);
    front.shuffle(back, [0, 1, 2, 3, 0, 1, 2, 3, 0, 1, 2, 3, 0, 1, 2, 3])
}

/// The classes of each byte: the bits that are set both in the entry for its low nibble and in the
/// entry for its high nibble.
#[inline(always)]
pub(crate) fn classify(by_low_nibble: [u8; 16], by_high_nibble: [u8; 16], bytes: u8x16) -> u8x16
    ensures { result ≡ map
        (λ b. bit_and (slice_index by_low_nibble (b % 16)) (slice_index by_high_nibble (b / 16))) bytes }
{
    let low = u8x16::from_array(by_low_nibble).swizzle_dyn(bytes & u8x16::splat(15));
    let high = u8x16::from_array(by_high_nibble).swizzle_dyn(bytes >> u8x16::splat(4));
    low & high
}

#[inline(always)]
pub(crate) fn has_nonzero(bytes: u8x16) -> bool
    ensures { result ≡ list_any is_nonzero bytes }
{
    nonzero_lanes(bytes) != 0
}

/// A bit for each lane whose byte is not zero. The lowest bit is for the first lane.
#[inline(always)]
pub(crate) fn nonzero_lanes(bytes: u8x16) -> u64
    ensures few { result < 2 ^ LANES }
    ensures lanes { (k : ℕ) → k < LANES
        → bit_at result k ≡ (if is_nonzero (slice_index bytes k) then 1 else 0) }
{
    bytes.simd_ne(u8x16::splat(0)).to_bitmask()
}

#[inline(always)]
pub(crate) fn first_lane(lanes: u64) -> usize
    requires { lanes ≢ 0 }
    ensures bound { result < 64 }
    ensures set { bit_at lanes result ≡ 1 }
    ensures below { (k : ℕ) → k < result → bit_at lanes k ≡ 0 }
{
    lanes.trailing_zeros() as usize
}
