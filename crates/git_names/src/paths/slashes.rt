//! Finds the slashes of a path, sixteen bytes at a time.

ghost use Rattle.std.specs.Prelude.{◌≡◌, ◌≢◌, ◌<◌, ◌≤◌, ◌+◌, ◌*◌, ◌^◌, ℕ, true, false, length};
ghost use Rattle.std.specs.Prelude.{if◌then◌else◌, slice_index, MatchOption};
ghost use Rattle.std.specs.Int.{bit_at};
ghost use Rattle.gix_validate.specs.Pieces.{is_slash};
ghost use Rattle.git_names.specs.Private.Slashes.{IsFirstSlash, MarksSlashes, NoSlash};

use std::simd::prelude::*;

pub(super) const LANES: usize = 16;

/// The longest path whose slashes fit in one number, in bytes.
pub(super) const MAX_SHORT: usize = 4 * LANES;

/// A bit for each slash of a path of one to four blocks. The lowest bit is for the first byte. The
/// last block overlaps the one before it, or if there are more than two, the last two overlap the
/// first two.
#[inline(always)]
pub(super) fn slashes_of(text: &[u8]) -> u64
    requires some { LANES ≤ length text.now }
    requires short { length text.now ≤ MAX_SHORT }
    ensures { MarksSlashes text.now result }
{
    let last = text.len() - LANES;
    let ends = slashes_of_block(text, 0) | slashes_of_block(text, last) << last;
    if last <= LANES {
        return ends;
    }
    let inner = last - LANES;
    ends | slashes_of_block(text, LANES) << LANES | slashes_of_block(text, inner) << inner
}

/// The offset of the first slash from this one on. The last block overlaps the one before it,
/// because most parts are shorter than a block.
#[inline(always)]
pub(crate) fn first_slash(text: &[u8], start: usize) -> Option<usize>
    requires { start ≤ length text.now }
    ensures { MatchOption result
        (NoSlash text.now start (length text.now))
        (λ at. IsFirstSlash text.now start at) }
{
    if text.len() < LANES {
        return first_slash_by_bytes(text, start);
    }
    let last = text.len() - LANES;
    let mut at = start;
    while at < last {
        let slashes = slashes_of_block(text, at);
        if slashes != 0 {
            return Some(at + first_lane(slashes));
        }
        at += LANES;
    }
    let slashes = slashes_of_block(text, last) >> (at - last);
    if slashes != 0 {
        return Some(at + first_lane(slashes));
    }
    None
}

/// The same for bytes that are fewer than a block.
fn first_slash_by_bytes(text: &[u8], start: usize) -> Option<usize>
    requires { start ≤ length text.now }
    ensures { MatchOption result
        (NoSlash text.now start (length text.now))
        (λ at. IsFirstSlash text.now start at) }
{
    for at in start..text.len() {
        if text[at] == b'/' {
            return Some(at);
        }
    }
    None
}

/// A bit for each slash in the sixteen bytes from this offset on. The lowest bit is for the first.
#[inline(always)]
fn slashes_of_block(text: &[u8], at: usize) -> u64
    requires { at + LANES ≤ length text.now }
    ensures few { result < 2 ^ LANES }
    ensures lanes { (k : ℕ) → k < LANES
        → bit_at result k ≡ (if is_slash (slice_index text.now (at + k)) then 1 else 0) }
{
    let block = u8x16::from_slice(&text[at..]);
    block.simd_eq(u8x16::splat(b'/')).to_bitmask()
}

#[inline(always)]
pub(super) fn first_lane(lanes: u64) -> usize
    requires { lanes ≢ 0 }
    ensures bound { result < 64 }
    ensures set { bit_at lanes result ≡ 1 }
    ensures below { (k : ℕ) → k < result → bit_at lanes k ≡ 0 }
{
    lanes.trailing_zeros() as usize
}
