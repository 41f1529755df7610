//! Finds the first offset in a name whose byte, or whose two adjacent bytes, a pattern marks.
//! Sixteen offsets are checked at a time. The last block overlaps the one before it, and the offsets
//! of a short name are one block.

ghost use Rattle.std.specs.Prelude.{◌≡◌, ◌<◌, ◌≤◌, ◌+◌, ◌-◌, ◌^◌, ℕ, Bool, if◌then◌else◌, length};
ghost use Rattle.std.specs.Prelude.{slice_index};
ghost use Rattle.std.specs.Int.{bit_at};
ghost use Rattle.std.specs.List.{list_any};
ghost use Rattle.std.specs.Simd.Lanes.{chunk};
ghost use Rattle.gix_validate.specs.Private.Scan.{Finds, HasParts, NoneBelow, at_both};

use crate::lanes::{LANES, first_and_last_four, first_and_last_two, first_lane, halves};
use std::simd::prelude::*;

pub(crate) const FOUR_BLOCKS: usize = 4 * LANES;

pub(crate) trait Pattern {
    /// Whether a byte and the one next to it are a hit.
    ghost hit: { ℕ → ℕ → Bool };

    /// A bit for each lane whose two bytes are a hit. The lowest bit is for the first lane.
    fn hits(front: u8x16, back: u8x16) -> u64
        ensures few { result < 2 ^ LANES }
        ensures lanes { (k : ℕ) → k < LANES
            → bit_at result k ≡ (if hit (slice_index front k) (slice_index back k) then 1 else 0) };
}

/// The first offset whose byte and the next are a hit.
#[inline(always)]
#[tactic(auto, using(crate::proofs::Blocks::Parts::pairs_found))]
pub(crate) fn first_pair<P: Pattern>(text: &[u8]) -> Option<usize>
    requires { 1 ≤ length text.now }
    ensures { let pairs = length text.now - 1 in
        Finds (λ k. P.hit (slice_index text.now k) (slice_index text.now (k + 1))) pairs pairs result }
{
    first::<P>(&text[..text.len() - 1], &text[1..])
}

/// The first offset at which the bytes of two byte strings of one length are a hit.
#[inline(always)]
pub(crate) fn first<P: Pattern>(front: &[u8], back: &[u8]) -> Option<usize>
    requires { length back.now ≡ length front.now }
    ensures { Finds (at_both P.hit front.now back.now) (length front.now) (length front.now) result }
{
    let len = front.len();
    if len < 8 {
        return first_of_few::<P>(front, back);
    }
    if len < LANES {
        let at = len - 8;
        return first_of_parts::<P>(front, back, 8, halves(front, 0, at), halves(back, 0, at));
    }
    first_by_blocks::<P>(front, back)
}

/// The first hit in byte strings of less than eight bytes.
#[inline(always)]
fn first_of_few<P: Pattern>(front: &[u8], back: &[u8]) -> Option<usize>
    requires same { length back.now ≡ length front.now }
    requires few { length front.now < 8 }
    ensures { Finds (at_both P.hit front.now back.now) (length front.now) (length front.now) result }
{
    let len = front.len();
    if len >= 4 {
        return first_of_parts::<P>(
            front,
            back,
            4,
            first_and_last_four(front),
            first_and_last_four(back),
        );
    }
    if len >= 2 {
        return first_of_parts::<P>(
            front,
            back,
            2,
            first_and_last_two(front),
            first_and_last_two(back),
        );
    }
    if len == 0 {
        return None;
    }
    let first = u8x16::splat(front[0]);
    first_of_parts::<P>(front, back, 1, first, u8x16::splat(back[0]))
}

/// The first hit in byte strings of at least one block. The last block overlaps the one before it.
/// Most names have at most two blocks, which need no loop.
#[inline(always)]
fn first_by_blocks<P: Pattern>(front: &[u8], back: &[u8]) -> Option<usize>
    requires same { length back.now ≡ length front.now }
    requires long { LANES ≤ length front.now }
    ensures { Finds (at_both P.hit front.now back.now) (length front.now) (length front.now) result }
{
    let last = front.len() - LANES;
    let mut at = 0;
    if last <= LANES {
        return match first_of_block::<P>(front, back, at) {
            Some(offset) => Some(offset),
            None => first_of_block::<P>(front, back, last),
        };
    }
    while at < last {
        if let Some(offset) = first_of_block::<P>(front, back, at) {
            return Some(offset);
        }
        at += LANES;
    }
    first_of_block::<P>(front, back, last)
}

/// The first hit, if it is one of the sixteen offsets from this one on.
#[inline(always)]
fn first_of_block<P: Pattern>(front: &[u8], back: &[u8], at: usize) -> Option<usize>
    requires same { length back.now ≡ length front.now }
    requires room { at + LANES ≤ length front.now }
    requires none { NoneBelow (at_both P.hit front.now back.now) at }
    ensures { Finds (at_both P.hit front.now back.now) (length front.now) (at + LANES) result }
{
    let block = u8x16::from_slice(&front[at..]);
    let hits = P::hits(block, u8x16::from_slice(&back[at..]));
    if hits == 0 {
        return None;
    }
    Some(at + first_lane(hits))
}

/// The first hit in short byte strings, whose first and last bytes are in the lanes.
#[inline(always)]
fn first_of_parts<P: Pattern>(
    front: &[u8],
    back: &[u8],
    size: usize,
    lanes: u8x16,
    others: u8x16,
) -> Option<usize>
    requires some { 0 < size }
    requires few { size + size ≤ LANES }
    requires enough { size ≤ length front.now }
    requires all { length front.now ≤ size + size }
    requires front { HasParts size 0 (length front.now - size) front.now lanes }
    requires back { HasParts size 0 (length front.now - size) back.now others }
    ensures { Finds (at_both P.hit front.now back.now) (length front.now) (length front.now) result }
{
    let hits = P::hits(lanes, others);
    if hits == 0 {
        return None;
    }
    let lane = first_lane(hits) % (size + size);
    Some(if lane < size {
        lane
    } else {
        front.len() - size + (lane - size)
    })
}

/// Whether a byte is a hit in a byte string of more than four blocks. Four blocks are checked at a
/// time, and the last four overlap those before them.
#[inline(always)]
pub(crate) fn has<P: Pattern>(text: &[u8]) -> bool
    requires { FOUR_BLOCKS < length text.now }
    ensures { result ≡ list_any (λ b. P.hit b b) text.now }
{
    let last = text.len() - FOUR_BLOCKS;
    let mut at = 0;
    while at < last {
        if four_have::<P>(text, at) {
            return true;
        }
        at += FOUR_BLOCKS;
    }
    four_have::<P>(text, last)
}

/// Whether a byte of the four blocks from this offset on is a hit.
#[inline(always)]
fn four_have<P: Pattern>(text: &[u8], at: usize) -> bool
    requires { at + FOUR_BLOCKS ≤ length text.now }
    ensures { result ≡ list_any (λ b. P.hit b b) (chunk at FOUR_BLOCKS text.now) }
{
    block_has::<P>(text, at)
        | block_has::<P>(text, at + LANES)
        | block_has::<P>(text, at + 2 * LANES)
        | block_has::<P>(text, at + 3 * LANES)
}

#[inline(always)]
fn block_has<P: Pattern>(text: &[u8], at: usize) -> bool
    requires { at + LANES ≤ length text.now }
    ensures { result ≡ list_any (λ b. P.hit b b) (chunk at LANES text.now) }
{
    let block = u8x16::from_slice(&text[at..]);
    P::hits(block, block) != 0
}
