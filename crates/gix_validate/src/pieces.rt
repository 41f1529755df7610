//! The slash, and the join of pieces with slashes.

ghost use Rattle.std.specs.Prelude.{◌≡◌, ◌==◌, ◌+◌, ◌<◌, ◌^◌, ◌++◌, map, length, IsOk, IfOk};
ghost use Rattle.std.specs.Prelude.{SomeIff, vec_len, vec_capacity};
ghost use Rattle.std.specs.Str.{byte};
ghost use Rattle.bstr.specs.BStr.{bstr_bytes};
ghost use Rattle.bstr.specs.Owned.{bstring_bytes};
ghost use Rattle.gix_validate.specs.Pieces.{joined};

use crate::scan::Pattern;
use bstr::{BStr, BString};
use std::alloc::{AllocError, Global};
use std::simd::prelude::*;

pub(crate) enum Slash {}

impl Pattern for Slash {
    ghost hit = { λ a b. a == byte "/" };

    #[inline(always)]
    fn hits(front: u8x16, _back: u8x16) -> u64 {
        front.simd_eq(u8x16::splat(b'/')).to_bitmask()
    }
}

pub(crate) fn joined(alloc: Global, parts: &[BStr<'_>]) -> Result<BString, AllocError>
    requires { 0 < length parts.now }
    ensures { IfOk result (λ path. bstring_bytes path ≡ joined (map bstr_bytes parts.now)) }
{
    let len = joined_len(parts).ok_or(AllocError)?;
    let path = write_joined(Vec::with_capacity(alloc, len)?, parts)?;
    Ok(BString::new(path))
}

/// The length of the parts and the slashes between them, if that fits in a `usize`.
#[tactic(auto, using(crate::proofs::Components::JoinedParts::length_joined, std::proofs::lemmas::List::Sums::sum_by_more_le, std::proofs::lemmas::List::take_all))]
fn joined_len(parts: &[BStr<'_>]) -> Option<usize>
    requires { 0 < length parts.now }
    ensures { SomeIff result
        (length (joined (map bstr_bytes parts.now)) < 2 ^ 64)
        (length (joined (map bstr_bytes parts.now))) }
{
    let mut len = parts.len() - 1;
    for part in parts {
        len = len.checked_add(part.as_bytes().len())?;
    }
    Some(len)
}

/// Writes the parts and the slashes. The buffer has room for exactly these, so this succeeds.
fn write_joined(mut buffer: Vec<u8>, parts: &[BStr<'_>]) -> Result<Vec<u8>, AllocError>
    requires room { vec_capacity buffer ≡ vec_len buffer + length (joined (map bstr_bytes parts.now)) }
    ensures bytes { IfOk result (λ path. path.items ≡ buffer.items ++ joined (map bstr_bytes parts.now)) }
    ensures succeeds { IsOk result }
{
    for (i, part) in parts.iter().enumerate() {
        if i > 0 {
            buffer.push(b'/')?;
        }
        buffer.extend_from_slice(part.as_bytes())?;
    }
    Ok(buffer)
}
