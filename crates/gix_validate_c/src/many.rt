//! Many names in one call.

ghost use Rattle.std.specs.Prelude.{◌≡◌, ◌<◌, ◌≤◌, [], ◌∷◌, length, map, take, drop, MatchOption};
ghost use Rattle.std.specs.Prelude.{IfSome};
ghost use Rattle.bstr.specs.BStr.{bstr_bytes};
ghost use Rattle.gix_validate.specs.Pieces.{names_in};
ghost use Rattle.gix_validate_c.specs.Kinds.{kind_of, number_by};

use crate::names::number_by;
use bstr::BStr;
use memchr::memchr;

/// Checks many names as [`gix_validate_fault_of`](crate::names::gix_validate_fault_of) checks one.
///
/// The names are in one buffer, in which the byte `end`, such as LF or NUL, ends each name. What
/// follows the last such byte is a name too, unless it is empty. So an empty buffer has no name,
/// and two such bytes in a row have an empty name between them.
///
/// For each name one byte is written, in order, to the start of the array `faults`: 0, or the
/// number of the fault. As many are written as fit, and the rest of the array is unchanged. The
/// function returns the number of names, which may be more than fit. A name whose number doesn't
/// fit isn't checked, so an empty array only counts the names.
///
/// ```c
/// gix_validate_faults_of("v1\na..b\n", 8, 0, 2, '\n', faults, sizeof faults); // 2: 0, and 4, RepeatedDot
/// ```
#[unsafe(no_mangle)]
pub extern "C" fn gix_validate_faults_of(
    names: &[u8],
    flags: u32,
    kind: u32,
    end: u8,
    faults: &mut [u8],
) -> usize
    ensures count { result ≡ length (names_in end names.now) }
    ensures numbers { take result faults.new
        ≡ take (length faults.old) (map (number_by (kind_of kind) flags) (names_in end names.now)) }
    ensures rest { drop result faults.new ≡ drop result faults.old }
    ensures bounds { result ≤ length names.now }
{
    let mut count = 0;
    let mut rest = names;
    while let Some((name, after)) = first_name(rest, end) {
        if count < faults.len() {
            faults[count] = byte_by(kind, BStr::new(name), flags);
        }
        count += 1;
        rest = after;
    }
    count
}

/// The number of the name's fault as a byte.
#[inline(always)]
fn byte_by(kind: u32, name: BStr<'_>, flags: u32) -> u8
    ensures number { result ≡ number_by (kind_of kind) flags (bstr_bytes name.entry) }
{
    number_by(kind, name, flags) as u8
}

/// The first name in the buffer, without the byte that ends it, and what follows that byte.
#[tactic(auto, using(crate::proofs::NumbersWritten::first_of_names))]
fn first_name(names: &[u8], end: u8) -> Option<(&[u8], &[u8])>
    ensures names { MatchOption result (names_in end names.now ≡ [])
        (λ parts. names_in end names.now ≡ parts.0.now ∷ names_in end parts.1.now) }
    ensures shorter { IfSome result (λ parts. length parts.1.now < length names.now) }
{
    if names.is_empty() {
        return None;
    }
    match memchr(end, names) {
        Some(at) => Some((&names[..at], &names[at + 1..])),
        None => Some((names, &[])),
    }
}
