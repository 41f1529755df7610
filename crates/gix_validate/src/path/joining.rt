//! Joining path components.

ghost use Rattle.std.specs.Prelude.{◌≡◌, ◌<◌, None, map, length, All, IfOk};
ghost use Rattle.bstr.specs.BStr.{bstr_bytes};
ghost use Rattle.bstr.specs.Owned.{bstring_bytes};
ghost use Rattle.gix_validate.specs.Component.{fault_of};
ghost use Rattle.gix_validate.specs.ComponentLaws.{no_protections, IsBasicName};
ghost use Rattle.gix_validate.specs.Pieces.{pieces, joined};

use crate::pieces::joined;
use bstr::{BStr, BString};
use std::alloc::{AllocError, Global};

/// Joins components with slashes into a path, whose pieces are these components in order
/// (docs/RULES.md, "Joining").
///
/// There has to be at least one part, and each has to be a valid component with no switch and
/// without a mode, as all are that [`component`](super::component) returns, whatever its options. A
/// call for which that can't be proved doesn't compile.
///
/// ```
/// join(alloc, &[BStr::from("src"), BStr::from("a.rs")])?; // `src/a.rs`
/// ```
///
/// # Errors
///
/// Out of memory, and nothing else.
///
/// # Memory
///
/// It allocates once, before it writes a byte. A length above `isize::MAX` bytes counts as out of
/// memory.
#[tactic(auto, using(crate::proofs::Components::JoinedParts::joined_path_laws))]
pub fn join(alloc: Global, parts: &[BStr<'_>]) -> Result<BString, AllocError>
    requires some { 0 < length parts.now }
    requires components { All
        (λ part. fault_of no_protections None (bstr_bytes part) ≡ None) parts.now }
    ensures bytes { IfOk result (λ path. bstring_bytes path ≡ joined (map bstr_bytes parts.now)) }
    ensures pieces { IfOk result (λ path. pieces (bstring_bytes path) ≡ map bstr_bytes parts.now) }
    // No piece is empty, `.`, `..`, or `.git` in any ASCII letter case.
    ensures basic { IfOk result (λ path. All IsBasicName (pieces (bstring_bytes path))) }
{
    joined(alloc, parts)
}
