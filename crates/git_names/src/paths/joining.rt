//! Joining path components.

ghost use Rattle.std.specs.Prelude.{◌≡◌, ◌<◌, All, IfOk, length, map};
ghost use Rattle.bstr.specs.Owned.{bstring_bytes};
ghost use Rattle.gix_validate.specs.ComponentLaws.{IsBasicName};
ghost use Rattle.gix_validate.specs.Pieces.{joined, pieces};
ghost use Rattle.typed_names.specs.Names.{component_bytes};

use bstr::BString;
use std::alloc::{AllocError, Global};
use typed_names::Component;

/// Joins components with slashes into a path, whose pieces are these components in order
/// (docs/RULES.md, "Joining").
///
/// This is `gix_validate::path::join` for parts of this type. There has to be at least one part: a
/// call for which that can't be proved doesn't compile.
///
/// ```
/// let options = ComponentOptions::default();
/// let source = Component::new(BStr::from("src"), None, options)?;
/// let file = Component::new(BStr::from("a.rs"), None, options)?;
/// join(alloc, &[source, file])?; // `src/a.rs`
/// ```
///
/// # Errors
///
/// Out of memory, and nothing else. A length above `isize::MAX` bytes counts as out of memory.
pub fn join(alloc: Global, parts: &[Component<'_>]) -> Result<BString, AllocError>
    requires some { 0 < length parts.now }
    ensures bytes { IfOk result (λ path. bstring_bytes path ≡ joined (map component_bytes parts.now)) }
    ensures pieces { IfOk result (λ path. pieces (bstring_bytes path) ≡ map component_bytes parts.now) }
    // No piece is empty, `.`, `..`, or `.git` in any ASCII letter case.
    ensures basic { IfOk result (λ path. All IsBasicName (pieces (bstring_bytes path))) }
{
    Ok(BString::new(bstr::join(alloc, b"/", parts)?))
}
