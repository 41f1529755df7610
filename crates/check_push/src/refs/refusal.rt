//! Which reference names are refused, and why.

ghost use Rattle.std.specs.Prelude.{◌≡◌};
ghost use Rattle.check_push.specs.Refs.Refs.{is_replacement, own_refusal_of, refusal_of};

use crate::refs::namespaces::innermost;
use bstr::BStr;
use gix_validate::reference::{self, NameError};
use std::fmt;

/// Why a reference name is refused (check_push(1)).
#[derive(Drop)]
pub enum Refusal {
    /// The name is invalid.
    Name(NameError),
    /// The name is under `refs/replace/`, perhaps in a namespace. Git shows the object of such a
    /// reference instead of another one.
    Replacement,
}

impl fmt::Display for Refusal {
    ghost use Rattle.std.specs.Prelude.{Some};
    ghost use Rattle.check_push.specs.Refs.Refs.{refusal_text_of};

    ghost output = { λ refusal. Some (refusal_text_of refusal) };

    fn fmt<W: fmt::Write>(&self, f: &mut fmt::Formatter<W>) -> fmt::Result {
        match self {
            Refusal::Name(fault) => fault.fmt(f),
            Refusal::Replacement => f.write_str("replacement references are not allowed"),
        }
    }
}

/// Why a reference name is refused; `None` if it isn't (check_push(1)).
///
/// ```
/// refusal_of(false, b"refs/heads/HEAD"); // Refusal::Name, with the error `Reserved`
/// refusal_of(false, b"refs/replace/a"); // Refusal::Replacement
/// refusal_of(false, b"refs/namespaces/z/refs/replace/a"); // Refusal::Replacement
/// refusal_of(true, b"refs/replace/a"); // None
/// ```
///
/// [`reference::branch_name`] has to accept a name under `refs/heads/`, and [`reference::name`] any
/// other name. A name under `refs/replace/` also has to be allowed. The same holds for each name
/// that the reference has inside a namespace. The time is linear in the length of the name. It does
/// not allocate.
#[tactic(auto, using(crate::proofs::refs::FirstRefusals::first_refusal))]
pub fn refusal_of(allows_replace: bool, name: &[u8]) -> Option<Refusal>
    ensures { result ≡ refusal_of allows_replace name.now }
{
    match own_refusal_of(allows_replace, name) {
        Some(refusal) => Some(refusal),
        // If the outer name is accepted, only the innermost one can be refused: each of the others
        // begins with `refs/namespaces/`, and its components are also in the outer name.
        None => own_refusal_of(allows_replace, innermost(name)),
    }
}

/// Why a name is refused, regardless of the names inside namespaces.
fn own_refusal_of(allows_replace: bool, name: &[u8]) -> Option<Refusal>
    ensures { result ≡ own_refusal_of allows_replace name.now }
{
    let checked = if name.starts_with(b"refs/heads/") {
        reference::branch_name(BStr::new(name))
    } else {
        reference::name(BStr::new(name))
    };
    match checked {
        Err(fault) => Some(Refusal::Name(fault)),
        Ok(_) if allows_replace || !is_replacement(name) => None,
        Ok(_) => Some(Refusal::Replacement),
    }
}

/// Whether Git shows the object of a reference with this name instead of another one.
pub(crate) fn is_replacement(name: &[u8]) -> bool
    ensures { result ≡ is_replacement name.now }
{
    name.starts_with(b"refs/replace/")
}
