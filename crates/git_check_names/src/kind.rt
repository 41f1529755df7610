//! The kinds of names.

ghost use Rattle.std.specs.Prelude.{◌≡◌};
ghost use Rattle.git_check_names.specs.Kinds.{is_repairable, kind_of};

use git_names::Kind;

/// The kind that a word names (git-check-names(1)); `None` if there is none.
///
/// ```
/// kind_of(b"ref"); // Kind::Reference
/// kind_of(b"Ref"); // None
/// ```
///
/// It does not allocate.
pub fn kind_of(word: &[u8]) -> Option<Kind>
    ensures kind { result ≡ kind_of word.now }
{
    if word == b"branch".as_slice() {
        Some(Kind::Branch)
    } else if word == b"branch-ref".as_slice() {
        Some(Kind::BranchRef)
    } else if word == b"tag".as_slice() {
        Some(Kind::Tag)
    } else if word == b"ref".as_slice() {
        Some(Kind::Reference)
    } else if word == b"safe-ref".as_slice() {
        Some(Kind::SafeRef)
    } else if word == b"path".as_slice() {
        Some(Kind::Path)
    } else if word == b"component".as_slice() {
        Some(Kind::Component)
    } else if word == b"submodule".as_slice() {
        Some(Kind::Submodule)
    } else {
        None
    }
}

/// Whether names of this kind can be repaired.
pub fn is_repairable(kind: Kind) -> bool
    ensures repairable { result ≡ is_repairable kind }
{
    matches!(kind, Kind::Branch | Kind::Reference)
}
