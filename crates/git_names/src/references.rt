//! Full reference names that a store may use as paths.

ghost use Rattle.std.specs.Prelude.{◌≡◌, ◌↔◌, ◌≤◌, ◌||◌, Some, IsOk, IfOk, IsTrue, length, codes};
ghost use Rattle.std.specs.List.{list_all};
ghost use Rattle.bstr.specs.BStr.{bstr_bytes};
ghost use Rattle.gix_validate.specs.Bytes.{begins};
ghost use Rattle.gix_validate.specs.Faults.{Validates};
ghost use Rattle.gix_validate.specs.Printed.{printed};
ghost use Rattle.gix_validate.specs.Reference.{is_full_name, is_standalone_byte};
ghost use Rattle.git_names.specs.SafeRefs.{fault_of, is_safe_ref, is_set_apart, text_of};

use crate::paths::{PathError, path};
use bstr::BStr;
use gix_validate::path::ComponentOptions;
use gix_validate::reference;
use gix_validate::text::Text;
use std::error::Error;
use std::fmt;

/// Why a name is not a safe reference name (docs/RULES.md, "Safe reference names").
#[derive(Debug, Drop)]
pub enum SafeRefError {
    /// It isn't a valid full name.
    Name(reference::NameError),
    /// It is not below `refs/`, and has a byte other than `A` to `Z` and `_`.
    OutsideRefs,
    /// One of its pieces is not a component under the options.
    Piece(PathError),
}

impl SafeRefError {
    /// What it prints (docs/RULES.md, "Printed texts"). It doesn't allocate.
    pub fn text(&self) -> Text<'_>
        ensures text { printed result ≡ text_of self.now }
    {
        match self {
            Self::Name(error) => error.text(),
            Self::OutsideRefs => Text {
                words: "Reference name must be below 'refs/', or all uppercased, like 'HEAD'",
                quoted: None,
            },
            Self::Piece(error) => error.text(),
        }
    }
}

impl fmt::Display for SafeRefError {
    ghost output = { λ e. Some (text_of e) };

    fn fmt<W: fmt::Write>(&self, f: &mut fmt::Formatter<W>) -> fmt::Result {
        self.text().fmt(f)
    }
}

impl Error for SafeRefError {}

/// Returns `name` if a store of references may use it as a path: it is a full name that is below
/// `refs/`, or has only the letters `A` to `Z` and `_`, and each of its pieces is a component under
/// the options (docs/RULES.md, "Safe reference names").
///
/// So a name such as `objects/info/alternates` or `config` never becomes another file of the
/// repository. Under no options these are the names that Git calls safe. With Windows and NTFS
/// protection no piece is a device, such as `aux`. The function doesn't allocate. On `Ok` it returns
/// the value that it was passed.
///
/// ```
/// safe_ref(BStr::from("refs/heads/main"), ComponentOptions::default())?; // `refs/heads/main`
/// safe_ref(BStr::from("hooks/post-update"), ComponentOptions::default()); // OutsideRefs
/// safe_ref(BStr::from("refs/heads/aux"), ComponentOptions::default()); // Piece, at offset 11
/// ```
///
/// # Errors
///
/// The error of `gix_validate::reference::name` if there is one, otherwise `OutsideRefs`, and
/// otherwise the error of the first piece that is not a component.
#[tactic(auto, using(crate::proofs::SafeRefLemmas::safe_ref_laws), unfolding(crate::specs::SafeRefs::fault_of))]
pub fn safe_ref<'a>(name: BStr<'a>, options: ComponentOptions) -> Result<BStr<'a>, SafeRefError>
    ensures answer { Validates (fault_of options) (bstr_bytes name.entry) result }
    ensures grammar { IsOk result ↔ IsTrue (is_safe_ref options (bstr_bytes name.entry)) }
    ensures same { IfOk result (λ kept. kept ≡ name.entry) }
    ensures full { IfOk result (λ kept. IsTrue (is_full_name (bstr_bytes kept))) }
{
    if let Err(fault) = reference::name(name) {
        return Err(SafeRefError::Name(fault));
    }
    if !is_set_apart(name.as_bytes()) {
        return Err(SafeRefError::OutsideRefs);
    }
    match path(name, None, options) {
        Ok(_) => Ok(name),
        Err(fault) => Err(SafeRefError::Piece(fault)),
    }
}

/// Whether the name is below `refs/`, or has only bytes that a name without a slash may have.
#[tactic(auto, unfolding(crate::specs::SafeRefs::is_set_apart))]
fn is_set_apart(name: &[u8]) -> bool
    ensures { result ≡ is_set_apart name.now }
{
    name.starts_with(b"refs/") || stands_alone(name)
}

/// Whether each byte may be in a name without a slash.
fn stands_alone(name: &[u8]) -> bool
    ensures { result ≡ list_all is_standalone_byte name.now }
{
    name.iter().all(|byte| matches!(*byte, b'A'..=b'Z' | b'_'))
}
