//! Branches as people write them: `main` for `refs/heads/main`.

ghost use Rattle.std.specs.Prelude.{◌≡◌, ◌↔◌, ℕ, List, Bool, Option, Some, IsOk, IfOk, IsTrue};
ghost use Rattle.bstr.specs.BStr.{bstr_bytes};
ghost use Rattle.bstr.specs.Owned.{bstring_bytes};
ghost use Rattle.gix_validate.specs.Faults.{Validates};
ghost use Rattle.gix_validate.specs.Printed.{printed};
ghost use Rattle.gix_validate.specs.Reference.{is_branch_name};
ghost use Rattle.typed_names.specs.Names.{name_bytes};
ghost use Rattle.git_names.specs.ShortNames.{fault_of, full_name as full_name_of, is_short_name};
ghost use Rattle.git_names.specs.ShortNames.{text_of};

use arrayvec::ArrayVec;
use bstr::{BStr, BString};
use gix_validate::text::Text;
use gix_validate::{reference, tag};
use std::alloc::{AllocError, Global};
use std::error::Error;
use std::fmt;
use typed_names::{Name, Rule};

/// Why a name is not the short name of a branch or tag (docs/RULES.md, "Short names").
#[derive(Debug, Drop)]
pub enum ShortNameError {
    /// It isn't a valid tag name, or it is `HEAD`, which is `Reserved`.
    Name(reference::NameError),
    /// It starts with a dash, as an option does.
    StartsWithDash,
}

impl ShortNameError {
    /// What it prints (docs/RULES.md, "Printed texts"). It doesn't allocate.
    pub fn text(&self) -> Text<'_>
        ensures text { printed result ≡ text_of self.now }
    {
        match self {
            Self::Name(error) => error.text(),
            Self::StartsWithDash => Text {
                words: "Branch or tag name cannot start with a dash, as it may be mistaken for an option",
                quoted: None,
            },
        }
    }
}

impl fmt::Display for ShortNameError {
    ghost output = { λ e. Some (text_of e) };

    fn fmt<W: fmt::Write>(&self, f: &mut fmt::Formatter<W>) -> fmt::Result {
        self.text().fmt(f)
    }
}

impl Error for ShortNameError {}

/// Returns `name` if it is the short name of a branch, such as `main`: it doesn't start with a
/// dash, and `refs/heads/` followed by it is the full name of a branch (docs/RULES.md, "Short
/// names").
///
/// Git's commands accept the same names for a new branch, except that they also expand forms such
/// as `@{-1}`. The function doesn't allocate. On `Ok` it returns the value that it was passed.
///
/// ```
/// branch(BStr::from("main"))?; // `main`
/// branch(BStr::from("HEAD")); // Reserved, with the name `HEAD`
/// branch(BStr::from("-d")); // StartsWithDash
/// ```
///
/// # Errors
///
/// The error of [`tag::name`] if there is one, and otherwise `Reserved` for `HEAD`, or
/// `StartsWithDash`.
#[inline(always)]
#[tactic(auto, using(crate::proofs::ShortNameLemmas::short_names), unfolding(crate::specs::ShortNames::fault_of))]
pub fn branch<'a>(name: BStr<'a>) -> Result<BStr<'a>, ShortNameError>
    ensures answer { Validates fault_of (bstr_bytes name.entry) result }
    ensures grammar { IsOk result ↔ IsTrue (is_short_name (bstr_bytes name.entry)) }
    ensures same { IfOk result (λ kept. kept ≡ name.entry) }
{
    if let Err(fault) = tag::name(name) {
        return Err(ShortNameError::Name(fault.into()));
    }
    let bytes = name.as_bytes();
    if bytes == b"HEAD".as_slice() {
        let name = ArrayVec::try_from(b"HEAD".as_slice()).unwrap();
        return Err(ShortNameError::Name(reference::NameError::Reserved { name }));
    }
    if bytes.starts_with(b"-") {
        return Err(ShortNameError::StartsWithDash);
    }
    Ok(name)
}

/// The rule of short names, [`branch`]. It is the `R` of a `typed_names::Name<'a, R>`.
///
/// ```
/// Short::check(BStr::from("-d")); // StartsWithDash
/// ```
pub enum Short {}

impl Rule for Short {
    type Fault = ShortNameError;

    const TYPE_NAME: &'static str = "ShortName";

    ghost is_name = { is_short_name };

    ghost fault_of = { fault_of };

    fn check<'a>(name: BStr<'a>) -> Result<BStr<'a>, ShortNameError> {
        branch(name)
    }
}

/// The short name of a branch, as a type: a value is a name that [`branch`] accepts.
///
/// ```
/// ShortName::new(BStr::from("main"))?; // keeps `main`
/// ShortName::new(BStr::from("a..b")); // RepeatedDot
/// ```
pub type ShortName<'a> = Name<'a, Short>;

/// The full name of the branch: `refs/heads/main` for `main`.
///
/// ```
/// full_name(alloc, ShortName::new(BStr::from("main"))?)?; // `refs/heads/main`
/// ```
///
/// # Errors
///
/// Out of memory, and nothing else.
///
/// # Memory
///
/// It allocates once, before it writes a byte. A length above `isize::MAX` bytes counts as out of
/// memory.
#[tactic(auto, using(crate::proofs::ShortNameLemmas::full_names))]
pub fn full_name(alloc: Global, name: ShortName<'_>) -> Result<BString, AllocError>
    ensures name { IfOk result (λ full. bstring_bytes full ≡ full_name_of (name_bytes name.entry)) }
    ensures branch { IfOk result (λ full. IsTrue (is_branch_name (bstring_bytes full))) }
{
    reference::join(alloc, BStr::from("refs/heads"), name.as_bstr())
}
