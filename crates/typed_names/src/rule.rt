//! The rules that depend on the name alone, without options.

ghost use Rattle.std.specs.Prelude.{◌≡◌, ◌↔◌, ℕ, List, Bool, Option, IsOk, IfOk, IsTrue};
ghost use Rattle.bstr.specs.BStr.{bstr_bytes};
ghost use Rattle.gix_validate.specs.Reference.{is_partial_name, partial_fault_of, is_full_name};
ghost use Rattle.gix_validate.specs.Reference.{full_fault_of, is_branch_name, branch_fault_of};
ghost use Rattle.gix_validate.specs.Submodule.{is_submodule_name, fault_of as submodule_fault_of};
ghost use Rattle.gix_validate.specs.Faults.{Validates};
ghost use Rattle.gix_validate.specs.Tag.{is_tag_name, fault_of as tag_fault_of};

use bstr::BStr;
use gix_validate::{reference, submodule, tag};

/// A rule for names: which byte strings are valid names, and why another one is not.
///
/// [`Tag`], [`Partial`], [`Full`], [`Branch`] and [`Submodule`] are the rules of `gix_validate`. A
/// rule has no values: it is the `R` of a [`Name<'a, R>`](crate::Name), and functions that accept
/// names of every rule have `Rule` as a bound.
///
/// ```
/// fn length<R: Rule>(name: Name<'_, R>) -> usize {
///     name.as_bstr().as_bytes().len()
/// }
/// ```
pub trait Rule {
    /// The error type: why a byte string is not a valid name.
    type Fault;

    /// The name of the type that `Debug` prints.
    const TYPE_NAME: &'static str;

    /// Whether a byte string is a valid name.
    ghost is_name: { List ℕ → Bool };

    /// Why a byte string is not a valid name; `None` if it is one.
    ghost fault_of: { List ℕ → Option Self.Fault };

    /// Returns `name` if the rule accepts it, or else its error. It does not allocate.
    ///
    /// ```
    /// Branch::check(BStr::from("refs/heads/main"))?; // returns `refs/heads/main`
    /// ```
    fn check<'a>(name: BStr<'a>) -> Result<BStr<'a>, Self::Fault>
        ensures answer { Validates fault_of (bstr_bytes name.entry) result }
        ensures grammar { IsOk result ↔ IsTrue (is_name (bstr_bytes name.entry)) }
        ensures same { IfOk result (λ kept. kept ≡ name.entry) };
}

/// The rule of tag names, [`tag::name`] (docs/RULES.md, "Tag names").
///
/// ```
/// Tag::check(BStr::from("v1..2")); // RepeatedDot
/// ```
pub enum Tag {}

impl Rule for Tag {
    type Fault = tag::NameError;

    const TYPE_NAME: &'static str = "TagName";

    ghost is_name = { is_tag_name };

    ghost fault_of = { tag_fault_of };

    fn check<'a>(name: BStr<'a>) -> Result<BStr<'a>, tag::NameError> {
        tag::name(name)
    }
}

/// The rule of partial names, [`reference::name_partial`] (docs/RULES.md, "Reference names").
///
/// ```
/// Partial::check(BStr::from("@")); // Reserved, with the name `@`
/// ```
pub enum Partial {}

impl Rule for Partial {
    type Fault = reference::NameError;

    const TYPE_NAME: &'static str = "PartialName";

    ghost is_name = { is_partial_name };

    ghost fault_of = { partial_fault_of };

    fn check<'a>(name: BStr<'a>) -> Result<BStr<'a>, reference::NameError> {
        reference::name_partial(name)
    }
}

/// The rule of full names, [`reference::name`] (docs/RULES.md, "Reference names").
///
/// ```
/// Full::check(BStr::from("main")); // SomeLowercase
/// ```
pub enum Full {}

impl Rule for Full {
    type Fault = reference::NameError;

    const TYPE_NAME: &'static str = "FullName";

    ghost is_name = { is_full_name };

    ghost fault_of = { full_fault_of };

    fn check<'a>(name: BStr<'a>) -> Result<BStr<'a>, reference::NameError> {
        reference::name(name)
    }
}

/// The rule of branch names, [`reference::branch_name`] (docs/RULES.md, "Reference names").
///
/// ```
/// Branch::check(BStr::from("refs/heads/HEAD")); // Reserved, with the name `refs/heads/HEAD`
/// ```
pub enum Branch {}

impl Rule for Branch {
    type Fault = reference::NameError;

    const TYPE_NAME: &'static str = "BranchName";

    ghost is_name = { is_branch_name };

    ghost fault_of = { branch_fault_of };

    fn check<'a>(name: BStr<'a>) -> Result<BStr<'a>, reference::NameError> {
        reference::branch_name(name)
    }
}

/// The rule of submodule names, [`submodule::name`] (docs/RULES.md, "Submodule names").
///
/// ```
/// Submodule::check(BStr::from("a/../b")); // ParentComponent
/// ```
pub enum Submodule {}

impl Rule for Submodule {
    type Fault = submodule::NameError;

    const TYPE_NAME: &'static str = "SubmoduleName";

    ghost is_name = { is_submodule_name };

    ghost fault_of = { submodule_fault_of };

    fn check<'a>(name: BStr<'a>) -> Result<BStr<'a>, submodule::NameError> {
        submodule::name(name)
    }
}
