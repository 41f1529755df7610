//! Names that a rule accepts: one type, and an alias for each rule.

ghost use Rattle.std.specs.Prelude.{◌≡◌, ◌≢◌, ◌↔◌, [], All, IsOk, IsNone, IsTrue, IfSome, Some};
ghost use Rattle.std.specs.Prelude.{bytes_eq, encode_utf8_all, ⊤};
ghost use Rattle.std.specs.Cmp.{on_equiv, on_per, partial_equiv_from_equiv};
ghost use Rattle.std.specs.Cmp.Lexicographic.{nat_list_eq_equiv};
ghost use Rattle.std.specs.List.{after_first};
ghost use Rattle.bstr.specs.BStr.{bstr_bytes};
ghost use Rattle.bstr.specs.Utf8.{lossy_chars};
ghost use Rattle.gix_validate.specs.Pieces.{is_slash, has_no_slash, pieces as pieces_of, joined};

use crate::pieces::{Pieces, split_at_first_slash};
use crate::rule::{Branch, Full, Partial, Rule, Submodule, Tag};
use bstr::BStr;
use std::alloc::AllocError;
use std::convert::AsSlice;
use std::fmt;
use std::marker::PhantomData;

/// A name that the rule `R` accepts: a borrowed byte string, which [`new`](Name::new) checked.
///
/// ```
/// fn is_short<R: Rule>(name: Name<'_, R>) -> bool {
///     name.as_bstr().as_bytes().len() < 20
/// }
/// is_short(TagName::new(BStr::from("v1.2.3"))?); // true
/// ```
pub struct Name<'a, R: Rule> {
    name: BStr<'a>,
    rule: PhantomData<R>,
    /// The rule accepts the name.
    pub ghost valid: { IsTrue (R.is_name (bstr_bytes name)) },
}

/// A tag name, such as `v1.2.3` or `refs/heads/main` (docs/RULES.md, "Tag names").
///
/// ```
/// TagName::new(BStr::from("v1.2.3"))?; // keeps `v1.2.3`
/// TagName::new(BStr::from("v1..2")); // RepeatedDot
/// ```
pub type TagName<'a> = Name<'a, Tag>;

/// A partial reference name, such as `main` (docs/RULES.md, "Reference names").
///
/// ```
/// PartialName::new(BStr::from("main"))?; // keeps `main`
/// PartialName::new(BStr::from("@")); // Reserved, with the name `@`
/// ```
pub type PartialName<'a> = Name<'a, Partial>;

/// A full reference name, such as `HEAD` or `refs/heads/main` (docs/RULES.md, "Reference names").
///
/// ```
/// FullName::new(BStr::from("refs/heads/main"))?; // keeps `refs/heads/main`
/// FullName::new(BStr::from("main")); // SomeLowercase
/// ```
pub type FullName<'a> = Name<'a, Full>;

/// The full name of a branch, such as `refs/heads/main` (docs/RULES.md, "Reference names").
///
/// ```
/// BranchName::new(BStr::from("refs/heads/main"))?; // keeps `refs/heads/main`
/// BranchName::new(BStr::from("refs/heads/HEAD")); // Reserved, with the name `refs/heads/HEAD`
/// ```
pub type BranchName<'a> = Name<'a, Branch>;

/// A submodule name, such as `vendor/package` (docs/RULES.md, "Submodule names").
///
/// ```
/// SubmoduleName::new(BStr::from("vendor/package"))?; // keeps `vendor/package`
/// SubmoduleName::new(BStr::from("a/../b")); // ParentComponent
/// ```
pub type SubmoduleName<'a> = Name<'a, Submodule>;

impl<'a, R: Rule> Name<'a, R> {
    ghost use Rattle.typed_names.specs.Names.{name_text, NewChecks};

    /// Returns `name` as a typed name if the rule accepts it. It does not allocate.
    ///
    /// ```
    /// FullName::new(BStr::from("refs/heads/main"))?; // keeps `refs/heads/main`
    /// FullName::new(BStr::from("main")); // SomeLowercase
    /// ```
    ///
    /// # Errors
    ///
    /// The error that [`Rule::check`] returns.
    pub fn new(name: BStr<'a>) -> Result<Name<'a, R>, R::Fault>
        ensures answer { NewChecks name_text R.fault_of name.entry result }
        ensures grammar { IsOk result ↔ IsTrue (R.is_name (bstr_bytes name.entry)) }
    {
        Ok(Name {
            name: R::check(name)?,
            rule: PhantomData,
        })
    }

    /// The byte string that was passed to [`new`](Name::new), which the rule accepts.
    pub fn as_bstr(&self) -> BStr<'a>
        ensures same { result ≡ name_text self.now }
        ensures valid { IsTrue (R.is_name (bstr_bytes result)) }
    {
        self.name
    }
}

impl<'a> TagName<'a> {
    ghost use Rattle.typed_names.specs.Names.{name_bytes};

    /// The pieces of the name, in order: what its slashes separate (docs/RULES.md, "Pieces").
    ///
    /// They live as long as the bytes that were passed to [`new`](Name::new). A piece need not be a
    /// tag name itself: the first one of `a./b` is `a.`, which is not.
    ///
    /// ```
    /// TagName::new(BStr::from("refs/heads/main"))?.pieces(); // `refs`, then `heads`, then `main`
    /// ```
    #[tactic(auto, using(crate::proofs::TagLemmas::pieces_of_tag))]
    pub fn pieces(&self) -> Pieces<'a>
        ensures these { result ≡ pieces_of (name_bytes self.now) }
        ensures not_empty { All (λ piece. piece ≢ []) result }
        ensures apart { All (λ piece. IsTrue (has_no_slash piece)) result }
        ensures whole { joined result ≡ name_bytes self.now }
    {
        Pieces::new(self.name)
    }

    /// What follows the first slash, which is a tag name too, and lives as long as the bytes that
    /// were passed to [`new`](Name::new); `None` if and only if there is no slash.
    ///
    /// ```
    /// TagName::new(BStr::from("refs/heads/main"))?.after_first_slash(); // `heads/main`
    /// TagName::new(BStr::from("main"))?.after_first_slash(); // None
    /// ```
    #[tactic(auto, using(crate::proofs::TagLemmas::rest_is_tag_name))]
    pub fn after_first_slash(&self) -> Option<TagName<'a>>
        ensures none { IsNone result ↔ IsTrue (has_no_slash (name_bytes self.now)) }
        ensures rest { IfSome result (λ rest. name_bytes rest
            ≡ after_first is_slash (name_bytes self.now)) }
    {
        let (_, rest) = split_at_first_slash(self.name)?;
        Some(Name {
            name: rest,
            rule: PhantomData,
        })
    }
}

/// A partial name is a tag name. The bytes stay the same.
#[tactic(auto, unfolding(gix_validate::specs::Reference::is_partial_name))]
impl<'a> From<PartialName<'a>> for TagName<'a> {
    ghost use Rattle.typed_names.specs.Names.{name_text};

    ghost from_gives = { λ partial tag. name_text tag ≡ name_text partial };

    fn from(partial: PartialName<'a>) -> TagName<'a> {
        Name {
            name: partial.as_bstr(),
            rule: PhantomData,
        }
    }
}

/// A full name is a partial name. The bytes stay the same.
#[tactic(auto, unfolding(gix_validate::specs::Reference::is_full_name))]
impl<'a> From<FullName<'a>> for PartialName<'a> {
    ghost use Rattle.typed_names.specs.Names.{name_text};

    ghost from_gives = { λ full partial. name_text partial ≡ name_text full };

    fn from(full: FullName<'a>) -> PartialName<'a> {
        Name {
            name: full.as_bstr(),
            rule: PhantomData,
        }
    }
}

/// A branch name is a full name. The bytes stay the same.
#[tactic(auto, unfolding(gix_validate::specs::Reference::is_branch_name))]
impl<'a> From<BranchName<'a>> for FullName<'a> {
    ghost use Rattle.typed_names.specs.Names.{name_text};

    ghost from_gives = { λ branch full. name_text full ≡ name_text branch };

    fn from(branch: BranchName<'a>) -> FullName<'a> {
        Name {
            name: branch.as_bstr(),
            rule: PhantomData,
        }
    }
}

impl<'a, R: Rule> Clone for Name<'a, R> {
    ghost is_clone = { λ name copy. copy ≡ name };

    ghost is_infallible = { λ _. ⊤ };

    fn clone(&self) -> Result<Name<'a, R>, AllocError> {
        Ok(*self)
    }
}

impl<'a, R: Rule> Copy for Name<'a, R> {}

/// Two names are equal if and only if their bytes are.
impl<'a, R: Rule> PartialEq for Name<'a, R> {
    ghost use Rattle.typed_names.specs.Names.{name_bytes};

    ghost eq = { λ a b. bytes_eq (name_bytes a) (name_bytes b) };

    ghost laws = { on_per name_bytes (partial_equiv_from_equiv nat_list_eq_equiv) };

    fn eq(&self, other: &Name<'a, R>) -> bool {
        self.as_bstr() == other.as_bstr()
    }
}

impl<'a, R: Rule> Eq for Name<'a, R> {
    ghost use Rattle.typed_names.specs.Names.{name_bytes};

    ghost laws = { on_equiv name_bytes nat_list_eq_equiv };
}

/// The bytes of the name.
impl<'a, R: Rule> AsSlice<u8> for Name<'a, R> {
    ghost use Rattle.typed_names.specs.Names.{name_bytes};

    ghost items = { name_bytes };

    fn as_slice(&self) -> &[u8] {
        self.as_bstr().as_bytes()
    }
}

/// Prints the name, with U+FFFD for ill-formed UTF-8 (docs/RULES.md, "Typed names").
impl<'a, R: Rule> fmt::Display for Name<'a, R> {
    ghost use Rattle.typed_names.specs.Names.{name_bytes};

    ghost output = { λ name. Some (encode_utf8_all (lossy_chars (name_bytes name))) };

    fn fmt<W: fmt::Write>(&self, f: &mut fmt::Formatter<W>) -> fmt::Result {
        self.as_bstr().fmt(f)
    }
}

/// Prints the type and the name, such as `TagName { name: "v1.2.3" }`.
impl<'a, R: Rule> fmt::Debug for Name<'a, R> {
    fn fmt<W: fmt::Write>(&self, f: &mut fmt::Formatter<W>) -> fmt::Result {
        f.debug_struct(R::TYPE_NAME)
            .field("name", &self.name)
            .finish()
    }
}
