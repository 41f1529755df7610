//! Callers that depend on the contracts of the traits that the libraries' types implement. Such a
//! contract is a ghost member of an `impl`, and says nothing if it is left out. So each caller here
//! has an `ensures` that then couldn't be proved.

ghost use Rattle.std.specs.Prelude.{◌≡◌, ◌↔◌, [], ◌∷◌, ◌++◌, map, IfOk, IsTrue, MatchOption};
ghost use Rattle.std.specs.Prelude.{string_bytes, encode_utf8_all};
ghost use Rattle.bstr.specs.BStr.{bstr_bytes};
ghost use Rattle.bstr.specs.Utf8.{lossy_chars};
ghost use Rattle.gix_validate.specs.Component.{all_protections, text_of as component_text_of};
ghost use Rattle.gix_validate.specs.Pieces.{pieces as pieces_of};
ghost use Rattle.gix_validate.specs.Reference.{carried, text_of as reference_text_of};
ghost use Rattle.gix_validate.specs.Submodule.{text_of as submodule_text_of};
ghost use Rattle.gix_validate.specs.Tag.{text_of as tag_text_of};
ghost use Rattle.typed_names.specs.Names.{name_bytes, name_text, component_bytes};

use crate::agree::{expect, expect_bool, expect_debug, expect_error, options};
use crate::printed::{Texts, component_texts, reference_texts};
use crate::reference::Fault;
use crate::rows::part;
use crate::table::first_word;
use crate::text::Host;
use bstr::BStr;
use gix_validate::path::{ComponentError, ComponentMode, ComponentOptions};
use gix_validate::{reference, submodule, tag};
use std::alloc::{AllocError, Global};
use std::convert::AsSlice;
use std::fmt::{Debug, Display};
use std::process::Abort;
use typed_names::{
    Branch, BranchName, Component, Full, FullName, Name, Partial, PartialName, Pieces, Rule,
    Submodule, Tag, TagName,
};

/// What errors print, one after the other.
fn printed_errors(
    alloc: Global,
    a: &tag::NameError,
    b: &reference::NameError,
    c: &submodule::NameError,
    d: &ComponentError,
) -> Result<String, AllocError>
    ensures { IfOk result (λ text. string_bytes text ≡ tag_text_of a.now
        ++ (reference_text_of b.now ++ (submodule_text_of c.now ++ component_text_of d.now))) }
{
    format!(in alloc; "{a}{b}{c}{d}")
}

/// The error of reference names that an error of tag names converts to, by the contract of `From`.
pub(crate) fn converted(fault: tag::NameError) -> reference::NameError
    ensures { result ≡ carried fault }
{
    reference::NameError::from(fault)
}

/// The default options, which have every protection; clones of options and of a mode, which
/// succeed; and whether two modes are the same, as they are because there is only one.
fn options_and_modes(
    options: &ComponentOptions,
    mode: &ComponentMode,
    other: &ComponentMode,
) -> (ComponentOptions, ComponentOptions, ComponentMode, bool)
    ensures default { result.0 ≡ all_protections }
    ensures options { result.1 ≡ options.now }
    ensures mode { result.2 ≡ mode.now }
    ensures same { IsTrue result.3 }
{
    let (options, twin) = (options.clone().unwrap(), mode.clone().unwrap());
    (ComponentOptions::default(), options, twin, *mode == *other)
}

/// The name as a full name, a partial name and a tag name, by the contracts of `From`.
fn tag_of<'a>(branch: BranchName<'a>) -> TagName<'a>
    ensures { name_text result ≡ name_text branch.entry }
{
    let full: FullName<'a> = branch.into();
    let partial: PartialName<'a> = full.into();
    partial.into()
}

/// Clones of a name, a component and pieces, which succeed.
fn twins<'a, R: Rule>(
    name: Name<'a, R>,
    component: Component<'a>,
    pieces: &Pieces<'a>,
) -> (Name<'a, R>, Component<'a>, Pieces<'a>)
    ensures name { result.0 ≡ name.entry }
    ensures component { result.1 ≡ component.entry }
    ensures pieces { result.2 ≡ pieces.now }
{
    let (name, component) = (name.clone().unwrap(), component.clone().unwrap());
    (name, component, pieces.clone().unwrap())
}

/// The next piece, by the contract of `Iterator`.
fn next_of<'a>(pieces: &mut Pieces<'a>) -> Option<BStr<'a>>
    ensures { MatchOption result
        ((pieces.old ≡ []) × (pieces.new ≡ []))
        (λ piece. pieces.old ≡ bstr_bytes piece ∷ pieces.new) }
{
    pieces.next()
}

/// All pieces, of which there are finitely many.
fn listed<'a>(alloc: Global, name: TagName<'a>) -> Result<Vec<BStr<'a>>, AllocError>
    ensures { IfOk result (λ list. map bstr_bytes list.items ≡ pieces_of (name_bytes name.entry)) }
{
    name.pieces().collect(alloc)
}

/// `==` of two names.
fn same_name<R: Rule>(a: &Name<'_, R>, b: &Name<'_, R>) -> bool
    ensures { IsTrue result ↔ (name_bytes a.now ≡ name_bytes b.now) }
{
    a == b
}

/// What a name and a component print, one after the other.
fn printed_names<R: Rule>(
    alloc: Global,
    a: &Name<'_, R>,
    b: &Component<'_>,
) -> Result<String, AllocError>
    ensures { IfOk result (λ text. string_bytes text ≡ encode_utf8_all (lossy_chars (name_bytes a.now))
        ++ encode_utf8_all (lossy_chars (component_bytes b.now))) }
{
    format!(in alloc; "{a}{b}")
}

/// `==` of two components.
fn same_component(a: &Component<'_>, b: &Component<'_>) -> bool
    ensures { IsTrue result ↔ (component_bytes a.now ≡ component_bytes b.now) }
{
    a == b
}

/// A name and a component as slices.
fn slices<'b, R: Rule>(a: &'b Name<'_, R>, b: &'b Component<'_>) -> (&'b [u8], &'b [u8])
    ensures name { result.0.now ≡ name_bytes a.now }
    ensures component { result.1.now ≡ component_bytes b.now }
{
    (a.as_slice(), b.as_slice())
}

/// The tag name with these bytes.
pub(crate) fn tag_name<'a>(rt: &impl Abort, text: &'a [u8]) -> TagName<'a> {
    TagName::new(BStr::new(text)).expect(rt, "a tag name")
}

/// The pieces of the name, and what follows its first slash. The `TagName` itself lives only here.
fn parts_of<'a>(rt: &impl Abort, text: &'a [u8]) -> (Pieces<'a>, Option<TagName<'a>>) {
    let name = tag_name(rt, text);
    (name.pieces(), name.after_first_slash())
}

/// Checks what `Debug` prints of a name, which no contract says.
fn expect_type<R: Rule>(rt: &impl Host, wanted: &[u8])
where
    R::Fault: Debug + Drop,
{
    let name = Name::<'_, R>::new(BStr::from("refs/a")).expect(rt, "a name");
    expect_debug(rt, ("Debug", b"refs/a"), wanted, &name);
}

#[test]
fn prints_typed_names_with_their_type(rt: HostRuntime) {
    expect_type::<Tag>(&rt, b"TagName { name: \"refs/a\" }");
    expect_type::<Partial>(&rt, b"PartialName { name: \"refs/a\" }");
    expect_type::<Full>(&rt, b"FullName { name: \"refs/a\" }");
    expect_type::<Branch>(&rt, b"BranchName { name: \"refs/a\" }");
    expect_type::<Submodule>(&rt, b"SubmoduleName { name: \"refs/a\" }");
}

#[test]
fn prints_names_that_are_not_utf_8(rt: HostRuntime) {
    let name = tag_name(&rt, b"caf\xC3\xA9/\xFF");
    let component = part(&rt, "whn-", b"caf\xC3\xA9 \xFF");
    let text = printed_names(rt.alloc(), &name, &component).expect(&rt, "memory");
    let wanted = b"caf\xC3\xA9/\xEF\xBF\xBDcaf\xC3\xA9 \xEF\xBF\xBD";
    expect(&rt, ("Display", b""), wanted, text.as_bytes());
}

#[test]
fn lists_the_pieces_of_a_name(rt: HostRuntime) {
    let pieces = listed(rt.alloc(), tag_name(&rt, b"refs/a")).expect(&rt, "memory");
    expect_bool(&rt, ("two pieces", b"refs/a"), true, pieces.len() == 2);
}

#[test]
fn parts_outlive_the_name_that_gave_them(rt: HostRuntime) {
    let (pieces, rests): (&[&[u8]], &[&[u8]]) = (
        &[b"refs", b"heads", b"main"],
        &[b"heads/main", b"main"],
    );
    expect_parts(&rt, b"refs/heads/main", pieces, rests);
    expect_parts(&rt, b"a./b", &[b"a.", b"b"], &[b"b"]);
    expect_parts(&rt, b"v1.2.3", &[b"v1.2.3"], &[]);
}

/// Checks the pieces of a name, and what follows each of its slashes, in order.
fn expect_parts(rt: &impl Abort, text: &[u8], pieces: &[&[u8]], rests: &[&[u8]]) {
    let (left, rest) = parts_of(rt, text);
    expect_pieces(rt, text, left, pieces);
    expect_rests(rt, text, rest, rests);
}

/// Checks the pieces of a name.
fn expect_pieces(rt: &impl Abort, text: &[u8], left: Pieces<'_>, wanted: &[&[u8]]) {
    let mut left = left;
    for piece in wanted {
        let came = next_of(&mut left).expect(rt, "a piece");
        expect(rt, ("pieces", text), piece, came.as_bytes());
    }
    let is_last = next_of(&mut left).is_none();
    expect_bool(rt, ("no other piece", text), true, is_last);
}

/// Checks what follows the first slash of a name, of what follows that, and so on.
fn expect_rests(rt: &impl Abort, text: &[u8], rest: Option<TagName<'_>>, wanted: &[&[u8]]) {
    let mut rest = rest;
    for wanted in wanted {
        let name = rest.expect(rt, "a slash");
        expect(rt, ("after_first_slash", text), wanted, name.as_slice());
        rest = name.after_first_slash();
    }
    expect_bool(rt, ("no other slash", text), true, rest.is_none());
}

#[test]
fn refuses_invalid_partial_names(rt: HostRuntime) {
    let told = PartialName::new(BStr::from("@"));
    let wanted = (reference_texts(), first_word(b"Reserved @"));
    expect_refused(&rt, ("PartialName", b"@"), wanted, told);
}

#[test]
fn refuses_invalid_full_names(rt: HostRuntime) {
    let told = FullName::new(BStr::from("V1"));
    let wanted = (reference_texts(), first_word(b"SomeLowercase"));
    expect_refused(&rt, ("FullName", b"V1"), wanted, told);
}

#[test]
fn refuses_invalid_components(rt: HostRuntime) {
    let told = Component::new(BStr::from("CON"), None, options("whn-"));
    let wanted = (component_texts(), first_word(b"WindowsReservedName"));
    expect_refused(&rt, ("Component", b"CON"), wanted, told);
}

/// Panics unless this error was returned.
fn expect_refused<T: Drop, E: Debug + Display + Drop>(
    rt: &impl Host,
    call: (&str, &[u8]),
    wanted: (Texts, Fault<'_>),
    told: Result<T, E>,
) {
    let error = told.err().expect(rt, "an error");
    expect_error(rt, call, wanted, &error);
}

#[test]
fn accepts_valid_full_names(rt: HostRuntime) {
    let full = FullName::new(BStr::from("HEAD")).expect(&rt, "a full name");
    let tag = TagName::from(PartialName::from(full));
    let came = tag.as_bstr().as_bytes();
    expect(&rt, ("FullName", b"HEAD"), b"HEAD", came);
}

#[test]
fn accepts_valid_branch_names(rt: HostRuntime) {
    let branch = BranchName::new(BStr::from("HEAD")).expect(&rt, "a branch");
    let tag = tag_of(branch);
    expect(&rt, ("BranchName", b"HEAD"), b"HEAD", tag.as_slice());
}

#[test]
fn accepts_valid_components(rt: HostRuntime) {
    let name = part(&rt, "w---", b"CON");
    expect(&rt, ("Component", b"CON"), b"CON", name.as_slice());
}
