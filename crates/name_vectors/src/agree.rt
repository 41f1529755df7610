//! Passes a name to the functions of the library, and compares what they return with what is
//! expected: the result of the second implementation, or of a table.

use crate::path::{SETTINGS, conditions, hfs_form, is_device, of_component};
use crate::printed::{
    Texts, component_texts, printed, reference_texts, submodule_texts, tag_texts,
};
use crate::reference::{Fault, accepting, of_references, of_submodule, sanitized};
use crate::text::{Host, before_first, between, joined};
use bstr::BStr;
use gix_validate::path::{ComponentMode, ComponentOptions, component, component_is_windows_device};
use gix_validate::reference::{
    NameError, branch_name, name, name_partial, name_partial_or_sanitize, sanitize_in_place,
};
use gix_validate::{submodule, tag};
use std::fmt::{Debug, Display};
use std::process::Abort;

/// Passes the name to the functions of the library, and panics if a result isn't that of the second
/// implementation.
pub(crate) fn check(rt: &impl Host, text: &[u8]) {
    check_uncut(rt, text, &between(rt, b"/", text, b"/"));
    check_component(rt, text);
    expect_repair(rt, text, &sanitized(rt, text));
}

/// Does so with the functions for reference names and submodule names. The name is also given
/// between slashes, which are for what a piece may not start with or end in.
fn check_uncut(rt: &impl Host, text: &[u8], between_slashes: &[u8]) {
    let faults = of_references(text);
    expect_accepting(rt, text, accepting(text, between_slashes), &faults);
    expect_references(rt, text, faults);
    expect_submodule(rt, text, of_submodule(text, between_slashes));
}

/// Panics unless exactly the first so many rules find no error.
fn expect_accepting(rt: &impl Abort, text: &[u8], accepting: usize, faults: &[Fault<'_>; 4]) {
    for (kind, fault) in faults.iter().enumerate() {
        expect_bool(rt, ("a rule", text), kind < accepting, fault.0.is_empty());
    }
}

/// Does so with the functions for components.
fn check_component(rt: &impl Host, text: &[u8]) {
    let lower = text.to_ascii_lowercase(rt.alloc()).expect(rt, "memory");
    let holds = conditions(&lower, &hfs_form(rt, &lower));
    expect_components(rt, text, &holds);
    expect_device(rt, text, is_device(&lower));
}

/// Checks the results under all settings for a component of which this holds.
fn expect_components(rt: &impl Host, text: &[u8], holds: &[bool; 13]) {
    for settings in SETTINGS {
        expect_component(rt, (settings, text), of_component(holds, settings));
    }
}

/// Panics if the call with this name returned something other than what is expected.
pub(crate) fn expect(rt: &impl Abort, (call, text): (&str, &[u8]), wanted: &[u8], came: &[u8]) {
    if came != wanted {
        let (text, came, wanted) = (BStr::new(text), BStr::new(came), BStr::new(wanted));
        panic!(rt; "{call} of {text:?}: {came:?}, wanted: {wanted:?}");
    }
}

/// The same for a call that returns whether something holds.
pub(crate) fn expect_bool(rt: &impl Abort, call: (&str, &[u8]), wanted: bool, came: bool) {
    expect(rt, call, word(wanted), word(came));
}

fn word(holds: bool) -> &'static [u8] {
    if holds { b"true" } else { b"false" }
}

/// Panics unless the result is the name itself if that is valid, and otherwise the error, which
/// prints its text.
pub(crate) fn expect_told<E: Debug + Display + Drop>(
    rt: &impl Host,
    call: (&str, &[u8]),
    (texts, fault): (Texts, Fault<'_>),
    told: Result<BStr<'_>, E>,
) {
    match told {
        Ok(name) => expect_valid(rt, call, fault, name.as_bytes()),
        Err(error) => expect_error(rt, call, (texts, fault), &error),
    }
}

/// Panics if the name isn't valid, or if something else was returned.
pub(crate) fn expect_valid(rt: &impl Abort, call: (&str, &[u8]), fault: Fault<'_>, came: &[u8]) {
    let wanted = if fault.0.is_empty() { call.1 } else { fault.0 };
    expect(rt, call, wanted, came);
}

/// Panics if the error is another one, or prints something other than its text.
pub(crate) fn expect_error<E: Debug + Display>(
    rt: &impl Host,
    call: (&str, &[u8]),
    wanted: (Texts, Fault<'_>),
    error: &E,
) {
    let came = format!(in rt.alloc(); "{error:?}").expect(rt, "memory");
    expect(rt, call, wanted.1.0, before_first(came.as_bytes(), b" "));
    expect_display(rt, call, &printed(rt, wanted.0, wanted.1), error);
}

/// Panics if `Debug` prints something else.
pub(crate) fn expect_debug<T: Debug>(
    rt: &impl Host,
    call: (&str, &[u8]),
    wanted: &[u8],
    value: &T,
) {
    let came = format!(in rt.alloc(); "{value:?}").expect(rt, "memory");
    expect(rt, call, wanted, came.as_bytes());
}

/// Panics if `Display` prints something else.
pub(crate) fn expect_display<T: Display>(
    rt: &impl Host,
    call: (&str, &[u8]),
    wanted: &[u8],
    value: &T,
) {
    let came = value.to_string(rt.alloc()).expect(rt, "memory");
    expect(rt, call, wanted, came.as_bytes());
}

/// Checks the results for a tag name and for the three kinds of reference names.
pub(crate) fn expect_references(
    rt: &impl Host,
    text: &[u8],
    [tag, partial, full, branch]: [Fault<'_>; 4],
) {
    let given = BStr::new(text);
    expect_told(
        rt,
        ("tag::name", text),
        (tag_texts(), tag),
        tag::name(given),
    );
    expect_reference(rt, ("name_partial", text), partial, name_partial(given));
    expect_reference(rt, ("reference::name", text), full, name(given));
    expect_reference(rt, ("branch_name", text), branch, branch_name(given));
}

/// Checks the result for one of these three.
fn expect_reference(
    rt: &impl Host,
    call: (&str, &[u8]),
    fault: Fault<'_>,
    told: Result<BStr<'_>, NameError>,
) {
    expect_told(rt, call, (reference_texts(), fault), told);
}

/// Checks the result for a submodule name.
pub(crate) fn expect_submodule(rt: &impl Host, text: &[u8], error: &'static [u8]) {
    let wanted: (Texts, Fault<'_>) = (submodule_texts(), (error, b""));
    let told = submodule::name(BStr::new(text));
    expect_told(rt, ("submodule::name", text), wanted, told);
}

/// The protections of these settings.
pub(crate) fn options(settings: &str) -> ComponentOptions {
    let letters = settings.as_bytes();
    ComponentOptions {
        protect_windows: letters.contains(&b'w'),
        protect_hfs: letters.contains(&b'h'),
        protect_ntfs: letters.contains(&b'n'),
    }
}

/// The mode of these settings.
pub(crate) fn mode(settings: &str) -> Option<ComponentMode> {
    let letters = settings.as_bytes();
    letters.ends_with(b"s").then_some(ComponentMode::Symlink)
}

/// Checks the result for a component under these settings.
pub(crate) fn expect_component(
    rt: &impl Host,
    (settings, text): (&str, &[u8]),
    error: &'static [u8],
) {
    let told = component(BStr::new(text), mode(settings), options(settings));
    let wanted: (Texts, Fault<'_>) = (component_texts(), (error, b""));
    expect_told(rt, (settings, text), wanted, told);
}

/// Checks the result for a device.
pub(crate) fn expect_device(rt: &impl Abort, text: &[u8], wanted: bool) {
    let came = component_is_windows_device(BStr::new(text));
    expect_bool(rt, ("component_is_windows_device", text), wanted, came);
}

/// What follows the name in the buffer: no bytes, one or several.
const AFTER: &[&[u8]] = &[b"", b"?", b"/.lock"];

/// Checks both sanitisers.
pub(crate) fn expect_repair(rt: &impl Host, text: &[u8], wanted: &[u8]) {
    for after in AFTER {
        expect_in_place(rt, (&joined(rt, &[text, after]), text.len()), wanted);
    }
    expect_sanitized(rt, text, wanted);
}

/// Checks the sanitiser that returns a name of its own.
fn expect_sanitized(rt: &impl Host, text: &[u8], wanted: &[u8]) {
    let name = name_partial_or_sanitize(rt.alloc(), BStr::new(text)).expect(rt, "memory");
    let call = ("name_partial_or_sanitize", text);
    expect(rt, call, wanted, name.as_bytes());
}

/// Checks what becomes of the name in the first `len` bytes of the buffer, and that the bytes after
/// the name, or after one byte if it is empty, are unchanged. (A buffer has at least one byte.)
pub(crate) fn expect_in_place(rt: &impl Host, (given, len): (&[u8], usize), wanted: &[u8]) {
    let mut buffer = joined(rt, &[given]);
    expect_in_buffer(rt, (given, len), wanted, &mut buffer);
}

/// Does so with a copy of the buffer.
fn expect_in_buffer(
    rt: &impl Abort,
    (given, len): (&[u8], usize),
    wanted: &[u8],
    buffer: &mut [u8],
) {
    if !given.is_empty() {
        let end = len.max(1);
        assert!(rt; end <= given.len() && end <= buffer.len());
        let left = sanitize_in_place(buffer, len);
        expect(rt, ("sanitize_in_place", given), wanted, &buffer[..left]);
        let call = ("after sanitize_in_place", given);
        expect(rt, call, &given[end..], &buffer[end..]);
    }
}
