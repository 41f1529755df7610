//! Calls that allocate, made again if an allocation fails. `tests/memory` builds these tests
//! once, makes the same allocation of each fail, and counts what they print.
//!
//! A test is named after the allocation of the calls that fails in it. It first makes as many
//! allocations of its own as it takes for this one to be the one that fails. In the last test none
//! of the calls' allocations fails.

use crate::agree::{expect, expect_bool};
use crate::rows::{joined_names, part, path_of};
use crate::text::{Host, joined};
use bstr::{BStr, BString};
use gix_validate::reference::name_partial_or_sanitize;
use std::alloc::AllocError;
use std::process::Abort;

/// How each call is printed, and what it has to return.
const CALLS: &[(&str, &[u8])] = &[
    ("sanitize_nothing", b"-"),
    ("sanitize_pieces", b"refs/heads/-/x/-y-"),
    ("reference_join", b"@/v1.0"),
    ("path_join", b"src/.github/a.rs"),
];

/// What the call at this index returns. Each allocates once.
fn given(rt: &impl Host, call: usize) -> Result<BString, AllocError> {
    match call {
        0 => name_partial_or_sanitize(rt.alloc(), BStr::new(b"")),
        1 => name_partial_or_sanitize(rt.alloc(), BStr::new(b"refs//heads/../x.lock.lock/.y*")),
        2 => joined_names(rt, b"@", b"v1.0"),
        _ => joined_parts(rt),
    }
}

/// Three components, joined.
fn joined_parts(rt: &impl Host) -> Result<BString, AllocError> {
    let src = part(rt, "----", b"src");
    let inner = part(rt, "----", b".github");
    path_of(rt.alloc(), &[src, inner, part(rt, "----", b"a.rs")])
}

/// Whether the allocation of the call succeeds. What it returns has to be this.
fn is_answered(rt: &impl Host, call: usize, wanted: &[u8]) -> bool {
    match given(rt, call) {
        Ok(name) => {
            expect(rt, ("the call", b""), wanted, name.as_bytes());
            true
        }
        Err(_) => false,
    }
}

/// Makes the call, and once more if its allocation fails.
fn check_call(rt: &(impl Host + Print), call: usize, (name, wanted): (&str, &[u8])) {
    if !is_answered(rt, call, wanted) {
        say(rt, name, "refused");
        let is_answered_then = is_answered(rt, call, wanted);
        expect_bool(rt, (name, b""), true, is_answered_then);
    }
    say(rt, name, "answered");
}

/// Prints what the call with this name did.
fn say(rt: &(impl Abort + Print), name: &str, what: &str) {
    println!(rt; "{name}: {what}").expect(rt, "output");
}

/// Allocates until the given allocation of the calls is the one that fails, and then makes each
/// call.
fn check_with_refused(rt: &(impl Host + Print), request: usize) {
    for _ in request..5 {
        joined(rt, &[b" "]);
    }
    for (call, wanted) in CALLS.iter().enumerate() {
        check_call(rt, call, *wanted);
    }
}

#[test]
fn request_1(rt: HostRuntime) {
    check_with_refused(&rt, 1);
}

#[test]
fn request_2(rt: HostRuntime) {
    check_with_refused(&rt, 2);
}

#[test]
fn request_3(rt: HostRuntime) {
    check_with_refused(&rt, 3);
}

#[test]
fn request_4(rt: HostRuntime) {
    check_with_refused(&rt, 4);
}

#[test]
fn request_5(rt: HostRuntime) {
    check_with_refused(&rt, 5);
}
