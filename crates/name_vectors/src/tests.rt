//! The functions of the library, compared with the second implementation on many names.

use crate::agree::check;
use crate::path::{DEVICES, IGNORED_CHARACTERS, SEQUENCES};
use crate::text::{Host, between, joined};
use std::process::Abort;

/// The parts of which names are made, and how many names there are of at most five, four or three.
/// Some are special bytes of the rules for references, some contain the suffix that Git reserves
/// for its own files, and some are byte strings that mean one thing to a rule alone, and another
/// next to each other.
#[rattlefmt::skip]
const PARTS: &[(&[&[u8]], usize)] = &[
    (&[b".", b"/", b"@", b"{", b"a", b"*"], 1 + 6 + 36 + 216 + 1_296 + 7_776),
    (&[b".lock", b"/", b".", b"a", b"@", b"{"], 1 + 6 + 36 + 216 + 1_296),
    (&[
        b".git", b"GIT~1", b"gi7eba~1", b"~1234567", b"nul", b"CON", b"COM1", b":", b"\\", b"/",
        b".", b" ", b"<", b"\xE2\x80\x8C", b"\xE2\x80", b"*",
    ], 1 + 16 + 256 + 4_096),
];

/// The name of at most five parts with this number. Names of fewer parts have lower numbers: 0 is
/// the empty name, and if there are N parts, the names of one part have the numbers 1 to N.
fn numbered(rt: &impl Host, parts: &[&[u8]], number: usize) -> Vec<u8> {
    let mut text = Vec::new(rt.alloc());
    let mut left = number;
    for _ in 0..5 {
        if left > 0 && !parts.is_empty() {
            left -= 1;
            let part = parts[left % parts.len()];
            text.extend_from_slice(part).expect(rt, "memory");
            left /= parts.len();
        }
    }
    text
}

#[test]
fn agrees_on_names_of_few_parts(rt: HostRuntime) {
    for (parts, end) in PARTS {
        check_numbered(&rt, parts, *end);
    }
}

/// Checks the names of these parts that have the lower numbers.
fn check_numbered(rt: &impl Host, parts: &[&[u8]], end: usize) {
    for number in 0..end {
        check(rt, &numbered(rt, parts, number));
    }
}

/// What surrounds each byte: nothing, bytes that make a name of one piece or of several, and the
/// first two bytes of an ignored character.
#[rattlefmt::skip]
const AROUND: &[(&[u8], &[u8])] = &[
    (b"", b""), (b"a", b"b"), (b"refs/heads/a", b"b"),
    (b".g\xE2\x80", b"it"), (b".g\xE2\x81", b"it"), (b".g\xEF\xBB", b"it"),
];

/// Checks the byte within names.
fn check_around(rt: &impl Host, byte: &[u8]) {
    for (front, back) in AROUND {
        check(rt, &between(rt, front, byte, back));
    }
}

/// Does so for each byte from this one to the next multiple of 64, and checks each name of two bytes
/// that it begins. (`rt try` stops a test that takes a minute.)
fn check_quarter(rt: &impl Host, least: u8) {
    for first in least..=least | 0x3F {
        check_around(rt, &[first]);
        for second in 0..=u8::MAX {
            check(rt, &[first, second]);
        }
    }
}

#[test]
fn agrees_on_names_of_two_bytes_from_00(rt: HostRuntime) {
    check_quarter(&rt, 0x00);
}

#[test]
fn agrees_on_names_of_two_bytes_from_40(rt: HostRuntime) {
    check_quarter(&rt, 0x40);
}

#[test]
fn agrees_on_names_of_two_bytes_from_80(rt: HostRuntime) {
    check_quarter(&rt, 0x80);
}

#[test]
fn agrees_on_names_of_two_bytes_from_c0(rt: HostRuntime) {
    check_quarter(&rt, 0xC0);
}

/// Checks the name with each word at each offset, instead of a byte or, if `len` is 0, between two.
/// Returns how many names that were.
fn check_changed(rt: &impl Host, (name, len): (&[u8], usize), words: &[&[u8]]) -> usize {
    let mut checked: usize = 0;
    for offset in 0..name.len() + 1 {
        let back = name.get(offset.saturating_add(len)..).unwrap_or(b"");
        for word in words {
            check(rt, &between(rt, &name[..offset], word, back));
            checked = checked.saturating_add(1);
        }
    }
    checked
}

/// The name with uppercase letters at the first so many of each two offsets, and lowercase ones
/// otherwise.
fn spelled(rt: &impl Host, name: &[u8], uppercase: usize) -> Vec<u8> {
    let mut text = name.to_ascii_lowercase(rt.alloc()).expect(rt, "memory");
    for (offset, byte) in text.iter_mut().enumerate() {
        if offset % 2 < uppercase {
            *byte = byte.to_ascii_uppercase();
        }
    }
    text
}

/// The digits, the bytes next to them, and nothing.
#[rattlefmt::skip]
const DIGITS: &[&[u8]] = &[
    b"", b"/", b"0", b"1", b"2", b"3", b"4", b"5", b"6", b"7", b"8", b"9", b":",
];

/// Names for `.git` and `.gitmodules`, so that each short name is checked by the length of its prefix,
/// and two devices.
#[rattlefmt::skip]
const SHORT_NAMES: &[&[u8]] = &[
    b".git", b"git~1", b".gitmodules", b"gitmod~1", b"~1000000", b"g~100000", b"gi~10000",
    b"gi7~1000", b"gi7e~100", b"gi7eb~10", b"gi7eba~1", b"com1", b"lpt1",
];

/// What is written into a device, at each offset.
const IN_DEVICES: &[&[u8]] = &[b"", b".x", b" :x", b"x"];

/// Names into which ignored characters are written, at each offset.
const GIT_NAMES: &[&[u8]] = &[b".git", b".GitModules"];

// These tests check each element of the tables of component names, and its neighbours. If a table of
// the library lacks a device, an ignored character or a short name, one of them fails.

#[test]
fn agrees_on_each_device(rt: HostRuntime) {
    check_spelled(&rt, DEVICES, (0, IN_DEVICES), 3 * 126 * 4);
}

#[test]
fn agrees_on_each_ignored_character(rt: HostRuntime) {
    check_spelled(&rt, GIT_NAMES, (0, IGNORED_CHARACTERS), 3 * (5 + 12) * 16);
}

#[test]
fn agrees_on_each_short_name(rt: HostRuntime) {
    check_spelled(&rt, SHORT_NAMES, (1, DIGITS), 3 * (59 + 46) * 13);
}

/// Checks these names, written in three ways, and changed by these words, each instead of so many
/// bytes, which has to give so many names.
fn check_spelled(rt: &impl Host, names: &[&[u8]], (len, words): (usize, &[&[u8]]), wanted: usize) {
    let mut checked: usize = 0;
    for name in names {
        checked = checked.saturating_add(check_spellings(rt, (name, len), words));
    }
    expect_count(rt, checked, wanted);
}

/// Panics unless so many names were checked.
fn expect_count(rt: &impl Abort, checked: usize, wanted: usize) {
    assert_eq!(rt; checked, wanted);
}

/// Does so with one name. Returns how many names that were.
fn check_spellings(rt: &impl Host, (name, len): (&[u8], usize), words: &[&[u8]]) -> usize {
    let mut checked: usize = 0;
    for uppercase in 0..3 {
        let more = check_changed(rt, (&spelled(rt, name, uppercase), len), words);
        checked = checked.saturating_add(more);
    }
    checked
}

/// The edges of the table of whole sequences, and the bytes next to them.
#[rattlefmt::skip]
const EDGES: &[&[u8]] = &[
    b"\x00", b"\x01", b"\x7E", b"\x7F", b"\x80", b"\x81", b"\x8F", b"\x90", b"\x9F", b"\xA0",
    b"\xBF", b"\xC0", b"\xC1", b"\xC2", b"\xDF", b"\xE0", b"\xE1", b"\xEC", b"\xED", b"\xEE",
    b"\xEF", b"\xF0", b"\xF1", b"\xF3", b"\xF4", b"\xF5", b"\xFF",
];

/// The least and the greatest sequence of each row, whole and truncated, before a colon, with each
/// edge at each offset.
#[test]
fn agrees_on_each_edge_of_sequences(rt: HostRuntime) {
    let mut checked: usize = 0;
    for (least, greatest) in SEQUENCES {
        checked = checked.saturating_add(check_truncated(&rt, least));
        checked = checked.saturating_add(check_truncated(&rt, greatest));
    }
    expect_count(&rt, checked, 2 * 112 * 27);
}

/// Does so with one sequence. Returns how many names that were.
fn check_truncated(rt: &impl Host, sequence: &[u8]) -> usize {
    let mut checked: usize = 0;
    for end in 0..sequence.len() {
        let name = joined(rt, &[&sequence[..end + 1], b":"]);
        checked = checked.saturating_add(check_changed(rt, (&name, 1), EDGES));
    }
    checked
}
