//! Tests of what no clause of `run` says: that it succeeds, which error it returns, and that it
//! flushes. Also tables of lines with the expected result of each, by check_names(1) and
//! docs/RULES.md.
//!
//! The tests are proved to be safe, which takes long for a function with many exits or many values
//! that are dropped. So a failed allocation ends a test, and what a loop does is in a function of
//! its own.

use crate::check::{RunError, run};
use bstr::BStr;
use gix_validate::tag;
use std::alloc::Global;
use std::io;
use std::io::{ErrorKind, Read, Write};
use std::process::Abort;

/// Lines, and what is printed for them.
pub const ROWS: (&[u8], &[u8]) = (
    b"partial @\nref V1\nbranch refs/heads/main\nsubmodule a/..\npath .git\nsymlink .gitmodules\n\
    device nul.txt\nsanitize a b.lock\nbogus x\ntag\n\ntag \n",
    b"error: Reference name is reserved and cannot be used: \"@\"\n\
    error: Standalone references must be all uppercased, like 'HEAD'\n\
    ok\n\
    error: Submodules names must not contains '..'\n\
    error: The .git name may never be used\n\
    error: The .gitmodules file must not be a symlink\n\
    yes\n\
    a-b\n\
    unknown kind\n\
    unknown kind\n\
    unknown kind\n\
    error: A ref must not be empty\n",
);

/// Lines of tags, the last without a newline, and what is printed for them.
const TAGS: (&[u8], &[u8]) = (
    b"tag v1.2.3\ntag a b\ntag refs/heads/",
    b"ok\n\
    error: A ref must not contain invalid bytes or ascii control characters: \" \"\n\
    error: A ref must not end with a '/'\n",
);

/// What is printed for whole inputs.
const INPUTS: &[(&[u8], &[u8])] = &[ROWS, TAGS, (b"", b"")];

/// What a run that reads and writes memory prints for this input.
pub fn printed(alloc: Global, input: &[u8]) -> Result<Vec<u8>, RunError> {
    let mut output = Vec::new(alloc);
    run(alloc, &mut &*input, &mut output)?;
    Ok(output)
}

/// Panics if for this input something else is printed.
pub fn expect_printed(rt: &(impl Abort + AllocGlobal), input: &[u8], wanted: &[u8]) {
    let came = printed(rt.alloc(), input).expect(rt, "a run");
    let [input, wanted, came] = [BStr::new(input), BStr::new(wanted), BStr::new(&came)];
    assert_eq!(rt; came, wanted, "{input:?} (right: wanted)");
}

/// The same for what is too long to be shown.
fn expect_long(rt: &(impl Abort + AllocGlobal), input: &[u8], wanted: &[u8]) {
    let came = printed(rt.alloc(), input).expect(rt, "a run");
    assert!(rt; came.as_slice() == wanted);
}

/// The byte strings, one after the other.
fn joined(rt: &(impl Abort + AllocGlobal), parts: &[&[u8]]) -> Vec<u8> {
    parts.concat(rt.alloc()).expect(rt, "memory")
}

/// Panics if for a line that begins with this and ends in the name something else is printed.
fn expect_line(rt: &(impl Abort + AllocGlobal), (front, name): (&[u8], &[u8]), answer: &[u8]) {
    let line = joined(rt, &[front, name, b"\n"]);
    expect_printed(rt, &line, &joined(rt, &[answer, b"\n"]));
}

/// Does so for lines that begin with this.
fn expect_lines(rt: &(impl Abort + AllocGlobal), front: &[u8], rows: &[(&[u8], &[u8])]) {
    for (name, answer) in rows {
        expect_line(rt, (front, name), answer);
    }
}

/// Lines, and the results: only the space after the kind is not part of the name, and no byte of a
/// name is lost or added.
#[rattlefmt::skip]
const LINES: &[(&[u8], &[u8])] = &[
    (b"", b"unknown kind"),
    (b" ", b"unknown kind"),
    (b" tag x", b"unknown kind"),
    (b"TAG x", b"unknown kind"),
    (b"tags x", b"unknown kind"),
    (b"tag\tx", b"unknown kind"),
    (b"sanitize", b"unknown kind"),
    (b"tag  x", b"error: A ref must not contain invalid bytes or ascii control characters: \" \""),
    (b"tag a\r", b"error: A ref must not contain invalid bytes or ascii control characters: \"\\r\""),
    (b"path .git\\x", b"error: Path separators like / or \\ are not allowed"),
];

#[test]
fn answers_lines(rt: HostRuntime) {
    expect_lines(&rt, b"", LINES);
}

/// Names, and the same repaired.
#[rattlefmt::skip]
const REPAIRS: &[(&[u8], &[u8])] = &[
    (b"", b"-"), (b"///", b"-"), (b".", b"-"), (b"..", b"-"), (b"a.", b"a-"),
    (b"a..b", b"a.b"), (b"/a//b/", b"a/b"), (b"a./b", b"a./b"), (b"a/.lock", b"a/-lock"),
    (b"a//.lock", b"a/-lock"), (b"a.lock.lock", b"a"), (b"a.lock/b.lock", b"a/b"),
    (b"x.lock..", b"x.lock-"), (b"@{", b"@-"), (b"@..{", b"@.{"), (b"@", b"-"),
    (b"@/@", b"@/@"), (b"*.lock", b"-"), (b"\x00\x7F", b"--"), (b"\xC3\xA9", b"\xC3\xA9"),
];

#[test]
fn sanitizes_names(rt: HostRuntime) {
    expect_lines(&rt, b"sanitize ", REPAIRS);
}

/// The kinds of line, in the order of the results below.
#[rattlefmt::skip]
const KINDS: [&[u8]; 9] = [
    b"tag ", b"partial ", b"ref ", b"branch ", b"submodule ", b"path ", b"symlink ", b"device ", b"sanitize ",
];

const TAG_EMPTY: &[u8] = b"error: A ref must not be empty";

const TAG_DOT: &[u8] = b"error: A ref must not start with a '.'";

const TAG_TILDE: &[u8] =
    b"error: A ref must not contain invalid bytes or ascii control characters: \"~\"";

const TAG_SLASH: &[u8] =
    b"error: A ref must not contain invalid bytes or ascii control characters: \"\\\\\"";

const REF_EMPTY: &[u8] = b"error: Reference name cannot be empty";

const REF_DOT: &[u8] = b"error: Reference name cannot start with a dot";

const REF_TILDE: &[u8] = b"error: Reference name contains invalid byte: \"~\"";

const REF_SLASH: &[u8] = b"error: Reference name contains invalid byte: \"\\\\\"";

const LOWERCASE: &[u8] = b"error: Standalone references must be all uppercased, like 'HEAD'";

const AT: &[u8] = b"error: Reference name is reserved and cannot be used: \"@\"";

const HEAD: &[u8] = b"error: Reference name is reserved and cannot be used: \"refs/heads/HEAD\"";

const NO_NAME: &[u8] = b"error: Submodule names cannot be empty";

const PARENT: &[u8] = b"error: Submodules names must not contains '..'";

const NO_PATH: &[u8] = b"error: A path component must not be empty";

const SEPARATOR: &[u8] = b"error: Path separators like / or \\ are not allowed";

const DEVICE: &[u8] = b"error: Windows device-names may have side-effects and are not allowed";

const GIT: &[u8] = b"error: The .git name may never be used";

const MODULES: &[u8] = b"error: The .gitmodules file must not be a symlink";

/// Names, and the result for each kind. Every two kinds have different results for one of the
/// names. Without one of its protections `path` would accept `a\b`, `.git` with an ignored
/// character, or `git~1`. `symlink` would also accept one of three names for `.gitmodules`, which
/// `path` accepts.
#[rattlefmt::skip]
const ANSWERS: &[(&[u8], [&[u8]; 9])] = &[
    (b"", [TAG_EMPTY, REF_EMPTY, REF_EMPTY, REF_EMPTY, NO_NAME, NO_PATH, NO_PATH, b"no", b"-"]),
    (b"@", [b"ok", AT, AT, AT, b"ok", b"ok", b"ok", b"no", b"-"]),
    (b"main", [b"ok", b"ok", LOWERCASE, LOWERCASE, b"ok", b"ok", b"ok", b"no", b"main"]),
    (b"refs/heads/HEAD", [b"ok", b"ok", b"ok", HEAD, b"ok", SEPARATOR, SEPARATOR, b"no", b"refs/heads/HEAD"]),
    (b"a/../b", [TAG_DOT, REF_DOT, REF_DOT, REF_DOT, PARENT, SEPARATOR, SEPARATOR, b"no", b"a/-/b"]),
    (b"nul.txt", [b"ok", b"ok", LOWERCASE, LOWERCASE, b"ok", DEVICE, DEVICE, b"yes", b"nul.txt"]),
    (b"a\\b", [TAG_SLASH, REF_SLASH, REF_SLASH, REF_SLASH, b"ok", SEPARATOR, SEPARATOR, b"no", b"a-b"]),
    (b".g\xE2\x80\x8Cit", [TAG_DOT, REF_DOT, REF_DOT, REF_DOT, b"ok", GIT, GIT, b"no", b"-g\xE2\x80\x8Cit"]),
    (b"git~1", [TAG_TILDE, REF_TILDE, REF_TILDE, REF_TILDE, b"ok", GIT, GIT, b"no", b"git-1"]),
    (b".gitmodules", [TAG_DOT, REF_DOT, REF_DOT, REF_DOT, b"ok", b"ok", MODULES, b"no", b"-gitmodules"]),
    (b".gitmodules\xE2\x80\x8D", [TAG_DOT, REF_DOT, REF_DOT, REF_DOT, b"ok", b"ok", MODULES, b"no", b"-gitmodules\xE2\x80\x8D"]),
    (b"gitmod~1", [TAG_TILDE, REF_TILDE, REF_TILDE, REF_TILDE, b"ok", b"ok", MODULES, b"no", b"gitmod-1"]),
];

#[test]
fn answers_by_the_rule_of_the_kind(rt: HostRuntime) {
    for (name, answers) in ANSWERS {
        expect_kinds(&rt, name, answers);
    }
}

/// Panics if for this name and a kind something other than its result is printed.
fn expect_kinds(rt: &(impl Abort + AllocGlobal), name: &[u8], answers: &[&[u8]; 9]) {
    for (kind, answer) in KINDS.iter().zip(answers) {
        expect_line(rt, (kind, name), answer);
    }
}

/// A reader that fails.
#[derive(Drop)]
struct Broken;

impl Read for Broken {
    fn read(&mut self, _buf: &mut [u8]) -> io::Result<usize> {
        Err(io::Error::from(ErrorKind::ConnectionReset))
    }
}

/// A writer that accepts bytes while it has room, and then fails. It can be flushed `flushes`
/// times.
#[derive(Drop)]
pub struct Device<'a> {
    room: &'a mut [u8],
    flushes: usize,
}

impl<'a> Device<'a> {
    pub fn new(room: &'a mut [u8], flushes: usize) -> Device<'a> {
        Device { room, flushes }
    }
}

impl Write for Device<'_> {
    fn write(&mut self, buf: &[u8]) -> io::Result<usize> {
        if self.room.is_empty() {
            return Err(io::Error::from(ErrorKind::StorageFull));
        }
        self.room.write(buf)
    }

    fn flush(&mut self) -> io::Result<()> {
        let can_flush = self.flushes > 0;
        self.flushes = self.flushes.wrapping_sub(1);
        can_flush
            .then_some(())
            .ok_or(io::Error::from(ErrorKind::BrokenPipe))
    }
}

#[test]
fn prints_the_rows(rt: HostRuntime) {
    for (input, output) in INPUTS {
        expect_printed(&rt, input, output);
    }
}

#[test]
fn prints_each_byte(rt: HostRuntime) {
    for byte in 0..=255 {
        expect_byte(&rt, &[byte]);
    }
}

/// Checks what is printed for this byte, alone and as a tag.
fn expect_byte(rt: &(impl Abort + AllocGlobal), byte: &[u8]) {
    expect_printed(rt, byte, b"unknown kind\n");
    let name = byte.strip_suffix(b"\n").unwrap_or(byte);
    expect_printed(
        rt,
        &joined(rt, &[b"tag ", byte]),
        of_tag(rt, name).as_bytes(),
    );
}

/// The result for a tag, as the library says it.
fn of_tag(rt: &(impl Abort + AllocGlobal), name: &[u8]) -> String {
    let answer = match tag::name(BStr::new(name)) {
        Ok(_) => format!(in rt.alloc(); "ok\n"),
        Err(fault) => format!(in rt.alloc(); "error: {fault}\n"),
    };
    answer.expect(rt, "memory")
}

#[test]
fn accepts_a_long_name(rt: HostRuntime) {
    for len in [10_000, 3_000_000] {
        let name = b"a".repeat(rt.alloc(), len).expect(&rt, "memory");
        expect_long(&rt, &joined(&rt, &[b"tag ", &name]), b"ok\n");
    }
}

#[test]
fn answers_many_lines(rt: HostRuntime) {
    let input = ROWS.0.repeat(rt.alloc(), 20_000).expect(&rt, "memory");
    assert!(rt; input.len() > 2_000_000);
    let wanted = ROWS.1.repeat(rt.alloc(), 20_000).expect(&rt, "memory");
    expect_long(&rt, &input, &wanted);
}

#[test]
fn reports_failed_reads(rt: HostRuntime) {
    for k in 0..=ROWS.0.len() {
        expect_failed_read(&rt, &ROWS.0[..k]);
        expect_printed(&rt, ROWS.0, ROWS.1);
    }
}

/// Panics unless a run fails, and nothing is written, if reading fails after these bytes.
fn expect_failed_read(rt: &(impl Abort + AllocGlobal), front: &[u8]) {
    let mut written = Vec::new(rt.alloc());
    let result = run(rt.alloc(), &mut front.chain(Broken), &mut written);
    assert!(rt; matches!(result, Err(RunError::Read)) && written.is_empty());
}

#[test]
fn reports_failed_writes(rt: HostRuntime) {
    let mut room = [0; 512];
    assert!(rt; ROWS.1.len() <= room.len());
    for k in 0..ROWS.1.len() {
        expect_failed_write(&rt, &mut room[..k]);
        expect_printed(&rt, ROWS.0, ROWS.1);
    }
}

/// Panics unless a run fails if writing fails after so many bytes, and the next run succeeds, which
/// has nothing to write.
fn expect_failed_write(rt: &(impl Abort + AllocGlobal), room: &mut [u8]) {
    let mut device = Device::new(room, 1);
    let result = run(rt.alloc(), &mut &*ROWS.0, &mut device);
    assert!(rt; matches!(result, Err(RunError::Write)));
    run(rt.alloc(), &mut io::empty(), &mut device).expect(rt, "a run");
}

#[test]
fn flushes_once(rt: HostRuntime) {
    expect_flushes(&rt, ROWS.0, 1);
    expect_flushes(&rt, TAGS.0, 1);
    expect_flushes(&rt, b"\n", 1);
    expect_flushes(&rt, b"", 0);
    expect_printed(&rt, ROWS.0, ROWS.1);
}

/// Panics unless a run flushes so often what it writes for the input, and fails if it can't.
fn expect_flushes(rt: &(impl Abort + AllocGlobal), input: &[u8], flushes: usize) {
    assert!(rt; flushes_left(rt, input, flushes) == 0);
    assert!(rt; fails_to_flush(rt, input) == (flushes == 1));
}

/// How many of so many flushes a run leaves.
fn flushes_left(rt: &(impl Abort + AllocGlobal), input: &[u8], flushes: usize) -> usize {
    let mut room = [0; 512];
    let mut device = Device::new(&mut room, flushes);
    run(rt.alloc(), &mut &*input, &mut device).expect(rt, "a run");
    device.flushes
}

/// Whether a run fails that can't flush.
fn fails_to_flush(rt: &impl AllocGlobal, input: &[u8]) -> bool {
    let mut room = [0; 512];
    let result = run(rt.alloc(), &mut &*input, &mut Device::new(&mut room, 0));
    matches!(result, Err(RunError::Write))
}

#[test]
fn prints_each_error(rt: HostRuntime) {
    expect_text(&rt, &RunError::Read, "read failed");
    expect_text(&rt, &RunError::Memory, "out of memory");
    expect_text(&rt, &RunError::Write, "write failed");
}

/// Panics if the error prints something else.
fn expect_text(rt: &(impl Abort + AllocGlobal), error: &RunError, text: &str) {
    let came = error.to_string(rt.alloc()).expect(rt, "memory");
    assert!(rt; came.as_str() == text);
}
