//! Short branch names and whole paths: worked names, and what docs/RULES.md gives for each.

use crate::agree::{
    expect, expect_bool, expect_debug, expect_display, expect_error, expect_valid, mode, options,
};
use crate::printed::{branch_texts, component_texts, path_texts, printed, reference_texts};
use crate::reference::{Fault, VALID, of_references};
use crate::rows::{expect_joined, part};
use crate::table::{Table, first_word, rows, settings_of};
use crate::text::{Host, joined};
use bstr::BStr;
use git_names::{PathError, ShortName, ShortNameError};

/// The error, and what is quoted after its text; and the names.
#[rattlefmt::skip]
const SHORT_NAMES: Table = b"\
    |main,a/b-,a-,@,@/-,a/-b,a/HEAD,HEAD/a,head,HEADS,FETCH_HEAD\n\
    |refs/heads/main,refs/heads/HEAD,a./b,a.LOCK,\xC3\xA9,\xFF\n\
    Reserved HEAD|HEAD\n\
    StartsWithDash|-,-d,--,-/a,-HEAD,-lock\n\
    Empty|\n\
    EndsWithSlash|/,a/,-/,HEAD/\n\
    StartsWithSlash|/a,/HEAD,/-\n\
    RepeatedSlash|a//b,-//b\n\
    InvalidByte  |my branch,- \n\
    InvalidByte ~|main~1,-~\n\
    Asterisk|*,-*\n\
    ReflogPortion|@{-1},@{u},main@{1},-@{\n\
    RepeatedDot|..,a..b,-..\n\
    StartsWithDot|.,.a,a/.b,.lock\n\
    EndsWithDot|a.,-.\n\
    LockFileSuffix|main.lock,-.lock\n";

/// Checks what the function returns for a short name.
fn expect_short(rt: &impl Host, text: &[u8], fault: Fault<'_>) {
    let call = ("short_name", text);
    match git_names::branch(BStr::new(text)) {
        Ok(name) => expect_valid(rt, call, fault, name.as_bytes()),
        Err(error) => expect_short_error(rt, call, fault, &error),
    }
}

/// Checks the error, which prints the text of the error in it.
fn expect_short_error(
    rt: &impl Host,
    call: (&str, &[u8]),
    fault: Fault<'_>,
    error: &ShortNameError,
) {
    let texts = match error {
        ShortNameError::Name(error) => {
            expect_error(rt, call, (reference_texts(), fault), error);
            reference_texts()
        }
        ShortNameError::StartsWithDash => {
            expect(rt, call, fault.0, b"StartsWithDash");
            branch_texts()
        }
    };
    expect_display(rt, call, &printed(rt, texts, fault), error);
}

/// Each name is valid if and only if the second implementation accepts it as one.
#[test]
fn checks_short_names(rt: HostRuntime) {
    for (wanted, name) in &rows(&rt, SHORT_NAMES) {
        let fault = first_word(wanted);
        expect_short(&rt, name, fault);
        expect_bool(
            &rt,
            ("short_name", name),
            is_short(&rt, name),
            fault == VALID,
        );
    }
}

/// Whether the second implementation accepts `refs/heads/` followed by this name as a branch name,
/// and the name doesn't start with a dash.
fn is_short(rt: &impl Host, name: &[u8]) -> bool {
    let full = joined(rt, &[b"refs/heads/", name]);
    of_references(&full)[3] == VALID && !name.starts_with(b"-")
}

/// What is printed of a short name, and its full name.
#[test]
fn accepts_a_short_name(rt: HostRuntime) {
    let name = ShortName::new(BStr::from("topic/a")).expect(&rt, "a short name");
    let wanted = b"ShortName { name: \"topic/a\" }";
    expect_debug(&rt, ("Debug", b"topic/a"), wanted, &name);
    expect_display(&rt, ("Display", b"topic/a"), b"topic/a", &name);
    let full = git_names::full_name(rt.alloc(), name);
    expect_joined(&rt, ("full_name", b"topic/a"), b"refs/heads/topic/a", full);
}

#[test]
fn refuses_a_short_name_with_a_dash_first(rt: HostRuntime) {
    let is_refused = ShortName::new(BStr::from("-d")).is_err();
    expect_bool(&rt, ("refused", b"-d"), true, is_refused);
}

/// Settings, as those of `rows`; the error, and the offset of the part that has it; and the paths. For
/// a valid path there is no error, and no offset.
#[rattlefmt::skip]
const PATHS: Table = b"\
    whns|src/main.rs,a,a/b/c/d,.gitmodules/a,a/.gitignore,.git2/x\n\
    whn-|.gitmodules,a/.gitmodules\n\
    ----|git~1/CON/c:,a\\b/.git /\xFF\n\
    whn- EmptyPart 0|,/,//,/a,//a,/.git\n\
    whn- EmptyPart 2|a/,a//,a//b,a//.git,a//b/\n\
    ---- EmptyPart 13|src/lib/core/,src/lib/core//x\n\
    ---- EmptyPart 18|a-longer-folder16/,a-longer-folder16//x\n\
    ---- Nul 4|.git\0x,.git\0,.git\0/b\0,src/\0\n\
    w--- Nul 1|a\0b\n\
    -hns Nul 18|a-longer-folder16/\0\n";

/// The same for paths with an invalid component.
#[rattlefmt::skip]
const PATHS_OF_COMPONENTS: Table = b"\
    whns SymlinkedGitModules 0|.gitmodules\n\
    whns SymlinkedGitModules 2|a/.gitmodules,a/GITMOD~1\n\
    ---- Relative 0|.,..,./a,../a,.//\n\
    ---- Relative 2|a/.,a/..,a/../b,a/..//b\n\
    ---- DotGitDir 0|.git,.GIT/config\n\
    ---- DotGitDir 4|src/.git,src/.git/NUL,src/.git//\n\
    w--- PathSeparator 2|a/b\\c,a/b\\c/.git\n\
    w--- WindowsPathPrefix 0|c:/a,c:/.git\n\
    w-n- WindowsReservedName 4|src/NUL,src/aux.c/b\n\
    w-n- WindowsIllegalCharacter 16|0123456789abcde/a?b/.git\n\
    --n- DotGitDir 16|0123456789abcde/git~1\n\
    --n- DotGitDir 34|0123456789abcdef/0123456789abcdef/git~1/x\n\
    -h-- DotGitDir 2|a/.g\xE2\x80\x8Cit/x\n\
    w-n- WindowsIllegalCharacter 2|a/.git\0x\n";

/// Checks what the function returns for a path under these settings.
fn expect_whole(rt: &impl Host, call: (&str, &[u8]), (error, offset): Fault<'static>) {
    let fault: Fault<'_> = (error, b"");
    match git_names::path(BStr::new(call.1), mode(call.0), options(call.0)) {
        Ok(path) => expect_valid(rt, call, fault, path.as_bytes()),
        Err(error) => {
            expect_display(rt, ("the offset", call.1), offset, &error.offset());
            expect_path_error(rt, call, fault, &error);
        }
    }
}

/// Checks the error, which prints the text of the error in it.
fn expect_path_error(rt: &impl Host, call: (&str, &[u8]), fault: Fault<'_>, error: &PathError) {
    let texts = match error {
        PathError::InvalidPart { error, .. } => {
            expect_error(rt, call, (component_texts(), fault), error);
            component_texts()
        }
        PathError::EmptyPart { .. } => {
            expect(rt, call, fault.0, b"EmptyPart");
            path_texts()
        }
        PathError::Nul { .. } => {
            expect(rt, call, fault.0, b"Nul");
            path_texts()
        }
    };
    expect_display(rt, call, &printed(rt, texts, fault), error);
}

#[test]
fn checks_whole_paths(rt: HostRuntime) {
    for_paths(&rt, PATHS);
    for_paths(&rt, PATHS_OF_COMPONENTS);
}

fn for_paths(rt: &impl Host, table: Table) {
    for (wanted, path) in &rows(rt, table) {
        let (settings, error) = settings_of(rt, wanted);
        expect_whole(rt, (settings, path), first_word(error));
    }
}

/// What joins valid components is a valid path.
#[test]
fn checks_a_joined_path(rt: HostRuntime) {
    let parts = [part(&rt, "----", b"src"), part(&rt, "----", b"a.rs")];
    let joined = git_names::join(rt.alloc(), &parts).expect(&rt, "memory");
    expect_whole(&rt, ("whn-", joined.as_bytes()), VALID);
}
