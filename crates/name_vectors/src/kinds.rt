//! The kinds of names in `git_names`: worked names, the offset of each error, and suggestions.

use crate::agree::{expect, expect_valid, options};
use crate::table::{Table, rows, settings_of};
use crate::text::Host;
use bstr::BStr;
use git_names::{Fault, Kind, check, suggest};

/// The names of each kind, among submodule names disguised ones from the tests of other programs.
/// Before them are settings, as those of `rows`, and the error, as `Debug` prints it, at its offset.
/// For a valid name there is no error.
#[rattlefmt::skip]
const KINDS: &[(Kind, Table)] = &[
    (Kind::Branch, b"\
        ----|main,a/b-,@,a/HEAD,refs/heads/main\n\
        ---- Short(Name(Reserved { name: [72, 69, 65, 68] })) at 0|HEAD\n\
        ---- Short(StartsWithDash) at 0|-d,-/a\n\
        ---- Short(Name(LockFileSuffix)) at 5|topic.lock,topic.lock/a\n\
        ---- Short(Name(InvalidByte { byte: 32 })) at 2|my branch,-d e\n\
        ---- Short(Name(EndsWithDot)) at 3|abc.\n\
        ---- Short(Name(Empty)) at 0|\n"),
    (Kind::BranchRef, b"\
        ----|refs/heads/main,HEAD,refs/tags/v1\n\
        ---- Reference(SomeLowercase) at 0|main,mAIN\n"),
    (Kind::Tag, b"\
        ----|v1.2.3,a/b,@\n\
        ---- Short(Name(Reserved { name: [72, 69, 65, 68] })) at 0|HEAD\n\
        ---- Short(StartsWithDash) at 0|-d\n"),
    (Kind::Reference, b"\
        ----|HEAD,refs/heads/main,notrefs/foo\n\
        ---- Reference(SomeLowercase) at 4|HEAD1,HEADs\n\
        ---- Reference(Reserved { name: [64] }) at 0|@\n"),
    (Kind::Partial, b"\
        ----|main,a/b\n\
        ---- Reference(LockFileSuffix) at 1|x.lock/y,x.lock,a.lock/b.lock\n"),
    (Kind::TagName, b"\
        ----|v1.0,@,HEAD,-d\n\
        ---- TagName(RepeatedDot) at 3|v1..2,v1...\n"),
    (Kind::SafeRef, b"\
        ----|refs/heads/main,HEAD,FETCH_HEAD,_,refs/heads/aux,refs/a./b\n\
        whn-|refs/heads/main,HEAD,ORIG_HEAD,refs/stash\n\
        ---- SafeRef(OutsideRefs) at 0|notrefs/foo,hooks/post-update,objects/info/alternates\n\
        ---- SafeRef(Name(SomeLowercase)) at 0|config,refs\n\
        ---- SafeRef(Name(StartsWithDot)) at 5|refs/../foo,refs/.git\n\
        w-n- SafeRef(Piece(InvalidPart { offset: 11, error: WindowsReservedName })) at 11|refs/heads/aux,refs/heads/con.a/b\n\
        w-n- SafeRef(Piece(InvalidPart { offset: 5, error: WindowsIllegalCharacter })) at 6|refs/a./b,refs/a|b,refs/a>/b\n\
        --n- SafeRef(Name(InvalidByte { byte: 126 })) at 8|refs/git~1\n\
        -h-- SafeRef(Piece(InvalidPart { offset: 5, error: DotGitDir })) at 5|refs/\xE2\x80\x8C.git\n"),
    (Kind::Path, b"\
        whn-|src/main.rs,.gitmodules\n\
        w-n- Path(InvalidPart { offset: 4, error: WindowsIllegalCharacter }) at 5|src/a?b/c,src/a. /d\n\
        ---- Path(EmptyPart { offset: 4 }) at 4|src/,src//a\n\
        ---- Path(Nul { offset: 4 }) at 4|.git\0x,a/bc\0\n"),
    (Kind::Component, b"\
        whn-|a,.gitmodules\n\
        w--- Component(PathSeparator) at 1|a\\b/c,a/b\\c\n\
        ---- Component(PathSeparator) at 3|a\\b/c\n\
        w--- Component(WindowsPathPrefix) at 1|C:a,c:\n\
        w--- Component(WindowsPathPrefix) at 2|\xC3\xA9:a\n\
        w-n- Component(WindowsIllegalCharacter) at 2|ab.,ab ,ab. .,ab?,ab:.\n\
        w-n- Component(WindowsReservedName) at 0|aux.c:1,NUL\n\
        ---- Component(Relative) at 0|.,..\n"),
    (Kind::Symlink, b"\
        whn- Component(SymlinkedGitModules) at 0|.gitmodules,GITMOD~1\n\
        whn-|latest\n"),
    (Kind::SymlinkPath, b"\
        whn- Path(InvalidPart { offset: 2, error: SymlinkedGitModules }) at 2|a/.gitmodules,a/GITMOD~1\n\
        whn-|a/latest,.gitmodules/a\n"),
    (Kind::Submodule, b"\
        ----|a,vendor/lib,/,...,.. ,..:foo,.,C:\\win,a\0b\n\
        whn-|a,vendor/lib,a..b,.a\n\
        ---- Submodule(Name(ParentComponent)) at 2|a/..,a\\..,a/../b\n\
        ---- Submodule(Name(ParentComponent)) at 4|..a/..,a../..\\..,.../..\\a\n\
        ---- Submodule(Name(ParentComponent)) at 0|..,../a,..\\a/..\n\
        ---- Submodule(Name(Empty)) at 0|\n\
        w-n- Submodule(Part(InvalidPart { offset: 0, error: WindowsIllegalCharacter })) at 0|....,.. .,.. \n\
        w-n- Submodule(Part(InvalidPart { offset: 0, error: WindowsIllegalCharacter })) at 2|..:foo,..::$INDEX_ALLOCATION\n\
        w-n- Submodule(Part(InvalidPart { offset: 2, error: WindowsIllegalCharacter })) at 2|a/.. /b\n\
        --n- Submodule(Disguised { offset: 0 }) at 0|.. ,.. .,....,..:foo,..::$INDEX_ALLOCATION\n\
        --n- Submodule(Disguised { offset: 2 }) at 2|a/.. /b,a/ \n\
        -h-- Submodule(Disguised { offset: 0 }) at 0|..\xE2\x80\x8C,\xE2\x80\x8D..,.\xE2\x80\x8E.,\xE2\x80\x8F.\n\
        whn- Submodule(Disguised { offset: 2 }) at 2|a/..\xE2\x80\x8C\n\
        whn- Submodule(Part(InvalidPart { offset: 0, error: Relative })) at 0|.,./a\n\
        w--- Submodule(Part(InvalidPart { offset: 0, error: PathSeparator })) at 2|C:\\win\n\
        -hn- Submodule(Part(Nul { offset: 1 })) at 1|a\0b\n\
        -h-- Submodule(Part(EmptyPart { offset: 2 })) at 2|a/,a//b\n\
        -h-- Submodule(Part(InvalidPart { offset: 2, error: DotGitDir })) at 2|a/.git\n"),
];

#[test]
fn checks_names_of_each_kind(rt: HostRuntime) {
    for (kind, table) in KINDS {
        for_kind(&rt, *kind, table);
    }
}

fn for_kind(rt: &impl Host, kind: Kind, table: Table) {
    for (wanted, name) in &rows(rt, table) {
        let (settings, wanted) = settings_of(rt, wanted);
        expect_kind(rt, kind, (settings, name), wanted);
    }
}

/// Checks the result for a name, and the offset of its error.
fn expect_kind(rt: &impl Host, kind: Kind, call: (&str, &[u8]), wanted: &'static [u8]) {
    match check(kind, BStr::new(call.1), options(call.0)) {
        Ok(name) => expect_valid(rt, call, (wanted, b""), name.as_bytes()),
        Err(fault) => expect(rt, call, wanted, printed(rt, &fault).as_bytes()),
    }
}

/// The error, as `Debug` prints it, and its offset.
fn printed(rt: &impl Host, fault: &Fault) -> String {
    let text = format!(in rt.alloc(); "{:?} at {}", fault.reason, fault.offset);
    text.expect(rt, "memory")
}

/// The suggestion for each name, or nothing.
#[rattlefmt::skip]
const SUGGESTIONS: Table = b"\
    main|main\n\
    a--b|a--b\n\
    @|@\n\
    Fix-it's-done|Fix: it's done..\n\
    feature/ABC-x]-done|feature/ABC: [x] done?\n\
    hidden|.hidden\n\
    x|x.lock.\n\
    leading-and-trailing|  leading and trailing  \n\
    a-b|-a--b,a - b\n\
    main@-1}|main@{1}\n\
    a.b.c|a...b..c\n\
    a/b/c|a//b/./c/\n\
    a/b.LOCK|/a.lock.lock-.lock/b.LOCK\n\
    lock|.lock\n\
    lock/x-y|-.lock/x*y\n\
    |HEAD.,@ ,HEAD,,~,...,/,./-/~^.\n\
    \xC3\xA9-\xFF|\xC3\xA9\0\xFF\n";

#[test]
fn suggests_a_branch_name(rt: HostRuntime) {
    for (wanted, name) in &rows(&rt, SUGGESTIONS) {
        expect_suggestion(&rt, name, wanted);
    }
}

fn expect_suggestion(rt: &impl Host, name: &[u8], wanted: &[u8]) {
    let call = ("suggest", name);
    match suggest(rt.alloc(), BStr::new(name)).expect(rt, "memory") {
        Some(branch) => expect(rt, call, wanted, branch.as_bytes()),
        None => expect(rt, call, wanted, b""),
    }
}
