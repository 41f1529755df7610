//! Submodule names in a `.gitmodules` file: that reading them can succeed, and what an error
//! prints. (The contract says what is returned.)

use crate::agree::{expect_bool, expect_display};
use crate::text::Host;
use gitmodules::submodule_names;

#[test]
fn reads_the_names_of_a_file(rt: HostRuntime) {
    let file = b"[submodule \"a\"]\n[core]\n [SubModule\t\"b\\/c\"] # old\n";
    let names = submodule_names(rt.alloc(), file).expect(&rt, "two names");
    expect_bool(&rt, ("two names", file), true, names.len() == 2);
}

#[test]
fn refuses_the_first_section_whose_name_is_invalid_or_unreadable(rt: HostRuntime) {
    expect_refused(
        &rt,
        b"[submodule \"a\"]\n[submodule \"..\"]\n[submodule.b]\n",
        b"the section at offset 16: Submodules names must not contains '..'",
    );
    expect_refused(
        &rt,
        b"[core]\n[submodule.b]\n",
        b"the section at offset 7 can't be read",
    );
}

/// Checks what the error of a file prints.
fn expect_refused(rt: &impl Host, file: &[u8], wanted: &[u8]) {
    let error = submodule_names(rt.alloc(), file).err();
    let error = error.expect(rt, "an error");
    expect_display(rt, ("submodule_names", file), wanted, &error);
}
