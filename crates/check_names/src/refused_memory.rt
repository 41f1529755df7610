//! Runs in which an allocation fails. `tests/memory` builds these tests once, makes the same
//! allocation of each fail, and counts what they print.
//!
//! A test is named after the allocation of a run that fails in it. It first makes as many
//! allocations of its own as it takes for this one to be the one that fails.

use crate::check::{RunError, run};
use crate::tests::{Device, ROWS, expect_printed, printed};
use std::process::Abort;

/// Makes allocations until the given one of the run is the one that fails. Then runs with a writer
/// that doesn't allocate, and once more if an allocation of the run fails.
fn run_with_refused(rt: &(impl Abort + AllocGlobal + Print), request: usize) {
    for _ in request..8 {
        Vec::from_slice(rt.alloc(), b" ").expect(rt, "memory");
    }
    let mut room = [0; 512];
    match run(rt.alloc(), &mut &*ROWS.0, &mut Device::new(&mut room, 1)) {
        Ok(()) => {
            assert!(rt; room.starts_with(ROWS.1));
            println!(rt; "run: answered").expect(rt, "output");
        }
        Err(stop) => {
            assert!(rt; room == [0; 512]);
            expect_stopped(rt, &stop);
        }
    }
}

/// Prints why a run stopped, and runs once more.
fn expect_stopped(rt: &(impl Abort + AllocGlobal + Print), stop: &RunError) {
    println!(rt; "run: {stop}").expect(rt, "output");
    expect_printed(rt, ROWS.0, ROWS.1);
}

/// If the writer is a vector, it makes the last allocation.
#[test]
fn growing_writer(rt: HostRuntime) {
    match printed(rt.alloc(), ROWS.0) {
        Ok(_) => expect_printed(&rt, ROWS.0, ROWS.1),
        Err(stop) => expect_stopped(&rt, &stop),
    }
}

#[test]
fn request_1(rt: HostRuntime) {
    run_with_refused(&rt, 1);
}

#[test]
fn request_2(rt: HostRuntime) {
    run_with_refused(&rt, 2);
}

#[test]
fn request_3(rt: HostRuntime) {
    run_with_refused(&rt, 3);
}

#[test]
fn request_4(rt: HostRuntime) {
    run_with_refused(&rt, 4);
}

#[test]
fn request_5(rt: HostRuntime) {
    run_with_refused(&rt, 5);
}

#[test]
fn request_6(rt: HostRuntime) {
    run_with_refused(&rt, 6);
}

#[test]
fn request_7(rt: HostRuntime) {
    run_with_refused(&rt, 7);
}

#[test]
fn request_8(rt: HostRuntime) {
    run_with_refused(&rt, 8);
}
