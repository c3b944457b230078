//! The calls of the worked rows, each refused for want of memory before it is answered.

use super::growths::{Growth, refusals};
use jg_test_rows::setups::TWO_MODULES;
use jg_test_rows::{
    access, collections, critical_regions, exceptions, frames, globals, natives, object_fields,
    owners, releases, sessions, strings,
};
use linked_list_allocator::LocalHeap;
use std::alloc::Global;
use std::test::Fail;

/// Rows, with the mode of the setup that their history is under, and with what else it states.
const ROWS: [(&str, &str, &str, &str); 20] = [
    ("attach_no_ops", "deny", "", sessions::ATTACH_NO_OPS),
    ("first_two_rules", "deny", "", sessions::FIRST_TWO_RULES),
    (
        "local_against_global",
        "deny",
        "",
        globals::LOCAL_AGAINST_GLOBAL,
    ),
    (
        "result_out_of_frame",
        "deny",
        "",
        frames::RESULT_OUT_OF_FRAME,
    ),
    ("pending", "deny", "", exceptions::PENDING),
    (
        "nested_critical",
        "deny",
        "",
        critical_regions::NESTED_CRITICAL,
    ),
    ("release_modes", "deny", "", releases::RELEASE_MODES),
    (
        "pin_through_global",
        "deny",
        "",
        critical_regions::PIN_THROUGH_GLOBAL,
    ),
    ("weak_cleared", "deny", "", collections::WEAK_CLEARED),
    ("monitors", "deny", "", owners::MONITORS),
    ("modified_utf8", "deny", "", strings::MODIFIED_UTF8),
    ("first_path", "deny", "", strings::FIRST_PATH),
    (
        "pin_through_weak",
        "deny",
        "",
        critical_regions::PIN_THROUGH_WEAK,
    ),
    (
        "frame_of_other_activation",
        "deny",
        TWO_MODULES,
        natives::FRAME_OF_OTHER_ACTIVATION,
    ),
    (
        "leave_cuts_frames",
        "deny",
        TWO_MODULES,
        natives::LEAVE_CUTS_FRAMES,
    ),
    ("access", "deny", TWO_MODULES, access::ACCESS_DENIED),
    ("access", "warn", TWO_MODULES, access::ACCESS_WARNED),
    ("access", "allow", TWO_MODULES, access::ACCESS_ALLOWED),
    ("fields", "deny", TWO_MODULES, object_fields::FIELDS),
    (
        "chain_and_leaks",
        "deny",
        TWO_MODULES,
        collections::CHAIN_AND_LEAKS,
    ),
];

/// How often the calls of the row's text are refused; each is answered later.
fn refusals_in<'a>(
    heap: &LocalHeap,
    alloc: Global,
    setup: &'a str,
    text: &'a str,
    full: bool,
) -> Result<usize, Fail> {
    let mut count = 0usize;
    for (first, call) in text.lines().enumerate() {
        let growth = Growth {
            setup,
            full,
            opening: text,
            first,
            further: "",
            earlier: "",
            times: 0,
            call,
        };
        count = count.saturating_add(refusals(heap, alloc, growth)?);
    }
    Ok(count)
}

/// The same first as their growths are refused in turn, and then where the journal's block is full.
fn refusals_under(
    heap: &LocalHeap,
    alloc: Global,
    mode: &str,
    modules: &str,
    text: &str,
) -> Result<(usize, usize), Fail> {
    let setup = format!(in alloc; "version = 1\nillegal_native_access = \"{mode}\"\n{modules}")?;
    let growing = refusals_in(heap, alloc, setup.as_str(), text, false)?;
    let full = refusals_in(heap, alloc, setup.as_str(), text, true)?;
    Ok((growing, full))
}

#[test]
fn every_growth_in_the_rows_is_refused_in_turn(rt: HostRuntime) -> Result<(), Fail> {
    let heap = LocalHeap::new(rt.alloc(), 1_000_000)?;
    for (name, mode, modules, text) in ROWS {
        let (growing, full) = refusals_under(&heap, rt.alloc(), mode, modules, text)?;
        assert!(rt;
            growing > 0 && full == text.lines().count(),
            "in {name}, {mode}: {growing}, {full}"
        );
    }
    Ok(())
}
