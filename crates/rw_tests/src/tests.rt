use crate::commands::{Ends, answer, answer_from, check, check_all};
use crate::computed::{COMPUTED, REFUSED};
use crate::data::{LISTS, OTHER_WORDS};
use crate::documents::PATH;
use crate::examples::EXAMPLES;
use crate::faults::FAULTS;
use crate::limits::LIMITS;
use crate::long::{LONG, check_long};
use crate::rule_faults::RULE_FAULTS;
use crate::runs::RUNS;
use crate::span_faults::{COSPAN_FAULTS, SPAN_FAULTS};
use crate::tables::check_tables;
use rw_app::Status;
use rw_outside::MemSource;
use std::alloc::Global;
use std::test::Fail;

#[test]
fn examples_print_what_is_expected(rt: HostRuntime) -> Result<(), Fail> {
    check_all(&rt, rt.alloc(), &EXAMPLES)
}

#[test]
fn commands_print_what_is_expected(rt: HostRuntime) -> Result<(), Fail> {
    check_all(&rt, rt.alloc(), &LISTS)?;
    check_all(&rt, rt.alloc(), &LIMITS)?;
    check_all(&rt, rt.alloc(), &RUNS)?;
    check_all(&rt, rt.alloc(), &COMPUTED)?;
    check_tables(&rt, rt.alloc(), &REFUSED)
}

#[test]
fn other_words_get_the_usage_line(rt: HostRuntime) -> Result<(), Fail> {
    check_all(&rt, rt.alloc(), &OTHER_WORDS)
}

#[test]
fn the_first_fault_is_told(rt: HostRuntime) -> Result<(), Fail> {
    check_tables(&rt, rt.alloc(), &FAULTS)?;
    check_tables(&rt, rt.alloc(), &RULE_FAULTS)?;
    check_tables(&rt, rt.alloc(), &SPAN_FAULTS)?;
    check_tables(&rt, rt.alloc(), &COSPAN_FAULTS)
}

#[test]
fn long_documents_are_answered(rt: HostRuntime) -> Result<(), Fail> {
    let not_json = "{\"at\":[0,0,0],\"fault\":1,\"section\":\"whole\"}\n";
    check(&rt, rt.alloc(), &["check"], b"\xff", 3, not_json)?;
    check_long(&rt, rt.alloc(), &LONG)
}

/// The edges of the path.
const EDGES: &[u8] = b"{\"matches\":[[0,1,0],[1,2,1]],\"name\":\"edge\"}\n";

/// What comes of listing them where these calls fail, with so much room: the status, and whether the text is held.
fn faulty(
    alloc: Global,
    take: u64,
    put: u64,
    room: usize,
    text: &[u8],
) -> Result<(Status, bool), Fail> {
    let ends = Ends {
        most: 64,
        takes: &[take],
        room,
        puts: &[put],
    };
    answer(alloc, &["matches", "edge"], PATH.as_bytes(), ends, text)
}

/// The number of a call that is never made.
const NEVER: u64 = 1000;

// Each take of the document fails in turn; the one after them is not made.
#[test]
fn takes_that_fail_are_told(rt: HostRuntime) -> Result<(), Fail> {
    let takes = PATH.len() as u64 / 64 + 2;
    for call in 0..takes {
        let told = faulty(rt.alloc(), call, NEVER, 100, b"")?;
        assert!(rt; told == (Status::ReadFault, true), "take {call}");
    }
    assert!(rt; faulty(rt.alloc(), takes, NEVER, 100, EDGES)? == (Status::Done, true));
    Ok(())
}

// The one put fails, and then the room is short by one byte and more.
#[test]
fn puts_that_fail_are_told(rt: HostRuntime) -> Result<(), Fail> {
    assert!(rt; faulty(rt.alloc(), NEVER, 0, 100, b"")? == (Status::WriteFault, true));
    for room in 0..EDGES.len() {
        let told = faulty(rt.alloc(), NEVER, NEVER, room, &EDGES[..room])?;
        assert!(rt; told == (Status::WriteFault, true), "room {room}");
    }
    Ok(())
}

// One byte more than the limit is refused with nothing written.
#[test]
fn long_inputs_are_refused(rt: HostRuntime) -> Result<(), Fail> {
    let alloc = rt.alloc();
    let spaces = vec![in alloc; b' '; 67_108_865]?;
    let mut source = MemSource::new(spaces, 67_108_865, Vec::new(alloc));
    let ends = Ends {
        most: 67_108_865,
        takes: &[],
        room: 100,
        puts: &[],
    };
    let told = answer_from(alloc, &["matches", "edge"], &mut source, ends, b"")?;
    assert!(rt; told == (Status::TooLong, true));
    Ok(())
}
