//! Sources and sinks that are short, or fail at one call.
use crate::ends::{AT_ONCE, End, FENCED_PUT, FENCED_PUT_REPORT, Pace, USAGE_LINE, end_of};
use command_words::DEFAULT_OPTIONS;
use rma_program::step_main;
use rma_streams::{MemorySink, MemorySource};
use std::process::Abort;
use std::test::Fail;

/// The program ended with this status, and wrote this.
fn compare(rt: &impl Abort, end: &End, status: u8, written: &str) {
    assert_eq!(rt; end.status, status);
    assert_eq!(rt; end.written.as_slice(), written.as_bytes());
}

/// The text of 127 bytes is read in eight reads of 16 bytes, and a ninth tells the end: there is no tenth.
#[test]
fn each_read_fails_in_turn(rt: HostRuntime) -> Result<(), Fail> {
    for failing in 1..11u64 {
        let reads = Pace { piece: 16, failing };
        let end = end_of(rt.alloc(), &[], FENCED_PUT, reads, AT_ONCE)?;
        if failing < 10 {
            compare(&rt, &end, 4, "");
        } else {
            compare(&rt, &end, 0, FENCED_PUT_REPORT);
        }
        assert_eq!(rt; end.has_run, failing == 10);
    }
    Ok(())
}

/// The report of 107 bytes goes in 14 writes of 8 bytes, and the line of refused words, of 78 bytes, in ten. What stands
/// before the one that fails is a front of the text.
#[test]
fn each_write_fails_in_turn(rt: HostRuntime) -> Result<(), Fail> {
    let refused = ["--mode=walk"];
    for (words, text, writes, status) in [
        ([].as_slice(), FENCED_PUT_REPORT, 14, 0),
        (refused.as_slice(), USAGE_LINE, 10, 2),
    ] {
        for failing in 1..16u64 {
            let pace = Pace { piece: 8, failing };
            let end = end_of(rt.alloc(), words, FENCED_PUT, AT_ONCE, pace)?;
            if failing <= writes {
                assert_eq!(rt; end.status, 5);
                assert!(rt; text.as_bytes().starts_with(end.written.as_slice()));
                assert_eq!(rt; end.written.len() as u64, 8 * (failing - 1));
            } else {
                compare(&rt, &end, status, text);
            }
            assert_eq!(rt; end.has_run, status == 0);
        }
    }
    Ok(())
}

#[test]
fn bytes_come_and_go_one_by_one(rt: HostRuntime) -> Result<(), Fail> {
    let alloc = rt.alloc();
    let bytes = Vec::from_slice(alloc, FENCED_PUT.as_bytes())?;
    let mut source = MemorySource::new(bytes, 1, Vec::new(alloc));
    let mut sink = MemorySink::with_room(alloc, 4096, 1, Vec::new(alloc))?;
    let outcome = step_main(alloc, &DEFAULT_OPTIONS, &mut source, &mut sink);
    assert_eq!(rt; outcome.status, 0);
    assert_eq!(rt; sink.bytes(), FENCED_PUT_REPORT.as_bytes());
    assert!(rt; outcome.run.is_some());
    Ok(())
}
