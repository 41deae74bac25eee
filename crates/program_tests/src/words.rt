//! From the words of the command line, as the system gives them, to the status.
use crate::ends::{AT_ONCE, FENCED_PUT, FENCED_PUT_REPORT, USAGE_LINE, end_of, words_from};
use rma_program::{NoWords, end_without_words, words_of};
use rma_streams::MemorySink;
use std::io;
use std::io::ErrorKind;
use std::test::Fail;

#[test]
fn words_are_accepted_or_refused(rt: HostRuntime) -> Result<(), Fail> {
    for (words, status, written) in [
        (["--mode=step", "--seed", "5"], 0, FENCED_PUT_REPORT),
        (["--delay=end", "--order", "greedy"], 0, FENCED_PUT_REPORT),
        (["--mode=step", "--workers", "0"], 2, USAGE_LINE),
        (["--mode=step", "--mode", "step"], 2, USAGE_LINE),
        (["--seed", "5", "word"], 2, USAGE_LINE),
    ] {
        let end = end_of(rt.alloc(), &words, FENCED_PUT, AT_ONCE, AT_ONCE)?;
        assert_eq!(rt; end.status, status);
        assert_eq!(rt; end.written.as_slice(), written.as_bytes());
    }
    Ok(())
}

/// The first of the system's words is the program's name. Where there are none, a word is no text or memory ran out.
#[test]
fn words_come_from_the_system(rt: HostRuntime) -> Result<(), Fail> {
    let alloc = rt.alloc();
    let all = words_from(alloc, &["rma_runner", "--mode=step"])?;
    let words = words_of(alloc, Ok(all.into_iter())).ok().ok_or("words")?;
    assert!(rt; words.len() == 1 && words[0].as_str() == "--mode=step");
    let none: Vec<String> = Vec::new(alloc);
    let words = words_of(alloc, Ok(none.into_iter())).ok().ok_or("words")?;
    assert!(rt; words.is_empty());
    for (kind, why, status, written) in [
        (ErrorKind::InvalidData, NoWords::NoText, 2, USAGE_LINE),
        (ErrorKind::OutOfMemory, NoWords::NoMemory, 6, ""),
    ] {
        let said = words_of(alloc, Err(io::Error::from(kind)));
        assert!(rt; matches!(said, Err(found) if found == why));
        let mut sink = MemorySink::with_room(alloc, 4096, 4096, Vec::new(alloc))?;
        assert_eq!(rt; end_without_words(why, &mut sink).status, status);
        assert_eq!(rt; sink.bytes(), written.as_bytes());
    }
    Ok(())
}
