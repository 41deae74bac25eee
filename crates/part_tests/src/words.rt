//! Words as the system gives them.
use command_words::{DEFAULT_OPTIONS, Options, WordsFault, read_words};
use rma_types::{Delay, Order};
use run_texts::Mode;
use std::alloc::{AllocError, Global};
use std::test::Fail;

/// The words of a line, which blanks keep apart.
fn words_of(alloc: Global, line: &str) -> Result<Vec<String>, AllocError> {
    let mut words = Vec::new(alloc);
    for word in line.split(' ') {
        words.push(String::from_str(alloc, word)?)?;
    }
    Ok(words)
}

const ALL_GIVEN: Options = Options {
    mode: Mode::Step,
    order: Order::Reverse,
    workers: 16,
    delay: Delay::Seeded,
    seed: 4294967295,
};

const REFUSED: Result<Options, WordsFault> = Err(WordsFault::Usage);

#[test]
fn words_stand_for_options(rt: HostRuntime) -> Result<(), Fail> {
    let alloc = rt.alloc();
    for (line, wanted) in [
        ("--mode=step", Ok(DEFAULT_OPTIONS)),
        (
            "--mode=step --order reverse --workers 16 --delay=seeded --seed 4294967295",
            Ok(ALL_GIVEN),
        ),
        ("extra", REFUSED),
        ("", REFUSED),
        ("--mode", REFUSED),
        ("--mode walk", REFUSED),
        ("--workers 0", REFUSED),
        ("--workers 17", REFUSED),
        ("--seed 4294967296", REFUSED),
        ("--seed=1 --seed=1", REFUSED),
    ] {
        let words = words_of(alloc, line)?;
        assert!(rt; read_words(alloc, words.as_slice()) == wanted, "{line}");
    }
    Ok(())
}
