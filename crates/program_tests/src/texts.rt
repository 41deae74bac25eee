//! Texts that are refused by their first fault.
use crate::ends::{AT_ONCE, end_of};
use std::test::Fail;

#[test]
fn texts_are_refused_by_their_first_fault(rt: HostRuntime) -> Result<(), Fail> {
    for (text, line) in [
        ("", "script 1 shape\n"),
        ("ranks 17\n", "script 1 limit\n"),
        ("ranks 2\nspace 0 65536\nspace 1 1\n", "script 3 limit\n"),
        ("rank 0\n", "script 1 shape\n"),
        ("r\u{e4}nks 1\n", "script 1 word\n"),
        ("ranks x\n", "script 1 number\n"),
        ("ranks 2\nrank 0\nallocate w0 4", "script 3 shape\n"),
        ("ranks 1\nrank 0\nPUT w0 0 0 int32 1\n", "script 3 word\n"),
        ("ranks 1\nrank 0\nallocate w32 4 4\n", "script 3 name\n"),
        ("ranks 1\nrank 0\nput w0 0 0 int64 1\n", "script 3 type\n"),
        (
            "ranks 1\nrank 0\nacc w0 0 0 int32 plus 1\n",
            "script 3 op\n",
        ),
        (
            "ranks 1\nrank 0\nput w0 0 0 int32 +5\n",
            "script 3 number\n",
        ),
        (
            "ranks 1\nrank 0\nrepeat 65536\nbarrier\nend\nbarrier\n",
            "script 6 limit\n",
        ),
    ] {
        let end = end_of(rt.alloc(), &[], text, AT_ONCE, AT_ONCE)?;
        assert_eq!(rt; end.status, 3, "{text}");
        assert_eq!(rt; end.written.as_slice(), line.as_bytes(), "{text}");
        assert!(rt; !end.has_run, "{text}");
    }
    Ok(())
}
