//! Spellings of scripts, and the one canonical text of each, worked out by hand.
use script_printer::script_text;
use script_reader::parse;
use std::test::Fail;

/// Two ranks, of which the first puts two values between two fences and the second loads them.
const PUT: &str =
    "ranks 2\nspace 1 12\nrank 0\nallocate w0 4 4\nfence w0\nput w0 1 0 int32 5 -1\nfence w0\nrank 1\nallocate w0 4 4\nfence w0\nfence w0\nload w0 0 int32 2\n";

/// The same with comments, blank lines, tabs, a carriage return, leading zeros, a block of both ranks, a repeat, and no
/// last line feed.
const PUT_AGAIN: &str =
    "\n# two ranks\r\nranks 02\nspace 1\t12\nspace 0 0\nrank 1 0 # both\n allocate w0 4 4\n\nfence w0\nrank 0\nput w0 1 -0 int32 5 -1\nfence w0\nrank 1\nrepeat 1\nfence w0\nend\nload w0 0 int32 2";

/// Two ranks, of which the second alone has space and calls: the lowest number, assertions, a null target, a request,
/// and values at both ends of a datatype.
const ENDS: &str =
    "ranks 2\nspace 1 16\nrank 1\nallocate w31 -2147483648 4\npost w0 0 -1 nocheck nosucceed\nracc q63 w0 null 8 int8 bxor 127 -128 -1\nbarrier\n";

#[test]
fn a_script_has_one_canonical_text(rt: HostRuntime) -> Result<(), Fail> {
    for (spelling, canonical) in [(PUT, PUT), (PUT_AGAIN, PUT), (ENDS, ENDS)] {
        let script = parse(rt.alloc(), spelling.as_bytes())
            .ok()
            .ok_or("a script")?;
        let text = script_text(rt.alloc(), &script).ok().ok_or("memory")?;
        assert_eq!(rt; text.as_slice(), canonical.as_bytes());
    }
    Ok(())
}
