//! Faults of the outside: reads and writes that fail.
use crate::calls::{Given, WORDS};
use crate::checks::check;
use crate::hello_file::HELLO_FILE;
use std::test::Fail;

// Which reads and writes fail, the status, what is written, and whether a record is kept. The sink takes 64 bytes, and
// fails at its second call.
const FAULTS: &[(&[u64], &[u64], u8, &str, bool)] = &[
    (&[0], &[], 66, "input: p\n", false),
    (
        &[],
        &[1],
        69,
        "== stdout 6\nhello\n== stderr 0\n== status exit 0\n== run ended\n== d",
        true,
    ),
];

#[test]
fn meets_faults_of_the_outside(rt: HostRuntime) -> Result<(), Fail> {
    for &(failing_reads, failing_writes, status, written, is_kept) in FAULTS {
        let given = Given {
            words: WORDS,
            program: &HELLO_FILE,
            input: b"",
            text: b"!fd stdout\n",
            tree: b"",
            failing_reads,
            failing_writes,
        };
        let kept = check(&rt, rt.alloc(), &given, status, written.as_bytes())?;
        assert_eq!(rt; kept.is_some(), is_kept, "{written}");
    }
    Ok(())
}
