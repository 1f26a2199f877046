//! Command lines, as far as no run shows what they come to.
use crate::calls::{Given, REPORT, answered};
use crate::checks::check;
use crate::hello_file::HELLO_FILE;
use launch_run::Finished;
use std::test::Fail;

// Words, and the status and the text that they come to on the first program: not even the name of the running program, and
// an empty one.
const COMMAND_LINES: &[(&[&str], u8, &str)] = &[
    (&[], 2, "words: refused\n"),
    (&["", "p"], 0, REPORT),
];

#[test]
fn takes_command_lines(rt: HostRuntime) -> Result<(), Fail> {
    for &(words, status, written) in COMMAND_LINES {
        let given = Given::new(words, &HELLO_FILE, b"!fd stdout\n");
        check(&rt, rt.alloc(), &given, status, written.as_bytes())?;
    }
    Ok(())
}

// The last bytes of the key of the launch that is kept.
fn kept_key(finished: &Finished) -> Option<(u8, u8)> {
    let key = &finished.kept.as_ref()?.launch.constants.key;
    Some((key[30], key[31]))
}

const WITH_KEY: &[&str] = &[
    "run",
    "--key=000102030405060708090a0b0c0d0e0f101112131415161718191a1b1c1d1eFF",
    "p",
];

// The key of a command line is that of the launch that is kept.
#[test]
fn keeps_the_key(rt: HostRuntime) -> Result<(), Fail> {
    let given = Given::new(WITH_KEY, &HELLO_FILE, b"!fd stdout\n");
    let (finished, _sink) = answered(&rt, rt.alloc(), &given)?;
    assert_eq!(rt; kept_key(&finished), Some((30, 255)));
    Ok(())
}
