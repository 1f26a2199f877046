//! Words, with the settings that they stand for, where no run shows these.
use command_line::{CommandLineFault, LaunchSettings, read_words};
use lists::Stop;
use std::alloc::{AllocError, Global};

// What `p` alone stands for.
const PLAIN: LaunchSettings<'static> = LaunchSettings {
    program: "p",
    tree: None,
    stdin: None,
    workers: 4,
    turns: 100_000,
    key: [0; 32],
    epoch: 0,
    history: false,
};

// 32 bytes as 64 digits of both cases.
const DIGITS: &str = "--key=00112233445566778899aabbccddeeff0123456789ABCDEFfedcba9876543210";

const KEY: [u8; 32] = [
    0x00, 0x11, 0x22, 0x33, 0x44, 0x55, 0x66, 0x77, 0x88, 0x99, 0xaa, 0xbb, 0xcc, 0xdd, 0xee, 0xff,
    0x01, 0x23, 0x45, 0x67, 0x89, 0xab, 0xcd, 0xef, 0xfe, 0xdc, 0xba, 0x98, 0x76, 0x54, 0x32, 0x10,
];

// The name of the running program, which is no option of the run, and words of these texts.
fn words_of(alloc: Global, texts: &[&str]) -> Result<Vec<String>, AllocError> {
    let mut words = Vec::new(alloc);
    words.push(String::from_str(alloc, "--history")?)?;
    for text in texts {
        words.push(String::from_str(alloc, text)?)?;
    }
    Ok(words)
}

// Words, and what they stand for.
const TAKEN: &[(&[&str], LaunchSettings<'static>)] = &[
    (&["p"], PLAIN),
    (
        &["--workers=2", "--", "p"],
        LaunchSettings {
            workers: 2,
            ..PLAIN
        },
    ),
    (
        &["--workers", "64", "p"],
        LaunchSettings {
            workers: 64,
            ..PLAIN
        },
    ),
    (
        &["--turns=1000000000", "p"],
        LaunchSettings {
            turns: 1_000_000_000,
            ..PLAIN
        },
    ),
    (&[DIGITS, "p"], LaunchSettings { key: KEY, ..PLAIN }),
];

// These words are read so.
fn are_read(alloc: Global, texts: &[&str], want: LaunchSettings) -> bool {
    match words_of(alloc, texts) {
        Ok(words) => matches!(read_words(alloc, &words), Ok(settings) if settings == want),
        Err(_) => false,
    }
}

#[test]
fn words(rt: HostRuntime) {
    for &(texts, want) in TAKEN {
        assert!(rt; are_read(rt.alloc(), texts, want), "{texts:?}");
    }
}

// Not even the name of the running program.
#[test]
fn no_words(rt: HostRuntime) {
    assert!(rt; matches!(read_words(rt.alloc(), &[]), Err(Stop::At(CommandLineFault))));
}
