//! Long texts, made of repeated parts.
use std::alloc::{AllocError, Global};

/// A part of a long text.
pub(crate) enum Part {
    /// A text, so many times.
    Times(&'static str, usize),
    /// The numbers below this one, each between two texts.
    Numbers(&'static str, usize, &'static str),
}

fn push_times(made: &mut String, text: &str, count: usize) -> Result<(), AllocError> {
    for _ in 0..count {
        made.push_str(text)?;
    }
    Ok(())
}

fn push_numbers(
    made: &mut String,
    before: &str,
    count: usize,
    after: &str,
) -> Result<(), AllocError> {
    for number in 0..count {
        write!(made, "{before}{number}{after}")?;
    }
    Ok(())
}

/// The text that these parts are.
pub(crate) fn long_text(alloc: Global, parts: &[Part]) -> Result<String, AllocError> {
    let mut made = String::new(alloc);
    for part in parts {
        match part {
            Part::Times(text, count) => push_times(&mut made, text, *count)?,
            Part::Numbers(before, count, after) => push_numbers(&mut made, before, *count, after)?,
        }
    }
    Ok(made)
}
