//! The records of a tree document: what each says, the text that encodes it, and a reader of the record at the front of a text.
//!
//! A tree document encodes the nodes of a file tree. It has four kinds of records, each of one line or two:
//! `dir PATH`; `file LEN PATH` and the file's LEN bytes; `link LEN PATH` and the LEN bytes of a symlink's text; and
//! `hard LEN PATH` and the LEN bytes that write the path of an earlier `file` record, for one more name of that file. A line
//! feed ends each of the lines. In a path, bytes below 0x20, 0x7f and `%` are written `%` and two hexadecimal digits.
#![tactic(auto)]

pub mod limits;

pub use fault::{Malformed, Read};
pub use laws::no_encoding_begins_another;
pub use limits::{MOST_NAME_BYTES, MOST_PATH_BYTES, MOST_TEXT_BYTES};
pub use path::Path;
pub use reading::read_record;
pub use record::Record;
pub use writing::{push_dir, push_file, push_hard, push_link};

mod escapes;
mod fault;
mod laws;
mod path;
mod pieces;
mod reading;
mod record;
mod writing;
