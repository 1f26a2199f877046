//! Why a text is no record.
use lists::Stop;

/// No record stands at the front of the text.
#[derive(Clone, Copy, Drop)]
pub struct Malformed;

/// What is read, or why it isn't.
pub type Read<T> = Result<T, Stop<Malformed>>;
