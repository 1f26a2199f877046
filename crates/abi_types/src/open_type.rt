//! Types of opens, by what their descriptors may do.

/// What an open is, as far as the rights of its descriptors go. Standard input is `Reading`, standard output and standard
/// error are `Writing`, as the ends of a pipe are.
#[derive(Clone, Copy, Debug, PartialEq, Eq)]
pub enum OpenType {
    File,
    Directory,
    Reading,
    Writing,
    Stream,
    Process,
}
