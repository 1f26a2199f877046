//! Tree documents: texts that encode the nodes of a file tree, record by record. The crate tree_records has the records.
//!
//! [`read_tree`] gives the tree that a text means, or says where the text is faulty; [`tree_text`] prints a tree. What a text
//! means is defined in `specs/Documents.antt`, and what is printed in `specs/Printing.antt`.
#![tactic(auto)]

pub use fault::TreeDocFault;
pub use laws::{
    a_document_keeps_the_limits, a_launch_may_begin_with_a_document, a_meaning_is_computed,
    a_text_has_one_meaning, what_is_printed_is_a_document, what_is_printed_reads_back,
};
pub use printing::{TreeText, tree_text};
pub use reading::read_tree;

mod building;
mod fault;
mod laws;
mod printed;
mod printing;
mod reading;
mod walking;
