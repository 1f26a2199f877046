//! Values in one line of a launch file: scalars and what they mean, tags, and flow values. The lines of a file and the
//! values that stand on several of them are of the crate `launch_yaml`.
#![tactic(auto)]

pub use integer::Integer;
pub use mode::Mode;
pub use node::{Node, NodeValue};
pub use node_list::NodeList;
pub use node_pairs::NodePairs;
pub use node_tag::NodeTag;
pub use node_text::NodeText;

pub mod flow;
mod integer;
mod key;
pub mod keys;
mod mode;
mod node;
mod node_list;
mod node_pairs;
mod node_tag;
mod node_text;
pub mod resolution;
pub mod tags;
