//! Walks over syntax trees: each node of a document comes once, in the order of the source text, and nothing else.
//!
//! - `Reader`: what is called at each node; `read`, `read_document`: a walk that calls it.
//! - `Visitor`: what is called before each node and behind it, and may pass over what is within a node or end the walk;
//!   `walk`, `walk_document`, `walk_all`, `walk_optional`: a walk that calls it.
//! - `NodeRef`: the node that is handed over, one variant a kind. `Walked`: what a walk may begin at, each type of nodes.
//! - `used_variables`: the variables of a node, in order.
#![tactic(auto)]

mod documents;
mod executable;
mod node_ref;
mod reader;
mod type_system;
mod values;
mod variables;
mod visitor;
mod walked;

pub use crate::documents::{read_document, walk_document};
pub use crate::node_ref::NodeRef;
pub use crate::reader::{Reader, read};
pub use crate::variables::used_variables;
pub use crate::visitor::{Ended, Flow, Visitor};
pub use crate::walked::{Walked, walk, walk_all, walk_optional};
