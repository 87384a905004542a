// What is done at the nodes of a table's tree: entries worked out afresh and moved, a full node parted, a poor one mended, a cell put in and
// taken out below a node. The root and the calls are the crate tree's.
#![tactic(auto)]

pub mod afresh;
pub mod free;
pub mod mend;
pub mod part;
pub mod put;
pub mod shift;
pub mod take;
