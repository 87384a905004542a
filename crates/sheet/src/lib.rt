// The sheet: a table's clock and live cells as bytes.
#![tactic(auto)]

pub mod bytes;
pub mod header;
pub mod judge;
pub mod record;
