// A node: the words of a table's part that is lent for it, its entries, an entry worked out from it, and its entries changed.
#![tactic(auto)]

pub mod change;
pub mod change_at;
pub mod entry;
pub mod made;
pub mod worked;
