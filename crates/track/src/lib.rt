// Storm cells and queries as numbers, and the test whether a track meets a query.
#![tactic(auto)]

pub mod cell;
pub mod interval;
pub mod meeting;
pub mod minute;
pub mod queries;
pub mod range;
pub mod refusal;
pub mod report;
