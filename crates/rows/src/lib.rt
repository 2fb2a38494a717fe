// Rows of a few items, which are kept in place.
#![tactic(auto)]

mod row;

pub use row::Row;
