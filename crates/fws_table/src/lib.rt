//! The texts of tables.
#![tactic(auto)]

mod ask;
mod field;
mod held;
mod lines;
mod outcome_text;
mod query_text;
mod row_text;
mod side_text;
mod table;

pub use ask::Ask;
pub use field::Kind;
pub use query_text::query;
pub use table::put_table;
