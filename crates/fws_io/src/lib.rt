//! The outside of the program: where files come from and where text goes.
#![tactic(auto)]

mod contents;
mod faults;
mod mem_shelf;
mod mem_sink;
mod shelf;
mod sink;
mod std_shelf;
mod std_sink;
mod sure_shelf;
mod sure_sink;
mod turns;

pub use mem_shelf::MemShelf;
pub use mem_sink::MemSink;
pub use shelf::{Shelf, ShelfAnswer};
pub use sink::{Failed, Sink, write_all};
pub use std_shelf::StdShelf;
pub use std_sink::StdSink;
pub use sure_shelf::SureShelf;
pub use sure_sink::SureSink;
