//! Runs: what becomes of packets one after the other, while they open connections and connections expire.
#![tactic(auto)]

mod chunks;
mod events;
mod laws;
mod listing;
mod reading;
mod running;
mod spelling;

pub use chunks::Chunk;
pub use events::{Answer, Event};
pub use laws::{run_lines_are_trace_lines, runs_keep_step, runs_keep_step_at_sites};
pub use listing::Listed;
pub use reading::read_events;
pub use running::Run;
pub use spelling::put_run;
