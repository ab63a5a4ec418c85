//! What rules see of the packets of a box, and the boxes of an area where their conditions hold.
#![tactic(auto)]

mod address_boxes;
mod area;
mod field_boxes;
mod flag_boxes;
mod holding;
mod interface_boxes;
mod kept;
mod members;
mod numbers;
mod outside;
mod port_boxes;
mod scene;
mod sets;
mod test_boxes;
mod ways;

pub use area::whole_site;
pub use holding::where_holds;
pub use scene::{Scene, Standing};
pub use ways::Ways;
