//! What rules see of the points of a tree.
#![tactic(auto)]

mod field;
mod laws;
mod node_laws;
mod seen;

pub use field::{PacketField, packet_field};
pub use laws::{
    left_sets_are_open, open_kids_are_reached, reached_values_are_told, relabelled_trees_are_told,
    seen_fields_agree, seen_points_are_topped, unseen_fields_are_open,
};
pub use node_laws::{cut_nodes_part_values, kids_stand_before, leaf_nodes_are_leaves};
pub use seen::Seen;
