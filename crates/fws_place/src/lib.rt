//! When a system can hold a policy.
#![tactic(auto)]

mod ack_ahead;
mod ack_flags;
mod apart;
mod asking;
mod breach;
mod by_ack;
mod checking;
mod clause;
mod crossing;
mod delivering;
mod drops_ahead_of_lookup;
mod drops_always;
mod drops_by_one_view;
mod drops_no_established;
mod exact;
mod few_outcomes;
mod few_redirects;
mod first_true;
mod gathering;
mod ios_laws;
mod ipfw_laws;
mod keeps_delivered_sources;
mod keeps_destinations;
mod keeps_host_destinations;
mod keeps_source_ports;
mod laws;
mod lost;
mod named_two;
mod naming;
mod one_destination;
mod one_end;
mod one_host_source;
mod one_source;
mod outgoing;
mod passes_host;
mod pf_laws;
mod point;
mod redirect;
mod seeing;
mod tells_by_ack_alone;
mod true_near;
mod values;
mod writes_inside_out;
mod writes_whole_addresses;
mod written_into;

pub use breach::{Breach, Pair, PlaceAnswer};
pub use checking::check;
pub use clause::{Clause, clauses_of};
pub use few_redirects::redirects;
pub use ios_laws::{
    ios_accepted_go_on, ios_ack_ahead, ios_established_by_ack, ios_host_passes,
    ios_keeps_new_packets, ios_new_by_ack, ios_pairs_are_told, ios_sources_agree,
};
pub use ipfw_laws::{ipfw_drops_new_arrivals, ipfw_drops_new_host, ipfw_pairs_are_told};
pub use laws::{
    breaches_refute_fits, fitting_drops_are_seen, fitting_pairs_are_told, lost_pairs_are_dropped,
    points_are_of_pairs, points_are_seen, views_are_told,
};
pub use pf_laws::{
    pf_destinations_agree, pf_host_sources_agree, pf_keeps_new_packets, pf_pairs_pass,
};
pub use point::{ends_at, packet_at};
pub use redirect::{PublicEnd, Redirect};
pub use seeing::{Views, accepted_somewhere, seen};
