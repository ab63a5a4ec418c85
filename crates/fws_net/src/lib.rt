//! Packets, sites, and what becomes of a packet.
#![tactic(auto)]

mod answer;
mod cause;
mod classes;
mod condition;
mod connection;
mod draft;
mod exit;
mod faces;
mod holding;
mod line_reader;
mod outcome;
mod packet;
mod points;
mod ports;
mod rewriting;
mod route_sets;
mod routes;
mod sending;
mod sets;
mod shown;
mod site;
mod site_laws;
mod site_lines;
mod site_reader;
mod site_spelling;
mod site_text;
mod site_words;
mod transit;
mod view;
mod written_ends;

pub use answer::{LineFault, TextAnswer};
pub use cause::{Cause, Checks, ReadAnswer, ReadFault, SiteAnswer, SiteCause, SiteFault};
pub use classes::class;
pub use condition::{Cond, Lit, Test};
pub use connection::{Conn, Kind, Rec, Tuple};
pub use exit::Exit;
pub use faces::{LOOPBACK_ADDR, entries_beginning, entry_named, face_addr, face_addrs, face_nets};
pub use holding::holds;
pub use line_reader::{LineReader, first_refused_decides, read_text, read_with, take_lines};
pub use outcome::{End, Fate, Outcome, Rewrite};
pub use packet::{Lang, Packet, State};
pub use points::tops;
pub use ports::{read_address_range, read_addresses_between, read_port_range, read_ports};
pub use route_sets::route_set;
pub use routes::{exit_of, is_local, longest_prefixes_lead, route, routes_are_entries};
pub use sets::{agreeing_set, all_own_set, local_set, prefix_set};
pub use shown::sending_entry;
pub use site::{Address, Iface, Names, RouteLine, Side, Site};
pub use site_laws::{
    first_forms_are_plain, first_forms_route_by_network, read_sites_are_orderly,
    spelled_sites_are_read,
};
pub use site_spelling::put_site;
pub use site_text::read_site;
pub use transit::{Transit, outcome_of};
pub use view::View;
