//! Reads iptables-save(8) texts.
#![tactic(auto)]

mod addresses;
mod chain_names;
mod counters;
mod declarations;
mod flags;
mod hooks;
mod icmp_types;
mod keywords;
mod lines;
mod marks;
mod options;
mod places;
mod ports;
mod progress;
mod protocols;
mod reader;
mod rule;
mod states;
mod targets;
mod values;

pub use reader::read;
