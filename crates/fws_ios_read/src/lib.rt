//! Reads running configurations (Cisco IOS).
#![tactic(auto)]

mod begins;
mod definitions;
mod entry;
mod entry_addresses;
mod entry_options;
mod entry_ports;
mod groups;
mod keywords;
mod lines;
mod lists;
mod nat;
mod pool_text;
mod pools;
mod progress;
mod reader;
mod values;

pub use reader::read;
