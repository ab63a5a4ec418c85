//! What the dialects of pf share: statements, macros, values and lists, tables, flags and tags, as pf.conf(5) writes them.
#![tactic(auto)]

mod addresses;
mod blocks;
mod choices;
mod circles;
mod defined;
mod defining;
mod drawing;
mod flags;
mod items;
mod known;
mod known_uses;
mod limits;
mod lists;
mod long_value;
mod macros;
mod members;
mod ports;
mod protocols;
mod setting;
mod skipped;
mod statements;
mod table_draft;
mod tables;
mod tags;
mod values;
mod ways;

pub use addresses::modified;
pub use blocks::maps_blocks;
pub use choices::{choice_of, implied_flags};
pub use defined::{define, value_defined};
pub use defining::table_defined;
pub use drawing::Drawing;
pub use flags::read_flags;
pub use items::begins_with_digit;
pub use known::Tables;
pub use known_uses::{KnownUses, Source};
pub use limits::{expanded_by, expanded_with, place_size, times};
pub use lists::ItemList;
pub use long_value::{LongValue, Spot};
pub use macros::{
    Macros, front_words, is_definition, is_use, last_joined, meant, name_defined,
    nothing_is_joined, split_name, used_text, value_behind,
};
pub use members::{KnownTable, empty_table, with_members};
pub use protocols::{has_port_protocol, has_protocol};
pub use setting::{Names, Setting, TableList};
pub use skipped::with_skipped;
pub use statements::{is_mark, read_statements};
pub use table_draft::{LongTable, fresh_table, table_step};
pub use tables::part_set;
pub use tags::Tags;
pub use values::{has_ended, is_any_mark};
pub use ways::{Way, Ways};
