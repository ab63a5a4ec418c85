//! Texts, lists, numbers, words and lines: what every other crate reads and writes with.
#![tactic(auto)]

mod comments;
mod compared;
mod dividing;
mod items;
mod laws;
mod lines;
mod memory;
mod named;
mod numbers;
mod prefix;
mod prefixes;
mod protocols;
mod services;
mod spelling;
mod text;
mod word;

pub use comments::{Comments, is_punctuation};
pub use dividing::pieces;
pub use items::Items;
pub use laws::{
    addresses_are_dotted, behind_is_shorter, decimals_are_read, joined_are_divided, lines_are_read,
    numbers_are_digits, pieces_are_joined, prefixes_are_read, quads_are_dotted, splits_back,
    texts_are_read, words_are_read,
};
pub use lines::{Line, Lines, is_indented, next_number, read_lines, without_carriage_return};
pub use memory::Memory;
pub use named::value_named;
pub use numbers::{read_dec, read_quad, split_once};
pub use prefix::Prefix;
pub use prefixes::read_prefix;
pub use protocols::{read_ios_protocol, read_protocol};
pub use services::{read_port, read_ports_between};
pub use spelling::{put_dec, put_quad};
pub use text::Text;
pub use word::{Word, are_sound, is_blank, words};
