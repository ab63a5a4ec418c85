//! Translation lists of Cisco IOS for tables that fit.
#![tactic(auto)]

mod addresses;
mod crossing;
mod listing;
mod lists;
mod parted;
mod parting;
mod picking;
mod sides;
mod translations;

pub use listing::sources_of;
pub use sides::entries_on;
pub use translations::Sources;
