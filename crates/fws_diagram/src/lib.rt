//! Diagrams that say at each point of a space which colours are right there: of fields that are cut into atoms, with sides and regions of
//! atoms, and with walks that ask and change diagrams. Nothing is promised of them: who uses them checks what comes out.
#![tactic(auto)]

mod changes;
mod cursor;
mod cuts;
mod extents;
mod fields;
mod masks;
mod meeting;
mod memo;
mod parting;
mod region;
mod sides;
mod space;
mod stop;
mod walks;
mod words;

pub use cuts::Cuts;
pub use fields::{DPORT, DST, ENTRY, FIELDS, FLAGS, ICMP, PROTO, SPORT, SRC, STATE, TAG};
pub use masks::Mask;
pub use meeting::Meeting;
pub use memo::Pairs;
pub use region::Region;
pub use sides::Side;
pub use space::{Diagram, Space};
pub use stop::Stop;
pub use words::{Lists, word_at};
