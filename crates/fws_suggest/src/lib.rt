//! Short lists of rules for what diagrams of allowed colours ask for. Nothing is promised of them: who uses one checks it.
#![tactic(auto)]

mod best;
mod cleaning;
mod covers;
mod cubes;
mod forms;
mod grounds;
mod hinting;
mod large;
mod marking;
mod measures;
mod naming;
mod peeling;
mod phrases;
mod plan;
mod prefixes;
mod problem_cuts;
mod problem_ends;
mod problems;
mod rules;
mod running;
mod settings;
mod sizes;
mod small;
mod solving;
mod source_hints;
mod style;
mod tasks;
mod tidying;
mod trimming;
mod widening;

pub use cubes::FlagCube;
pub use forms::Measure;
pub use fws_diagram::{
    Cuts, DPORT, DST, Diagram, ENTRY, FIELDS, FLAGS, ICMP, Mask, Meeting, PROTO, Region, SPORT,
    SRC, STATE, Side, Space, Stop, TAG,
};
pub use marking::{Marked, marks_of, split_by_class};
pub use measures::{Flags, Ports};
pub use naming::interface_name;
pub use phrases::Phrases;
pub use prefixes::{is_network, network_of};
pub use problems::{ACCEPT, DROP, Established, Exit, Policy, Reach};
pub use rules::{List, Rule};
pub use settings::{Settings, System};
pub use sizes::Lent;
pub use solving::{Colour, Task};
pub use style::{Address, AddressForm, Destination, Leaving, Ranges, Style};
pub use tasks::{end_colours, plain_colour, solved, task_for, verdict_task};
pub use tidying::tidied;
