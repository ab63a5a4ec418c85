//! Short texts of ipfw that may do what tables say. Nothing is promised of them: who uses one checks it.
#![tactic(auto)]

mod again;
mod ahead;
mod answers;
mod bodies;
mod diagrams;
mod ends;
mod instances;
mod lists;
mod ports;
mod redirects;
mod script;
mod sending;
mod single;
mod texts;
mod tight;
mod translations;
mod united;
mod words;
mod working;
mod writer;

pub use texts::suggest;
