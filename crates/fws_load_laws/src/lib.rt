//! What the texts of the generator spell: a site and filters that no reader refuses.
#![tactic(auto)]

mod laws;

pub use laws::{load_configs_are_not_refused, load_site_is_read, load_texts_are_read};
