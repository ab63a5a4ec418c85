//! What was read so far of a rule, with the names of tags by their places.

ghost use Rattle.std.specs.Prelude.{◌≡◌};
ghost use Rattle.fws_pf.specs.Drafts.{is_translation, passes};

use crate::asked::OptionChoices;
use fws_pf::{Expects, Target, Verb, Way};
use fws_pf_words::{ItemList, LongValue, Tags};

/// What was read so far of a rule: a `RuleDraft`, with the names of tags by their places.
#[derive(Drop)]
pub(crate) struct Draft {
    /// What it does.
    pub(crate) verb: Verb,
    /// Whether `no` stands before it.
    pub(crate) negated: bool,
    /// What its next word is taken for.
    pub(crate) expects: Expects,
    /// What was read so far of the value that its next word belongs to.
    pub(crate) value: LongValue,
    /// Whether `pass` of a translation stands there.
    pub(crate) past: bool,
    /// On which passes it is met.
    pub(crate) way: Way,
    /// Whether `quick` stands there.
    pub(crate) quick: bool,
    /// Its interfaces, as many as its list has; none where it names none. So with the following ones.
    pub(crate) faces: ItemList,
    /// Its protocols.
    pub(crate) protocols: ItemList,
    /// Its sources.
    pub(crate) sources: ItemList,
    /// The ports of its sources.
    pub(crate) source_ports: ItemList,
    /// Its destinations.
    pub(crate) destinations: ItemList,
    /// The ports of its destinations.
    pub(crate) destination_ports: ItemList,
    /// What its options ask for, in their order.
    pub(crate) options: OptionChoices,
    /// Whether `flags` stands there.
    pub(crate) has_flags: bool,
    /// Whether it tests flags.
    pub(crate) tests_flags: bool,
    /// Whether `icmp-type` stands there.
    pub(crate) has_icmp_type: bool,
    /// Whether `keep state`, `modulate state` or `no state` stands there.
    pub(crate) has_state: bool,
    /// Whether it is `no state`.
    pub(crate) stateless: bool,
    /// Whether `tag` stands among its options.
    pub(crate) has_tag: bool,
    /// Whether `tagged` stands among its options.
    pub(crate) has_tagged: bool,
    /// Whether `label` stands there.
    pub(crate) has_label: bool,
    /// The tag that it puts.
    pub(crate) tag: Option<u32>,
    /// What it writes.
    pub(crate) target: Option<Target>,
    /// The names of all tags so far.
    pub(crate) tags: Tags,
}

/// Drops what was read so far of a value.
pub(crate) fn dismiss_value(_value: LongValue) {}

/// Drops the values of a place.
fn dismiss_list(_list: ItemList) {}

/// Drops what options ask for.
fn dismiss_options(_options: OptionChoices) {}

/// Drops the names of tags.
fn dismiss_tags(_tags: Tags) {}

/// Drops what was read so far of a rule: each part in a function of its own, since each function that drops one has to walk
/// through all that it owns.
pub(crate) fn dismiss_draft(d: Draft) {
    dismiss_value(d.value);
    dismiss_list(d.faces);
    dismiss_list(d.protocols);
    dismiss_list(d.sources);
    dismiss_list(d.source_ports);
    dismiss_list(d.destinations);
    dismiss_list(d.destination_ports);
    dismiss_options(d.options);
    dismiss_tags(d.tags);
}

/// Whether it is a translation.
pub(crate) fn is_translation(verb: Verb) -> bool
    ensures { result ≡ is_translation verb }
{
    matches!(verb, Verb::Rdr | Verb::Nat)
}

/// Whether a rule passes packets.
pub(crate) fn passes(verb: Verb) -> bool
    ensures { result ≡ passes verb }
{
    matches!(verb, Verb::Pass)
}
