//! The names of commands.

/// A command, without what it is asked.
#[derive(Clone, Copy, Debug, PartialEq, Eq)]
pub enum CommandName {
    /// `synth`: a table.
    Synth,
    /// `query`: rows of it.
    Query,
    /// `translate`: the policy in another language.
    Translate,
    /// `trace`: what becomes of packets.
    Trace,
    /// `why`: by which rules.
    Why,
    /// `run`: what becomes of events.
    Run,
    /// `same`: a comparison.
    Same,
    /// `dead`: rules that no packet uses.
    Dead,
    /// `load`: a generated policy.
    Load,
    /// `site2`: a site in its second form.
    SecondForm,
}
