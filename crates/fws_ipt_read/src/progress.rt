//! What was read of a text, with its chains by their names.

ghost use Rattle.std.specs.Prelude.{◌≡◌, ◌&&◌, [], ◌∷◌, ◌++◌, map, Option, Some, None, IfOk, OnOk, OnErr};
ghost use Rattle.std.specs.List.{list_any};
ghost use Rattle.fws_ipt.specs.FileText.{fresh_text, is_section, is_hook, opened_at, with_chain, with_other, with_rule};
ghost use Rattle.fws_ipt.specs.RuleText.{chain_from};
ghost use Rattle.fws_ipt_read.specs.Keys.{key_of};

use crate::chain_names::ChainNames;
use crate::hooks::{is_hook, is_section};
use fws_ipt::{Hook, IptChain, IptConfig, IptDraft, IptRule, IptTable, OtherChain, Section};
use fws_num::{Items, Memory, Text};
use std::alloc::Global;
use std::marker::Model;
use std::mem;

/// What was read of a text. Contracts see the draft; the names are those of its chains.
#[derive(Drop)]
pub(crate) struct Progress {
    draft: IptDraft,
    names: ChainNames,
}

impl Model for Progress {
    ghost use Rattle.std.specs.Prelude.{◌≡◌, map};
    ghost use Rattle.fws_ipt.specs.declared.draft.IptDraft.{IptDraft};
    ghost use Rattle.fws_ipt_read.specs.Keys.{key_of};

    ghost Value = { IptDraft };

    ghost view = { λ p. p.draft };

    ghost invariant = { λ p. p.names ≡ map key_of p.draft.chains };
}

/// Puts the rule behind those of the chain with this number.
fn put_rule(chains: &mut [IptChain], n: usize, rule: IptRule) -> Result<(), Memory>
    ensures ok { OnOk result (chains.new ≡ with_rule n rule chains.old) }
    ensures keys { map key_of chains.new ≡ map key_of chains.old }
{
    if n >= chains.len() {
        return Ok(());
    }
    let chain = &mut chains[n];
    chain.rules.put(rule)?;
    Ok(())
}

/// Puts a chain without rules behind the others.
fn put_chain(
    alloc: Global,
    chains: &mut Items<IptChain>,
    table: IptTable,
    name: &[u8],
    policy: Option<bool>,
) -> Result<(), Memory>
    ensures ok { OnOk result (chains.new ≡ chains.old ++ record { table = table; name = name.now; policy = policy; rules = [] } ∷ []) }
    ensures err { OnErr result (chains.new ≡ chains.old) }
{
    let name = Text::of(alloc, name)?;
    chains.put(IptChain {
        table,
        name,
        policy,
        rules: Items::new(alloc),
    })
}

impl Progress {
    /// What was read ahead of the first line.
    pub(crate) fn new(alloc: Global) -> Progress
        ensures { result ≡ fresh_text }
    {
        Progress {
            draft: IptDraft {
                opened: Items::new(alloc),
                within: None,
                chains: Items::new(alloc),
                others: Items::new(alloc),
            },
            names: ChainNames::new(alloc),
        }
    }

    /// The table that is open.
    pub(crate) fn within(&self) -> Option<Section>
        ensures { result ≡ self.now.within }
    {
        self.draft.within
    }

    /// Whether the table was opened before.
    pub(crate) fn has_opened(&self, section: Section) -> bool
        ensures { result ≡ list_any (is_section section) self.now.opened }
    {
        self.draft
            .opened
            .as_slice()
            .iter()
            .any(|opened| is_section(section, *opened))
    }

    /// Opens the table.
    pub(crate) fn open(&mut self, section: Section) -> Result<(), Memory>
        ensures { OnOk result (self.new ≡ opened_at section self.old) }
    {
        self.draft.opened.put(section)?;
        self.draft.within = Some(section);
        Ok(())
    }

    /// Closes the table.
    pub(crate) fn close(&mut self)
        ensures { self.new ≡ record self.old { within = None } }
    {
        self.draft.within = None;
    }

    /// The number of the chain of the table with this name. Fails if memory runs out.
    pub(crate) fn find(
        &self,
        alloc: Global,
        table: IptTable,
        name: &[u8],
    ) -> Result<Option<u32>, Memory>
        ensures { IfOk result (λ n. n ≡ chain_from 0 table name.now self.now.chains) }
    {
        Ok(self.names.find(alloc, table, name)?)
    }

    /// Whether this built-in chain of raw or security was declared.
    pub(crate) fn has_other(&self, section: Section, hook: Hook) -> bool
        ensures { result ≡ list_any (λ other. is_section section other.section && is_hook hook other.hook) self.now.others }
    {
        self.draft.others.as_slice().iter().any(|other| is_section(section, other.section)
            && is_hook(hook, other.hook))
    }

    /// Declares a chain that isn't there.
    pub(crate) fn declare(
        &mut self,
        alloc: Global,
        table: IptTable,
        name: &[u8],
        policy: Option<bool>,
    ) -> Result<(), Memory>
        requires { chain_from 0 table name.now self.old.chains ≡ None }
        ensures { OnOk result (self.new ≡ with_chain table name.now policy self.old) }
    {
        self.names.put(alloc, table, name)?;
        match put_chain(alloc, &mut self.draft.chains, table, name, policy) {
            Ok(()) => Ok(()),
            Err(wanting) => {
                self.names.remove_last();
                Err(wanting)
            }
        }
    }

    /// Declares a built-in chain of raw or security.
    pub(crate) fn declare_other(&mut self, section: Section, hook: Hook) -> Result<(), Memory>
        ensures { OnOk result (self.new ≡ with_other section hook self.old) }
    {
        self.draft.others.put(OtherChain { section, hook })
    }

    /// Puts the rule behind those of the chain with this number. Fails if memory runs out.
    pub(crate) fn append(&mut self, alloc: Global, n: u32, rule: IptRule) -> Result<(), Memory>
        ensures { OnOk result (self.new ≡ record self.old { chains = with_rule n rule self.old.chains }) }
    {
        let mut chains = mem::replace(&mut self.draft.chains, Items::new(alloc)).into_vec();
        let put = put_rule(chains.as_mut_slice(), n as usize, rule);
        self.draft.chains = Items::from_vec(chains);
        put
    }

    /// The configuration of the chains.
    pub(crate) fn into_config(self) -> IptConfig
        ensures { result ≡ record { chains = self.chains } }
    {
        IptConfig {
            chains: self.draft.chains,
        }
    }
}
