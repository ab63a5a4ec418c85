//! What was read of a text, with its instances by their numbers.

ghost use Rattle.std.specs.Prelude.{◌≡◌, true, IfOk, OnOk};
ghost use Rattle.fws_ipfw.specs.FileText.{by_number, fresh_text, has_nat, with_nat, with_rule};

use fws_ipfw::{IpfwConfig, IpfwDraft, IpfwNat, IpfwRule};
use fws_num::{Items, Memory};
use indexmap::IndexSet;
use std::alloc::Global;
use std::marker::Model;

/// What was read of a text. Contracts see the draft; the numbers are those of its instances.
#[derive(Drop)]
pub(crate) struct Progress {
    draft: IpfwDraft,
    numbers: IndexSet<u32>,
}

impl Model for Progress {
    ghost use Rattle.std.specs.Prelude.{◌≡◌, ℕ, nat_eq};
    ghost use Rattle.std.specs.List.{list_any};
    ghost use Rattle.fws_ipfw.specs.declared.draft.IpfwDraft.{IpfwDraft};
    ghost use Rattle.fws_ipfw.specs.FileText.{has_nat};

    ghost Value = { IpfwDraft };

    ghost view = { λ p. p.draft };

    ghost invariant = { λ p. (n : ℕ) → list_any (nat_eq n) p.numbers.keys ≡ has_nat p.draft.nats n };
}

/// The rules by their numbers, those with equal ones in the order of their entry.
fn by_number(rules: Items<IpfwRule>) -> Result<Items<IpfwRule>, Memory>
    ensures { IfOk result (λ sorted. sorted ≡ by_number rules) }
{
    let mut rules = rules.into_vec();
    rules.sort_by_key(|rule| rule.number)?;
    Ok(Items::from_vec(rules))
}

/// The configuration of a draft.
fn config_of(draft: IpfwDraft) -> Result<IpfwConfig, Memory>
    ensures { IfOk result (λ c. c ≡ record { rules = by_number draft.rules; nats = draft.nats }) }
{
    let rules = by_number(draft.rules)?;
    Ok(IpfwConfig {
        rules,
        nats: draft.nats,
    })
}

impl Progress {
    /// What was read ahead of the first line.
    pub(crate) fn new(alloc: Global) -> Progress
        ensures { result ≡ fresh_text }
    {
        Progress {
            draft: IpfwDraft {
                begun: false,
                greatest: 0,
                redirects: 0,
                rules: Items::new(alloc),
                nats: Items::new(alloc),
            },
            numbers: IndexSet::new(alloc),
        }
    }

    /// Whether a line other than `flush` was read.
    pub(crate) fn is_begun(&self) -> bool
        ensures { result ≡ self.now.begun }
    {
        self.draft.begun
    }

    /// Notes that a line other than `flush` was read.
    pub(crate) fn begin(&mut self)
        ensures { self.new ≡ record self.old { begun = true } }
    {
        self.draft.begun = true;
    }

    /// The greatest number of a rule so far, or 0.
    pub(crate) fn greatest(&self) -> u32
        ensures { result ≡ self.now.greatest }
    {
        self.draft.greatest
    }

    /// The redirects of the instances that rules name so far.
    pub(crate) fn redirects(&self) -> u64
        ensures { result ≡ self.now.redirects }
    {
        self.draft.redirects
    }

    /// Whether an instance has this number.
    pub(crate) fn has_nat(&self, number: u32) -> bool
        ensures { result ≡ has_nat self.now.nats number }
    {
        self.numbers.contains(&number)
    }

    /// Puts a rule behind the others, and so many redirects are named by then.
    pub(crate) fn put_rule(&mut self, rule: IpfwRule, redirects: u64) -> Result<(), Memory>
        ensures { OnOk result (self.new ≡ with_rule rule redirects self.old) }
    {
        let number = rule.number;
        self.draft.rules.put(rule)?;
        self.draft.begun = true;
        self.draft.greatest = self.draft.greatest.max(number);
        self.draft.redirects = redirects;
        Ok(())
    }

    /// Puts an instance behind the others.
    pub(crate) fn put_nat(&mut self, nat: IpfwNat) -> Result<(), Memory>
        ensures { OnOk result (self.new ≡ with_nat nat self.old) }
    {
        let number = nat.number;
        self.numbers.reserve(1)?;
        self.draft.nats.put(nat)?;
        self.numbers.insert(number)?;
        self.draft.begun = true;
        Ok(())
    }

    /// The configuration of what was read.
    pub(crate) fn into_config(self) -> Result<IpfwConfig, Memory>
        ensures { IfOk result (λ c. c ≡ record { rules = by_number self.rules; nats = self.nats }) }
    {
        config_of(self.draft)
    }
}
