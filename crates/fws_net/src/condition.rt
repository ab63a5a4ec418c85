//! Conditions of rules.

ghost use Rattle.std.specs.Prelude.{◌≡◌, [], ◌∷◌, ◌++◌, IfOk, OnOk, OnErr};

use fws_iv::Ivs;
use fws_num::Memory;
use smallvec::SmallVec;
use std::alloc::Global;
use std::marker::Model;

/// A test of what a rule sees of a packet.
#[derive(Drop, Default)]
pub enum Test {
    /// The source address is a member.
    Src(Ivs),
    /// The destination address is a member.
    Dst(Ivs),
    /// The protocol is TCP or UDP, and the source port is a member.
    Sport(Ivs),
    /// The protocol is TCP or UDP, and the destination port is a member.
    Dport(Ivs),
    /// The protocol is a member.
    Proto(Ivs),
    /// The protocol is ICMP, and the type is a member.
    Icmp(Ivs),
    /// The protocol is TCP, and of the flags in the mask just the wanted ones are set.
    Flags {
        /// The flags that are looked at.
        mask: u8,
        /// Those of them that are set.
        want: u8,
    },
    /// The protocol is TCP, and one of these flags is set.
    AnyFlag(u8),
    /// The receiving interface is shown and is a member.
    Recv(Ivs),
    /// The sending interface is shown and is a member.
    Xmit(Ivs),
    /// The interface of the pass is shown and is a member: the sending one where the view is outward,
    /// else the receiving one.
    Via(Ivs),
    /// The packet leaves.
    Outward,
    /// The packet belongs to a tracked connection.
    Est,
    /// The packet has this tag.
    Tag(u32),
    /// It never holds.
    #[default]
    Never,
}

/// A test or its negation.
#[derive(Drop, Default)]
pub struct Lit {
    /// The literal holds exactly where the test doesn't.
    pub not: bool,
    /// The test.
    pub test: Test,
}

/// A condition: literals that all have to hold. Up to four lie in the value itself.
#[derive(Drop)]
pub struct Cond {
    lits: SmallVec<Lit, 4, Global>,
}

impl Model for Cond {
    ghost use Rattle.std.specs.Prelude.{List};
    ghost use Rattle.fws_net.specs.declared.condition.Lit.{Lit};

    ghost Value = { List Lit };

    ghost view = { λ c. c.lits.items };
}

impl Test {
    /// An equal test. Fails if memory runs out.
    pub fn copy(&self, alloc: Global) -> Result<Test, Memory>
        ensures { IfOk result (λ t. t ≡ self.now) }
    {
        Ok(match self {
            Test::Src(set) => Test::Src(set.copy(alloc)?),
            Test::Dst(set) => Test::Dst(set.copy(alloc)?),
            Test::Sport(set) => Test::Sport(set.copy(alloc)?),
            Test::Dport(set) => Test::Dport(set.copy(alloc)?),
            Test::Proto(set) => Test::Proto(set.copy(alloc)?),
            Test::Icmp(set) => Test::Icmp(set.copy(alloc)?),
            Test::Flags { mask, want } => Test::Flags {
                mask: *mask,
                want: *want,
            },
            Test::AnyFlag(mask) => Test::AnyFlag(*mask),
            Test::Recv(set) => Test::Recv(set.copy(alloc)?),
            Test::Xmit(set) => Test::Xmit(set.copy(alloc)?),
            Test::Via(set) => Test::Via(set.copy(alloc)?),
            Test::Outward => Test::Outward,
            Test::Est => Test::Est,
            Test::Tag(tag) => Test::Tag(*tag),
            Test::Never => Test::Never,
        })
    }
}

impl Lit {
    /// An equal literal. Fails if memory runs out.
    pub fn copy(&self, alloc: Global) -> Result<Lit, Memory>
        ensures { IfOk result (λ lit. lit ≡ self.now) }
    {
        Ok(Lit {
            not: self.not,
            test: self.test.copy(alloc)?,
        })
    }
}

impl Cond {
    /// The condition with no literal, which always holds.
    pub fn new(alloc: Global) -> Cond
        ensures { result ≡ [] }
    {
        Cond {
            lits: SmallVec::new(alloc),
        }
    }

    /// Appends the literal. If memory runs out the condition is as before and the literal is dropped.
    pub fn put(&mut self, lit: Lit) -> Result<(), Memory>
        ensures ok { OnOk result (self.new ≡ self.old ++ lit ∷ []) }
        ensures err { OnErr result (self.new ≡ self.old) }
    {
        self.lits.push(lit)?;
        Ok(())
    }

    /// The literals.
    pub fn lits(&self) -> &[Lit]
        ensures { result.now ≡ self.now }
    {
        self.lits.as_slice()
    }

    /// An equal condition. Fails if memory runs out.
    pub fn copy(&self, alloc: Global) -> Result<Cond, Memory>
        ensures { IfOk result (λ c. c ≡ self.now) }
    {
        let mut cond = Cond::new(alloc);
        for lit in self.lits() {
            cond.put(lit.copy(alloc)?)?;
        }
        Ok(cond)
    }
}
