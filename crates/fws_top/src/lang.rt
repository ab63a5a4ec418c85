//! The languages of configurations.

/// A language in which configurations are read.
#[derive(Clone, Copy, Debug, PartialEq, Eq)]
pub enum SourceLang {
    /// iptables, as iptables-save(8) writes it.
    Iptables,
    /// ipfw, as `ipfw list` and scripts write its rules (ipfw(8)).
    Ipfw,
    /// pf of FreeBSD, as pf.conf(5) writes its rules.
    Pf,
    /// Cisco IOS, as a running configuration writes access lists and NAT.
    Ios,
    /// pf of OpenBSD, as its pf.conf(5) writes its rules.
    Openbsd,
}

/// A language in which policies are written.
#[derive(Clone, Copy, Debug, PartialEq, Eq)]
pub enum TargetLang {
    /// iptables, as iptables-restore(8) loads it.
    Iptables,
    /// ipfw, as ipfw(8) takes its rules line by line.
    Ipfw,
    /// pf of FreeBSD, as pfctl(8) loads its rules.
    Pf,
    /// Cisco IOS, as a running configuration writes access lists and NAT.
    Ios,
}
