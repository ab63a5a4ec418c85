//! The words of entries (Cisco IOS).

/// How a port is compared.
#[derive(Clone, Copy, Debug, PartialEq, Eq)]
pub enum PortWord {
    /// `eq`
    Equal,
    /// `neq`
    Unequal,
    /// `lt`
    Less,
    /// `gt`
    Greater,
    /// `range`
    Range,
}
