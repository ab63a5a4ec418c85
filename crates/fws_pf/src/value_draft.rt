//! What was read so far of a value, or of a list of values in braces (pf.conf(5)).

use fws_iv::Ivs;
use fws_num::{Items, Text};

/// What a value is.
#[derive(Clone, Copy, Debug, PartialEq, Eq)]
pub enum ValueKind {
    /// An interface, which `!` may negate.
    Interface,
    /// A protocol.
    Protocol,
    /// Addresses of a rule, which `!` may negate.
    Host,
    /// Addresses of a table, which nothing may negate, in a list that may be empty.
    Member,
    /// Ports.
    Port,
    /// A type of ICMP messages.
    IcmpType,
}

/// The numbers that a value has.
#[derive(Drop)]
pub enum Part {
    /// Every one.
    Every,
    /// These.
    Set(Ivs),
    /// The addresses of the table with this name.
    Table(Text),
}

/// A value of a list, or one that stands alone.
#[derive(Drop)]
pub struct Item {
    /// Whether it is negated.
    pub negated: bool,
    /// The numbers that it has.
    pub part: Part,
}

/// How a port is compared.
#[derive(Clone, Copy, Debug, PartialEq, Eq)]
pub enum Operator {
    /// `=`
    Equal,
    /// `!=`
    Unequal,
    /// `<`
    Less,
    /// `<=`
    AtMost,
    /// `>`
    Greater,
    /// `>=`
    AtLeast,
}

/// What the next word of a value is taken for.
#[derive(Clone, Copy, Debug, PartialEq, Eq)]
pub enum ValueExpects {
    /// A value, or the brace before a list.
    Value,
    /// The first value of a list.
    First,
    /// A value of a list, behind a comma.
    Item,
    /// Behind a value of a list: a comma, the brace behind the list, or a further value.
    Next,
    /// What `!` negates.
    Negated,
    /// The name of a table, behind `<`.
    TableName,
    /// `>` behind the name of a table.
    TableEnd,
    /// The name of an interface in parentheses.
    FaceName,
    /// The parenthesis behind the name of an interface.
    FaceEnd,
    /// Behind this address: `-`, or what stands behind a value.
    RangeSign(u32),
    /// The address with which the range ends that begins with this one.
    RangeEnd(u32),
    /// The port that an operator compares with.
    Operand(Operator),
    /// Behind this port: `><`, `<>`, or what stands behind a value.
    PortSign(u16),
    /// The port behind `<>`, or else behind `><`, and the one before it.
    PortEnd(bool, u16),
    /// Nothing: the value has ended.
    Nothing,
}

/// What was read so far of a value.
#[derive(Drop)]
pub struct ValueDraft {
    /// What it is.
    pub kind: ValueKind,
    /// What its next word is taken for.
    pub expects: ValueExpects,
    /// Whether it is a list.
    pub in_list: bool,
    /// Whether what is read now is negated.
    pub negated: bool,
    /// What was read, in its order.
    pub items: Items<Item>,
}
