//! How a command ends.

/// How a command ended. The exit status is the number of the variant.
#[derive(Clone, Copy, Debug, PartialEq, Eq)]
pub enum Status {
    /// 0: the answer was written.
    Ok,
    /// 1: the policy can't be placed on the target.
    NotPlaceable,
    /// 2: the words are no form of the command line.
    Usage,
    /// 3: a file was refused.
    Refused,
    /// 4: a file couldn't be read.
    ReadFault,
    /// 5: the output couldn't be written.
    WriteFault,
    /// 6: out of memory, and nothing was written.
    Memory,
}
