//! What a stage or a part shows to its rules, and the verdict with which it begins, as words spell them; and on which way
//! of packets it lies.

use crate::stop::Stop;
use fws_num::Word;

/// A way of packets.
#[derive(Clone, Copy)]
pub enum Way {
    /// That of arriving packets, before they are routed.
    Arrive,
    /// Then that of those that are delivered.
    Deliver,
    /// Then that of those that are forwarded.
    Forward,
    /// That of packets of the host itself.
    Send,
}

/// The names of ways.
pub const WAYS: [(&[u8], Way); 4] = [
    (b"arrive", Way::Arrive),
    (b"deliver", Way::Deliver),
    (b"forward", Way::Forward),
    (b"send", Way::Send),
];

/// What is shown, and the verdict at the beginning.
#[derive(Clone, Copy)]
pub struct Shown {
    /// Whether the receiving interface is seen.
    pub recv: bool,
    /// Whether the sending interface is seen.
    pub xmit: bool,
    /// Whether the packet is seen as one that leaves.
    pub outward: bool,
    /// The verdict; true is accept.
    pub end: bool,
}

/// Whether a word is one of what can be shown.
fn is_shown(word: &Word) -> bool {
    word.is(b"recv") || word.is(b"xmit") || word.is(b"outward")
}

/// Whether one of the words is this one.
fn has_word(words: &[Word], wanted: &[u8]) -> bool {
    for word in words {
        if word.is(wanted) {
            return true;
        }
    }
    false
}

/// What words show: `recv`, `xmit` or `outward`, and behind these `accept` or `drop` for the verdict.
pub fn shown_of(words: &[Word]) -> Result<Shown, Stop> {
    let [shown @ .., end] = words else {
        return Err(Stop::Malformed);
    };
    let accepts = end.is(b"accept");
    if !accepts && !end.is(b"drop") {
        return Err(Stop::Malformed);
    }
    for word in shown {
        if !is_shown(word) {
            return Err(Stop::Malformed);
        }
    }
    let shown = Shown {
        recv: has_word(shown, b"recv"),
        xmit: has_word(shown, b"xmit"),
        outward: has_word(shown, b"outward"),
        end: accepts,
    };
    Ok(shown)
}
