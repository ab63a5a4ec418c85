//! Words of the languages that texts are written in.

use fws_net::Lang;

/// What a comment line begins with.
pub(crate) fn comment_mark(lang: Lang) -> &'static [u8] {
    match lang {
        Lang::Iptables | Lang::Ipfw | Lang::Pf => b"#",
        Lang::Ios => b"!",
    }
}

/// Whether the bytes begin with a word.
pub(crate) fn begins_with(text: &[u8], word: &[u8]) -> bool {
    match text.get(..word.len()) {
        Some(front) => front == word,
        None => false,
    }
}

/// Where a word stands first, if it does.
pub(crate) fn place_of(text: &[u8], word: &[u8]) -> Option<usize> {
    for k in 0..text.len() {
        if begins_with(text.get(k..).unwrap_or(&[]), word) {
            return Some(k);
        }
    }
    None
}

/// Whether a word stands in a text.
fn has(text: &[u8], word: &[u8]) -> bool {
    place_of(text, word).is_some()
}

/// Whether a text names interfaces whose addresses it writes, as they are when it is loaded.
pub(crate) fn keeps_interfaces(lang: Lang, text: &[u8]) -> bool {
    match lang {
        Lang::Iptables => has(text, b"-j MASQUERADE"),
        Lang::Ipfw => has(text, b" config if "),
        Lang::Pf => has(text, b"-> ("),
        Lang::Ios => has(text, b" overload\n") && !has(text, b"ip nat pool "),
    }
}
