//! Packets in words.

use crate::bytes::is;
use crate::cutting::{Span, word};
use crate::report::Report;
use fws_num::{Memory, Text, read_dec};
use std::alloc::Global;

/// The words of a packet in a text: eight, and four more with which a connection sends it.
#[derive(Clone, Copy)]
pub(crate) struct PacketWords<'a> {
    pub(crate) text: &'a [u8],
    pub(crate) words: &'a [Span],
}

/// The flags of TCP, by their bits.
const FLAGS: [(u64, &[u8]); 6] = [
    (1, b"FIN"),
    (2, b"SYN"),
    (4, b"RST"),
    (8, b"PSH"),
    (16, b"ACK"),
    (32, b"URG"),
];

impl PacketWords<'_> {
    /// One of the words.
    fn word(&self, at: usize) -> &[u8] {
        word(self.text, self.words, at)
    }

    /// One of the words as a number.
    fn number(&self, at: usize) -> u64 {
        match read_dec(self.word(at), 65535) {
            Some(number) => number,
            None => 0,
        }
    }

    /// It is a packet of a connection.
    pub(crate) fn is_established(&self) -> bool {
        self.words.len() >= 12
    }

    /// It has ports.
    fn has_ports(&self) -> bool {
        let proto = self.number(1);
        proto == 6 || proto == 17
    }

    /// Says the packet's protocol.
    fn say_protocol(&self, out: &mut Report) -> Result<(), Memory> {
        match self.number(1) {
            6 => out.say(b"a TCP packet"),
            17 => out.say(b"a UDP packet"),
            1 => {
                out.say(b"an ICMP packet of type ")?;
                out.say_number(self.number(7))
            }
            proto => {
                out.say(b"a packet of protocol ")?;
                out.say_number(proto)
            }
        }
    }

    /// Says an end: the address at a place, and the port behind it.
    fn say_end(&self, out: &mut Report, at: usize) -> Result<(), Memory> {
        out.show(self.word(at))?;
        if self.has_ports() {
            out.say(b" port ")?;
            out.show(self.word(at.saturating_add(1)))?;
        }
        Ok(())
    }

    /// Says which flags it has, where it is one of TCP.
    fn say_flags(&self, out: &mut Report) -> Result<(), Memory> {
        if self.number(1) != 6 {
            return Ok(());
        }
        let flags = self.number(6);
        if flags == 0 {
            return out.say(b", without flags");
        }
        out.say(b", with the flags")?;
        for (bit, name) in &FLAGS {
            if flags & *bit != 0 {
                out.say(b" ")?;
                out.say(name)?;
            }
        }
        Ok(())
    }

    /// Says where it comes from.
    fn say_entry(&self, out: &mut Report) -> Result<(), Memory> {
        let entry = self.word(0);
        if is(entry, b"host") {
            return out.say(b" of the host itself");
        }
        if is(entry, b"lo") {
            return out.say(b" that comes in by loopback");
        }
        out.say(b" that comes in by ")?;
        out.show(entry)
    }

    /// Says the packet in words.
    pub(crate) fn say(&self, out: &mut Report) -> Result<(), Memory> {
        self.say_protocol(out)?;
        self.say_entry(out)?;
        out.say(b", from ")?;
        self.say_end(out, 4)?;
        out.say(b" to ")?;
        self.say_end(out, 2)?;
        self.say_flags(out)?;
        if self.is_established() {
            out.say(b", of a connection that sends it from ")?;
            self.say_end(out, 10)?;
            out.say(b" to ")?;
            self.say_end(out, 8)?;
        }
        Ok(())
    }

    /// Adds words with blanks between.
    fn put_words(&self, text: &mut Text, places: &[usize]) -> Result<(), Memory> {
        for at in places {
            text.put(self.word(*at))?;
            text.put(b" ")?;
        }
        text.put(b"\n")
    }

    /// The line of PACKETS that it is.
    pub(crate) fn packet_line(&self, alloc: Global) -> Result<Text, Memory> {
        let mut text = Text::new(alloc);
        self.put_words(&mut text, &[0, 1, 2, 3, 4, 5, 6, 7])?;
        Ok(text)
    }

    /// The line of CONNS that makes it one of its connection; none for a new packet.
    pub(crate) fn connection_line(&self, alloc: Global) -> Result<Text, Memory> {
        let mut text = Text::new(alloc);
        if self.is_established() {
            self.put_words(&mut text, &[1, 2, 3, 4, 5, 10, 11, 8, 9])?;
        }
        Ok(text)
    }
}
