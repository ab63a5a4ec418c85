//! The forms of command lines.

use crate::bytes::is;

/// What stands at a place of a command line.
#[derive(Clone, Copy, Debug, PartialEq, Eq)]
pub(crate) enum Place {
    /// A language that is read.
    Lang,
    /// A language of whose rules something is told.
    TellingLang,
    /// A language in which policies are written.
    Target,
    /// The name of a file.
    File,
    /// `new` or `est`.
    State,
    /// A number of rules.
    Number,
}

/// A command: its name, what stands behind it, and its form in words.
#[derive(Clone, Copy)]
pub(crate) struct Command {
    pub(crate) name: &'static [u8],
    pub(crate) places: &'static [Place],
    pub(crate) form: &'static [u8],
}

const SYNTH: [Place; 4] = [Place::Lang, Place::File, Place::File, Place::State];

const TRANSLATE: [Place; 4] = [Place::Lang, Place::Target, Place::File, Place::File];

const TRACE: [Place; 5] = [
    Place::Lang,
    Place::File,
    Place::File,
    Place::File,
    Place::File,
];

const WHY: [Place; 5] = [
    Place::TellingLang,
    Place::File,
    Place::File,
    Place::File,
    Place::File,
];

const RUN: [Place; 4] = [Place::Lang, Place::File, Place::File, Place::File];

const SAME: [Place; 5] = [
    Place::Lang,
    Place::File,
    Place::File,
    Place::Lang,
    Place::File,
];

const DEAD: [Place; 3] = [Place::TellingLang, Place::File, Place::File];

const LOAD: [Place; 1] = [Place::Number];

const SITE2: [Place; 1] = [Place::File];

/// The commands.
pub(crate) const COMMANDS: [Command; 10] = [
    Command {
        name: b"synth",
        places: &SYNTH,
        form: b"fws synth LANG SITE FILE new|est",
    },
    Command {
        name: b"query",
        places: &SYNTH,
        form: b"fws query LANG SITE FILE new|est [FIELD=SET ..]",
    },
    Command {
        name: b"translate",
        places: &TRANSLATE,
        form: b"fws translate FROM TO SITE FILE",
    },
    Command {
        name: b"trace",
        places: &TRACE,
        form: b"fws trace LANG SITE FILE CONNS PACKETS",
    },
    Command {
        name: b"why",
        places: &WHY,
        form: b"fws why LANG SITE FILE CONNS PACKETS",
    },
    Command {
        name: b"run",
        places: &RUN,
        form: b"fws run LANG SITE FILE EVENTS",
    },
    Command {
        name: b"same",
        places: &SAME,
        form: b"fws same LANG SITE FILE LANG2 FILE2",
    },
    Command {
        name: b"dead",
        places: &DEAD,
        form: b"fws dead LANG SITE FILE",
    },
    Command {
        name: b"load",
        places: &LOAD,
        form: b"fws load N",
    },
    Command {
        name: b"site2",
        places: &SITE2,
        form: b"fws site2 SITE",
    },
];

/// The names of the commands, and the two words that stand alone.
pub(crate) const NAMES: [&[u8]; 12] = [
    b"synth",
    b"query",
    b"translate",
    b"trace",
    b"why",
    b"run",
    b"same",
    b"dead",
    b"load",
    b"site2",
    b"--help",
    b"--version",
];

/// The languages that are read; the last one is not written.
pub(crate) const LANGS: [&[u8]; 5] = [b"iptables", b"ipfw", b"pf", b"ios", b"openbsd"];

/// The languages in which policies are written.
pub(crate) const TARGETS: [&[u8]; 4] = [b"iptables", b"ipfw", b"pf", b"ios"];

/// The words that say which packets a table is about.
pub(crate) const STATES: [&[u8]; 2] = [b"new", b"est"];

/// The fields of a query.
pub(crate) const FIELDS: [&[u8]; 13] = [
    b"entry", b"proto", b"dst", b"dport", b"src", b"sport", b"flags", b"icmp", b"rdst", b"rdport",
    b"rsrc", b"rsport", b"verdict",
];

/// The command of this name.
pub(crate) fn command_of(name: &[u8]) -> Option<Command> {
    for command in &COMMANDS {
        if is(command.name, name) {
            return Some(*command);
        }
    }
    None
}
