//! What is said of words that are no command line.

use crate::bytes::{is, is_one_of};
use crate::fields::say_asks;
use crate::forms::{COMMANDS, Command, LANGS, NAMES, Place, STATES, TARGETS, command_of};
use crate::ground::Ground;
use crate::near::nearest;
use crate::report::Report;
use fws_net::{Lang, State};
use fws_num::{Memory, Text, pieces, read_dec, split_once};

/// Says words with blanks between.
fn say_words(out: &mut Report, words: &[&[u8]]) -> Result<(), Memory> {
    for word in words {
        out.say(b" ")?;
        out.say(word)?;
    }
    Ok(())
}

/// Says that a word isn't understood, which one may be meant, and which may stand there.
fn say_unknown(out: &mut Report, word: &[u8], what: &[u8], words: &[&[u8]]) -> Result<(), Memory> {
    out.say_with(b"fws: % is ", word)?;
    out.say(what)?;
    if let Some(other) = nearest(out.alloc, word, words)? {
        out.say_with(b"; did you mean %?", other)?;
    }
    out.say(b"\n    One of:")?;
    say_words(out, words)?;
    out.say(b"\n")
}

/// Says the form of a command.
fn say_form(out: &mut Report, command: Command) -> Result<(), Memory> {
    out.say(b"    Its form is: ")?;
    out.say(command.form)?;
    out.say(b"\n")
}

/// Says what is wrong with a number of rules, if anything is.
fn say_bad_number(out: &mut Report, word: &[u8]) -> Result<bool, Memory> {
    match read_dec(word, 4000) {
        None | Some(0) => {
            out.say_with(b"fws: % is no number of 1 to 4000\n", word)?;
            Ok(true)
        }
        Some(_) => Ok(false),
    }
}

/// Says what is wrong with a word at a place, if anything is.
fn say_bad_word(out: &mut Report, place: Place, word: &[u8]) -> Result<bool, Memory> {
    let (words, what): (&[&[u8]], &[u8]) = match place {
        Place::File => return Ok(false),
        Place::Number => return say_bad_number(out, word),
        Place::Lang => (&LANGS, b"no language"),
        Place::State => (&STATES, b"neither new nor est"),
        Place::Target => (&TARGETS, b"no language in which policies are written"),
        Place::TellingLang => (&TARGETS, b"no language of this command"),
    };
    if is_one_of(words, word) {
        return Ok(false);
    }
    say_unknown(out, word, what, words)?;
    Ok(true)
}

/// Says which words of a command are bad, or missing, or too many.
fn say_command(out: &mut Report, command: Command, words: &[Text]) -> Result<(), Memory> {
    for (place, word) in command.places.iter().zip(words.iter()) {
        if say_bad_word(out, *place, word.as_slice())? {
            return say_form(out, command);
        }
    }
    let count = command.places.len();
    if words.len() < count {
        out.say_with(b"fws: words are missing behind %\n", command.name)?;
        return say_form(out, command);
    }
    if is(command.name, b"query") {
        if let (Some(state), Some(asks)) = (words.get(3), words.get(4..)) {
            let is_new = is(state.as_slice(), b"new");
            say_asks(out, if is_new { State::Fresh } else { State::Est }, asks)?;
        }
        return Ok(());
    }
    if let Some(word) = words.get(count) {
        out.say_with(b"fws: % is one word too many\n", word.as_slice())?;
        return say_form(out, command);
    }
    Ok(())
}

/// Says the forms of all commands.
fn say_forms(out: &mut Report) -> Result<(), Memory> {
    for command in &COMMANDS {
        out.say(b"    ")?;
        out.say(command.form)?;
        out.say(b"\n")?;
    }
    out.say(b"fws --help says more, and fws COMMAND --help explains one command\n")
}

/// Says how to ask for the page of a command.
fn say_page_of(out: &mut Report, command: Command) -> Result<(), Memory> {
    out.say(b"    Its page: fws ")?;
    out.say(command.name)?;
    out.say(b" --help\n")
}

/// Says that a word asks for help which isn't alone behind a command.
fn say_help(out: &mut Report, command: Command) -> Result<(), Memory> {
    out.say_with(
        b"fws: --help has to be the only word behind %\n",
        command.name,
    )?;
    say_form(out, command)?;
    say_page_of(out, command)
}

/// Says that a word takes no further ones, and how to ask for the page of a command.
fn say_alone(out: &mut Report, name: &[u8], rest: &[Text]) -> Result<(), Memory> {
    out.say_with(b"fws: % takes no further words\n", name)?;
    let [word, ..] = rest else {
        return Ok(());
    };
    match command_of(word.as_slice()) {
        Some(command) if is(name, b"--help") => say_page_of(out, command),
        _ => Ok(()),
    }
}

/// Says what is wrong with the words of a command line.
pub(crate) fn say_usage(out: &mut Report, words: &[Text]) -> Result<(), Memory> {
    let [first, rest @ ..] = words else {
        out.say(b"fws: no command is given\n")?;
        return say_forms(out);
    };
    let name = first.as_slice();
    if let Some(command) = command_of(name) {
        if asks_help(rest) {
            return say_help(out, command);
        }
        return say_command(out, command, rest);
    }
    if is(name, b"--help") || is(name, b"--version") {
        return say_alone(out, name, rest);
    }
    say_unknown(out, name, b"no command", &NAMES)
}

/// The systems, in which interfaces have names.
const SYSTEMS: [Lang; 4] = [Lang::Iptables, Lang::Ipfw, Lang::Pf, Lang::Ios];

/// An interface of the site has the name in tables.
fn is_face(ground: &Ground, name: &[u8]) -> bool {
    for face in ground.site.faces.as_slice() {
        if is(face.name.as_slice(), name) {
            return true;
        }
    }
    false
}

/// The entry is one of the site.
fn is_entry(ground: &Ground, name: &[u8]) -> bool {
    is(name, b"host") || is(name, b"lo") || is_face(ground, name)
}

/// A word asks for help.
fn asks_help(words: &[Text]) -> bool {
    for word in words {
        if is(word.as_slice(), b"--help") {
            return true;
        }
    }
    false
}

/// Says which entry is the interface of this name in some system, if it is one.
fn say_entry_of(out: &mut Report, ground: &Ground, name: &[u8]) -> Result<(), Memory> {
    for system in &SYSTEMS {
        if let Some(entry) = ground.entry_of(*system, name) {
            out.say_with(b"    % is its name in a configuration. ", name)?;
            out.say(b"Write entry=")?;
            out.show(entry)?;
            return out.say(b".\n");
        }
    }
    Ok(())
}

/// Says that a site has no such entry, and which it has.
fn say_bad_entry(out: &mut Report, ground: &Ground, name: &[u8]) -> Result<(), Memory> {
    out.say_with(b"fws: the site has no entry %\n", name)?;
    say_entry_of(out, ground, name)?;
    out.say(b"    Its entries: host lo")?;
    for face in ground.site.faces.as_slice() {
        out.say(b" ")?;
        out.show(face.name.as_slice())?;
    }
    out.say(b"\n")
}

/// Says which entry that the words ask about the site lacks.
pub(crate) fn say_entries(out: &mut Report, ground: &Ground, words: &[Text]) -> Result<(), Memory> {
    for word in words {
        if let Some((field, set)) = split_once(word.as_slice(), b'=') {
            if is(field, b"entry") && !is(set, b"*") {
                let names = pieces(out.alloc, b',', set)?;
                for name in names.as_slice() {
                    if !is_entry(ground, name.as_slice()) {
                        return say_bad_entry(out, ground, name.as_slice());
                    }
                }
            }
        }
    }
    Ok(())
}
