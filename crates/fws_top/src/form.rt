//! The forms of a command line.

ghost use Rattle.std.specs.Prelude.{◌≡◌};
ghost use Rattle.std.specs.Str.{bytes_eq};
ghost use Rattle.fws_top.specs.Forms.{lang_of, tells_of_rules, target_of, state_of, command_of, single_command, short_command, page_command};
ghost use Rattle.fws_top.specs.Forms.{load_command, synth_command, query_command, state_command, table_command, translate_command, trace_command};
ghost use Rattle.fws_top.specs.Forms.{why_command, run_command, same_command, unused_command, dead_command, source_command, asked, IsSpelled};
ghost use Rattle.fws_top.specs.Pages.{named_command};

use crate::ask::{are_asks, are_shown};
use crate::command_name::CommandName;
use crate::lang::{SourceLang, TargetLang};
use fws_net::State;
use fws_num::{Text, read_dec};

/// What the words of a command line ask for. Files are given by their names.
#[derive(Clone, Copy)]
pub(crate) enum Form<'a> {
    /// Nothing: they are no form.
    Unknown,
    /// The list of commands.
    Help,
    /// The page of a command.
    Page(CommandName),
    /// The version.
    Version,
    /// The table of a configuration at a site, for the packets of a state.
    Synth(SourceLang, &'a [u8], &'a [u8], State),
    /// The same table of the packets that further words ask for.
    Query(SourceLang, &'a [u8], &'a [u8], State, &'a [Text]),
    /// What a configuration at a site does, in another language: both languages, site and configuration.
    Translate(SourceLang, TargetLang, &'a [u8], &'a [u8]),
    /// What a configuration at a site makes of packets, against tracked connections: site, configuration, connections
    /// and packets.
    Trace(SourceLang, &'a [u8], &'a [u8], &'a [u8], &'a [u8]),
    /// The same, and which rules of the configuration decide it.
    Why(SourceLang, &'a [u8], &'a [u8], &'a [u8], &'a [u8]),
    /// What a configuration at a site makes of events one after the other: site, configuration and events.
    Run(SourceLang, &'a [u8], &'a [u8], &'a [u8]),
    /// Whether two configurations do the same at a site: site and configuration, then the other language and configuration.
    Same(SourceLang, &'a [u8], &'a [u8], SourceLang, &'a [u8]),
    /// Which rules of a configuration no packet uses at a site.
    Dead(SourceLang, &'a [u8], &'a [u8]),
    /// What a generated policy comes to: the number of its rules.
    Load(u32),
    /// A site in its second form.
    SecondForm(&'a [u8]),
}

fn are(bytes: &[u8], text: &[u8]) -> bool
    ensures { result ≡ bytes_eq bytes.now text.now }
{
    bytes == text
}

fn is(word: &Text, text: &[u8]) -> bool
    ensures { result ≡ bytes_eq word.now text.now }
{
    are(word.as_slice(), text)
}

/// The language of a configuration.
fn read_lang(word: &Text) -> Option<SourceLang>
    ensures { result ≡ lang_of word.now }
{
    if is(word, b"iptables") {
        Some(SourceLang::Iptables)
    } else if is(word, b"ipfw") {
        Some(SourceLang::Ipfw)
    } else if is(word, b"pf") {
        Some(SourceLang::Pf)
    } else if is(word, b"ios") {
        Some(SourceLang::Ios)
    } else if is(word, b"openbsd") {
        Some(SourceLang::Openbsd)
    } else {
        None
    }
}

/// Whether `why` and `dead` can name the rules of a language.
fn tells_of_rules(lang: SourceLang) -> bool
    ensures { result ≡ tells_of_rules lang }
{
    match lang {
        SourceLang::Iptables => true,
        SourceLang::Ipfw => true,
        SourceLang::Pf => true,
        SourceLang::Ios => true,
        SourceLang::Openbsd => false,
    }
}

/// The language in which a policy is written.
fn read_target(word: &[u8]) -> Option<TargetLang>
    ensures { result ≡ target_of word.now }
{
    if are(word, b"iptables") {
        Some(TargetLang::Iptables)
    } else if are(word, b"ipfw") {
        Some(TargetLang::Ipfw)
    } else if are(word, b"pf") {
        Some(TargetLang::Pf)
    } else if are(word, b"ios") {
        Some(TargetLang::Ios)
    } else {
        None
    }
}

/// Which packets a table is about.
fn read_state(word: &Text) -> Option<State>
    ensures { result ≡ state_of word.now }
{
    if is(word, b"new") {
        Some(State::Fresh)
    } else if is(word, b"est") {
        Some(State::Est)
    } else {
        None
    }
}

fn read_single(word: &Text) -> Form<'_>
    ensures asked { asked result ≡ single_command word.now }
    ensures spelled { IsSpelled result }
{
    if is(word, b"--help") {
        Form::Help
    } else if is(word, b"--version") {
        Form::Version
    } else {
        Form::Unknown
    }
}

/// `load` takes a number from 1 to 4000.
fn read_load(number: &[u8]) -> Form<'_>
    ensures asked { asked result ≡ load_command number.now }
    ensures spelled { IsSpelled result }
{
    match read_dec(number, 4000) {
        None | Some(0) => Form::Unknown,
        Some(n) => Form::Load(n as u32),
    }
}

/// The command that a word names.
fn read_name(word: &Text) -> Option<CommandName>
    ensures { result ≡ named_command word.now }
{
    if is(word, b"synth") {
        Some(CommandName::Synth)
    } else if is(word, b"query") {
        Some(CommandName::Query)
    } else if is(word, b"translate") {
        Some(CommandName::Translate)
    } else if is(word, b"trace") {
        Some(CommandName::Trace)
    } else if is(word, b"why") {
        Some(CommandName::Why)
    } else if is(word, b"run") {
        Some(CommandName::Run)
    } else if is(word, b"same") {
        Some(CommandName::Same)
    } else if is(word, b"dead") {
        Some(CommandName::Dead)
    } else if is(word, b"load") {
        Some(CommandName::Load)
    } else if is(word, b"site2") {
        Some(CommandName::SecondForm)
    } else {
        None
    }
}

/// What `COMMAND --help` asks for.
fn read_page(command: &Text) -> Form<'static>
    ensures asked { asked result ≡ page_command command.now }
    ensures spelled { IsSpelled result }
{
    match read_name(command) {
        Some(name) => Form::Page(name),
        None => Form::Unknown,
    }
}

/// What a command asks that takes one further word.
fn read_short_command<'a>(command: &Text, word: &'a [u8]) -> Form<'a>
    ensures asked { asked result ≡ short_command command.now word.now }
    ensures spelled { IsSpelled result }
{
    if are(word, b"--help") {
        read_page(command)
    } else if is(command, b"load") {
        read_load(word)
    } else if is(command, b"site2") {
        Form::SecondForm(word)
    } else {
        Form::Unknown
    }
}

/// `synth` takes no further words.
fn read_synth<'a>(
    lang: SourceLang,
    site: &'a [u8],
    file: &'a [u8],
    state: State,
    rest: &[Text],
) -> Form<'a>
    ensures asked { asked result ≡ synth_command lang site.now file.now state rest.now }
    ensures spelled { IsSpelled result }
{
    match rest {
        [] => Form::Synth(lang, site, file, state),
        _ => Form::Unknown,
    }
}

/// The further words of `query` are well spelled, and ask about fields that the table shows.
fn read_query<'a>(
    lang: SourceLang,
    site: &'a [u8],
    file: &'a [u8],
    state: State,
    asks: &'a [Text],
) -> Form<'a>
    ensures asked { asked result ≡ query_command lang site.now file.now state asks.now }
    ensures spelled { IsSpelled result }
{
    if are_asks(asks) && are_shown(state, asks) {
        Form::Query(lang, site, file, state, asks)
    } else {
        Form::Unknown
    }
}

/// What a command asks of the packets of a state.
fn read_state_command<'a>(
    command: &Text,
    lang: SourceLang,
    site: &'a [u8],
    file: &'a [u8],
    state: State,
    rest: &'a [Text],
) -> Form<'a>
    ensures asked { asked result ≡ state_command command.now lang site.now file.now state rest.now }
    ensures spelled { IsSpelled result }
{
    if is(command, b"synth") {
        read_synth(lang, site, file, state, rest)
    } else if is(command, b"query") {
        read_query(lang, site, file, state, rest)
    } else {
        Form::Unknown
    }
}

/// What a command asks of tables.
fn read_table_command<'a>(
    command: &Text,
    lang: SourceLang,
    site: &'a [u8],
    file: &'a [u8],
    rest: &'a [Text],
) -> Form<'a>
    ensures asked { asked result ≡ table_command command.now lang site.now file.now rest.now }
    ensures spelled { IsSpelled result }
{
    let [word, rest @ ..] = rest else {
        return Form::Unknown;
    };
    match read_state(word) {
        Some(state) => read_state_command(command, lang, site, file, state, rest),
        None => Form::Unknown,
    }
}

/// `translate` takes the other language ahead of the site.
fn read_translate<'a>(from: SourceLang, to: &[u8], site: &'a [u8], rest: &'a [Text]) -> Form<'a>
    ensures asked { asked result ≡ translate_command from to.now site.now rest.now }
    ensures spelled { IsSpelled result }
{
    let [file] = rest else {
        return Form::Unknown;
    };
    match read_target(to) {
        Some(target) => Form::Translate(from, target, site, file.as_slice()),
        None => Form::Unknown,
    }
}

/// `trace` takes two further names.
fn read_trace<'a>(lang: SourceLang, site: &'a [u8], file: &'a [u8], rest: &'a [Text]) -> Form<'a>
    ensures asked { asked result ≡ trace_command lang site.now file.now rest.now }
    ensures spelled { IsSpelled result }
{
    match rest {
        [conns, packets] => Form::Trace(lang, site, file, conns.as_slice(), packets.as_slice()),
        _ => Form::Unknown,
    }
}

/// So does `why`, in a language whose rules it can name.
fn read_why<'a>(lang: SourceLang, site: &'a [u8], file: &'a [u8], rest: &'a [Text]) -> Form<'a>
    ensures asked { asked result ≡ why_command lang site.now file.now rest.now }
    ensures spelled { IsSpelled result }
{
    let [conns, packets] = rest else {
        return Form::Unknown;
    };
    if tells_of_rules(lang) {
        Form::Why(lang, site, file, conns.as_slice(), packets.as_slice())
    } else {
        Form::Unknown
    }
}

/// `run` takes one further name.
fn read_run<'a>(lang: SourceLang, site: &'a [u8], file: &'a [u8], rest: &'a [Text]) -> Form<'a>
    ensures asked { asked result ≡ run_command lang site.now file.now rest.now }
    ensures spelled { IsSpelled result }
{
    match rest {
        [events] => Form::Run(lang, site, file, events.as_slice()),
        _ => Form::Unknown,
    }
}

/// `same` takes another language and another name.
fn read_same<'a>(lang: SourceLang, site: &'a [u8], file: &'a [u8], rest: &'a [Text]) -> Form<'a>
    ensures asked { asked result ≡ same_command lang site.now file.now rest.now }
    ensures spelled { IsSpelled result }
{
    let [word, other] = rest else {
        return Form::Unknown;
    };
    match read_lang(word) {
        Some(other_lang) => Form::Same(lang, site, file, other_lang, other.as_slice()),
        None => Form::Unknown,
    }
}

/// `dead`, in a language whose rules it can name.
fn read_unused<'a>(lang: SourceLang, site: &'a [u8], file: &'a [u8]) -> Form<'a>
    ensures asked { asked result ≡ unused_command lang site.now file.now }
    ensures spelled { IsSpelled result }
{
    if tells_of_rules(lang) {
        Form::Dead(lang, site, file)
    } else {
        Form::Unknown
    }
}

/// `dead` takes no further words.
fn read_dead<'a>(lang: SourceLang, site: &'a [u8], file: &'a [u8], rest: &[Text]) -> Form<'a>
    ensures asked { asked result ≡ dead_command lang site.now file.now rest.now }
    ensures spelled { IsSpelled result }
{
    match rest {
        [] => read_unused(lang, site, file),
        _ => Form::Unknown,
    }
}

/// What a command asks of a configuration at a site.
fn read_source_command<'a>(
    command: &Text,
    lang: SourceLang,
    site: &'a [u8],
    file: &'a [u8],
    rest: &'a [Text],
) -> Form<'a>
    ensures asked { asked result ≡ source_command command.now lang site.now file.now rest.now }
    ensures spelled { IsSpelled result }
{
    if is(command, b"translate") {
        read_translate(lang, site, file, rest)
    } else if is(command, b"trace") {
        read_trace(lang, site, file, rest)
    } else if is(command, b"why") {
        read_why(lang, site, file, rest)
    } else if is(command, b"run") {
        read_run(lang, site, file, rest)
    } else if is(command, b"same") {
        read_same(lang, site, file, rest)
    } else if is(command, b"dead") {
        read_dead(lang, site, file, rest)
    } else {
        read_table_command(command, lang, site, file, rest)
    }
}

/// What the words ask for.
pub(crate) fn read_form(words: &[Text]) -> Form<'_>
    ensures asked { asked result ≡ command_of words.now }
    ensures spelled { IsSpelled result }
{
    match words {
        [word] => read_single(word),
        [command, word] => read_short_command(command, word.as_slice()),
        [command, word, site, file, rest @ ..] => match read_lang(word) {
            Some(lang) => {
                read_source_command(command, lang, site.as_slice(), file.as_slice(), rest)
            }
            None => Form::Unknown,
        },
        _ => Form::Unknown,
    }
}
