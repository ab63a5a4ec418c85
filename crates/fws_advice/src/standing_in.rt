//! What is read on with in the place of a line that was refused: mostly nothing. A line that defines a name still does; and in a
//! script of ipfw the variables of the shell have their values.

use crate::bytes::{begins, byte_at, is, part};
use crate::cutting::{Span, lines_of, word, words_of};
use crate::kinds::Kind;
use fws_num::{Memory, Text};
use std::alloc::Global;

/// How many bytes a line with the values of variables may have.
const LONGEST: usize = 4000;

/// A variable of a script, and its value.
#[derive(Clone, Copy)]
struct Variable<'a> {
    name: &'a [u8],
    value: &'a [u8],
}

/// The byte may stand in the name of a variable.
fn is_of_name(c: u8) -> bool {
    c.is_ascii_alphanumeric() || c == b'_'
}

/// The value without the quotes round it, or up to the first blank.
fn value_in(text: &[u8]) -> &[u8] {
    let quote = byte_at(text, 0);
    let is_quoted = quote == b'"' || quote == b'\'';
    for (at, c) in text.iter().enumerate() {
        let ends = if is_quoted {
            at > 0 && *c == quote
        } else {
            *c == b' ' || *c == b'\t' || *c == b'\r'
        };
        if ends {
            return part(text, if is_quoted { 1 } else { 0 }, at);
        }
    }
    part(text, if is_quoted { 1 } else { 0 }, text.len())
}

/// The variable that a line sets, if it sets one.
fn variable_in(line: &[u8]) -> Option<Variable<'_>> {
    for (at, c) in line.iter().enumerate() {
        if *c == b'=' && at > 0 {
            return Some(Variable {
                name: part(line, 0, at),
                value: value_in(part(line, at.saturating_add(1), line.len())),
            });
        }
        if !is_of_name(*c) {
            return None;
        }
    }
    None
}

/// The variables that a script sets, the last one first.
fn variables_of<'a>(alloc: Global, text: &'a [u8]) -> Result<Vec<Variable<'a>>, Memory> {
    let mut found = Vec::new(alloc);
    for line in lines_of(alloc, text)?.iter().rev() {
        if let Some(variable) = variable_in(line.of(text)) {
            found.push(variable)?;
        }
    }
    Ok(found)
}

/// The name of the variable at a `$`, and how many bytes stand for it with its braces.
fn named_at(line: &[u8], at: usize) -> (&[u8], usize) {
    let is_braced = byte_at(line, at.saturating_add(1)) == b'{';
    let from = at.saturating_add(if is_braced { 2 } else { 1 });
    let mut to = from;
    for c in line.iter().skip(from) {
        if !is_of_name(*c) {
            break;
        }
        to = to.saturating_add(1);
    }
    let past = to.saturating_add(if is_braced { 1 } else { 0 });
    (part(line, from, to), past.saturating_sub(at))
}

/// The value of a variable.
fn value_of<'a>(variables: &[Variable<'a>], name: &[u8]) -> Option<&'a [u8]> {
    for variable in variables {
        if is(variable.name, name) {
            return Some(variable.value);
        }
    }
    None
}

/// The line with the values of its variables.
fn with_values(alloc: Global, line: &[u8], variables: &[Variable]) -> Result<Text, Memory> {
    let mut text = Text::new(alloc);
    let mut skipped = 0usize;
    for (at, c) in line.iter().enumerate() {
        if skipped > 0 {
            skipped = skipped.saturating_sub(1);
            continue;
        }
        if *c == b'$' {
            let (name, count) = named_at(line, at);
            if let Some(value) = value_of(variables, name) {
                text.put(value)?;
                skipped = count.saturating_sub(1);
                continue;
            }
        }
        text.put(&[*c])?;
    }
    Ok(text)
}

/// The line of a script with the values of its variables, which may have variables themselves.
fn line_with_values(alloc: Global, script: &[u8], line: &[u8]) -> Result<Text, Memory> {
    let variables = variables_of(alloc, script)?;
    let mut text = Text::of(alloc, line)?;
    for _ in 0..4 {
        if text.as_slice().len() > LONGEST {
            return Text::of(alloc, line);
        }
        text = with_values(alloc, text.as_slice(), &variables)?;
    }
    Ok(text)
}

/// What stands in the place of a line.
#[derive(Drop)]
pub(crate) enum StandIn {
    /// Nothing.
    Nothing,
    /// The line with the values of its variables.
    Values(Text),
    /// A definition of the name that it defines.
    Definition(Text),
}

/// A definition of these words, one behind the other.
fn joined(alloc: Global, words: &[&[u8]]) -> Result<StandIn, Memory> {
    let mut text = Text::new(alloc);
    for word in words {
        text.put(word)?;
    }
    Ok(StandIn::Definition(text))
}

/// The place of the first of these words.
fn place_of(line: &[u8], spans: &[Span], other: &[u8]) -> Option<usize> {
    for (at, span) in spans.iter().enumerate() {
        if is(span.of(line), other) {
            return Some(at);
        }
    }
    None
}

/// A definition of the instance that a line of ipfw configures.
fn instance(alloc: Global, line: &[u8], spans: &[Span]) -> Result<StandIn, Memory> {
    let Some(at) = place_of(line, spans, b"nat") else {
        return Ok(StandIn::Nothing);
    };
    let number = word(line, spans, at.saturating_add(1));
    if !is(word(line, spans, at.saturating_add(2)), b"config") {
        return Ok(StandIn::Nothing);
    }
    joined(alloc, &[b"nat ", number, b" config ip 10.0.0.1"])
}

/// What stands in the place of a refused line of a text.
pub(crate) fn stand_in(
    alloc: Global,
    kind: Kind,
    text: &[u8],
    line: &[u8],
    spans: &[Span],
) -> Result<StandIn, Memory> {
    match kind {
        Kind::Ipfw => {
            let values = line_with_values(alloc, text, line)?;
            if values.as_slice() != line && variable_in(line).is_none() {
                return Ok(StandIn::Values(values));
            }
            instance(alloc, line, spans)
        }
        Kind::Pf | Kind::Openbsd if begins(line, b"table") => {
            joined(alloc, &[b"table <", word(line, spans, 2), b"> { }"])
        }
        Kind::Ios if begins(line, b"ip nat pool") => {
            joined(
                alloc,
                &[
                    b"ip nat pool ",
                    word(line, spans, 3),
                    b" 10.0.0.1 10.0.0.1 prefix-length 24",
                ],
            )
        }
        _ => Ok(StandIn::Nothing),
    }
}
