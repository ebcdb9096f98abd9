//! A line of the log.
ghost use Rattle.std.specs.Prelude.{◌≡◌, ◌++◌, ◌∷◌, ◌||◌, [], IfSome, OnOk, decimal, is_err, flat_map, option_map, string_bytes};
ghost use Rattle.std.specs.Str.{chars};
ghost use Rattle.sipl_log.specs.Lines.{IsLonger, event_text, glyph, is_special, level_of, line_text, millis_text, needs_quotes, pair_text, value_text};

use crate::level::Level;
use std::alloc::{AllocError, Global};
use std::fmt::Write as _;

/// A line of the log: its level, and then keys and values (logfmt).
#[derive(Drop)]
pub struct Line {
    level: Level,
    text: String,
    // Whether an allocation failed, so that it is not whole.
    is_cut: bool,
}

impl Line {
    /// A line of an event.
    pub fn new(alloc: Global, level: Level, event: &str) -> Line
        ensures level { level_of result ≡ level }
        ensures text { IfSome (line_text result) (λ text. text ≡ event_text level event.now) }
    {
        let mut line = Line {
            level,
            text: String::new(alloc),
            is_cut: false,
        };
        let begun = line.text.push_str(level.name());
        line.keep(begun);
        line.text("event", event)
    }

    /// The line with a text more. It is quoted where a reader would not take it for one word.
    pub fn text(mut self, key: &str, value: &str) -> Line
        ensures level { level_of result ≡ level_of self }
        ensures text { IsLonger (line_text self) (pair_text key.now (value_text value.now))
            (line_text result) }
    {
        let pushed = push_pair(&mut self.text, key, value);
        self.keep(pushed);
        self
    }

    /// The line with a number more.
    pub fn number(mut self, key: &str, value: u64) -> Line
        ensures level { level_of result ≡ level_of self }
        ensures text { IsLonger (line_text self) (pair_text key.now (decimal value))
            (line_text result) }
    {
        let pushed = write!(self.text, " {key}={value}");
        self.keep(pushed);
        self
    }

    /// The line with a time more, in milliseconds, of so many microseconds.
    pub fn millis(mut self, key: &str, micros: u64) -> Line
        ensures level { level_of result ≡ level_of self }
        ensures text { IsLonger (line_text self) (pair_text key.now (millis_text micros))
            (line_text result) }
    {
        let pushed = push_millis(&mut self.text, key, micros);
        self.keep(pushed);
        self
    }

    /// How much it matters.
    pub fn level(&self) -> Level
        ensures { result ≡ level_of self.now }
    {
        self.level
    }

    /// Its text, if it is whole.
    pub(crate) fn into_text(self) -> Option<String>
        ensures { option_map (λ text. string_bytes text) result ≡ line_text self }
    {
        if self.is_cut { None } else { Some(self.text) }
    }

    // Notes whether a piece of it was written.
    fn keep(&mut self, pushed: Result<(), AllocError>)
        ensures { self.new ≡ record self.old { is_cut = self.old.is_cut || is_err pushed } }
    {
        self.is_cut |= pushed.is_err();
    }
}

// Appends a key and its value, after a space.
fn push_pair(out: &mut String, key: &str, value: &str) -> Result<(), AllocError>
    ensures { OnOk result (string_bytes out.new
        ≡ string_bytes out.old ++ pair_text key.now (value_text value.now)) }
{
    write!(out, " {key}=")?;
    if is_quoted(value) {
        push_quoted(out, value)
    } else {
        out.push_str(value)
    }
}

// Appends a key and a time in milliseconds, of so many microseconds, after a space.
fn push_millis(out: &mut String, key: &str, micros: u64) -> Result<(), AllocError>
    ensures { OnOk result (string_bytes out.new
        ≡ string_bytes out.old ++ pair_text key.now (millis_text micros)) }
{
    let (millis, rest) = (micros / 1_000, micros % 1_000);
    write!(out, " {key}={millis}.{rest:03}")
}

// Whether a value is quoted: it is empty, or has a space, a quote, an equals sign or a control character.
fn is_quoted(value: &str) -> bool
    ensures { result ≡ needs_quotes value.now }
{
    value.is_empty() || value.chars().any(|c| breaks_word(c))
}

// Whether a reader would not take a character for one of a word.
fn breaks_word(c: char) -> bool
    ensures { result ≡ is_special c }
{
    c <= ' ' || matches!(c, '"' | '=' | '\\' | '\x7f')
}

// Appends a value within quotes.
fn push_quoted(out: &mut String, value: &str) -> Result<(), AllocError>
    ensures { OnOk result (string_bytes out.new
        ≡ string_bytes out.old ++ 34 ∷ flat_map glyph (chars value.now) ++ 34 ∷ []) }
{
    out.push('"')?;
    for c in value.chars() {
        push_glyph(out, c)?;
    }
    out.push('"')
}

// Appends a character within quotes. A control character but a tab and a line's end is a question mark: a
// line of the log is one line, of any terminal.
fn push_glyph(out: &mut String, c: char) -> Result<(), AllocError>
    ensures { OnOk result (string_bytes out.new ≡ string_bytes out.old ++ glyph c) }
{
    match c {
        '"' => out.push_str("\\\""),
        '\\' => out.push_str("\\\\"),
        '\n' => out.push_str("\\n"),
        '\t' => out.push_str("\\t"),
        c if c < ' ' || c == '\x7f' => out.push('?'),
        c => out.push(c),
    }
}
