//! What a word may be, where an option may come.
ghost use Rattle.std.specs.Prelude.{◌≡◌, ◌↔◌, IsTrue};
ghost use Rattle.std.specs.Option.{option_map};
ghost use Rattle.mars_script.specs.KindsInside.{kind_of, kind_of_value, after};

use crate::numbers::read_number;
use crate::words::{LAST_SESSION, MOST_ROWS, MOST_STEPS};

/// What a word is, where an option may come.
#[derive(Clone, Copy)]
pub enum Kind {
    /// `--steps`, and the next word is the number.
    Steps,
    /// `--rows`, and the next word is the number.
    Rows,
    /// `--log`.
    Log,
    /// `--`.
    End,
    /// `--steps=N`.
    StepsAre(u64),
    /// `--rows=N`.
    RowsAre(u64),
    /// The number of a session.
    Number(u32),
    Other,
}

/// Whether a word is this one.
pub(crate) fn is_word(word: &str, other: &str) -> bool
    ensures { IsTrue result ↔ (word.now ≡ other.now) }
{
    word == other
}

/// What a word is.
pub(crate) fn kind_of(word: &str) -> Kind
    ensures { result ≡ kind_of word.now }
{
    if is_word(word, "--steps") {
        Kind::Steps
    } else if is_word(word, "--rows") {
        Kind::Rows
    } else if is_word(word, "--log") {
        Kind::Log
    } else if is_word(word, "--") {
        Kind::End
    } else {
        kind_of_value(word)
    }
}

/// What a word is that is none of the options alone.
fn kind_of_value(word: &str) -> Kind
    ensures { result ≡ kind_of_value word.now }
{
    if let Some(value) = value_after(word, "--steps=") {
        return match read_number(value, MOST_STEPS) {
            Some(steps) => Kind::StepsAre(steps),
            None => Kind::Other,
        };
    }
    if let Some(value) = value_after(word, "--rows=") {
        return match read_number(value, MOST_ROWS) {
            Some(rows) => Kind::RowsAre(rows),
            None => Kind::Other,
        };
    }
    match read_number(word, LAST_SESSION) {
        Some(number) => Kind::Number(number as u32),
        None => Kind::Other,
    }
}

/// What comes after a beginning, none where the word has another one.
fn value_after<'a>(word: &'a str, beginning: &str) -> Option<&'a str>
    ensures { option_map (λ value. value.now) result ≡ after beginning.now word.now }
{
    word.strip_prefix(beginning)
}
