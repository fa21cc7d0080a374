//! One word after another: the options, the word that ends them, and the numbers.
ghost use Rattle.std.specs.Prelude.{◌≡◌, cond};
ghost use Rattle.mars_script.specs.declared.steps.Step.TheVariants as step;
ghost use Rattle.mars_script.specs.StepsInside.{next_of, next_option_of, at_options};
ghost use Rattle.mars_script.specs.Given.{given_steps, given_rows, given_log};

use crate::kinds::{Kind, kind_of};
use crate::numbers::read_number;
use crate::words::{LAST_SESSION, MOST_ROWS, MOST_STEPS};

/// What the options said so far.
#[derive(Clone, Copy)]
pub struct Given {
    pub steps: Option<u64>,
    pub rows: Option<u64>,
    pub log: bool,
}

/// What the next word may be.
#[derive(Clone, Copy)]
pub enum Phase {
    /// An option, the word that ends them, or a number.
    Options,
    /// The number of steps.
    Steps,
    /// The number of rows.
    Rows,
    /// A number.
    Numbers,
}

/// What was read so far, numbers aside.
#[derive(Clone, Copy)]
pub struct WordState {
    pub phase: Phase,
    pub given: Given,
}

/// What a word does.
#[derive(Clone, Copy)]
pub enum Step {
    /// It is one of the options, or ends them.
    Goes(WordState),
    /// It is a number; what was given stays.
    Counts(Given, u32),
    Refused,
}

/// What a word does, after those before it.
pub(crate) fn next(state: WordState, word: &str) -> Step
    ensures { result ≡ next_of state word.now }
{
    match state.phase {
        Phase::Options => next_option(state.given, kind_of(word)),
        Phase::Steps => match read_number(word, MOST_STEPS) {
            Some(steps) => Step::Goes(with_steps(state.given, steps)),
            None => Step::Refused,
        },
        Phase::Rows => match read_number(word, MOST_ROWS) {
            Some(rows) => Step::Goes(with_rows(state.given, rows)),
            None => Step::Refused,
        },
        Phase::Numbers => match read_number(word, LAST_SESSION) {
            Some(number) => Step::Counts(state.given, number as u32),
            None => Step::Refused,
        },
    }
}

/// What a word of a kind does, where an option may come.
fn next_option(given: Given, kind: Kind) -> Step
    ensures { result ≡ next_option_of given kind }
{
    match kind {
        Kind::Steps => goes_where(
            given.steps.is_none(),
            WordState {
                phase: Phase::Steps,
                given,
            },
        ),
        Kind::Rows => goes_where(
            given.rows.is_none(),
            WordState {
                phase: Phase::Rows,
                given,
            },
        ),
        Kind::Log => goes_where(!given.log, with_log(given)),
        Kind::End => Step::Goes(WordState {
            phase: Phase::Numbers,
            given,
        }),
        Kind::StepsAre(steps) => goes_where(given.steps.is_none(), with_steps(given, steps)),
        Kind::RowsAre(rows) => goes_where(given.rows.is_none(), with_rows(given, rows)),
        Kind::Number(number) => Step::Counts(given, number),
        Kind::Other => Step::Refused,
    }
}

/// A step to a state where it is allowed.
fn goes_where(allowed: bool, state: WordState) -> Step
    ensures { result ≡ cond allowed (step.Goes state) step.Refused }
{
    if allowed {
        Step::Goes(state)
    } else {
        Step::Refused
    }
}

/// The steps are given, and the next option may come.
fn with_steps(given: Given, steps: u64) -> WordState
    ensures { result ≡ at_options (given_steps given steps) }
{
    WordState {
        phase: Phase::Options,
        given: Given {
            steps: Some(steps),
            rows: given.rows,
            log: given.log,
        },
    }
}

/// The rows are given, and the next option may come.
fn with_rows(given: Given, rows: u64) -> WordState
    ensures { result ≡ at_options (given_rows given rows) }
{
    WordState {
        phase: Phase::Options,
        given: Given {
            steps: given.steps,
            rows: Some(rows),
            log: given.log,
        },
    }
}

/// The log is asked for, and the next option may come.
fn with_log(given: Given) -> WordState
    ensures { result ≡ at_options (given_log given) }
{
    WordState {
        phase: Phase::Options,
        given: Given {
            steps: given.steps,
            rows: given.rows,
            log: true,
        },
    }
}
