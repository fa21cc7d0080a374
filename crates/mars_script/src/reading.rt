//! The words as a whole.
ghost use Rattle.std.specs.Prelude.{◌≡◌, [], List, ℕ, IfOk, IfErr};
ghost use Rattle.std.specs.Option.{option_map};
ghost use Rattle.mars_script.specs.Words.{IsWords, texts_of, options_of, nothing_given};
ghost use Rattle.mars_script.specs.StepsInside.{goes_over, at_options, at_end};
ghost use Rattle.mars_script.specs.WordsInside.{AnswersFound, mode_words, mode_of, made_words, start_words, without_end, words_in};
ghost use Rattle.mars_script.specs.declared.words.Words.{Words};
ghost use Rattle.mars_script.specs.declared.words.WordsError.TheVariants as why;

use crate::kinds::is_word;
use crate::numbers::read_number;
use crate::steps::{Given, Phase, Step, WordState, next};
use crate::words::{
    LAST_START, MOST_ROUNDS, MOST_ROWS, Mode, Options, USUAL_STEPS, Words, WordsError,
};
use mars_base::NoMemory;
use sqlite_items::Items;
use std::alloc::Global;

/// What the words say that the program is given, its own name left out. Linear in the words.
pub fn read_words(alloc: Global, words: &[String]) -> Result<Words, WordsError>
    ensures read { IfOk result (λ said. IsWords (texts_of words.now) said) }
    ensures refused { IfErr result (λ error. error ≡ why.Bad → (said : Words) → IsWords (texts_of words.now) said → ⊥) }
{
    read_list(alloc, words)
}

/// What a list of words says.
fn read_list(alloc: Global, words: &[String]) -> Result<Words, WordsError>
    ensures { AnswersFound (words_in (texts_of words.now)) result }
{
    let Some((first, rest)) = words.split_first() else {
        return Ok(plain(Mode::Run));
    };
    let first = first.as_str();
    if is_word(first, "make") {
        return read_make(rest);
    }
    read_mode(alloc, first, rest)
}

/// A mode with the options that hold where no word says otherwise.
fn plain(mode: Mode) -> Words
    ensures { result ≡ record { mode = mode; options = options_of nothing_given } }
{
    Words {
        mode,
        options: options_of(NOTHING),
    }
}

/// No option was given.
const NOTHING: Given = Given {
    steps: None,
    rows: None,
    log: false,
};

/// The options that were given, and the usual ones in place of the others.
fn options_of(given: Given) -> Options
    ensures { result ≡ options_of given }
{
    Options {
        budget: given.steps.unwrap_or(USUAL_STEPS),
        rows: given.rows.unwrap_or(MOST_ROWS),
        log: given.log,
    }
}

/// What the words say after a first one other than `make`.
fn read_mode(alloc: Global, first: &str, rest: &[String]) -> Result<Words, WordsError>
    ensures { AnswersFound (mode_words first.now (texts_of rest.now)) result }
{
    let mut numbers = Vec::new(alloc);
    let Some(given) = read_rest(rest, &mut numbers)? else {
        return Err(WordsError::Bad);
    };
    let Some(mode) = mode_of(first, given, numbers) else {
        return Err(WordsError::Bad);
    };
    Ok(Words {
        mode,
        options: options_of(given),
    })
}

/// The mode that a word names, none where it has no such options or numbers.
fn mode_of(word: &str, given: Given, numbers: Vec<u32>) -> Option<Mode>
    ensures { result ≡ mode_of word.now given numbers.items }
{
    if is_word(word, "order") {
        return Some(Mode::Order(Items::from_vec(numbers)));
    }
    if !numbers.is_empty() {
        return None;
    }
    if is_word(word, "run") {
        return Some(Mode::Run);
    }
    if is_word(word, "replay") && !given.log {
        return Some(Mode::Replay);
    }
    None
}

/// What the words after `make` say.
fn read_make(words: &[String]) -> Result<Words, WordsError>
    ensures { AnswersFound (made_words (texts_of words.now)) result }
{
    let numbers = after_end(words);
    if numbers.len() != 2 {
        return Err(WordsError::Bad);
    }
    read_start(numbers[0].as_str(), numbers[1].as_str())
}

/// The words without a first one that is `--`.
fn after_end(words: &[String]) -> &[String]
    ensures { texts_of result.now ≡ without_end (texts_of words.now) }
{
    match words.split_first() {
        Some((first, rest)) if is_word(first.as_str(), "--") => rest,
        _ => words,
    }
}

/// What a start and a size say.
fn read_start(start: &str, size: &str) -> Result<Words, WordsError>
    ensures { AnswersFound (start_words start.now size.now) result }
{
    let Some(start) = read_number(start, LAST_START) else {
        return Err(WordsError::Bad);
    };
    let Some(size) = read_number(size, MOST_ROUNDS) else {
        return Err(WordsError::Bad);
    };
    Ok(plain(Mode::Make {
        start,
        size: size as u32,
    }))
}

/// Goes over the words after the first one: what they give, none where one of them is refused, and the numbers among them.
fn read_rest(words: &[String], numbers: &mut Vec<u32>) -> Result<Option<Given>, NoMemory>
    requires { numbers.old.items ≡ [] }
    ensures { IfOk result (λ found. goes_over (at_options nothing_given) [] (texts_of words.now) ≡ option_map (λ given. (given, numbers.new.items)) found) }
{
    let mut state = WordState {
        phase: Phase::Options,
        given: NOTHING,
    };
    for word in words {
        match next(state, word.as_str()) {
            Step::Goes(later) => state = later,
            Step::Counts(given, number) => {
                numbers.push(number)?;
                state = WordState {
                    phase: Phase::Numbers,
                    given,
                };
            }
            Step::Refused => return Ok(None),
        }
    }
    Ok(given_at(state))
}

/// What is given at last, none where a number is still awaited.
fn given_at(state: WordState) -> Option<Given>
    ensures { (numbers : List ℕ) → at_end state.phase state.given numbers ≡ option_map (λ given. (given, numbers)) result }
{
    match state.phase {
        Phase::Options | Phase::Numbers => Some(state.given),
        Phase::Steps | Phase::Rows => None,
    }
}
