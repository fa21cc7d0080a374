//! Which words the program runs.
ghost use Rattle.std.specs.Prelude.{◌≡◌, IfOk, MatchOption, None};
ghost use Rattle.mars_script.specs.Words.{IsWords, texts_of};
ghost use Rattle.marseille.specs.Words.{AreTakenAs, AreRunAs, RunsNoThreads};

use mars_base::NoMemory;
use mars_script::{Mode, Options, SessionNumbers, Words, WordsError, read_words};
use std::alloc::Global;

/// What the program does with its words.
#[derive(Debug, Drop)]
pub enum Taken {
    /// They name a mode and options that are there: the sessions are run, with events in this order first where there is one.
    Run(Options, Option<SessionNumbers>),
    /// They are accepted, but such a mode or option isn't there yet.
    Unbuilt,
    /// They aren't accepted.
    Refused,
}

/// What the program does with words that say this.
fn take_said(words: &[String], said: Words) -> Taken
    requires { IsWords (texts_of words.now) said }
    ensures { AreTakenAs (texts_of words.now) result }
{
    let Words { mode, options } = said;
    if options.log {
        return Taken::Unbuilt;
    }
    match mode {
        Mode::Run => Taken::Run(options, None),
        Mode::Order(order) => Taken::Run(options, Some(order)),
        Mode::Replay | Mode::Make { .. } => Taken::Unbuilt,
    }
}

/// What the program does with its words.
pub(crate) fn take_words(alloc: Global, words: &[String]) -> Result<Taken, NoMemory>
    ensures { IfOk result (AreTakenAs (texts_of words.now)) }
{
    match read_words(alloc, words) {
        Ok(said) => Ok(take_said(words, said)),
        Err(WordsError::Bad) => Ok(Taken::Refused),
        Err(WordsError::NoMemory) => Err(NoMemory),
    }
}

/// The options with which words run sessions in threads, where they do.
pub(crate) fn take_threads(alloc: Global, words: &[String]) -> Result<Option<Options>, NoMemory>
    ensures { IfOk result (λ o. MatchOption o (RunsNoThreads (texts_of words.now)) (λ options. AreRunAs (texts_of words.now) options None)) }
{
    match take_words(alloc, words)? {
        Taken::Run(options, None) => Ok(Some(options)),
        Taken::Run(_, Some(_)) => Ok(None),
        Taken::Unbuilt => Ok(None),
        Taken::Refused => Ok(None),
    }
}
