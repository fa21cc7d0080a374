//! Why a text is refused, and where.
ghost use Rattle.std.specs.Prelude.{◌≡◌};
ghost use Rattle.mars_read.specs.Refused as told;

use mars_base::NoMemory;
use mars_clauses::{InputLimit, OverLimit};
use mars_forms::{Lexeme, TokenKind};
use mars_grammar::{Refusal, Which};
use mars_tokens::{TokenRefusal, Tokens};
use thiserror::Error;

/// The most bytes of a text.
pub const TEXT_LIMIT: usize = 1_048_576;

/// Which limit a text passes.
#[derive(Clone, Copy, Debug, PartialEq, Eq, Drop)]
pub enum What {
    /// The text has too many bytes.
    Input,
    /// A word, a placed variable or an integer has too many bytes.
    Name,
    /// An integer isn't of i64, or a number of answers is negative.
    Literal,
    /// Too many brackets are open.
    Nesting,
    /// A name or a tuple has too many arguments.
    Arity,
    /// There are too many rules.
    Rules,
    /// A rule or an ask has too many written nodes.
    Clause,
    /// There are too many sessions.
    Sessions,
    /// There are too many commands.
    Commands,
    /// A string means too many bytes.
    Text,
}

/// Why a text isn't read. `at` is a place in its bytes.
#[derive(Clone, Copy, Debug, PartialEq, Eq, Drop, Error)]
pub enum ReadError {
    /// E1: a byte begins no token.
    #[error("E1 at {at}")]
    BadByte { at: usize },
    /// E2: the tokens up to here begin no text, or the text breaks off.
    #[error("E2 at {at}")]
    Syntax { at: usize },
    /// E3: a limit is passed.
    #[error("E3 at {at}")]
    Limit { what: What, at: usize },
    /// E4: the head of a rule is built in.
    #[error("E4 at {at}")]
    Builtin { at: usize },
    /// E5: a session has the name of an earlier one, or a variable is defined twice.
    #[error("E5 at {at}")]
    Twice { at: usize },
    #[error("out of memory")]
    NoMemory,
}

impl From<NoMemory> for ReadError {
    ghost use Rattle.mars_read.specs.declared.error.ReadError.TheVariants as read_error;

    ghost from_gives = { λ _ e. e ≡ read_error.NoMemory };

    fn from(_: NoMemory) -> ReadError {
        ReadError::NoMemory
    }
}

/// The refusal of a limit that is passed.
fn limit_error(over: OverLimit) -> ReadError
    ensures { result ≡ told.limit_error over }
{
    let at = over.start as usize;
    match over.limit {
        InputLimit::Arity => ReadError::Limit {
            what: What::Arity,
            at,
        },
        InputLimit::Rules => ReadError::Limit {
            what: What::Rules,
            at,
        },
        InputLimit::Clause => ReadError::Limit {
            what: What::Clause,
            at,
        },
        InputLimit::Literal => ReadError::Limit {
            what: What::Literal,
            at,
        },
        InputLimit::Sessions => ReadError::Limit {
            what: What::Sessions,
            at,
        },
        InputLimit::Commands => ReadError::Limit {
            what: What::Commands,
            at,
        },
        InputLimit::BuiltIn => ReadError::Builtin { at },
        InputLimit::Twice => ReadError::Twice { at },
    }
}

/// The refusal that looks at tokens alone, at a place.
fn token_error(refusal: TokenRefusal, at: usize) -> ReadError
    ensures { result ≡ told.token_error refusal at }
{
    match refusal {
        TokenRefusal::BadByte => ReadError::BadByte { at },
        TokenRefusal::Name => ReadError::Limit {
            what: What::Name,
            at,
        },
        TokenRefusal::Literal => ReadError::Limit {
            what: What::Literal,
            at,
        },
        TokenRefusal::Nesting => ReadError::Limit {
            what: What::Nesting,
            at,
        },
        TokenRefusal::Text => ReadError::Limit {
            what: What::Text,
            at,
        },
    }
}

/// The refusal at a token that no text has there: its own, where it is the last token of what is refused.
fn refused_error(kind: TokenKind, refusal: Option<TokenRefusal>, at: usize) -> ReadError
    ensures { result ≡ told.refused_error kind refusal at }
{
    match kind {
        TokenKind::Refused => match refusal {
            Some(refusal) => token_error(refusal, at),
            None => ReadError::Syntax { at },
        },
        _ => ReadError::Syntax { at },
    }
}

/// The refusal at a token that no text has there, or at the end of so many bytes.
fn syntax_error(token: Option<Lexeme>, refusal: Option<TokenRefusal>, length: usize) -> ReadError
    ensures { result ≡ told.syntax_error token refusal length }
{
    match token {
        Some(token) => refused_error(token.kind, refusal, token.start as usize),
        None => ReadError::Syntax { at: length },
    }
}

/// The token where so many are left.
fn token_left(tokens: &[Lexeme], left: usize) -> Option<Lexeme>
    ensures { result ≡ told.token_left tokens.now left }
{
    tokens.get(tokens.len().saturating_sub(left)).copied()
}

/// The limit of one of two builders.
fn either_limit(limit: Which<OverLimit, OverLimit>) -> OverLimit
    ensures { result ≡ told.either_limit limit }
{
    match limit {
        Which::First(over) => over,
        Which::Second(over) => over,
    }
}

/// The refusal of a text of so many bytes, by what its tokens are refused for.
pub(crate) fn text_error(
    refusal: Refusal<Which<OverLimit, OverLimit>>,
    tokens: &Tokens,
    length: usize,
) -> ReadError
    ensures { result ≡ told.text_error told.either_limit refusal tokens.now.lexemes.items tokens.now.refusal length }
{
    match refusal {
        Refusal::Syntax { left } => {
            syntax_error(token_left(&tokens.lexemes, left), tokens.refusal, length)
        }
        Refusal::Limit { limit, left: _ } => limit_error(either_limit(limit)),
        Refusal::NoMemory => ReadError::NoMemory,
    }
}
