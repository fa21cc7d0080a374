//! The tokens of a text, of both versions, with their places.
#![tactic(auto)]

mod bytes;
mod integers;
mod lexer;
mod limits;
mod pieces;
mod strings;
mod words;

pub use integers::read_integer;
pub use lexer::{TokenRefusal, Tokens, has_version_two, lex, one_list_of_tokens, token_bytes};
pub use limits::{NESTING_LIMIT, STRING_LIMIT, TOKEN_LIMIT};
pub use pieces::Piece;
pub use strings::push_meaning;
pub use words::WORDS;
