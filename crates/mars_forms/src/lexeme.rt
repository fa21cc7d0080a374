// What a token is to the grammar, and where it is in the text.

/// What a token is. A word is told by its spelling, whatever the version: whether it is reserved, the grammar says.
#[derive(Clone, Copy, Debug, PartialEq, Eq, Drop)]
pub enum TokenKind {
    // words that are reserved in both versions
    Rules,
    Session,
    End,
    Where,
    // words that are reserved in version 2
    RulesTwo,
    Local,
    Begin,
    // words of commands, which are reserved in no version
    PutWord,
    AskWord,
    KeepWord,
    SameWord,
    PinWord,
    ShowWord,
    DropWord,
    SweepWord,
    CountWord,
    // other words
    Identifier,
    Variable,
    OddWord,
    // what is no word
    Placed,
    Integer,
    Text,
    Arrow,
    Open,
    Close,
    Less,
    Greater,
    Comma,
    Dot,
    Semicolon,
    Slash,
    Equals,
    Hash,
    // the place of a refusal that looks at the tokens alone; nothing comes after it, and no form takes it
    Refused,
}

/// A token with its place: its first byte, and the first byte after it.
#[derive(Clone, Copy, Debug, PartialEq, Eq, Drop)]
pub struct Lexeme {
    pub kind: TokenKind,
    pub start: u32,
    pub end: u32,
}
