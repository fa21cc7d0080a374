// What can be due, what a row begins with, and what a builder is told beside tokens.
use crate::TokenKind;

/// What can be due. A symbol is one of its rows in the table, or is left out.
#[derive(Clone, Copy, Debug, PartialEq, Eq, Drop)]
pub enum FormSymbol {
    Input,
    RuleList,
    HeadArguments,
    HeadRow,
    HeadClose,
    Goals,
    Term,
    Arguments,
    Row,
    Tail,
    Sessions,
    Locals,
    Commands,
    AskLimit,
    AskGoals,
    AskTerm,
    AskArguments,
    AskRow,
    AskTail,
    KeptName,
    PutTerm,
    PutArguments,
    PutRow,
    PutTail,
    Definitions,
    MoreDefinitions,
    Definition,
    DefinedTerm,
    BracketTail,
    OneName,
    OneVariable,
    OneArrow,
    OneSemicolon,
    OneClose,
    OneGreater,
    OneEquals,
    OneDot,
    OneBegin,
    OneEnd,
    Apply,
    Pair,
    Head,
    Call,
    Define,
}

/// The token that a row of the table begins with.
#[derive(Clone, Copy, Debug, PartialEq, Eq, Drop)]
pub enum Trigger {
    /// A token of this kind.
    Is(TokenKind),
    /// A token of this kind, in version 1 alone.
    InOne(TokenKind),
    /// A token of this kind, in version 2 alone.
    InTwo(TokenKind),
    /// An identifier that isn't reserved in the version.
    Name,
}

/// What a builder is told beside the tokens that are read.
#[derive(Clone, Copy, Debug, PartialEq, Eq, Drop)]
pub enum FormAction {
    /// The arguments of a name or tuple are whole.
    Apply,
    /// Both sides of a dot are whole.
    Pair,
    /// The head of a rule is whole.
    Head,
    /// A goal that begins with a name is whole.
    Call,
    /// A definition is whole.
    Define,
}

/// What the right side of a definition is so far, or that none is read or it can be whole.
#[derive(Clone, Copy, Debug, PartialEq, Eq, Drop)]
pub enum FormMode {
    /// Nothing but open brackets.
    Fresh,
    /// A variable alone, perhaps in brackets.
    Alone,
    /// Anything else.
    Free,
}
