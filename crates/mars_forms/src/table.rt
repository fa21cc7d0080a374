// The grammar: each symbol with its forms, a row an alternative.
ghost use Rattle.std.specs.Prelude.{◌≡◌, slice_get, None};
ghost use Rattle.std.specs.Option.{option_copied};
ghost use Rattle.mars_grammar.specs.Rows.{borrowed_rows, borrowed_entry, first_row, form_if};
ghost use Rattle.mars_forms.specs.Table as told;
ghost use Rattle.mars_forms.specs.TableTest as tested;

use crate::FormSymbol::*;
use crate::TokenKind::*;
use crate::Trigger::*;
use crate::{FormAction, FormMode, FormSymbol, Lexeme, TokenKind, Trigger};
use mars_grammar::Grammar;

/// A row of a symbol: the token that it begins with, and the symbols that are due after that token.
pub type FormRow = (Trigger, &'static [FormSymbol]);

/// A symbol, what a builder is told where it is left out, if it can be, and its rows.
pub type SymbolEntry = (
    FormSymbol,
    Option<&'static [FormAction]>,
    &'static [FormRow],
);

/// The symbol can't be left out.
const NEEDED: Option<&[FormAction]> = None;
/// The symbol can be left out, and nothing is told.
const OPTIONAL: Option<&[FormAction]> = Some(&[]);

/// What is due at the beginning of an input.
pub const INPUT: &[FormSymbol] = &[Input];
/// What is due at the beginning of the text of a tree.
pub const TREE: &[FormSymbol] = &[PutTerm, Definitions];
/// What is due at the beginning of the text of goals, perhaps with a number of answers before them.
pub const GOALS: &[FormSymbol] = &[AskLimit, AskGoals];

/// The whole grammar, an entry a symbol, in the order of the symbols.
pub static FORMS: [SymbolEntry; 44] = [
    // INPUT: `rules` RULE* SESSION* `end`, and in version 2 the same after `rules2`
    (
        Input,
        NEEDED,
        &[
            (InOne(Rules), &[RuleList, Sessions, OneEnd]),
            (InTwo(RulesTwo), &[RuleList, Sessions, OneEnd]),
        ],
    ),
    // RULE*: a head, an arrow, goals, a semicolon
    (
        RuleList,
        OPTIONAL,
        &[(
            Name,
            &[HeadArguments, Head, OneArrow, Goals, OneSemicolon, RuleList],
        )],
    ),
    // the arguments of a head, perhaps none
    (
        HeadArguments,
        OPTIONAL,
        &[(Is(Open), &[Term, HeadRow, HeadClose])],
    ),
    (HeadRow, OPTIONAL, &[(Is(Comma), &[Term, HeadRow])]),
    (HeadClose, NEEDED, &[(Is(Close), &[])]),
    // GOAL* of a rule
    (
        Goals,
        OPTIONAL,
        &[
            (Name, &[Arguments, Call, Goals]),
            (Is(Variable), &[Goals]),
            (Is(Slash), &[Goals]),
        ],
    ),
    // TERM in a rule
    (
        Term,
        NEEDED,
        &[
            (Name, &[Arguments, Apply, Tail]),
            (Is(Variable), &[Tail]),
            (Is(Integer), &[Tail]),
            (InTwo(Text), &[Tail]),
            (Is(Less), &[Term, Row, OneGreater, Apply, Tail]),
            (Is(Open), &[Term, OneClose, Tail]),
        ],
    ),
    (Arguments, OPTIONAL, &[(Is(Open), &[Term, Row, OneClose])]),
    (Row, OPTIONAL, &[(Is(Comma), &[Term, Row])]),
    (Tail, OPTIONAL, &[(Is(Dot), &[Term, Pair])]),
    // SESSION*: in version 2 perhaps with rules of its own between `local` and `begin`
    (
        Sessions,
        OPTIONAL,
        &[(Is(Session), &[OneName, Locals, Commands, Sessions])],
    ),
    (Locals, OPTIONAL, &[(InTwo(Local), &[RuleList, OneBegin])]),
    // COMMAND*, each with its semicolon
    (
        Commands,
        OPTIONAL,
        &[
            (
                Is(PutWord),
                &[OneName, PutTerm, Definitions, OneSemicolon, Commands],
            ),
            (Is(AskWord), &[AskLimit, AskGoals, OneSemicolon, Commands]),
            (
                Is(KeepWord),
                &[OneName, OneVariable, OneSemicolon, Commands],
            ),
            (Is(SameWord), &[OneName, OneName, OneSemicolon, Commands]),
            (Is(PinWord), &[OneName, OneName, OneSemicolon, Commands]),
            (Is(ShowWord), &[OneName, OneSemicolon, Commands]),
            (Is(DropWord), &[OneName, OneSemicolon, Commands]),
            (Is(SweepWord), &[OneSemicolon, Commands]),
            (Is(CountWord), &[OneSemicolon, Commands]),
        ],
    ),
    // GOAL* of an ask, after the most answers that are asked for
    (AskLimit, OPTIONAL, &[(Is(Integer), &[])]),
    (
        AskGoals,
        OPTIONAL,
        &[
            (Name, &[AskArguments, Call, AskGoals]),
            (Is(Variable), &[AskGoals]),
            (Is(Slash), &[AskGoals]),
            (Is(Hash), &[KeptName, AskGoals]),
        ],
    ),
    // TERM in an ask: a kept tree too
    (
        AskTerm,
        NEEDED,
        &[
            (Name, &[AskArguments, Apply, AskTail]),
            (Is(Variable), &[AskTail]),
            (Is(Integer), &[AskTail]),
            (InTwo(Text), &[AskTail]),
            (Is(Less), &[AskTerm, AskRow, OneGreater, Apply, AskTail]),
            (Is(Open), &[AskTerm, OneClose, AskTail]),
            (Is(Hash), &[KeptName, AskTail]),
        ],
    ),
    (
        AskArguments,
        OPTIONAL,
        &[(Is(Open), &[AskTerm, AskRow, OneClose])],
    ),
    (AskRow, OPTIONAL, &[(Is(Comma), &[AskTerm, AskRow])]),
    (AskTail, OPTIONAL, &[(Is(Dot), &[AskTerm, Pair])]),
    (KeptName, NEEDED, &[(Name, &[])]),
    // TERM in a put: a placed variable too
    (
        PutTerm,
        NEEDED,
        &[
            (Name, &[PutArguments, Apply, PutTail]),
            (Is(Variable), &[PutTail]),
            (Is(Placed), &[PutTail]),
            (Is(Integer), &[PutTail]),
            (InTwo(Text), &[PutTail]),
            (Is(Less), &[PutTerm, PutRow, OneGreater, Apply, PutTail]),
            (Is(Open), &[PutTerm, OneClose, PutTail]),
        ],
    ),
    (
        PutArguments,
        OPTIONAL,
        &[(Is(Open), &[PutTerm, PutRow, OneClose])],
    ),
    (PutRow, OPTIONAL, &[(Is(Comma), &[PutTerm, PutRow])]),
    (PutTail, OPTIONAL, &[(Is(Dot), &[PutTerm, Pair])]),
    // the definitions of a TREE: `where` DEF, and more after commas
    (
        Definitions,
        OPTIONAL,
        &[(Is(Where), &[Definition, Define, MoreDefinitions])],
    ),
    (
        MoreDefinitions,
        OPTIONAL,
        &[(Is(Comma), &[Definition, Define, MoreDefinitions])],
    ),
    (
        Definition,
        NEEDED,
        &[
            (Is(Variable), &[OneEquals, DefinedTerm]),
            (Is(Placed), &[OneEquals, DefinedTerm]),
        ],
    ),
    // a TERM that isn't a variable alone: after a variable comes a dot, and so after a variable in brackets
    (
        DefinedTerm,
        NEEDED,
        &[
            (Name, &[PutArguments, Apply, PutTail]),
            (Is(Variable), &[OneDot, PutTerm, Pair]),
            (Is(Placed), &[OneDot, PutTerm, Pair]),
            (Is(Integer), &[PutTail]),
            (InTwo(Text), &[PutTail]),
            (Is(Less), &[PutTerm, PutRow, OneGreater, Apply, PutTail]),
            (Is(Open), &[PutTerm, OneClose, BracketTail]),
        ],
    ),
    (BracketTail, OPTIONAL, &[(Is(Dot), &[PutTerm, Pair])]),
    // single tokens
    (OneName, NEEDED, &[(Name, &[])]),
    (OneVariable, NEEDED, &[(Is(Variable), &[])]),
    (OneArrow, NEEDED, &[(Is(Arrow), &[])]),
    (OneSemicolon, NEEDED, &[(Is(Semicolon), &[])]),
    (OneClose, NEEDED, &[(Is(Close), &[])]),
    (OneGreater, NEEDED, &[(Is(Greater), &[])]),
    (OneEquals, NEEDED, &[(Is(Equals), &[])]),
    (OneDot, NEEDED, &[(Is(Dot), &[])]),
    (OneBegin, NEEDED, &[(Is(Begin), &[])]),
    (OneEnd, NEEDED, &[(Is(End), &[])]),
    // no token: what is before it is whole
    (Apply, Some(&[FormAction::Apply]), &[]),
    (Pair, Some(&[FormAction::Pair]), &[]),
    (Head, Some(&[FormAction::Head]), &[]),
    (Call, Some(&[FormAction::Call]), &[]),
    (Define, Some(&[FormAction::Define]), &[]),
];

/// The grammar of one version: of version 2, or of version 1.
pub struct Forms<const TWO: bool>;

/// Whether a row begins with a token of this kind.
#[inline(always)]
fn begins(two: bool, trigger: Trigger, kind: TokenKind) -> bool
    ensures { result ≡ told.begins two trigger kind }
{
    match trigger {
        Is(wanted) => kind == wanted,
        InOne(wanted) => !two && kind == wanted,
        InTwo(wanted) => two && kind == wanted,
        Name => match kind {
            Identifier
            | PutWord
            | AskWord
            | KeepWord
            | SameWord
            | PinWord
            | ShowWord
            | DropWord
            | SweepWord
            | CountWord => true,
            RulesTwo | Local | Begin => !two,
            _ => false,
        },
    }
}

/// The entry of a symbol.
fn entry_of(symbol: FormSymbol) -> &'static SymbolEntry
    ensures { slice_get told.entries (told.symbol_place symbol) ≡ Some (borrowed_entry result.now) }
{
    &FORMS[symbol as usize]
}

/// What is due after a row's token, where the token is there.
#[inline(always)]
fn due_if(begins: bool, due: &'static [FormSymbol]) -> Option<&'static [FormSymbol]>
    ensures { option_copied result ≡ form_if begins due.now None }
{
    if begins { Some(due) } else { None }
}

/// What is due after a token of this kind, by the first row that begins with it. Most symbols have one row, or none.
#[inline(always)]
fn row_that_begins(
    two: bool,
    rows: &'static [FormRow],
    kind: TokenKind,
) -> Option<&'static [FormSymbol]>
    ensures { option_copied result ≡ first_row (λ trigger. told.begins two trigger kind) (borrowed_rows rows.now) }
{
    match rows {
        [] => None,
        [row] => match row.0 {
            Is(wanted) => due_if(kind == wanted, row.1),
            _ => first_row(two, rows, kind),
        },
        _ => first_row(two, rows, kind),
    }
}

/// Likewise, of any rows.
#[inline(always)]
fn first_row(two: bool, rows: &'static [FormRow], kind: TokenKind) -> Option<&'static [FormSymbol]>
    ensures { option_copied result ≡ first_row (λ trigger. told.begins two trigger kind) (borrowed_rows rows.now) }
{
    for (trigger, due) in rows {
        if begins(two, *trigger, kind) {
            return Some(*due);
        }
    }
    None
}

impl<const TWO: bool> Grammar for Forms<TWO> {
    type Symbol = FormSymbol;

    type Kind = TokenKind;

    type Token = Lexeme;

    type Action = FormAction;

    type Mode = FormMode;

    ghost table = { told.forms TWO };

    ghost test = { tested.forms_test TWO };

    fn kind(token: Lexeme) -> TokenKind {
        token.kind
    }

    fn takes(symbol: FormSymbol, kind: TokenKind) -> Option<&'static [FormSymbol]> {
        row_that_begins(TWO, entry_of(symbol).2, kind)
    }

    fn leaves(symbol: FormSymbol) -> Option<&'static [FormAction]> {
        entry_of(symbol).1
    }

    fn free() -> FormMode {
        FormMode::Free
    }

    fn pass(kind: TokenKind, mode: FormMode) -> FormMode {
        match mode {
            FormMode::Free => match kind {
                Equals => FormMode::Fresh,
                _ => FormMode::Free,
            },
            _ => match (kind, mode) {
                (Equals, _) => FormMode::Fresh,
                (Open, FormMode::Fresh) => FormMode::Fresh,
                (Variable, FormMode::Fresh) => FormMode::Alone,
                (Placed, FormMode::Fresh) => FormMode::Alone,
                (Close, FormMode::Alone) => FormMode::Alone,
                _ => FormMode::Free,
            },
        }
    }

    fn stays(mode: FormMode, symbol: FormSymbol) -> bool {
        matches!((mode, symbol), (FormMode::Alone, BracketTail))
    }

    ghost passes = { tested.passes TWO };
}
