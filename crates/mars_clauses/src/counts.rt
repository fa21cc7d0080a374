//! What is counted of an input: rules, sessions, commands, written nodes, arguments.
ghost use Rattle.std.specs.Prelude.{◌≡◌, ◌+◌, OnOk, reverse};
ghost use Rattle.mars_clauses.specs.declared.counts.InputCounts.{InputCounts};
ghost use Rattle.mars_clauses.specs.Limits as told;
ghost use Rattle.mars_clauses.specs.Short.{in_32_bits};

use crate::{InputLimit, Maker, OverLimit, ValuedToken};
use mars_base::NoMemory;
use mars_forms::{FormAction, FormSymbol, TokenKind};
use mars_tree::NameId;
use sqlite_items::Items;
use std::alloc::Global;

/// The most arguments of a name or a tuple.
pub const ARITY_LIMIT: u32 = 16;
/// The most rules of an input, those of sessions counted.
pub const RULE_LIMIT: u32 = 4096;
/// The most written nodes of a rule or an ask.
pub const CLAUSE_LIMIT: u32 = 1024;
/// The most sessions of an input.
pub const SESSION_LIMIT: u32 = 32;
/// The most commands of an input.
pub const INPUT_COMMAND_LIMIT: u32 = 2048;
/// The most commands of a session.
pub const SESSION_COMMAND_LIMIT: u32 = 256;

/// What is counted of an input, and the limit that its last token passes.
#[derive(Drop)]
pub struct InputCounts {
    /// Whether the input is of version 2.
    pub two: bool,
    /// The rules so far, those of sessions counted.
    pub rules: u32,
    /// The name of the last rule's head.
    pub head: ValuedToken,
    /// The sessions so far, by their names.
    pub sessions: Items<NameId>,
    /// Whether a session has begun whose name is due.
    pub begun: bool,
    /// The commands so far.
    pub commands: u32,
    /// Those of this session.
    pub own_commands: u32,
    /// The written nodes so far of this rule or ask.
    pub nodes: u32,
    /// The arguments so far in the innermost open bracket.
    pub arguments: u32,
    /// Likewise of the brackets around it, the outermost first.
    pub outer: Items<u32>,
    /// The limit that the last token passes.
    pub over: Option<OverLimit>,
}

/// One more; the last number of 32 bits stays as it is.
fn one_more(count: u32) -> u32
    ensures { result ≡ in_32_bits (count + 1) }
{
    count.saturating_add(1)
}

/// Whether a token that a symbol takes is a written node.
fn is_node(symbol: FormSymbol, kind: TokenKind) -> bool
    ensures { result ≡ told.is_node symbol kind }
{
    match symbol {
        FormSymbol::Goals | FormSymbol::AskGoals => !matches!(kind, TokenKind::Slash),
        FormSymbol::Term | FormSymbol::AskTerm => !matches!(kind, TokenKind::Open),
        FormSymbol::Tail | FormSymbol::AskTail => true,
        _ => false,
    }
}

/// Whether a name is among these.
fn is_session_name(names: &[NameId], name: NameId) -> bool
    ensures { result ≡ told.is_session_name name names.now }
{
    names.iter().position(|other| other.0 == name.0).is_some()
}

/// Whether a name with so many arguments is built in.
fn is_built_in(two: bool, name: NameId, arguments: u32) -> bool
    ensures { result ≡ told.is_built_in two name arguments }
{
    arguments == 2 && name.0 < 4
        || arguments == 1 && (4 <= name.0 && name.0 < 7 || two && name.0 == 12)
}

/// A limit, where it is passed.
fn over_if(is_over: bool, limit: InputLimit, start: u32) -> Option<OverLimit>
    ensures { result ≡ told.over_if is_over limit start }
{
    if is_over {
        Some(OverLimit { limit, start })
    } else {
        None
    }
}

impl InputCounts {
    /// Nothing is counted yet. Takes no memory.
    pub fn new(alloc: Global, two: bool) -> InputCounts
        ensures { result ≡ told.nothing_counted two }
    {
        InputCounts {
            two,
            rules: 0,
            head: ValuedToken {
                kind: TokenKind::Refused,
                start: 0,
                name: NameId(0),
                number: 0,
            },
            sessions: Items::new(alloc),
            begun: false,
            commands: 0,
            own_commands: 0,
            nodes: 0,
            arguments: 0,
            outer: Items::new(alloc),
            over: None,
        }
    }

    /// The limit that a token passes.
    #[inline(always)]
    fn passed(&self, symbol: FormSymbol, token: ValuedToken) -> Option<OverLimit>
        ensures { result ≡ told.passed symbol token self.now }
    {
        let start = token.start;
        match symbol {
            FormSymbol::HeadRow | FormSymbol::Row | FormSymbol::AskRow | FormSymbol::PutRow => {
                over_if(self.arguments >= ARITY_LIMIT, InputLimit::Arity, start)
            }
            FormSymbol::RuleList => over_if(self.rules >= RULE_LIMIT, InputLimit::Rules, start),
            FormSymbol::HeadClose => over_if(
                is_built_in(self.two, self.head.name, self.arguments),
                InputLimit::BuiltIn,
                self.head.start,
            ),
            FormSymbol::AskLimit => over_if(token.number < 0, InputLimit::Literal, start),
            FormSymbol::Sessions => {
                over_if(
                    self.sessions.len() >= SESSION_LIMIT as usize,
                    InputLimit::Sessions,
                    start,
                )
            }
            FormSymbol::OneName => over_if(
                self.begun && is_session_name(self.sessions.as_slice(), token.name),
                InputLimit::Twice,
                start,
            ),
            FormSymbol::Commands => over_if(
                self.own_commands >= SESSION_COMMAND_LIMIT || self.commands >= INPUT_COMMAND_LIMIT,
                InputLimit::Commands,
                start,
            ),
            _ => over_if(
                is_node(symbol, token.kind) && self.nodes >= CLAUSE_LIMIT,
                InputLimit::Clause,
                start,
            ),
        }
    }

    /// Counts a token that a symbol takes.
    fn count(&mut self, symbol: FormSymbol, token: ValuedToken) -> Result<(), NoMemory>
        ensures { OnOk result (self.new ≡ told.counted symbol token self.old) }
    {
        match symbol {
            FormSymbol::Input => self.two = starts_two(token.kind),
            FormSymbol::RuleList => {
                self.rules = one_more(self.rules);
                self.head = token;
                self.nodes = 1;
            }
            FormSymbol::Sessions => {
                self.begun = true;
                self.own_commands = 0;
            }
            FormSymbol::OneName => {
                if self.begun {
                    self.begun = false;
                    self.sessions.push(token.name)?;
                }
            }
            FormSymbol::Commands => {
                self.commands = one_more(self.commands);
                self.own_commands = one_more(self.own_commands);
                self.nodes = 0;
            }
            _ => {
                if is_node(symbol, token.kind) {
                    self.nodes = one_more(self.nodes);
                }
            }
        }
        Ok(())
    }

    /// Counts a token that a symbol takes, with the limit that it passes. Most tokens are commas, or no written nodes.
    fn note(&mut self, symbol: FormSymbol, token: ValuedToken) -> Result<(), NoMemory>
        ensures { OnOk result (self.new ≡ told.counted symbol token (told.with_over (told.passed symbol token self.old) self.old)) }
    {
        match symbol {
            FormSymbol::HeadRow | FormSymbol::Row | FormSymbol::AskRow | FormSymbol::PutRow => {
                self.over = self.passed(symbol, token);
            }
            FormSymbol::HeadArguments
            | FormSymbol::Arguments
            | FormSymbol::AskArguments
            | FormSymbol::PutTerm
            | FormSymbol::PutArguments
            | FormSymbol::PutTail
            | FormSymbol::DefinedTerm
            | FormSymbol::OneClose
            | FormSymbol::OneGreater => self.over = None,
            _ => {
                self.over = self.passed(symbol, token);
                self.count(symbol, token)?;
            }
        }
        Ok(())
    }

    /// Counts the arguments in brackets.
    fn bracket(&mut self, kind: TokenKind) -> Result<(), NoMemory>
        ensures { OnOk result (self.new ≡ told.in_brackets kind self.old) }
    {
        match kind {
            TokenKind::Open | TokenKind::Less => {
                self.outer.push(self.arguments)?;
                self.arguments = 1;
            }
            TokenKind::Comma => self.arguments = one_more(self.arguments),
            TokenKind::Close | TokenKind::Greater => self.close(),
            _ => {}
        }
        Ok(())
    }

    /// A bracket is closed: the one around it is the innermost.
    fn close(&mut self)
        ensures { self.new ≡ told.within (reverse self.old.outer) self.old }
    {
        self.arguments = self.outer.pop().unwrap_or(0);
    }
}

/// Whether an input that begins with such a token is of version 2.
fn starts_two(kind: TokenKind) -> bool
    ensures { result ≡ told.starts_two kind }
{
    matches!(kind, TokenKind::RulesTwo)
}

impl Maker for InputCounts {
    type Limit = OverLimit;

    ghost Value = { InputCounts };

    ghost view = { λ s. s };

    ghost build = { told.counting };

    fn read(&mut self, symbol: FormSymbol, token: ValuedToken) -> Result<(), NoMemory> {
        self.note(symbol, token)?;
        self.bracket(token.kind)
    }

    fn say(&mut self, _: FormAction) -> Result<(), NoMemory> {
        Ok(())
    }

    fn refuses(&self) -> Option<OverLimit> {
        self.over
    }
}
