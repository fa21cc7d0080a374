//! What an input says: the maker of its rules, sessions and commands.
ghost use Rattle.std.specs.Prelude.{◌≡◌, OnOk, IfOk, None};
ghost use Rattle.mars_clauses.specs.Made.{clause_of};
ghost use Rattle.mars_forms.specs.declared.symbol.FormSymbol.{FormSymbol};
ghost use Rattle.mars_grammar.specs.FormTable.{Read};
ghost use Rattle.mars_scripts.specs.Scripts.{Scripts, scripts_making, nothing_told};
ghost use Rattle.mars_scripts.specs.Scripts as told;
ghost use Rattle.mars_scripts.specs.Told.{scripts_of};

use crate::TreeMaker;
use mars_base::NoMemory;
use mars_clauses::{ClauseMaking, FinishedClause, Maker, OverLimit, ValuedToken};
use mars_forms::{FormAction, FormSymbol, TokenKind};
use mars_script::{Command, Input, Rules, Script, Sessions};
use mars_term::{Rule, Version};
use mars_tree::{NameId, Names};
use sqlite_items::Items;
use std::alloc::Global;
use std::mem;

/// What is told so far of an input. What an event tells is `scripts_making`; after an error it is not said.
#[derive(Drop)]
pub struct ScriptMaker {
    alloc: Global,
    pub(crate) version: Version,
    /// The input's own.
    pub(crate) rules: Rules,
    /// Those that are whole.
    pub(crate) sessions: Sessions,
    /// The one that is being read.
    pub(crate) session: Option<Script>,
    /// The word that began the session or command at hand.
    pub(crate) word: TokenKind,
    /// The last name but one, and the last, of a command.
    pub(crate) before: NameId,
    pub(crate) last: NameId,
    pub(crate) clause: ClauseMaking,
    pub(crate) tree: TreeMaker,
}

/// The version of an input, by its first token.
fn version_of(kind: TokenKind) -> Version
    ensures { result ≡ told.version_of kind }
{
    match kind {
        TokenKind::RulesTwo => Version::Two,
        _ => Version::One,
    }
}

impl ScriptMaker {
    /// Nothing is told yet. Takes no memory.
    pub fn new(alloc: Global) -> ScriptMaker
        ensures { scripts_of result ≡ nothing_told }
    {
        ScriptMaker {
            alloc,
            version: Version::One,
            rules: Items::new(alloc),
            sessions: Items::new(alloc),
            session: None,
            word: TokenKind::Rules,
            before: NameId(0),
            last: NameId(0),
            clause: ClauseMaking::new(alloc, false),
            tree: TreeMaker::new(alloc),
        }
    }

    /// The session that is being read is whole.
    fn end_session(&mut self) -> Result<(), NoMemory>
        ensures { OnOk result (scripts_of self.new ≡ told.with_session_whole (scripts_of self.old)) }
    {
        if let Some(session) = self.session.take() {
            self.sessions.push(session)?;
        }
        Ok(())
    }

    /// One more name of the command at hand.
    fn collect(&mut self, name: NameId)
        ensures { scripts_of self.new ≡ told.collected name (scripts_of self.old) }
    {
        self.before = self.last;
        self.last = name;
    }

    /// A name: of a session that begins, or of the command at hand.
    fn name(&mut self, name: NameId)
        ensures { scripts_of self.new ≡ told.with_next_name (scripts_of self.old).word name (scripts_of self.old) }
    {
        match self.word {
            TokenKind::Session => {
                self.session = Some(Script {
                    name,
                    rules: Items::new(self.alloc),
                    commands: Items::new(self.alloc),
                });
            }
            _ => self.collect(name),
        }
    }

    /// One more rule, of the session or of all.
    fn add_rule(&mut self, rule: Rule) -> Result<(), NoMemory>
        ensures { OnOk result (scripts_of self.new ≡ told.with_rule (scripts_of self.old).session rule (scripts_of self.old)) }
    {
        match &mut self.session {
            Some(session) => session.rules.push(rule)?,
            None => self.rules.push(rule)?,
        }
        Ok(())
    }

    /// One more command of the session.
    fn add_command(&mut self, command: Option<Command>) -> Result<(), NoMemory>
        ensures { OnOk result (scripts_of self.new ≡ told.with_command command (scripts_of self.old)) }
    {
        if let Some(command) = command {
            if let Some(session) = &mut self.session {
                session.commands.push(command)?;
            }
        }
        Ok(())
    }

    /// The tree that is read, as a command that puts it.
    fn put(&mut self) -> Result<Command, NoMemory>
        ensures made { IfOk result (λ command. command ≡ told.put_told (scripts_of self.old)) }
        ensures rest { OnOk result (scripts_of self.new ≡ told.without_tree (scripts_of self.old)) }
    {
        let tree = mem::replace(&mut self.tree, TreeMaker::new(self.alloc));
        let (graph, root) = tree.graph.finish()?;
        Ok(Command::Put {
            name: self.last,
            graph,
            root,
        })
    }

    /// The command at hand, unless it is an ask. Its tree is taken away.
    fn command(&mut self) -> Result<Option<Command>, NoMemory>
        ensures made { IfOk result (λ command. command ≡ told.command_told (scripts_of self.old).word (scripts_of self.old)) }
        ensures rest { OnOk result (told.without_tree (scripts_of self.new) ≡ told.without_tree (scripts_of self.old)) }
    {
        let (before, last) = (self.before, self.last);
        Ok(match self.word {
            TokenKind::PutWord => Some(self.put()?),
            TokenKind::KeepWord => Some(Command::Keep {
                name: before,
                var: last,
            }),
            TokenKind::SameWord => Some(Command::Same {
                left: before,
                right: last,
            }),
            TokenKind::PinWord => Some(Command::Pin {
                new: before,
                old: last,
            }),
            TokenKind::ShowWord => Some(Command::Show { name: last }),
            TokenKind::DropWord => Some(Command::Drop { name: last }),
            TokenKind::SweepWord => Some(Command::Sweep),
            TokenKind::CountWord => Some(Command::Count),
            _ => None,
        })
    }

    /// A rule or a command is whole.
    fn end(&mut self) -> Result<(), NoMemory>
        ensures { OnOk result (scripts_of self.new ≡ told.with_ended (scripts_of self.old)) }
    {
        match self.clause.finish()? {
            FinishedClause::Rule(rule) => self.add_rule(rule)?,
            FinishedClause::Ask(ask) => self.add_command(Some(Command::Ask { ask }))?,
            FinishedClause::Neither => {
                let command = self.command()?;
                self.add_command(command)?;
            }
        }
        self.tree = TreeMaker::new(self.alloc);
        Ok(())
    }

    /// What a token tells beside what it tells of a rule, an ask or a tree.
    fn script(&mut self, symbol: FormSymbol, token: ValuedToken) -> Result<(), NoMemory>
        ensures { OnOk result (scripts_of self.new ≡ told.script_read symbol token (scripts_of self.old)) }
    {
        match symbol {
            FormSymbol::Input => self.version = version_of(token.kind),
            FormSymbol::Sessions => {
                self.end_session()?;
                self.word = token.kind;
            }
            FormSymbol::Commands => self.word = token.kind,
            FormSymbol::OneName => self.name(token.name),
            FormSymbol::OneVariable => self.collect(token.name),
            FormSymbol::OneSemicolon => self.end()?,
            FormSymbol::OneEnd => self.end_session()?,
            _ => {}
        }
        Ok(())
    }

    /// What a token tells, whatever the symbol that takes it.
    #[inline(never)]
    fn read_any(&mut self, symbol: FormSymbol, token: ValuedToken) -> Result<(), NoMemory>
        ensures { OnOk result (scripts_of self.new ≡ told.scripts_event (Read symbol token) (scripts_of self.old)) }
    {
        self.clause.read(symbol, token)?;
        self.tree.read(symbol, token)?;
        self.script(symbol, token)
    }

    /// The whole of what was told, with the names of the text.
    pub fn finish(self, names: Names) -> Input
        ensures { result ≡ told.input_told names (scripts_of self) }
    {
        Input {
            version: self.version,
            names,
            rules: self.rules,
            sessions: self.sessions,
        }
    }
}

impl Maker for ScriptMaker {
    type Limit = OverLimit;

    ghost Value = { Scripts };

    ghost view = { scripts_of };

    ghost build = { scripts_making };

    fn read(&mut self, symbol: FormSymbol, token: ValuedToken) -> Result<(), NoMemory> {
        match symbol {
            FormSymbol::Goals | FormSymbol::AskGoals | FormSymbol::Term | FormSymbol::AskTerm => {
                self.tree.place = token.start;
                self.clause.read(symbol, token)
            }
            FormSymbol::PutTerm | FormSymbol::PutTail | FormSymbol::DefinedTerm => {
                self.tree.read(symbol, token)
            }
            FormSymbol::HeadArguments
            | FormSymbol::HeadRow
            | FormSymbol::Arguments
            | FormSymbol::Row
            | FormSymbol::Tail
            | FormSymbol::AskArguments
            | FormSymbol::AskRow
            | FormSymbol::AskTail
            | FormSymbol::PutArguments
            | FormSymbol::PutRow
            | FormSymbol::OneClose
            | FormSymbol::OneGreater => {
                self.tree.place = token.start;
                Ok(())
            }
            _ => self.read_any(symbol, token),
        }
    }

    fn say(&mut self, action: FormAction) -> Result<(), NoMemory> {
        self.clause.say(action)?;
        self.tree.say(action)
    }

    fn refuses(&self) -> Option<OverLimit> {
        self.tree.refuses()
    }
}
