//! A rule or an ask that is being read.
ghost use Rattle.std.specs.Prelude.{◌≡◌, [], ◌∷◌, Some, false, OnOk, IfOk, IfErr};
ghost use Rattle.mars_forms.specs.declared.symbol.FormSymbol.{FormSymbol};
ghost use Rattle.mars_clauses.specs.Terms as told;
ghost use Rattle.mars_clauses.specs.Made.{clause_of};

use crate::terms::{head_made, pair, term_made};
use crate::{OpenTerm, ValuedToken, VariableList, short_number};
use mars_base::NoMemory;
use mars_forms::{FormAction, FormSymbol, TokenKind};
use mars_term::{Ask, Goal, Goals, NameIds, Rule, Term};
use mars_tree::NameId;
use sqlite_items::Items;
use std::alloc::Global;
use std::mem;

/// What is read so far of a rule or an ask.
#[derive(Drop)]
pub struct ClauseMaking {
    pub(crate) alloc: Global,
    pub(crate) asking: bool,
    pub(crate) most: Option<u64>,
    pub(crate) vars: VariableList,
    pub(crate) kept: NameIds,
    pub(crate) head: Option<Term>,
    pub(crate) goals: Goals,
    /// The innermost last.
    pub(crate) rows: Vec<OpenTerm>,
}

/// A number of answers.
fn amount(number: i64) -> u64
    ensures { result ≡ told.amount number }
{
    if number < 0 { 0 } else { number as u64 }
}

impl ClauseMaking {
    /// Nothing is read yet. Takes no memory.
    pub fn new(alloc: Global, asking: bool) -> ClauseMaking
        ensures { clause_of result ≡ told.begun asking [] }
    {
        ClauseMaking {
            alloc,
            asking,
            most: None,
            vars: VariableList::new(alloc),
            kept: Items::new(alloc),
            head: None,
            goals: Items::new(alloc),
            rows: Vec::new(alloc),
        }
    }

    /// A rule or an ask begins.
    #[inline(never)]
    fn begin(&mut self, asking: bool)
        ensures { clause_of self.new ≡ told.begun asking [] }
    {
        let alloc = self.alloc;
        *self = ClauseMaking::new(alloc, asking);
    }

    /// A term is whole.
    fn give(&mut self, term: Term) -> Result<(), NoMemory>
        ensures { OnOk result (clause_of self.new ≡ told.given term (clause_of self.old)) }
    {
        match self.rows.last_mut() {
            Some(row) => row.terms.push(term)?,
            None => self.goals.push(Goal::Call(term))?,
        }
        Ok(())
    }

    /// A name or a tuple begins.
    fn open(&mut self, opening: Option<NameId>) -> Result<(), NoMemory>
        ensures { OnOk result (clause_of self.new ≡ told.with_open opening (clause_of self.old)) }
    {
        let terms = Items::new(self.alloc);
        self.rows.push(OpenTerm { opening, terms })?;
        Ok(())
    }

    /// The arguments of a name or a tuple are whole.
    fn apply(&mut self) -> Result<(), NoMemory>
        ensures { OnOk result (clause_of self.new ≡ told.with_applied (clause_of self.old)) }
    {
        match self.rows.pop() {
            Some(row) => self.give(term_made(row.opening, row.terms)),
            None => Ok(()),
        }
    }

    /// Both sides of a dot are whole.
    fn pair(&mut self) -> Result<(), NoMemory>
        ensures { OnOk result (clause_of self.new ≡ told.paired_in (clause_of self.old).rows (clause_of self.old)) }
    {
        if let Some(row) = self.rows.last_mut() {
            pair(self.alloc, &mut row.terms)?;
        }
        Ok(())
    }

    /// The head of a rule is whole.
    fn end_head(&mut self)
        ensures { clause_of self.new ≡ told.headed_in (clause_of self.old).rows (clause_of self.old) }
    {
        if let Some(row) = self.rows.pop() {
            self.head = head_made(row.opening, row.terms);
        }
    }

    /// A variable.
    fn variable(&mut self, name: NameId) -> Result<(), NoMemory>
        ensures { OnOk result (clause_of self.new ≡ told.with_var name (clause_of self.old)) }
    {
        let number = self.vars.number(name)?;
        self.give(Term::Var(number))
    }

    /// A kept name.
    fn keep(&mut self, name: NameId) -> Result<(), NoMemory>
        ensures { OnOk result (clause_of self.new ≡ told.with_kept name (clause_of self.old)) }
    {
        if self.asking {
            let number = short_number(self.kept.len());
            self.kept.push(name)?;
            self.give(Term::Kept(number))?;
        }
        Ok(())
    }

    /// A token of a goal or a term.
    #[inline(always)]
    fn part(&mut self, token: ValuedToken) -> Result<(), NoMemory>
        ensures { OnOk result (clause_of self.new ≡ told.with_part token.kind token (clause_of self.old)) }
    {
        match token.kind {
            TokenKind::Variable => self.variable(token.name),
            TokenKind::Integer => self.give(Term::Int(token.number)),
            TokenKind::Text => self.give(Term::Str(token.name)),
            TokenKind::Less => self.open(None),
            TokenKind::Slash => {
                self.goals.push(Goal::Cut)?;
                Ok(())
            }
            TokenKind::Open | TokenKind::Hash => Ok(()),
            _ => self.open(Some(token.name)),
        }
    }

    /// A token that a symbol takes.
    #[inline(always)]
    pub fn read(&mut self, symbol: FormSymbol, token: ValuedToken) -> Result<(), NoMemory>
        ensures { OnOk result (clause_of self.new ≡ told.clause_read symbol token (clause_of self.old)) }
    {
        match symbol {
            FormSymbol::RuleList => {
                self.begin(false);
                self.open(Some(token.name))
            }
            FormSymbol::Commands => {
                self.begin(matches!(token.kind, TokenKind::AskWord));
                Ok(())
            }
            FormSymbol::Goals | FormSymbol::AskGoals | FormSymbol::Term | FormSymbol::AskTerm => {
                self.part(token)
            }
            FormSymbol::KeptName => self.keep(token.name),
            FormSymbol::AskLimit => {
                self.most = Some(amount(token.number));
                Ok(())
            }
            _ => Ok(()),
        }
    }

    /// An action of the table.
    pub fn say(&mut self, action: FormAction) -> Result<(), NoMemory>
        ensures { OnOk result (clause_of self.new ≡ told.clause_said action (clause_of self.old)) }
    {
        match action {
            FormAction::Apply | FormAction::Call => self.apply(),
            FormAction::Pair => self.pair(),
            FormAction::Head => {
                if !self.asking {
                    self.end_head();
                }
                Ok(())
            }
            FormAction::Define => Ok(()),
        }
    }

    /// The rule or the ask that is read, if it is one, which is taken away. Linear in the variables of an ask.
    pub fn finish(&mut self) -> Result<FinishedClause, NoMemory>
        ensures made { IfOk result (λ clause. clause ≡ told.finished (clause_of self.old)) }
        ensures new { OnOk result (clause_of self.new ≡ told.begun false []) }
    {
        let alloc = self.alloc;
        let clause = mem::replace(self, ClauseMaking::new(alloc, false));
        finished(clause)
    }
}

/// What a rule or an ask is when all of it is read.
#[derive(Drop)]
pub enum FinishedClause {
    /// Neither: another command.
    Neither,
    Rule(Rule),
    Ask(Ask),
}

/// The rule or the ask that is read.
fn finished(clause: ClauseMaking) -> Result<FinishedClause, NoMemory>
    ensures { IfOk result (λ whole. whole ≡ told.finished (clause_of clause)) }
{
    let ClauseMaking {
        alloc,
        asking,
        most,
        vars,
        kept,
        head,
        goals,
        rows,
    } = clause;
    if !rows.is_empty() {
        return Ok(FinishedClause::Neither);
    }
    match head {
        Some(head) if !asking => {
            let vars = vars.count();
            Ok(FinishedClause::Rule(Rule {
                head,
                body: goals,
                vars,
            }))
        }
        None if asking => {
            let vars = vars.to_names(alloc)?;
            Ok(FinishedClause::Ask(Ask {
                most,
                goals,
                vars,
                kept,
            }))
        }
        _ => Ok(FinishedClause::Neither),
    }
}
