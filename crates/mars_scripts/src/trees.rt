//! The tree that the events of a text tell, as a maker over them.
ghost use Rattle.std.specs.Prelude.{◌≡◌, OnOk};
ghost use Rattle.mars_forms.specs.declared.symbol.FormSymbol.{FormSymbol};
ghost use Rattle.mars_graphs.specs.Making.{nothing_made};
ghost use Rattle.mars_scripts.specs.declared.trees.TreeMaker.{TreeMaker};
ghost use Rattle.mars_scripts.specs.Trees as told;

use mars_base::NoMemory;
use mars_clauses::{InputLimit, Maker, OverLimit, ValuedToken};
use mars_forms::{FormAction, FormSymbol, TokenKind};
use mars_graphs::{GraphMaker, Head};
use mars_tree::Label;
use std::alloc::Global;

/// A tree that is being read.
#[derive(Drop)]
pub struct TreeMaker {
    /// What its steps have made so far.
    pub graph: GraphMaker,
    /// The start of the last token.
    pub place: u32,
}

impl TreeMaker {
    /// Nothing is read yet. Takes no memory.
    pub fn new(alloc: Global) -> TreeMaker
        ensures { result ≡ told.no_tree }
    {
        TreeMaker {
            graph: GraphMaker::new(alloc),
            place: 0,
        }
    }

    /// A token of a term.
    #[inline(always)]
    fn part(&mut self, token: ValuedToken) -> Result<(), NoMemory>
        ensures { OnOk result (self.new ≡ told.with_step (told.part_told token.kind token) self.old) }
    {
        match token.kind {
            TokenKind::Variable | TokenKind::Placed => self.graph.variable(token.name),
            TokenKind::Integer => self.graph.leaf(Label::Int(token.number)),
            TokenKind::Text => self.graph.leaf(Label::Str(token.name)),
            TokenKind::Less => self.graph.begin(Head::Tuple),
            TokenKind::Open => Ok(()),
            _ => self.graph.begin(Head::Name(token.name)),
        }
    }
}

impl Maker for TreeMaker {
    type Limit = OverLimit;

    ghost Value = { TreeMaker };

    ghost view = { λ s. s };

    ghost build = { told.tree_making };

    #[inline(always)]
    fn read(&mut self, symbol: FormSymbol, token: ValuedToken) -> Result<(), NoMemory> {
        self.place = token.start;
        match symbol {
            FormSymbol::PutTerm | FormSymbol::DefinedTerm => self.part(token),
            FormSymbol::PutTail | FormSymbol::BracketTail | FormSymbol::OneDot => {
                self.graph.begin(Head::Dot)
            }
            FormSymbol::Definition => self.graph.equate(token.name),
            _ => Ok(()),
        }
    }

    fn say(&mut self, action: FormAction) -> Result<(), NoMemory> {
        match action {
            FormAction::Apply | FormAction::Pair => self.graph.close(),
            FormAction::Define => {
                self.graph.define();
                Ok(())
            }
            FormAction::Head | FormAction::Call => Ok(()),
        }
    }

    fn refuses(&self) -> Option<OverLimit> {
        if self.graph.is_twice() {
            Some(OverLimit {
                limit: InputLimit::Twice,
                start: self.place,
            })
        } else {
            None
        }
    }
}
