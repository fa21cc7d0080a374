//! Commands, scripts and inputs.
use mars_term::{Ask, Rule, Version};
use mars_tree::{Graph, NameId, Names};
use sqlite_items::Items;

/// A list of rules.
pub type Rules = Items<Rule>;

/// A list of commands.
pub type Commands = Items<Command>;

/// A list of scripts.
pub type Sessions = Items<Script>;

/// A command of a session.
#[derive(Drop)]
pub enum Command {
    /// A name for the tree of a graph at its root.
    Put {
        name: NameId,
        graph: Graph,
        root: usize,
    },
    Ask {
        ask: Ask,
    },
    /// A name for the tree of a variable in the last answer.
    Keep {
        name: NameId,
        var: NameId,
    },
    Same {
        left: NameId,
        right: NameId,
    },
    Show {
        name: NameId,
    },
    Pin {
        new: NameId,
        old: NameId,
    },
    Drop {
        name: NameId,
    },
    Sweep,
    Count,
}

/// A session: its name, the rules that it alone has, and its commands, each in the order of the text.
#[derive(Drop)]
pub struct Script {
    pub name: NameId,
    pub rules: Rules,
    pub commands: Commands,
}

/// What an input says.
#[derive(Drop)]
pub struct Input {
    pub version: Version,
    pub names: Names,
    pub rules: Rules,
    pub sessions: Sessions,
}
