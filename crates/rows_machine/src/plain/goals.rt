//! Terms and goals of the plain machine: names over variables and names.

/// A variable, by its number, or a name of no arguments.
#[derive(Clone, Copy, Debug, PartialEq, Eq)]
pub(crate) enum Atom {
    Var(u32),
    Name(u32),
}

/// A name over at most two atoms.
#[derive(Clone, Copy, Debug, PartialEq, Eq)]
pub(crate) struct Flat {
    pub(crate) name: u32,
    pub(crate) first: Option<Atom>,
    pub(crate) second: Option<Atom>,
}

/// A goal of a rule or an ask.
#[derive(Clone, Copy, Debug, PartialEq, Eq)]
pub(crate) enum PlainGoal {
    Call(Flat),
    Freeze(Atom, Flat),
    Cut,
}

/// A goal that is still open: a cut has the height down to which it cuts.
#[derive(Clone, Copy, Debug, PartialEq, Eq)]
pub(crate) enum PlainOpen {
    Call(Flat),
    Freeze(Atom, Flat),
    CutTo(usize),
}

/// The atom, whose variables are those from a number on.
fn renamed_atom(atom: Atom, first: u32) -> Atom {
    match atom {
        Atom::Var(number) => Atom::Var(number.wrapping_add(first)),
        Atom::Name(name) => Atom::Name(name),
    }
}

/// An argument, whose variables are those from a number on.
fn renamed_argument(argument: Option<Atom>, first: u32) -> Option<Atom> {
    match argument {
        Some(atom) => Some(renamed_atom(atom, first)),
        None => None,
    }
}

/// The term, whose variables are those from a number on.
pub(crate) fn renamed(flat: Flat, first: u32) -> Flat {
    Flat {
        name: flat.name,
        first: renamed_argument(flat.first, first),
        second: renamed_argument(flat.second, first),
    }
}

/// The goal, whose variables are those from a number on, and whose cut goes down to a height.
pub(crate) fn opened(goal: PlainGoal, first: u32, height: usize) -> PlainOpen {
    match goal {
        PlainGoal::Call(flat) => PlainOpen::Call(renamed(flat, first)),
        PlainGoal::Freeze(on, flat) => {
            PlainOpen::Freeze(renamed_atom(on, first), renamed(flat, first))
        }
        PlainGoal::Cut => PlainOpen::CutTo(height),
    }
}
