//! What equations between atoms say, found anew each time.
use crate::plain::goals::{Atom, Flat};
use mars_base::NoMemory;
use std::alloc::Global;

/// Of each variable another atom that is equal to it, the same one for all that are equal.
#[derive(Drop)]
pub(crate) struct Classes {
    of_vars: Vec<Atom>,
}

impl Classes {
    /// The atom that is told for an atom.
    pub(crate) fn of(&self, atom: Atom) -> Atom {
        match atom {
            Atom::Var(number) => match self.of_vars.get(number as usize) {
                Some(found) => *found,
                None => atom,
            },
            Atom::Name(_) => atom,
        }
    }

    /// Whether the atom is a name in every solution.
    pub(crate) fn is_known(&self, atom: Atom) -> bool {
        match self.of(atom) {
            Atom::Var(_) => false,
            Atom::Name(_) => true,
        }
    }

    /// Whether both are equal in every solution.
    pub(crate) fn are_equal(&self, left: Atom, right: Atom) -> bool {
        self.of(left) == self.of(right)
    }

    /// Whether both are equal in some solution.
    pub(crate) fn may_be_equal(&self, left: Atom, right: Atom) -> bool {
        self.are_equal(left, right) || !self.is_known(left) || !self.is_known(right)
    }

    /// The term over the told atoms.
    pub(crate) fn of_flat(&self, flat: Flat) -> Flat {
        Flat {
            name: flat.name,
            first: self.of_argument(flat.first),
            second: self.of_argument(flat.second),
        }
    }

    fn of_argument(&self, argument: Option<Atom>) -> Option<Atom> {
        match argument {
            Some(atom) => Some(self.of(atom)),
            None => None,
        }
    }

    /// Tells a new atom wherever an old one was told.
    fn replace(&mut self, old: Atom, new: Atom) {
        for told in self.of_vars.iter_mut() {
            if *told == old {
                *told = new;
            }
        }
    }

    /// Makes two atoms equal: no where they are different names.
    fn join(&mut self, left: Atom, right: Atom) -> bool {
        let one = self.of(left);
        let other = self.of(right);
        if one == other {
            return true;
        }
        match (one, other) {
            (Atom::Var(_), _) => {
                self.replace(one, other);
                true
            }
            (_, Atom::Var(_)) => {
                self.replace(other, one);
                true
            }
            _ => false,
        }
    }
}

/// Each variable alone.
fn alone(alloc: Global, count: u32) -> Result<Classes, NoMemory> {
    let mut of_vars = Vec::new(alloc);
    for number in 0..count {
        of_vars.push(Atom::Var(number))?;
    }
    Ok(Classes { of_vars })
}

/// What equations over so many variables say, `None` where they have no solution.
pub(crate) fn solved(
    alloc: Global,
    equal: &[(Atom, Atom)],
    count: u32,
) -> Result<Option<Classes>, NoMemory> {
    let mut classes = alone(alloc, count)?;
    for pair in equal {
        if !classes.join(pair.0, pair.1) {
            return Ok(None);
        }
    }
    Ok(Some(classes))
}

/// Whether no inequation has sides that are equal in every solution.
pub(crate) fn are_apart(classes: &Classes, differ: &[(Atom, Atom)]) -> bool {
    for pair in differ {
        if classes.are_equal(pair.0, pair.1) {
            return false;
        }
    }
    true
}
