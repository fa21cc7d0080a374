//! The built-ins, by the labels of their calls.
ghost use Rattle.std.specs.Prelude.{◌≡◌, ◌↔◌, IsTrue, MatchOption};
ghost use Rattle.mars_tree.specs.declared.label.Label.{Label};
ghost use Rattle.mars_machine.specs.declared.built_in.BuiltIn.{BuiltIn};
ghost use Rattle.mars_machine.specs.BuiltIns.{HasBuiltIn, built_in_label, built_in_name, built_in_arity};

use mars_term::Version;
use mars_tree::Label;

/// The places of the built-ins' names among the built-in names.
const EQ: u32 = 0;

const DIF: u32 = 1;

const FREEZE: u32 = 2;

const VAL: u32 = 3;

const BOUND: u32 = 4;

const FREE: u32 = 5;

const OUT: u32 = 6;

const OUT_TEXT: u32 = 12;

/// What a call may do without rules.
#[derive(Clone, Copy, Debug, PartialEq, Eq)]
pub enum BuiltIn {
    /// Makes its arguments equal.
    Eq,
    /// Keeps its arguments from being equal.
    Dif,
    /// Calls its second argument once the first is known.
    Freeze,
    /// Makes its second argument the number of the first.
    Val,
    /// Goes on where its argument is known.
    Bound,
    /// Goes on where its argument isn't known.
    Free,
    /// Says the tree of its argument.
    Out,
    /// Says the string that its argument is, in version 2 alone.
    OutText,
}

impl BuiltIn {
    /// How many arguments it has.
    fn arity(self) -> u32
        ensures { result ≡ built_in_arity self }
    {
        match self {
            BuiltIn::Eq => 2,
            BuiltIn::Dif => 2,
            BuiltIn::Freeze => 2,
            BuiltIn::Val => 2,
            BuiltIn::Bound => 1,
            BuiltIn::Free => 1,
            BuiltIn::Out => 1,
            BuiltIn::OutText => 1,
        }
    }

    /// Whether a version has it.
    fn is_of(self, version: Version) -> bool
        ensures { IsTrue result ↔ HasBuiltIn version self }
    {
        match (version, self) {
            (Version::One, BuiltIn::OutText) => false,
            _ => true,
        }
    }
}

/// The built-in whose name is at a place of the built-in names.
fn built_in_at(place: u32) -> Option<BuiltIn>
    ensures { MatchOption result ((built_in : BuiltIn) → built_in_name built_in ≡ place → ⊥) (λ built_in. built_in_name built_in ≡ place) }
{
    match place {
        EQ => Some(BuiltIn::Eq),
        DIF => Some(BuiltIn::Dif),
        FREEZE => Some(BuiltIn::Freeze),
        VAL => Some(BuiltIn::Val),
        BOUND => Some(BuiltIn::Bound),
        FREE => Some(BuiltIn::Free),
        OUT => Some(BuiltIn::Out),
        OUT_TEXT => Some(BuiltIn::OutText),
        _ => None,
    }
}

/// The built-in of a version whose calls have a label, `None` exactly where there is none.
pub fn built_in_of(version: Version, label: Label) -> Option<BuiltIn>
    ensures { MatchOption result ((built_in : BuiltIn) → HasBuiltIn version built_in → built_in_label built_in ≡ label → ⊥) (λ built_in. HasBuiltIn version built_in × (built_in_label built_in ≡ label)) }
{
    match label {
        Label::Name { name, arity } => match built_in_at(name.0) {
            Some(built_in) if arity == built_in.arity() && built_in.is_of(version) => Some(
                built_in,
            ),
            _ => None,
        },
        _ => None,
    }
}
