//! A term has one number at most, and the operations have built-in names.
ghost use Rattle.mars_val.specs.NumberLaws.{NumberIsOne, OperationsAreBuiltIn};

/// A term has one number at most.
pub fn number_is_one()
    ensures { NumberIsOne }
{}

/// The names of the operations are `add`, `sub`, `mul`, `div` and `mod`.
pub fn operations_are_built_in()
    ensures { OperationsAreBuiltIn }
{}
