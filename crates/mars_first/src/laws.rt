//! The law of first keys.
ghost use Rattle.mars_first.specs.FirstLaws.{FirstKeysTell};

/// First keys are equal exactly where the components share a tree, and then the nodes at each place are the same tree.
pub fn first_keys_tell()
    ensures { FirstKeysTell }
{}
