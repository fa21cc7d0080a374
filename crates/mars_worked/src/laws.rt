//! Worked rows.
ghost use Rattle.mars_worked.specs.CutRows.{CutRows};
ghost use Rattle.mars_worked.specs.CyclicRows.{CyclicRow};
ghost use Rattle.mars_worked.specs.DerivationRows.{DerivationRows};

/// The definitions on small asks: what their steps say, and how they end.
pub fn derivation_rows()
    ensures small { DerivationRows }
    ensures cut { CutRows }
    ensures cyclic { CyclicRow }
{}
