//! Laws of the table object.
ghost use Rattle.mars_rows.specs.Examples.{Examples};
ghost use Rattle.mars_rows.specs.Lasting.{InternKeepsTrees};
ghost use Rattle.mars_rows.specs.Met.{InternKeepsMet, SweepKeepsMet};
ghost use Rattle.mars_rows.specs.SoundLaws.{InternKeepsSound, InternsToLasts, NumbersAgree, OneInterning, SweepKeepsSound};
ghost use Rattle.mars_rows.specs.TableLaws.{FindMeans, InternMeans, SweepMeans};

/// A row is found exactly where it is the same tree.
pub fn find_means()
    ensures { FindMeans }
{}

/// Interning adds rows for the nodes that have none, and keeps trees apart.
pub fn intern_means()
    ensures { InternMeans }
{}

/// A sweep keeps the rows that a walk along kids from a pin meets, and no others.
pub fn sweep_means()
    ensures { SweepMeans }
{}

/// Where each row is met by a walk from a pin, interning leaves it so.
pub fn intern_keeps_met()
    ensures { InternKeepsMet }
{}

/// Where each row is met by a walk from a pin, a sweep takes nothing away.
pub fn sweep_keeps_met()
    ensures { SweepKeepsMet }
{}

/// Interning keeps the trees that are there, and its number is that of the tree.
pub fn intern_keeps_trees()
    ensures { InternKeepsTrees }
{}

/// Interning keeps a table sound.
pub fn intern_keeps_sound()
    ensures { InternKeepsSound }
{}

/// What is interned for a node's tree lasts: the table is sound, old trees stay, and the number is that of the tree.
pub fn interns_to_lasts()
    ensures { InternsToLasts }
{}

/// Two numbers of a sound table are one exactly where their trees are.
pub fn numbers_agree()
    ensures { NumbersAgree }
{}

/// The answer to interning is fixed by the tree, whatever graph gives it.
pub fn one_interning()
    ensures { OneInterning }
{}

/// A sweep keeps a table sound.
pub fn sweep_keeps_sound()
    ensures { SweepKeepsSound }
{}

/// The table object computes on small trees.
pub fn examples()
    ensures { Examples }
{}
