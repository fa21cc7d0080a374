//! Laws of canonical graphs and trees: equal exactly where their trees are the same, and equal ones hash alike.
ghost use Rattle.mars_canon.specs.Examples.{Examples};
ghost use Rattle.mars_canon.specs.Laws.{OneFormOfWalks, OneFormOfTrees, SameTreesHashAlike, AlikeWalksHashAlike, OneTree, SameTreeHashesAlike};

/// Canonical graphs are equal exactly where their walks are alike.
pub fn one_form_of_walks()
    ensures { OneFormOfWalks }
{}

/// Canonical graphs are equal exactly where their roots are pairwise the same tree.
pub fn one_form_of_trees()
    ensures { OneFormOfTrees }
{}

/// Canonical graphs whose roots are pairwise the same tree hash alike.
pub fn same_trees_hash_alike()
    ensures { SameTreesHashAlike }
{}

/// Canonical graphs whose walks are alike hash alike.
pub fn alike_walks_hash_alike()
    ensures { AlikeWalksHashAlike }
{}

/// Trees are equal exactly where their roots are the same tree.
pub fn one_tree()
    ensures { OneTree }
{}

/// The same trees hash alike.
pub fn same_tree_hashes_alike()
    ensures { SameTreeHashesAlike }
{}

/// The definitions compute on small graphs.
pub fn examples()
    ensures { Examples }
{}
