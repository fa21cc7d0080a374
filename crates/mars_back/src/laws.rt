//! The law of reading back.
ghost use Rattle.mars_back.specs.OneMeaning.{SolutionsKeepWalks};
ghost use Rattle.mars_back.specs.ReadBack.{TextsReadBack};

use mars_forms::Forms;
use mars_grammar::{one_value, same_beginning};

/// The text of a canonical graph with one root, where a tree can be written so, is read and not refused, and whatever
/// graph is read, its canonical graph is the one that was printed. It calls the laws of the grammar that it rests on.
pub fn texts_read_back()
    ensures { TextsReadBack }
{
    one_value::<Forms<true>>();
    same_beginning::<Forms<true>>();
}

/// Two graphs of one written tree have the same walks from their roots.
pub fn solutions_keep_walks()
    ensures { SolutionsKeepWalks }
{}
