//! Laws of the words.
ghost use Rattle.std.specs.Prelude.{◌≡◌, ℕ, List};
ghost use Rattle.mars_script.specs.Examples.{WordExamples};
ghost use Rattle.mars_script.specs.Words.{IsWords};
ghost use Rattle.mars_script.specs.declared.words.Words.{Words};

/// A list of words says one thing.
pub fn words_say_one_thing()
    ensures { (texts : List (List ℕ)) (said other : Words) → IsWords texts said → IsWords texts other → said ≡ other }
{}

/// The definitions hold and don't hold on short lists of words.
pub fn word_examples()
    ensures { WordExamples }
{}
