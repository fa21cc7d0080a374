//! Laws of the definitions.
ghost use Rattle.mars_term.specs.Examples.{TermExamples};
ghost use Rattle.mars_term.specs.PartLaws.{PartsOfTerms};

/// What the parts of a term are, by the parts of its arguments.
pub fn parts_of_terms()
    ensures { PartsOfTerms }
{}

/// The definitions compute on small terms.
pub fn term_examples()
    ensures { TermExamples }
{}
