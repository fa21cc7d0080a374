//! What holds of nodes holds of the terms which they denote.
ghost use Rattle.mars_bridge.specs.AnsweredLaws.{AnswerDenoted, VariablesDenoted, RootsDenoted};
ghost use Rattle.mars_bridge.specs.BridgeLaws.{NodeTellsSubject, PairTellsSubjects, DifsTell, EqualRepresented};
ghost use Rattle.mars_bridge.specs.BuildingLaws.{EmptyRepresented, FreeRepresented, FreeDenotes, NodeKeeps, LabelDenotes, KeptDenotes, EqualScoped, CallScoped};
ghost use Rattle.mars_bridge.specs.MatchedLaws.{MatchedRepresents, RefusedUnsolvable};
ghost use Rattle.mars_bridge.specs.TermLaws.{AlikeTermsSame};
ghost use Rattle.mars_bridge.specs.Scoped.{MoreNodesKeep, CopiesDenoteRules};
ghost use Rattle.mars_bridge.specs.WakingLaws.{RootTells, KidsDenoteParts, NumberTells, WakingTells};

/// Where a system represents equations, a node tells what is forced, known and there of the term that it denotes, two
/// nodes tell whether their terms are implied equal or can't be, and a system with inequations whether all are solvable.
/// After two nodes were made equal, the system represents the equations with one more.
pub fn nodes_tell()
    ensures node { NodeTellsSubject }
    ensures pair { PairTellsSubjects }
    ensures difs { DifsTell }
    ensures equal { EqualRepresented }
{}

/// The root of a node has a label exactly where the label is forced at its term's root, kids denote parts, a node has the
/// number of its term, and the frozen pairs that wake are those of the terms.
pub fn roots_tell()
    ensures root { RootTells }
    ensures kids { KidsDenoteParts }
    ensures number { NumberTells }
    ensures waking { WakingTells }
{}

/// Terms show the same where their variables and kept names do.
pub fn alike_terms_same()
    ensures { AlikeTermsSame }
{}

/// A system to which nodes are added, such that each solution goes on, represents what it represented.
pub fn nodes_keep()
    ensures { MoreNodesKeep }
{}

/// After a rule was copied the system represents the equations over its variables, too; nodes denote what they denoted, and
/// those of the copy the terms of the rule, renamed to the new variables.
pub fn copies_denote()
    ensures { CopiesDenoteRules }
{}

/// After a head was matched and the body built the system represents the equations of the call by the rule, and the nodes of
/// the body denote its goals. Where the head is refused these equations have no solution.
pub fn calls_represented()
    ensures matched { MatchedRepresents }
    ensures refused { RefusedUnsolvable }
{}

/// The answer graph of nodes is that of the terms that they denote; the nodes of variables denote these, and the roots of an
/// answer the roots of the terms'.
pub fn answers_denoted()
    ensures answer { AnswerDenoted }
    ensures variables { VariablesDenoted }
    ensures roots { RootsDenoted }
{}

/// A system without variables represents no equations; a free node more is a variable more, and any node more keeps what is
/// represented; a label over nodes of arguments denotes a term, and a kept tree's node its name. Equations stay scoped.
pub fn nodes_build()
    ensures empty { EmptyRepresented }
    ensures variable { FreeRepresented }
    ensures denotes { FreeDenotes }
    ensures node { NodeKeeps }
    ensures label { LabelDenotes }
    ensures kept { KeptDenotes }
    ensures equal { EqualScoped }
    ensures call { CallScoped }
{}
