//! The names of a session, in the order in which they were taken.
ghost use Rattle.std.specs.Prelude.{◌≡◌, ◌++◌, nat_eq, position, IfOk, MatchOption, Some, None};
ghost use Rattle.mars_session.specs.SessionPoints.{under_name, without_name, named_trees};

use crate::named::Named;
use mars_base::NoMemory;
use mars_canon::Tree;
use mars_tree::NameId;
use std::alloc::Global;

/// The place of a name.
fn name_place(names: &[Named], name: NameId) -> Option<usize>
    ensures { result ≡ position (λ n. nat_eq n.name.0 name.0) names.now }
{
    names.iter().position(|n| n.name.0 == name.0)
}

/// What a session has under a name.
pub(crate) fn find<'a>(names: &'a [Named], name: NameId) -> Option<&'a Named>
    ensures { MatchOption result (under_name names.now name ≡ None) (λ n. under_name names.now name ≡ Some n.now) }
{
    match name_place(names, name) {
        Some(place) => names.get(place),
        None => None,
    }
}

/// Takes a name out, where it is there.
pub(crate) fn drop_name(names: &mut Vec<Named>, name: NameId)
    ensures { names.new.items ≡ without_name name names.old.items }
{
    if let Some(place) = name_place(names.as_slice(), name) {
        let _ = names.remove(place);
    }
}

/// Copies of the trees of kept names, `None` exactly where one of them is no name of the session.
pub(crate) fn kept_trees(
    alloc: Global,
    names: &[Named],
    kept: &[NameId],
) -> Result<Option<Vec<Tree>>, NoMemory>
    ensures { IfOk result (λ found. MatchOption found (named_trees names.now kept.now ≡ None) (λ trees. named_trees names.now kept.now ≡ Some trees.items)) }
{
    let mut trees = Vec::new(alloc);
    for name in kept {
        match find(names, *name) {
            Some(named) => trees.push(named.tree.copy()?)?,
            None => return Ok(None),
        }
    }
    Ok(Some(trees))
}
