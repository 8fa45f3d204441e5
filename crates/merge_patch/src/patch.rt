//! The merge of a value and a patch.
ghost use Rattle.std.specs.Prelude.{◌≡◌, ◌≤◌, max, IsTrue, IfOk};
ghost use Rattle.serde_json.specs.Data.{object};
ghost use Rattle.json_tree.specs.Tree.{data_of, depth_of, is_well, is_well_formed, table_data};
ghost use Rattle.merge_patch.specs.Merge as spec;
ghost use Rattle.merge_patch.specs.Members.{IsMerge};

use crate::taken::take;
use json_tree::{Json, Members, Text};
use std::alloc::{AllocError, Global};

/// The target, changed as the patch says (RFC 7396, section 2).
///
/// A patch that is no object takes the target's place. One that is an object changes the members of
/// the target, or of an empty object where the target is no object: a null takes the member of its
/// name away, and any other value is merged into the value of its name. So nulls in objects deeper
/// inside the patch take members away too, and those inside its arrays stay.
///
/// The answer is well formed and no deeper than the deeper of the two, and merging the same patch
/// into it again changes nothing.
#[cycle(merge)]
pub fn merge(alloc: Global, target: Json, patch: &Json) -> Result<Json, AllocError>
    requires target { IsTrue (is_well_formed target) }
    requires patch { IsTrue (is_well_formed patch.now) }
    ensures value { IfOk result (λ all. data_of all ≡ spec.merge_of (data_of target) (data_of patch.now)) }
    ensures members { IfOk result (λ all. IsMerge (data_of target) (data_of patch.now) (data_of all)) }
    ensures well_formed { IfOk result (λ all. IsTrue (is_well_formed all)) }
    ensures depth { IfOk result (λ all. depth_of all ≤ max (depth_of target) (depth_of patch.now)) }
    ensures again { IfOk result (λ all. spec.merge_of (data_of all) (data_of patch.now) ≡ data_of all) }
{
    match patch {
        Json::Obj(changes) => {
            let members = change_all(alloc, members_of(alloc, target), changes.entries())?;
            Ok(Json::Obj(members))
        }
        _ => patch.copy(alloc),
    }
}

/// The members of an object; none of another value.
fn members_of(alloc: Global, value: Json) -> Members
    ensures { table_data result.entries ≡ spec.members_of (data_of value) }
{
    match value {
        Json::Obj(members) => members,
        _ => Members::new(alloc),
    }
}

/// The members after all the changes, one after another.
#[cycle(merge)]
fn change_all(
    alloc: Global,
    members: Members,
    changes: &[(Text, Json)],
) -> Result<Members, AllocError>
    requires members { IsTrue (is_well (object (table_data members.entries))) }
    requires changes { IsTrue (is_well (object (table_data changes.now))) }
    ensures { IfOk result (λ all. table_data all.entries ≡ spec.merged (table_data members.entries) (table_data changes.now)) }
{
    let mut all = members;
    for change in changes {
        let (rest, old) = take(all, change.0.as_str());
        let new = merge(alloc, old, &change.1)?;
        all = put_unless_null(alloc, rest, &change.0, new)?;
    }
    Ok(all)
}

fn is_null(value: &Json) -> bool
    ensures { result ≡ spec.is_null (data_of value.now) }
{
    match value {
        Json::Null => true,
        _ => false,
    }
}

/// The members with the value under the name; a null adds nothing.
fn put_unless_null(
    alloc: Global,
    members: Members,
    name: &Text,
    value: Json,
) -> Result<Members, AllocError>
    ensures { IfOk result (λ all. table_data all.entries ≡ spec.put_unless_null name.now (data_of value) (table_data members.entries)) }
{
    let mut all = members;
    if is_null(&value) {
        return Ok(all);
    }
    all.put(name.copy(alloc)?, value)?;
    Ok(all)
}
