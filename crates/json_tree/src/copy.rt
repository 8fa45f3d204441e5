//! Copies of JSON values.
ghost use Rattle.std.specs.Prelude.{◌≡◌, IfOk};

use crate::members::Members;
use crate::seq::Seq;
use crate::text::Text;
use crate::value::Json;
use std::alloc::{AllocError, Global};

impl Json {
    /// A copy in new memory.
    #[cycle(copy)]
    pub fn copy(&self, alloc: Global) -> Result<Json, AllocError>
        ensures { IfOk result (λ copy. copy ≡ self.now) }
    {
        match self {
            Json::Null => Ok(Json::Null),
            Json::Bool(b) => Ok(Json::Bool(*b)),
            Json::Int(z) => Ok(Json::Int(*z)),
            Json::Nat(n) => Ok(Json::Nat(*n)),
            Json::Str(text) => Ok(Json::Str(text.copy(alloc)?)),
            Json::Arr(items) => Ok(Json::Arr(copy_items(alloc, items.as_slice())?)),
            Json::Obj(members) => Ok(Json::Obj(copy_members(alloc, members.entries())?)),
        }
    }
}

#[cycle(copy)]
fn copy_items(alloc: Global, items: &[Json]) -> Result<Seq<Json>, AllocError>
    ensures { IfOk result (λ copy. copy ≡ items.now) }
{
    let mut copies = Seq::with_capacity(alloc, items.len())?;
    for item in items {
        copies.push(item.copy(alloc)?)?;
    }
    Ok(copies)
}

#[cycle(copy)]
fn copy_members(alloc: Global, members: &[(Text, Json)]) -> Result<Members, AllocError>
    ensures { IfOk result (λ copy. copy.entries ≡ members.now) }
{
    let mut copies = Members::with_capacity(alloc, members.len())?;
    for member in members {
        let name = member.0.copy(alloc)?;
        let value = member.1.copy(alloc)?;
        copies.add(name, value)?;
    }
    Ok(copies)
}

/// A clone is an equal value, in memory of the allocators that the value keeps.
impl Clone for Json {
    ghost is_clone = { λ v w. w ≡ v };

    fn clone(&self) -> Result<Json, AllocError> {
        match self {
            Json::Null => Ok(Json::Null),
            Json::Bool(b) => Ok(Json::Bool(*b)),
            Json::Int(z) => Ok(Json::Int(*z)),
            Json::Nat(n) => Ok(Json::Nat(*n)),
            Json::Str(text) => Ok(Json::Str(text.clone()?)),
            Json::Arr(items) => Ok(Json::Arr(copy_items(items.allocator(), items.as_slice())?)),
            Json::Obj(members) => {
                let copies = copy_members(members.allocator(), members.entries())?;
                Ok(Json::Obj(copies))
            }
        }
    }
}
