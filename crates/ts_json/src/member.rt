//! Objects of members that are no objects, and pages of such objects.

ghost use Rattle.std.specs.Prelude.{◌≡◌, IfOk, map, string_bytes};
ghost use Rattle.serde_json.specs.View.{members_view, view};
ghost use Rattle.serde_json.specs.Written.{compact_text};
ghost use Rattle.ts_json.specs.Members.{data_of, members_of, named_value, object_of, page_of};

use crate::value::{array_of, flag_or_null, number_or_null, numbers_of, text_or_null};
use serde_json::{Map, Value, put};
use std::alloc::{AllocError, Global};

/// A value that is no object. `None` is null.
#[derive(Drop)]
pub enum Plain {
    Flag(Option<bool>),
    Number(Option<u64>),
    Text(Option<String>),
    Texts(Vec<String>),
    Numbers(Vec<u64>),
}

/// A member of an object.
#[derive(Drop)]
pub struct Member {
    pub name: &'static str,
    pub value: Plain,
}

/// The value.
fn value_of(alloc: Global, plain: &Plain) -> Result<Value, AllocError>
    ensures { IfOk result (λ v. view v ≡ data_of plain.now) }
{
    match plain {
        Plain::Flag(flag) => Ok(flag_or_null(*flag)),
        Plain::Number(number) => Ok(number_or_null(*number)),
        Plain::Text(text) => text_or_null(alloc, text),
        Plain::Texts(texts) => array_of(alloc, texts),
        Plain::Numbers(numbers) => numbers_of(alloc, numbers),
    }
}

/// The members, as a map.
fn map_of(alloc: Global, members: &[Member]) -> Result<Map<String, Value>, AllocError>
    ensures { IfOk result (λ m. members_view m.entries ≡ members_of (map named_value members.now)) }
{
    let mut all = Map::new(alloc);
    for member in members {
        let value = value_of(alloc, &member.value)?;
        put(&mut all, alloc, member.name, value)?;
    }
    Ok(all)
}

/// The text of the object that has these members, without spaces. Of two with one name the later
/// one counts.
///
/// # Errors
///
/// Out of memory.
pub fn members_text(alloc: Global, members: &[Member]) -> Result<String, AllocError>
    ensures { IfOk result (λ text. string_bytes text
        ≡ compact_text (object_of (map named_value members.now))) }
{
    let map = map_of(alloc, members)?;
    Value::Object(map).to_string(alloc)
}

/// Objects, as values.
fn objects_of(alloc: Global, rows: &[Vec<Member>]) -> Result<Vec<Value>, AllocError>
    ensures { IfOk result (λ values. map view values.items
        ≡ map (λ row. object_of (map named_value row.items)) rows.now) }
{
    let mut values = Vec::new(alloc);
    for row in rows {
        let map = map_of(alloc, row)?;
        values.push(Value::Object(map))?;
    }
    Ok(values)
}

/// The text of the object that has these members and `rows`, an array of the objects that have
/// those members each, without spaces.
///
/// # Errors
///
/// Out of memory.
pub fn page_text(
    alloc: Global,
    members: &[Member],
    rows: &[Vec<Member>],
) -> Result<String, AllocError>
    ensures { IfOk result (λ text. string_bytes text ≡ compact_text
        (page_of (map named_value members.now) (map (λ row. map named_value row.items) rows.now))) }
{
    let mut all = map_of(alloc, members)?;
    let values = objects_of(alloc, rows)?;
    put(&mut all, alloc, "rows", Value::from(values))?;
    Value::Object(all).to_string(alloc)
}
