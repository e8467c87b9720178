//! The pairs that a JSON object says.

ghost use Rattle.std.specs.Prelude.{◌≡◌, Some, IfOk, IfErr, OnOk, map};
ghost use Rattle.serde_json.specs.View.{items_view, members_view, view};
ghost use Rattle.ts_form.specs.Pairs.{AreFew, pair_in, with_pair};
ghost use Rattle.ts_form.specs.Said.{IsSaid, AppendsPairs, items_said, members_said, object_said};
ghost use Rattle.ts_form.specs.Said.{IsNotTaken, IsUnsaid, IsUnsaidText, has_long_name, is_long};
ghost use Rattle.ts_form.specs.Said.{value_said};

use crate::fault::FormFault;
use crate::pair::{MAX_PAIRS, Pair};
use serde_json::{Map, Value};
use std::alloc::{AllocError, Global};

/// The most octets of a name that is looked at.
const MAX_NAME: usize = 64;

/// Puts a pair behind others, unless these are more than 256 already.
fn push(alloc: Global, pairs: &mut Vec<Pair>, name: &str, value: &str) -> Result<(), AllocError>
    ensures { OnOk result (map pair_in pairs.new.items
        ≡ with_pair (map pair_in pairs.old.items) (name.now, value.now)) }
{
    if pairs.len() > MAX_PAIRS {
        return Ok(());
    }
    let name = String::from_str(alloc, name)?;
    let value = String::from_str(alloc, value)?;
    pairs.push(Pair { name, value })?;
    Ok(())
}

/// Puts a pair for each text of a list behind others.
fn push_items(
    alloc: Global,
    pairs: &mut Vec<Pair>,
    name: &str,
    items: &[Value],
) -> Result<(), FormFault>
    ensures said { OnOk result (AppendsPairs (items_said name.now (items_view items.now))
        (map pair_in pairs.old.items) (map pair_in pairs.new.items)) }
    ensures unsaid { IfErr result (IsUnsaid (items_said name.now (items_view items.now))) }
{
    for item in items {
        let Some(text) = item.as_str() else {
            return Err(FormFault::Json);
        };
        push(alloc, pairs, name, text)?;
    }
    Ok(())
}

/// Puts the pairs of a member behind others.
fn push_member(
    alloc: Global,
    pairs: &mut Vec<Pair>,
    name: &str,
    value: &Value,
) -> Result<(), FormFault>
    ensures said { OnOk result (AppendsPairs (value_said name.now (view value.now))
        (map pair_in pairs.old.items) (map pair_in pairs.new.items)) }
    ensures unsaid { IfErr result (IsUnsaid (value_said name.now (view value.now))) }
{
    match value {
        Value::Null => Ok(()),
        Value::Bool(true) => Ok(push(alloc, pairs, name, "true")?),
        Value::Bool(false) => Ok(push(alloc, pairs, name, "false")?),
        Value::String(text) => Ok(push(alloc, pairs, name, text.as_str())?),
        Value::Number(number) => {
            let Some(number) = number.as_u64() else {
                return Err(FormFault::Json);
            };
            let text = format!(in alloc; "{number}")?;
            Ok(push(alloc, pairs, name, text.as_str())?)
        }
        Value::Array(items) => push_items(alloc, pairs, name, items),
        Value::Object(_) => Err(FormFault::Json),
    }
}

/// The pairs that the members of an object say. All are read, so that it is known whether they
/// say pairs, also where these are more than 256.
fn members_pairs(alloc: Global, members: &Map<String, Value>) -> Result<Vec<Pair>, FormFault>
    ensures said { IfOk result (λ pairs. members_said (members_view members.now.entries)
        ≡ Some (map pair_in pairs.items)) }
    ensures few { IfOk result (λ pairs. AreFew (map pair_in pairs.items)) }
    ensures unsaid { IfErr result
        (IsNotTaken (members_said (members_view members.now.entries))) }
{
    let mut pairs = Vec::new(alloc);
    for (name, value) in members.iter() {
        push_member(alloc, &mut pairs, name.as_str(), value)?;
    }
    if pairs.len() > MAX_PAIRS {
        return Err(FormFault::Many);
    }
    Ok(pairs)
}

/// Whether the name of a member has more than 64 octets, which no field's has. A name is copied for
/// each text of a list, so such an object is refused before any is.
fn has_long_name(members: &Map<String, Value>) -> bool
    ensures { result ≡ has_long_name (members_view members.now.entries) }
{
    for (name, _) in members.iter() {
        if name.len() > MAX_NAME {
            return true;
        }
    }
    false
}

/// Whether a value is an object with a name of more than 64 octets.
fn is_long(value: &Value) -> bool
    ensures { result ≡ is_long (view value.now) }
{
    match value {
        Value::Object(members) => has_long_name(members),
        _ => false,
    }
}

/// The pairs that an object says.
fn object_pairs(alloc: Global, value: &Value) -> Result<Vec<Pair>, FormFault>
    ensures said { IfOk result (λ pairs. object_said (view value.now)
        ≡ Some (map pair_in pairs.items)) }
    ensures few { IfOk result (λ pairs. AreFew (map pair_in pairs.items)) }
    ensures unsaid { IfErr result (IsNotTaken (object_said (view value.now))) }
{
    match value {
        Value::Object(members) => {
            let pairs = members_pairs(alloc, members)?;
            Ok(pairs)
        }
        _ => Err(FormFault::Json),
    }
}

/// The pairs that a JSON object says, in the order of its names: of a member that is a text,
/// `true`, `false` or a whole number, the name and the text; of a list of texts one for each; of
/// `null` none.
///
/// # Errors
///
/// `Name` exactly where the text is an object with a name of more than 64 octets, which no field's
/// has; of the other texts `Json` exactly where they are no object that says pairs, and `Many`
/// exactly where they say more than 256, of which 257 are kept meanwhile. `Memory` at any text.
pub fn json_pairs(alloc: Global, text: &str) -> Result<Vec<Pair>, FormFault>
    ensures said { IfOk result (λ pairs. IsSaid text.now (map pair_in pairs.items)) }
    ensures few { IfOk result (λ pairs. AreFew (map pair_in pairs.items)) }
    ensures unsaid { IfErr result (IsUnsaidText text.now) }
{
    let value = match Value::from_str(alloc, text) {
        Ok(value) => value,
        Err(error) if error.is_memory() => return Err(FormFault::Memory),
        Err(_) => return Err(FormFault::Json),
    };
    if is_long(&value) {
        return Err(FormFault::Name);
    }
    let pairs = object_pairs(alloc, &value)?;
    Ok(pairs)
}
