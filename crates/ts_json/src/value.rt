//! Values of JSON.

ghost use Rattle.std.specs.Prelude.{◌≡◌, IfOk, map, option_map, string_bytes};
ghost use Rattle.serde_json.specs.View.{view};
ghost use Rattle.ts_json.specs.Answer.{flag_or_null, numbers_of, whole};
ghost use Rattle.ts_json.specs.Object.{array_of, number_or_null, text_or_null, texts};

use serde_json::Value;
use std::alloc::{AllocError, Global};

/// A text, or null.
pub(crate) fn text_or_null(alloc: Global, text: &Option<String>) -> Result<Value, AllocError>
    ensures { IfOk result (λ v. view v ≡ text_or_null (option_map string_bytes text.now)) }
{
    match text {
        Some(text) => Value::try_from_str(alloc, text.as_str()),
        None => Ok(Value::Null),
    }
}

/// A number, or null.
pub(crate) fn number_or_null(number: Option<u64>) -> Value
    ensures { view result ≡ number_or_null number }
{
    match number {
        Some(number) => Value::from(number),
        None => Value::Null,
    }
}

/// Texts, as values.
fn values_of(alloc: Global, items: &[String]) -> Result<Vec<Value>, AllocError>
    ensures { IfOk result (λ values. map view values.items ≡ texts (map string_bytes items.now)) }
{
    let mut values = Vec::new(alloc);
    for item in items {
        values.push(Value::try_from_str(alloc, item.as_str())?)?;
    }
    Ok(values)
}

/// An array of texts.
pub(crate) fn array_of(alloc: Global, items: &[String]) -> Result<Value, AllocError>
    ensures { IfOk result (λ v. view v ≡ array_of (map string_bytes items.now)) }
{
    Ok(Value::from(values_of(alloc, items)?))
}

/// Whether something is so, or null.
pub(crate) fn flag_or_null(flag: Option<bool>) -> Value
    ensures { view result ≡ flag_or_null flag }
{
    match flag {
        Some(flag) => Value::from(flag),
        None => Value::Null,
    }
}

/// Numbers, as values.
fn number_values(alloc: Global, items: &[u64]) -> Result<Vec<Value>, AllocError>
    ensures { IfOk result (λ values. map view values.items ≡ map whole items.now) }
{
    let mut values = Vec::new(alloc);
    for item in items {
        values.push(Value::from(*item))?;
    }
    Ok(values)
}

/// An array of numbers.
pub(crate) fn numbers_of(alloc: Global, items: &[u64]) -> Result<Value, AllocError>
    ensures { IfOk result (λ v. view v ≡ numbers_of items.now) }
{
    Ok(Value::from(number_values(alloc, items)?))
}
