//! What is made of the words of a line, and kept by its name.

ghost use Rattle.std.specs.Prelude.{◌≡◌, ◌++◌, [], ◌∷◌, None, IfOk, IfErr, OnOk, OnErr};
ghost use Rattle.std.specs.Prelude.{string_bytes};
ghost use Rattle.ts_script.specs.declared.script.LineFault.TheVariants.{Memory};
ghost use Rattle.ts_script.specs.Words.{IsName};
ghost use Rattle.ts_script.specs.Known.{known_in, thing_in, thing_named};
ghost use Rattle.ts_script.specs.Objects.{kept_text};
ghost use Rattle.ts_script.specs.inside.Making.{unless_taken};

use crate::script::LineFault;
use crate::symbols::{Item, Symbols};
use std::alloc::Global;
use ts_make::MakeFault;

/// What was made of the words of a line, unless their name is taken.
pub(crate) fn unless_taken(
    made: Result<Vec<u8>, MakeFault>,
    is_taken: bool,
) -> Result<Vec<u8>, LineFault>
    ensures { result ≡ unless_taken made is_taken }
{
    match made {
        Err(MakeFault::Memory) => Err(LineFault::Memory),
        Err(MakeFault::Unreadable(_)) => Err(LineFault::Form),
        Err(MakeFault::TooLong) if is_taken => Err(LineFault::Name),
        Err(MakeFault::TooLong) => Err(LineFault::Limit),
        Ok(_) if is_taken => Err(LineFault::Name),
        Ok(octets) => Ok(octets),
    }
}

/// Keeps something of so many octets by a name that is free, and answers its line, whose first word
/// is given.
pub(crate) fn keep(
    alloc: Global,
    known: &mut Symbols,
    word: &str,
    name: &[u8],
    item: Item,
    count: usize,
) -> Result<String, LineFault>
    ensures text { IfOk result (λ text. string_bytes text ≡ kept_text word.now name.now count) }
    ensures kept { thing_named (known_in known.old) name.now ≡ None → OnOk result
        (known_in known.new ≡ known_in known.old ++ (name.now, thing_in item) ∷ []) }
    ensures fault { IfErr result (λ fault. IsName name.now → fault ≡ Memory) }
    ensures unchanged { OnErr result (known_in known.new ≡ known_in known.old) }
{
    let text = text_of(alloc, word, name, count)?;
    let name = Vec::from_slice(alloc, name)?;
    known.keep(name, item)?;
    Ok(text)
}

/// The answer to a line that begins with this word, about something of so many octets.
fn text_of(alloc: Global, word: &str, name: &[u8], count: usize) -> Result<String, LineFault>
    ensures text { IfOk result (λ text. string_bytes text ≡ kept_text word.now name.now count) }
    ensures fault { IfErr result (λ fault. IsName name.now → fault ≡ Memory) }
{
    match str::from_utf8(name) {
        Ok(name) => Ok(format!(in alloc; "{word} {name} {count}\n")?),
        // Not reached for a name, which is ASCII.
        Err(_) => Err(LineFault::Form),
    }
}
