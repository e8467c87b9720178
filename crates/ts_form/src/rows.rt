//! Which rows of a store or of its log are asked for, and which command.

ghost use Rattle.std.specs.Prelude.{◌≡◌, ℕ, List, IfOk, IfErr, OnOk, MatchOption, map};
ghost use Rattle.ts_form.specs.Pairs.{pair_in};
ghost use Rattle.ts_form.specs.Rows.{IsRefused, IsRefusedInAll, NameId, Sets, SetsAll};
ghost use Rattle.ts_form.specs.Rows.{field_named, no_rows};

use crate::fault::FormFault;
use crate::field::Field;
use crate::once::give_once;
use crate::pair::Pair;
use ts_literal::{id_of, number_in, number_of};
use ts_question::MAX_POSITION;

/// Which rows are asked for, as far as it is given.
#[derive(Clone, Copy, Debug, PartialEq, Eq)]
pub struct RowsWanted {
    /// After how many commands.
    pub k: Option<u32>,
    /// How many rows stand before them.
    pub from: Option<u32>,
}

/// The field of a page that has this name.
fn named(name: &str) -> Option<Field>
    ensures { result ≡ field_named name.now }
{
    match name {
        "k" => Some(Field::K),
        "from" => Some(Field::From),
        _ => None,
    }
}

impl RowsWanted {
    /// Adds what a pair says.
    fn add(&mut self, name: &str, value: &str) -> Result<(), FormFault>
        ensures sets { OnOk result (Sets (name.now, value.now) self.old self.new) }
        ensures refused { IfErr result (IsRefused (name.now, value.now) self.old) }
    {
        match named(name) {
            Some(_) if value.is_empty() => Ok(()),
            Some(Field::K) => give_once(Field::K, &mut self.k, number_in(value, 0, MAX_POSITION)),
            Some(Field::From) => give_once(Field::From, &mut self.from, number_of(value)),
            _ => Err(FormFault::Name),
        }
    }

    /// Adds what pairs say, one after another.
    fn add_all(&mut self, pairs: &[Pair]) -> Result<(), FormFault>
        ensures sets { OnOk result (SetsAll (map pair_in pairs.now) self.old self.new) }
        ensures refused { IfErr result (IsRefusedInAll (map pair_in pairs.now) self.old) }
    {
        for pair in pairs {
            self.add(pair.name.as_str(), pair.value.as_str())?;
        }
        Ok(())
    }

    /// Which rows pairs ask for: `k`, a position, and `from`, a number below 2^32, each at most
    /// once. An empty text says nothing.
    ///
    /// # Errors
    ///
    /// `Name`, `Value` or `Twice`, exactly where a pair is refused: that of the first.
    pub fn of(pairs: &[Pair]) -> Result<RowsWanted, FormFault>
        ensures found { IfOk result (SetsAll (map pair_in pairs.now) no_rows) }
        ensures refused { IfErr result (IsRefusedInAll (map pair_in pairs.now) no_rows) }
    {
        let mut wanted = RowsWanted {
            k: None,
            from: None,
        };
        wanted.add_all(pairs)?;
        Ok(wanted)
    }
}

/// The id of a command that pairs name: one pair, `id` and 32 lower-case hexadecimal digits. `None`
/// exactly where they are none.
pub fn command_id_of(pairs: &[Pair]) -> Option<[u8; 16]>
    ensures { MatchOption result ((id : List ℕ) → ¬ (NameId (map pair_in pairs.now) id))
        (NameId (map pair_in pairs.now)) }
{
    let [pair] = pairs else {
        return None;
    };
    if pair.name.as_str() != "id" {
        return None;
    }
    id_of(pair.value.as_str())
}
