//! The relative distinguished names of a name, and their attributes, one after another.

ghost use Rattle.std.specs.Prelude.{◌≡◌};
ghost use Rattle.std.specs.Iterator.{YieldsFirstBy, item_count};
ghost use Rattle.ts_name.specs.NameView.{rdns_in, attributes_in};
ghost use Rattle.ts_name.specs.View.{attr_of};

use crate::attribute::Attribute;
use crate::name::Name;
use crate::name_reading::read_attribute;
use crate::rdn::Rdn;
use std::marker::Model;
use ts_der::Reader;
use ts_der::tag::{SEQUENCE, SET};

/// The relative distinguished names of a name that are left, in the order of the name. A contract
/// sees them as the lists of their attributes.
#[derive(Drop)]
pub struct Rdns<'a> {
    rest: Reader<'a>,
}

impl<'a> Model for Rdns<'a> {
    ghost use Rattle.std.specs.Prelude.{◌≡◌, List, true};
    ghost use Rattle.ts_name.specs.Names.{rdns_from, are_rdns};
    ghost use Rattle.ts_name.specs.Canon.{Attr};

    ghost Value = { List (List Attr) };

    ghost view = { λ r. rdns_from r.rest };

    ghost invariant = { λ r. are_rdns r.rest ≡ true };
}

impl<'a> Iterator for Rdns<'a> {
    type Item = Rdn<'a>;

    ghost next_gives = { YieldsFirstBy attributes_in (λ rest. rest) };

    ghost remaining = { item_count (λ rest. rest) };

    fn next(&mut self) -> Option<Rdn<'a>> {
        if self.rest.is_at_end() {
            return None;
        }
        let Ok(element) = self.rest.element(SET) else {
            return None;
        };
        Some(Rdn { element })
    }
}

/// The attributes of a relative distinguished name that are left, in the order of the source. A
/// contract sees them as they are.
#[derive(Drop)]
pub struct Attributes<'a> {
    rest: Reader<'a>,
}

impl<'a> Model for Attributes<'a> {
    ghost use Rattle.std.specs.Prelude.{◌≡◌, List, true};
    ghost use Rattle.ts_name.specs.Names.{attributes_from, are_attributes};
    ghost use Rattle.ts_name.specs.Canon.{Attr};

    ghost Value = { List Attr };

    ghost view = { λ r. attributes_from r.rest };

    ghost invariant = { λ r. are_attributes r.rest ≡ true };
}

impl<'a> Iterator for Attributes<'a> {
    type Item = Attribute<'a>;

    ghost next_gives = { YieldsFirstBy attr_of (λ rest. rest) };

    ghost remaining = { item_count (λ rest. rest) };

    fn next(&mut self) -> Option<Attribute<'a>> {
        if self.rest.is_at_end() {
            return None;
        }
        let Ok(element) = self.rest.element(SEQUENCE) else {
            return None;
        };
        read_attribute(element).ok()
    }
}

impl<'a> Name<'a> {
    /// The relative distinguished names, in the order of the name.
    pub fn rdns(self) -> Rdns<'a>
        ensures { result ≡ rdns_in self.entry }
    {
        Rdns {
            rest: self.element.reader(),
        }
    }
}

impl<'a> Rdn<'a> {
    /// The attributes, in the order of the source.
    pub fn attributes(self) -> Attributes<'a>
        ensures { result ≡ attributes_in self.entry }
    {
        Attributes {
            rest: self.element.reader(),
        }
    }
}
