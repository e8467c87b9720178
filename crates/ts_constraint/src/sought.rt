//! A name that is looked up in the tables of every source.

ghost use Rattle.std.specs.Prelude.{◌≡◌};
ghost use Rattle.ts_name.specs.GeneralView.{general_in};
ghost use Rattle.ts_constraint.specs.Names.{form_of};
ghost use Rattle.ts_constraint.specs.inside.Sought.{name_in};

use crate::directory::Directory;
use crate::form::Form;
use std::alloc::Global;
use ts_name::General;

/// A name that is looked up. The canonical form of a distinguished name is made once, for all
/// sources.
#[derive(Drop)]
pub(crate) enum SoughtName<'a> {
    Directory(Directory<'a>),
    /// A name of another form, or a distinguished name for whose canonical form there is no memory.
    Other(General<'a>),
}

impl<'a> SoughtName<'a> {
    /// A general name, prepared for look-ups. A distinguished name for which allocation fails stays
    /// as it is.
    pub(crate) fn new(alloc: Global, name: General<'a>) -> Self
        ensures { name_in result ≡ general_in name.entry }
    {
        match name {
            General::DirectoryName(directory) => match Directory::new(alloc, directory) {
                Ok(directory) => SoughtName::Directory(directory),
                Err(_) => SoughtName::Other(name),
            },
            _ => SoughtName::Other(name),
        }
    }

    /// The form of the name.
    pub(crate) fn form(&self) -> Form
        ensures { result ≡ form_of (name_in self.now) }
    {
        match self {
            SoughtName::Directory(_) => Form::DirectoryName,
            SoughtName::Other(name) => Form::of(*name),
        }
    }
}
