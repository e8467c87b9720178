//! The subtrees that a source permits, or those that it excludes, in tables.

ghost use Rattle.std.specs.Prelude.{◌≡◌, ◌↔◌, IsTrue, IfOk};
ghost use Rattle.ts_name.specs.GeneralView.{general_in};
ghost use Rattle.ts_name.specs.Holds.{Holds};
ghost use Rattle.ts_constraint.specs.Conditions.{Some_of};
ghost use Rattle.ts_constraint.specs.Names.{form_of};
ghost use Rattle.ts_constraint.specs.inside.Sought.{name_in};
ghost use Rattle.ts_constraint.specs.inside.Table.{AreForms};
ghost use Rattle.ts_constraint.specs.View.{bases_in};

use crate::directories::Directories;
use crate::form::Form;
use crate::hosts::Hosts;
use crate::ranges::Ranges;
use crate::sought::SoughtName;
use std::alloc::{AllocError, Global};
use std::marker::Model;
use ts_name::{General, Subtree};

/// Subtrees, and tables in which a name is looked up. Contracts see the names at which the subtrees
/// begin.
#[derive(Drop)]
pub(crate) struct Table<'a> {
    subtrees: Vec<Subtree<'a>>,
    /// The forms of the subtrees, each once.
    forms: Vec<Form>,
    hosts: Hosts<'a>,
    directories: Directories<'a>,
    ranges: Ranges<'a>,
}

impl<'a> Model for Table<'a> {
    ghost use Rattle.std.specs.Prelude.{List};
    ghost use Rattle.ts_name.specs.General.{GeneralName};
    ghost use Rattle.ts_constraint.specs.inside.Table.{AreTables};
    ghost use Rattle.ts_constraint.specs.View.{bases_in};

    ghost Value = { List GeneralName };

    ghost view = { λ t. bases_in t.subtrees.items };

    ghost invariant = { λ t. AreTables
        (bases_in t.subtrees.items) t.forms.items t.hosts t.directories.entries.items t.ranges };
}

impl<'a> Table<'a> {
    /// The tables of these subtrees. The error is that memory ran out.
    pub(crate) fn new(alloc: Global, subtrees: Vec<Subtree<'a>>) -> Result<Self, AllocError>
        ensures { IfOk result (λ t. t ≡ bases_in subtrees.entry.items) }
    {
        let forms = gather_forms(alloc, subtrees.as_slice())?;
        let hosts = Hosts::new(alloc, subtrees.as_slice())?;
        let directories = Directories::of(alloc, subtrees.as_slice())?;
        let ranges = Ranges::new(alloc, subtrees.as_slice())?;
        Ok(Table {
            subtrees,
            forms,
            hosts,
            directories,
            ranges,
        })
    }

    /// Whether one of the subtrees is of this form.
    pub(crate) fn has_form(&self, form: Form) -> bool
        ensures { IsTrue result ↔ Some_of (λ base. form_of base ≡ form) self.now }
    {
        contains(self.forms.as_slice(), form)
    }

    /// Whether a name lies in one of the subtrees.
    pub(crate) fn holds(&self, name: &SoughtName<'_>) -> bool
        ensures { IsTrue result ↔ Some_of (λ base. Holds base (name_in name.now)) self.now }
    {
        match name {
            SoughtName::Directory(name) => self.directories.has(name),
            SoughtName::Other(name) => self.holds_other(*name),
        }
    }

    /// Whether a name without its canonical form lies in one of the subtrees.
    fn holds_other(&self, name: General<'_>) -> bool
        ensures { IsTrue result ↔ Some_of (λ base. Holds base (general_in name.entry)) self.now }
    {
        match name {
            General::DnsName(host) => self.hosts.has(host),
            General::DirectoryName(name) => self.directories.has_one_by_one(name),
            General::IpAddress(address) => self.ranges.has(address),
            General::OtherName(_) => false,
            General::Rfc822Name(_) => false,
            General::X400Address(_) => false,
            General::EdiPartyName(_) => false,
            General::UniformResourceIdentifier(_) => false,
            General::RegisteredId(_) => false,
        }
    }
}

/// The forms of subtrees, each once.
fn gather_forms(alloc: Global, subtrees: &[Subtree<'_>]) -> Result<Vec<Form>, AllocError>
    ensures { IfOk result (λ v. AreForms v.items (bases_in subtrees.now)) }
{
    let mut forms: Vec<Form> = Vec::new(alloc);
    for subtree in subtrees {
        let form = Form::of(subtree.base());
        if contains(forms.as_slice(), form) {
            continue;
        }
        forms.push(form)?;
    }
    Ok(forms)
}

/// Whether a form is among others.
fn contains(forms: &[Form], form: Form) -> bool
    ensures { IsTrue result ↔ Some_of (λ f. f ≡ form) forms.now }
{
    let mut rest = forms;
    while let [first, others @ ..] = rest {
        if *first == form {
            return true;
        }
        rest = others;
    }
    false
}
