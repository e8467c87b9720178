//! A source of constraints, and whether a name meets its conditions.

ghost use Rattle.std.specs.Prelude.{◌≡◌, ◌↔◌, IsTrue, IfOk, List, map, option_map};
ghost use Rattle.ts_ext.specs.NameViews.{subtrees_in};
ghost use Rattle.ts_cert.specs.CertView.{cert_in};
ghost use Rattle.ts_constraint.specs.Conditions.{FailsAt};
ghost use Rattle.ts_constraint.specs.declared.condition.Condition.TheVariants.{Supported};
ghost use Rattle.ts_constraint.specs.declared.condition.Condition.TheVariants.{Permitted};
ghost use Rattle.ts_constraint.specs.Source.{bases, bases_if, source_of};
ghost use Rattle.ts_constraint.specs.inside.Sought.{name_in};
ghost use Rattle.ts_constraint.specs.View.{bases_in, AreBases};

use crate::condition::Condition;
use crate::sought::SoughtName;
use crate::table::Table;
use std::alloc::{AllocError, Global};
use std::marker::Model;
use ts_cert::Cert;
use ts_name::Subtree;
use ts_shape::SequenceOf;

/// The subtrees that a certificate, or a question, permits and excludes.
#[derive(Drop)]
pub(crate) struct Source<'a> {
    permitted: Table<'a>,
    excluded: Table<'a>,
}

impl<'a> Model for Source<'a> {
    ghost use Rattle.ts_constraint.specs.Source.{Source};

    ghost Value = { Source };

    ghost view = { λ s. record { permitted = s.permitted; excluded = s.excluded } };
}

impl<'a> Source<'a> {
    /// A source of these subtrees.
    pub(crate) fn new(
        alloc: Global,
        permitted: &[Subtree<'a>],
        excluded: &[Subtree<'a>],
    ) -> Result<Self, AllocError>
        ensures { IfOk result (λ s. AreBases s permitted.now excluded.now) }
    {
        Ok(Source {
            permitted: Table::new(alloc, Vec::from_slice(alloc, permitted)?)?,
            excluded: Table::new(alloc, Vec::from_slice(alloc, excluded)?)?,
        })
    }

    /// The source that a certificate's name constraints are for the names of those that follow it.
    pub(crate) fn of(alloc: Global, cert: &Cert<'a>) -> Result<Self, AllocError>
        ensures { IfOk result (λ s. s ≡ source_of (cert_in cert.now).tbsCertificate) }
    {
        match cert.name_constraints() {
            Some(constraints) => Ok(Source {
                permitted: Table::new(alloc, gather_if(alloc, constraints.permitted)?)?,
                excluded: Table::new(alloc, gather_if(alloc, constraints.excluded)?)?,
            }),
            None => Ok(Source {
                permitted: Table::new(alloc, Vec::new(alloc))?,
                excluded: Table::new(alloc, Vec::new(alloc))?,
            }),
        }
    }

    /// Whether a name does not meet a condition of the source.
    pub(crate) fn fails(&self, condition: Condition, name: &SoughtName<'_>) -> bool
        ensures { IsTrue result ↔ FailsAt condition (name_in name.now) self.now }
    {
        match condition {
            Condition::Supported => self.is_unsupported(name),
            Condition::Permitted => self.is_not_permitted(name),
            Condition::NotExcluded => self.excluded.holds(name),
        }
    }

    /// Whether the source has a subtree of the name's form, which is not processed.
    fn is_unsupported(&self, name: &SoughtName<'_>) -> bool
        ensures { IsTrue result ↔ FailsAt Supported (name_in name.now) self.now }
    {
        let form = name.form();
        if form.is_processed() {
            return false;
        }
        if self.permitted.has_form(form) {
            return true;
        }
        self.excluded.has_form(form)
    }

    /// Whether the source permits subtrees of the name's form, which is processed, and the name
    /// lies in none of them.
    fn is_not_permitted(&self, name: &SoughtName<'_>) -> bool
        ensures { IsTrue result ↔ FailsAt Permitted (name_in name.now) self.now }
    {
        let form = name.form();
        if !form.is_processed() {
            return false;
        }
        if !self.permitted.has_form(form) {
            return false;
        }
        !self.permitted.holds(name)
    }
}

/// The subtrees of a list, if there is one.
fn gather_if<'a>(
    alloc: Global,
    list: Option<SequenceOf<'a, Subtree<'a>>>,
) -> Result<Vec<Subtree<'a>>, AllocError>
    ensures { IfOk result (λ v. bases_in v.items ≡ bases_if (option_map subtrees_in list.entry)) }
{
    match list {
        Some(list) => gather(alloc, list),
        None => Ok(Vec::new(alloc)),
    }
}

/// The subtrees of a list.
fn gather<'a>(
    alloc: Global,
    list: SequenceOf<'a, Subtree<'a>>,
) -> Result<Vec<Subtree<'a>>, AllocError>
    ensures { IfOk result (λ v. bases_in v.items ≡ bases (subtrees_in list.entry)) }
{
    let mut subtrees = Vec::new(alloc);
    for subtree in list.iter() {
        subtrees.push(subtree)?;
    }
    Ok(subtrees)
}
