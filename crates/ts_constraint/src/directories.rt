//! Directory names in a table, in which a name is looked up.

ghost use Rattle.std.specs.Prelude.{◌≡◌, ◌↔◌, IsTrue, IfOk, List, map};
ghost use Rattle.ts_name.specs.Canon.{Attr, CanonAttr};
ghost use Rattle.ts_name.specs.General.{directoryName};
ghost use Rattle.ts_name.specs.Holds.{Holds};
ghost use Rattle.ts_name.specs.NameView.{rdns_in};
ghost use Rattle.ts_name.specs.Sameness.{canon_name};
ghost use Rattle.ts_constraint.specs.Conditions.{Some_of};
ghost use Rattle.ts_constraint.specs.inside.Directories.{form_in, has_directory};
ghost use Rattle.ts_constraint.specs.inside.Directory.{compare_rdns, directory_forms};
ghost use Rattle.ts_constraint.specs.inside.Fronts.{AreApart};
ghost use Rattle.ts_constraint.specs.View.{bases_in};

use crate::directory::{Directory, is_front};
use std::alloc::{AllocError, Global};
use ts_name::{General, Name, Subtree};

/// Names in the ascending order of their canonical forms, of which none begins another.
#[derive(Drop)]
pub(crate) struct Directories<'a> {
    entries: Vec<Directory<'a>>,
    ghost apart: { AreApart compare_rdns form_in entries.items },
}

impl<'a> Directories<'a> {
    /// The table of these names, without each that begins with another.
    pub(crate) fn new(names: Vec<Directory<'a>>) -> Self
        ensures { (name : List (List CanonAttr))
            → has_directory result.entries.items name ≡ has_directory names.entry.items name }
    {
        let mut entries = names;
        entries.sort_unstable_by(|a, b| a.order(b));
        entries.dedup_by(|next, kept| is_front(kept.name, next.name));
        Directories { entries }
    }

    /// The table of the distinguished names among the bases of subtrees. The error is that memory
    /// ran out.
    pub(crate) fn of(alloc: Global, subtrees: &[Subtree<'a>]) -> Result<Self, AllocError>
        ensures { IfOk result (λ t. (name : List (List Attr))
            → IsTrue (has_directory t.entries.items (canon_name name))
            ↔ Some_of (λ base. Holds base (directoryName name)) (bases_in subtrees.now)) }
    {
        let names = gather(alloc, subtrees)?;
        Ok(Directories::new(names))
    }

    /// Whether a name lies in the subtree of one of these. The steps grow with the logarithm of
    /// their number.
    pub(crate) fn has(&self, name: &Directory<'_>) -> bool
        ensures { result ≡ has_directory self.now.entries.items (form_in name.now) }
    {
        let entries = self.entries.as_slice();
        let end = entries.partition_point(|entry| entry.order(name).is_le());
        if end == 0 {
            return false;
        }
        is_front(entries[end - 1].name, name.name)
    }

    /// Whether a name lies in the subtree of one of these, which are compared with it one by one,
    /// without an allocation.
    pub(crate) fn has_one_by_one(&self, name: Name<'_>) -> bool
        ensures { result ≡ has_directory self.now.entries.items (canon_name (rdns_in name.entry)) }
    {
        let mut rest = self.entries.as_slice();
        while let [entry, others @ ..] = rest {
            if is_front(entry.name, name) {
                return true;
            }
            rest = others;
        }
        false
    }
}

/// The distinguished names among the bases of subtrees.
fn gather<'a>(alloc: Global, subtrees: &[Subtree<'a>]) -> Result<Vec<Directory<'a>>, AllocError>
    ensures { IfOk result (λ v. map form_in v.items ≡ directory_forms (bases_in subtrees.now)) }
{
    let mut names = Vec::new(alloc);
    let mut rest = subtrees;
    while let [subtree, others @ ..] = rest {
        if let General::DirectoryName(name) = subtree.base() {
            names.push(Directory::new(alloc, name)?)?;
        }
        rest = others;
    }
    Ok(names)
}
