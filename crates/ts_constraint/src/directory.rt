//! A distinguished name and its canonical form.

ghost use Rattle.std.specs.Prelude.{◌≡◌, IfOk};
ghost use Rattle.std.specs.Cmp.Lexicographic.{slice_cmp};
ghost use Rattle.ts_name.specs.CanonView.{rdns_in as canon_in};
ghost use Rattle.ts_name.specs.NameView.{rdns_in};
ghost use Rattle.ts_name.specs.Sameness.{canon_name};
ghost use Rattle.ts_constraint.specs.inside.Directory.{compare_rdns};
ghost use Rattle.ts_constraint.specs.inside.Fronts.{is_front};

use std::alloc::{AllocError, Global};
use std::cmp::Ordering;
use ts_name::{Canon, Name};

/// A distinguished name and its canonical form.
#[derive(Drop)]
pub(crate) struct Directory<'a> {
    pub(crate) name: Name<'a>,
    canon: Canon,
    ghost form: { canon_in canon ≡ canon_name (rdns_in name) },
}

impl<'a> Directory<'a> {
    /// A name with its canonical form. The error is that memory ran out.
    pub(crate) fn new(alloc: Global, name: Name<'a>) -> Result<Self, AllocError>
        ensures { IfOk result (λ d. d.name ≡ name.entry) }
    {
        let canon = name.canon(alloc)?;
        Ok(Directory { name, canon })
    }

    /// The order of two names in canonical form.
    pub(crate) fn order(&self, other: &Directory<'_>) -> Ordering
        ensures { result ≡ slice_cmp compare_rdns (canon_name (rdns_in self.now.name))
            (canon_name (rdns_in other.now.name)) }
    {
        self.canon.cmp(&other.canon)
    }
}

/// Whether a name begins with the relative distinguished names of another.
pub(crate) fn is_front(front: Name<'_>, name: Name<'_>) -> bool
    ensures { result ≡ is_front compare_rdns (canon_name (rdns_in front.entry))
        (canon_name (rdns_in name.entry)) }
{
    name.within(front)
}
