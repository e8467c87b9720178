//! The canonical form of a name, kept (RFC 5280 7.1).

ghost use Rattle.std.specs.Prelude.{◌≡◌, IfOk};
ghost use Rattle.ts_name.specs.Canon.{canon_rdn};
ghost use Rattle.ts_name.specs.CanonView.{attrs_in, rdns_in as canon_in};
ghost use Rattle.ts_name.specs.NameView.{attributes_in, rdns_in};
ghost use Rattle.ts_name.specs.Sameness.{canon_name};

use crate::canon::{Canon, CanonRdn, canon_attribute};
use crate::name::Name;
use crate::rdn::Rdn;
use std::alloc::{AllocError, Global};

impl Rdn<'_> {
    /// The relative distinguished name in canonical form. The error is that memory ran out.
    pub fn canon(self, alloc: Global) -> Result<CanonRdn, AllocError>
        ensures { IfOk result (λ canon. attrs_in canon ≡ canon_rdn (attributes_in self.entry)) }
    {
        let mut attributes = Vec::new(alloc);
        for attribute in self.attributes() {
            let canon = canon_attribute(alloc, attribute)?;
            attributes.push(canon)?;
        }
        Ok(CanonRdn::from_attributes(attributes))
    }
}

impl Name<'_> {
    /// The name in canonical form: names are one exactly if their canonical forms are equal. The
    /// error is that memory ran out.
    pub fn canon(self, alloc: Global) -> Result<Canon, AllocError>
        ensures { IfOk result (λ canon. canon_in canon ≡ canon_name (rdns_in self.entry)) }
    {
        let mut canon = Canon::new(alloc);
        for rdn in self.rdns() {
            let rdn = rdn.canon(alloc)?;
            canon.push(rdn)?;
        }
        Ok(canon)
    }
}
