//! Laws about the definitions that the clauses of this crate cite. Each is the contract of a
//! function that does nothing.

ghost use Rattle.std.specs.Prelude.{◌≡◌, ℕ, List, Option};
ghost use Rattle.ts_der.specs.Octets.{AreOctets};
ghost use Rattle.ts_ext.specs.declared.known.Known.{Known};
ghost use Rattle.ts_ext.specs.Ext.{ExtValue, IsExt};

/// No two contents encode one value of an extension, and no content encodes two (X.690 10, 11).
pub fn one_value()
    ensures one_encoding { (known : Option Known) (content other : List ℕ) (value : ExtValue)
        → AreOctets content → AreOctets other
        → IsExt known content value → IsExt known other value → content ≡ other }
    ensures one_record { (known : Option Known) (content : List ℕ) (value other : ExtValue)
        → IsExt known content value → IsExt known content other → value ≡ other }
{}
