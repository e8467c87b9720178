//! Laws about the definitions that the clauses of this crate cite. Each is the contract of a
//! function that does nothing.

ghost use Rattle.std.specs.Prelude.{◌≡◌, ◌≢◌, ℕ, ◌<◌, ◌≤◌, ◌^◌, ℤ, pos, true, List, [], length};
ghost use Rattle.std.specs.Prelude.{Option, Some};
ghost use Rattle.std.specs.List.{flat_map};
ghost use Rattle.ts_der.specs.Element.{encode};
ghost use Rattle.ts_der.specs.Integer.{IsInteger};
ghost use Rattle.ts_der.specs.ObjectIdentifier.{IsOid};
ghost use Rattle.ts_ext.specs.declared.known.Known.TheVariants as known;
ghost use Rattle.ts_ext.specs.Ext.{IsExt, keyUsage, subjectAltName, basicConstraints};
ghost use Rattle.ts_ext.specs.Ext.{nameConstraints, cRLDistributionPoints, certificatePolicies};
ghost use Rattle.ts_ext.specs.Ext.{policyMappings, policyConstraints, extKeyUsage};
ghost use Rattle.ts_ext.specs.Ext.{inhibitAnyPolicy};
ghost use Rattle.ts_make.specs.declared.description.AttributeType.{AttributeType};
ghost use Rattle.ts_make.specs.declared.description.ExtensionText.{ExtensionText};
ghost use Rattle.ts_make.specs.declared.items.Items.TheVariants as items;
ghost use Rattle.ts_make.specs.Description.{kind_octets, kind_arcs};
ghost use Rattle.ts_make.specs.Extensions.{basic_constraints_value, constraints_content};
ghost use Rattle.ts_make.specs.Extensions.{policy_constraints_content};
ghost use Rattle.ts_make.specs.Items.{items_of};
ghost use Rattle.ts_make.specs.KeyUsage.{is_set, usage_bits, usage_content};
ghost use Rattle.ts_ext.specs.NamedBits.{bit};
ghost use Rattle.ts_make.specs.Told.{AreAscii, alternative_name, permitted_subtrees};
ghost use Rattle.ts_make.specs.Told.{excluded_subtrees, if_any};
ghost use Rattle.ts_make.specs.Told.{point, IsSmallIfAny, list_of, policy, mapping, purpose};
ghost use Rattle.ts_make.specs.Told.{explicit_policy, inhibited_mapping};
ghost use Rattle.ts_make.specs.Serial.{serial_content};
ghost use Rattle.ts_make.specs.Times.{IsTimeOf};

/// A moment is written in one way.
pub fn one_time()
    ensures { (octets others : List ℕ) (moment : ℤ) → IsTimeOf octets moment
        → IsTimeOf others moment → octets ≡ others }
{}

/// A serial number is written as that number, in as few octets as can be (X.690 8.3).
pub fn serial_numbers()
    ensures { (n : ℕ) → n < 2 ^ 32 → IsInteger (serial_content n) (pos n) }
{}

/// A type of attribute is written as its object identifier (X.690 8.19).
pub fn attribute_types()
    ensures { (kind : AttributeType) → IsOid (kind_octets kind) (kind_arcs kind) }
{}

/// The value of keyUsage has the bits whose numbers the parts say, and no others (RFC 5280
/// 4.2.1.3).
pub fn key_usages()
    ensures value { (numbers : List ℕ) → numbers ≢ [] → length (usage_content numbers) ≤ 4194304
        → IsExt (Some known.KeyUsage) (encode 0x03 (usage_content numbers))
        (keyUsage (usage_bits numbers)) }
    ensures bits { (numbers : List ℕ) (k : ℕ) → bit k (usage_bits numbers) ≡ is_set numbers k }
{}

/// The value of basicConstraints says that it is a CA, with the limit of the part (RFC 5280
/// 4.2.1.9).
pub fn basic_constraints()
    ensures { (length : Option ℕ) → IsSmallIfAny length
        → IsExt (Some known.BasicConstraints) (basic_constraints_value length)
        (basicConstraints (record { ca = true; path_len_constraint = length })) }
{}

/// The value of inhibitAnyPolicy says the number of the part (RFC 5280 4.2.1.14).
pub fn any_policies()
    ensures { (n : ℕ) → n < 2 ^ 32
        → IsExt (Some known.InhibitAnyPolicy) (encode 0x02 (serial_content n))
        (inhibitAnyPolicy n) }
{}

/// The value of policyConstraints says the numbers of the parts, of which there is at most one of
/// each (RFC 5280 4.2.1.11).
pub fn policy_constraints()
    ensures { (texts : List ExtensionText) (explicit inhibited : Option ℕ)
        → flat_map explicit_policy texts ≡ list_of explicit
        → flat_map inhibited_mapping texts ≡ list_of inhibited → IsSmallIfAny explicit
        → IsSmallIfAny inhibited
        → IsExt (Some known.PolicyConstraints) (encode 0x30 (policy_constraints_content texts))
        (policyConstraints (record {
          require_explicit_policy = explicit;
          inhibit_policy_mapping = inhibited;
        })) }
{}

/// The value of certificatePolicies says the policies of the parts, in their order (RFC 5280
/// 4.2.1.4).
pub fn policies()
    ensures { (texts : List ExtensionText) → flat_map policy texts ≢ []
        → length (items_of items.Policies texts) ≤ 4194304
        → IsExt (Some known.CertificatePolicies) (encode 0x30 (items_of items.Policies texts))
        (certificatePolicies (flat_map policy texts)) }
{}

/// The value of policyMappings says the mappings of the parts, in their order (RFC 5280 4.2.1.5).
pub fn policy_mappings()
    ensures { (texts : List ExtensionText) → flat_map mapping texts ≢ []
        → length (items_of items.PolicyMappings texts) ≤ 4194304
        → IsExt (Some known.PolicyMappings) (encode 0x30 (items_of items.PolicyMappings texts))
        (policyMappings (flat_map mapping texts)) }
{}

/// The value of extKeyUsage says the purposes of the parts, in their order (RFC 5280 4.2.1.12).
pub fn key_purposes()
    ensures { (texts : List ExtensionText) → flat_map purpose texts ≢ []
        → length (items_of items.KeyPurposes texts) ≤ 4194304
        → IsExt (Some known.ExtendedKeyUsage) (encode 0x30 (items_of items.KeyPurposes texts))
        (extKeyUsage (flat_map purpose texts)) }
{}

/// The value of subjectAltName says the names of the parts, in their order, where its texts are
/// ASCII (RFC 5280 4.2.1.6).
pub fn alternative_names()
    ensures { (texts : List ExtensionText) → AreAscii texts → flat_map alternative_name texts ≢ []
        → length (items_of items.AlternativeNames texts) ≤ 4194304
        → IsExt (Some known.SubjectAltName) (encode 0x30 (items_of items.AlternativeNames texts))
        (subjectAltName (flat_map alternative_name texts)) }
{}

/// The value of nameConstraints says the subtrees of the parts, in their order, where their texts
/// are ASCII (RFC 5280 4.2.1.10).
pub fn name_constraints()
    ensures { (texts : List ExtensionText) → AreAscii texts
        → length (constraints_content texts) ≤ 4194304
        → IsExt (Some known.NameConstraints) (encode 0x30 (constraints_content texts))
        (nameConstraints (record {
          permittedSubtrees = if_any (flat_map permitted_subtrees texts);
          excludedSubtrees = if_any (flat_map excluded_subtrees texts);
        })) }
{}

/// The value of cRLDistributionPoints says the points of the parts, in their order, where their
/// texts are ASCII (RFC 5280 4.2.1.13).
pub fn distribution_points()
    ensures { (texts : List ExtensionText) → AreAscii texts → flat_map point texts ≢ []
        → length (items_of items.DistributionPoints texts) ≤ 4194304
        → IsExt (Some known.CrlDistributionPoints)
        (encode 0x30 (items_of items.DistributionPoints texts))
        (cRLDistributionPoints (flat_map point texts)) }
{}
