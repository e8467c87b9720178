//! Sets of reasons.

use crate::reason_flag::ReasonFlag;

/// A set of the eight reasons for a revocation.
#[derive(Clone, Copy, Debug, PartialEq, Eq)]
pub struct ReasonSet {
    pub key_compromise: bool,
    pub ca_compromise: bool,
    pub affiliation_changed: bool,
    pub superseded: bool,
    pub cessation_of_operation: bool,
    pub certificate_hold: bool,
    pub privilege_withdrawn: bool,
    pub aa_compromise: bool,
}

impl ReasonSet {
    ghost use Rattle.std.specs.Prelude.{◌≡◌, ◌&&◌, ◌||◌, ◌↔◌, true, IsTrue};
    ghost use Rattle.ts_ext.specs.declared.reason_flag.ReasonFlag.{ReasonFlag};
    ghost use Rattle.ts_ext.specs.NamedBits.{holds, no_reasons};

    /// All eight reasons.
    pub fn all() -> ReasonSet
        ensures { (flag : ReasonFlag) → holds flag result ≡ true }
    {
        ReasonSet {
            key_compromise: true,
            ca_compromise: true,
            affiliation_changed: true,
            superseded: true,
            cessation_of_operation: true,
            certificate_hold: true,
            privilege_withdrawn: true,
            aa_compromise: true,
        }
    }

    /// No reason.
    pub fn none() -> ReasonSet
        ensures { result ≡ no_reasons }
    {
        ReasonSet {
            key_compromise: false,
            ca_compromise: false,
            affiliation_changed: false,
            superseded: false,
            cessation_of_operation: false,
            certificate_hold: false,
            privilege_withdrawn: false,
            aa_compromise: false,
        }
    }

    /// Whether the set holds a reason.
    pub fn contains(self, flag: ReasonFlag) -> bool
        ensures { result ≡ holds flag self }
    {
        match flag {
            ReasonFlag::KeyCompromise => self.key_compromise,
            ReasonFlag::CaCompromise => self.ca_compromise,
            ReasonFlag::AffiliationChanged => self.affiliation_changed,
            ReasonFlag::Superseded => self.superseded,
            ReasonFlag::CessationOfOperation => self.cessation_of_operation,
            ReasonFlag::CertificateHold => self.certificate_hold,
            ReasonFlag::PrivilegeWithdrawn => self.privilege_withdrawn,
            ReasonFlag::AaCompromise => self.aa_compromise,
        }
    }

    /// The reasons that both sets hold.
    pub fn intersection(self, other: ReasonSet) -> ReasonSet
        ensures { (flag : ReasonFlag) → holds flag result ≡ (holds flag self && holds flag other) }
    {
        ReasonSet {
            key_compromise: self.key_compromise & other.key_compromise,
            ca_compromise: self.ca_compromise & other.ca_compromise,
            affiliation_changed: self.affiliation_changed & other.affiliation_changed,
            superseded: self.superseded & other.superseded,
            cessation_of_operation: self.cessation_of_operation & other.cessation_of_operation,
            certificate_hold: self.certificate_hold & other.certificate_hold,
            privilege_withdrawn: self.privilege_withdrawn & other.privilege_withdrawn,
            aa_compromise: self.aa_compromise & other.aa_compromise,
        }
    }

    /// The reasons that one of the sets holds.
    pub fn union(self, other: ReasonSet) -> ReasonSet
        ensures { (flag : ReasonFlag) → holds flag result ≡ (holds flag self || holds flag other) }
    {
        ReasonSet {
            key_compromise: self.key_compromise | other.key_compromise,
            ca_compromise: self.ca_compromise | other.ca_compromise,
            affiliation_changed: self.affiliation_changed | other.affiliation_changed,
            superseded: self.superseded | other.superseded,
            cessation_of_operation: self.cessation_of_operation | other.cessation_of_operation,
            certificate_hold: self.certificate_hold | other.certificate_hold,
            privilege_withdrawn: self.privilege_withdrawn | other.privilege_withdrawn,
            aa_compromise: self.aa_compromise | other.aa_compromise,
        }
    }

    /// Whether the set holds no reason.
    pub fn is_empty(self) -> bool
        ensures { IsTrue result ↔ (self ≡ no_reasons) }
    {
        self == ReasonSet::none()
    }
}
