//! What a verdict depends on beside the anchor and the chain.

ghost use Rattle.std.specs.Prelude.{◌≡◌, [], None, false};

use ts_der::OidRef;
use ts_name::Subtree;
use ts_time::Moment;

/// The inputs of path validation (RFC 5280 6.1.1).
#[derive(Clone, Copy)]
pub struct Inputs<'a> {
    /// The moment at which the chain is judged (6.1.1 (b)).
    pub moment: Moment,
    /// The purpose that the target is to have, if one is asked for, as the content octets of its
    /// object identifier.
    pub purpose: Option<&'a [u8]>,
    /// The policies that the user accepts (6.1.1 (c)); none stands for any.
    pub user_policies: &'a [OidRef<'a>],
    /// Whether a policy has to be valid for the chain (6.1.1 (f)).
    pub explicit_policy: bool,
    /// Whether policies may not be mapped (6.1.1 (e)).
    pub inhibit_policy_mapping: bool,
    /// Whether anyPolicy does not stand for other policies (6.1.1 (g)).
    pub inhibit_any_policy: bool,
    /// The subtrees in which names have to lie (6.1.1 (h)).
    pub permitted_subtrees: &'a [Subtree<'a>],
    /// The subtrees in which no name may lie (6.1.1 (i)).
    pub excluded_subtrees: &'a [Subtree<'a>],
    /// Whether a certificate is refused if its status can't be determined.
    pub hard: bool,
    /// Whether delta CRLs are used (6.3.1 (b)).
    pub use_deltas: bool,
}

impl<'a> Inputs<'a> {
    /// The inputs that ask for nothing but a moment: any policy, any names and any purpose are
    /// accepted, and a certificate whose status can't be determined.
    pub fn at(moment: Moment) -> Inputs<'a>
        ensures moment { result.moment ≡ moment }
        ensures purpose { result.purpose ≡ None }
        ensures policies { (result.user_policies.now ≡ []) × (result.explicit_policy ≡ false)
            × (result.inhibit_policy_mapping ≡ false) × (result.inhibit_any_policy ≡ false) }
        ensures names { (result.permitted_subtrees.now ≡ []) × (result.excluded_subtrees.now ≡ []) }
        ensures revocation { (result.hard ≡ false) × (result.use_deltas ≡ false) }
    {
        Inputs {
            moment,
            purpose: None,
            user_policies: &[],
            explicit_policy: false,
            inhibit_policy_mapping: false,
            inhibit_any_policy: false,
            permitted_subtrees: &[],
            excluded_subtrees: &[],
            hard: false,
            use_deltas: false,
        }
    }
}
