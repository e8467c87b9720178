//! Labels of policies, and sorted sets of them.

ghost use Rattle.std.specs.Prelude.{◌≡◌, ◌↔◌, map};
ghost use Rattle.ts_policy.specs.Labels.{Label, any_policy as anyPolicy, same, In, has};
ghost use Rattle.ts_policy.specs.Accepted.{AreAscending};

use std::marker::Model;
use ts_der::OidRef;

/// The content octets of anyPolicy, 2.5.29.32.0 (RFC 5280 4.2.1.4).
pub(crate) const ANY_POLICY: [u8; 4] = [85, 29, 32, 0];

/// anyPolicy as a label.
#[tactic(auto, unfolding(crate::specs::Labels::any_policy, ts_der::specs::ObjectIdentifier::is_oid, ts_der::specs::ObjectIdentifier::series_of, ts_der::specs::ObjectIdentifier::subidentifier))]
pub(crate) fn any_policy() -> OidRef<'static>
    ensures { result.content.now ≡ anyPolicy }
{
    OidRef {
        content: &ANY_POLICY,
    }
}

/// Whether a label is anyPolicy.
#[tactic(auto, unfolding(crate::specs::Labels::any_policy, crate::specs::Labels::same))]
pub(crate) fn is_any(label: OidRef<'_>) -> bool
    ensures { result ≡ same label.entry.content.now anyPolicy }
{
    label.content == ANY_POLICY.as_slice()
}

/// Distinct labels, sorted by their octets.
#[derive(Drop)]
pub(crate) struct Labels<'a> {
    sorted: Vec<OidRef<'a>>,
}

impl<'a> Model for Labels<'a> {
    ghost use Rattle.std.specs.Prelude.{List};
    ghost use Rattle.ts_policy.specs.Labels.{Label};

    ghost Value = { List Label };

    ghost use Rattle.ts_policy.specs.inside.LabelSet.{labels_in, AreSorted};

    ghost view = { labels_in };

    ghost invariant = { AreSorted };
}

impl<'a> Labels<'a> {
    /// The distinct labels of a list.
    pub(crate) fn of(labels: Vec<OidRef<'a>>) -> Labels<'a>
        ensures { (p : Label) → In p result ↔ In p (map (λ x. x.content.now) labels.entry.items) }
    {
        let mut sorted = labels;
        sorted.sort_unstable_by_key(|p| p.content);
        sorted.dedup();
        Labels { sorted }
    }

    /// Whether a label is one of them.
    pub(crate) fn contains(&self, label: OidRef<'a>) -> bool
        ensures { result ≡ has self.now label.entry.content.now }
    {
        self.sorted
            .binary_search_by_key(&label.content, |p| p.content)
            .is_ok()
    }

    /// The labels, ascending.
    pub(crate) fn as_slice(&self) -> &[OidRef<'a>]
        ensures { map (λ x. x.content.now) result.now ≡ self.now }
    {
        &self.sorted
    }

    /// The labels, ascending.
    pub(crate) fn into_vec(self) -> Vec<OidRef<'a>>
        ensures labels { map (λ x. x.content.now) result.items ≡ self.entry }
        ensures ascending { AreAscending self.entry }
    {
        self.sorted
    }
}
