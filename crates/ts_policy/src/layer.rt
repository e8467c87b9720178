//! Layers of labels, one for each certificate, with a link from each label to each label above that
//! it may follow.

ghost use Rattle.std.specs.Prelude.{◌≡◌, ◌++◌, not, ◌&&◌, ◌||◌, map, filter, IfOk, List};
ghost use Rattle.ts_policy.specs.Labels.{Label, any_policy as anyPolicy, same, has, In};
ghost use Rattle.ts_policy.specs.Certificates.{mapping_in, policies_in};
ghost use Rattle.ts_policy.specs.inside.Layers as layers;
ghost use Rattle.ts_policy.specs.inside.Links.{link_in, link, AreMapped};

use crate::certificate::{Certificate, Mapping};
use crate::labels::{Labels, any_policy, is_any};
use std::alloc::{AllocError, Global};
use ts_der::OidRef;

/// A label of a layer, and one of the layer above that it follows. Above the first layer stands
/// anyPolicy.
#[derive(Clone, Copy)]
pub(crate) struct Link<'a> {
    pub(crate) label: OidRef<'a>,
    pub(crate) above: OidRef<'a>,
}

/// The label of each link, in order.
fn link_labels<'a>(alloc: Global, links: &[Link<'a>]) -> Result<Vec<OidRef<'a>>, AllocError>
    ensures { IfOk result (λ labels. labels.items ≡ map (λ x. x.label) links.now) }
{
    links.iter().map(|x| x.label).collect(alloc)
}

/// The labels of a layer, each once.
pub(crate) fn labels_of<'a>(alloc: Global, links: &[Link<'a>]) -> Result<Labels<'a>, AllocError>
    ensures { IfOk result (λ labels. (p : Label)
        → has labels p ≡ layers.has_label (map link_in links.now) p) }
{
    Ok(Labels::of(link_labels(alloc, links)?))
}

/// The links to what is expected, where it is stated or anyPolicy counts for it.
fn wanted<'a>(
    alloc: Global,
    expectations: &[Link<'a>],
    stated: &Labels<'a>,
    fills: bool,
) -> Result<Vec<Link<'a>>, AllocError>
    ensures { IfOk result (λ links. links.items
        ≡ filter (λ x. layers.is_asked fills stated.now (link_in x)) expectations.now) }
{
    expectations
        .iter()
        .copied()
        .filter(|x| fills || (!is_any(x.label) && stated.contains(x.label)))
        .collect(alloc)
}

/// The links to anyPolicy from what is stated and nothing expects.
fn unexpected<'a>(
    alloc: Global,
    stated: &[OidRef<'a>],
    expected: &Labels<'a>,
    above: OidRef<'a>,
) -> Result<Vec<Link<'a>>, AllocError>
    ensures { IfOk result (λ links. links.items
        ≡ map (λ p. link p above.entry)
        (filter (λ p. not (same p.content.now anyPolicy) && not (has expected.now p.content.now))
        stated.now)) }
{
    stated
        .iter()
        .copied()
        .filter(|p| !is_any(*p) && !expected.contains(*p))
        .map(|label| Link { label, above })
        .collect(alloc)
}

/// The links from what is stated and nothing expects, where anyPolicy is a label of the layer
/// above.
fn unwanted<'a>(
    alloc: Global,
    stated: &[OidRef<'a>],
    expected: &Labels<'a>,
) -> Result<Vec<Link<'a>>, AllocError>
    ensures { IfOk result (λ links. map link_in links.items
        ≡ layers.unwanted_by expected.now (map (λ p. p.content.now) stated.now)) }
{
    let above = any_policy();
    if expected.contains(above) {
        unexpected(alloc, stated, expected, above)
    } else {
        Ok(Vec::new(alloc))
    }
}

/// The next layer, by what the labels of the last one expect (RFC 5280 6.1.3 (d)).
pub(crate) fn next_layer<'a>(
    alloc: Global,
    expectations: &[Link<'a>],
    stated: &Labels<'a>,
    fills: bool,
) -> Result<Vec<Link<'a>>, AllocError>
    ensures { IfOk result (λ links. map link_in links.items
        ≡ layers.next_layer (map link_in expectations.now) stated.now fills) }
{
    let mut links = wanted(alloc, expectations, stated, fills)?;
    let expected = labels_of(alloc, expectations)?;
    let others = unwanted(alloc, stated.as_slice(), &expected)?;
    links.extend_from_slice(&others)?;
    Ok(links)
}

/// The links to a label above from each issuer domain policy of the mappings that is not among the
/// labels.
fn absent<'a>(
    alloc: Global,
    labels: &Labels<'a>,
    mappings: &[Mapping<'a>],
    above: OidRef<'a>,
) -> Result<Vec<Link<'a>>, AllocError>
    ensures { IfOk result (λ links. links.items
        ≡ map (λ m. link m.issuer_domain above.entry)
        (filter (λ m. not (has labels.now m.issuer_domain.content.now)) mappings.now)) }
{
    mappings
        .iter()
        .copied()
        .filter(|m| !labels.contains(m.issuer_domain))
        .map(|m| Link {
            label: m.issuer_domain,
            above,
        })
        .collect(alloc)
}

/// The links to anyPolicy from what is mapped and not there, where anyPolicy is there.
fn added<'a>(
    alloc: Global,
    labels: &Labels<'a>,
    mappings: &[Mapping<'a>],
) -> Result<Vec<Link<'a>>, AllocError>
    ensures { IfOk result (λ links. map link_in links.items
        ≡ layers.added_by labels.now (map mapping_in mappings.now)) }
{
    let above = any_policy();
    if labels.contains(above) {
        absent(alloc, labels, mappings, above)
    } else {
        Ok(Vec::new(alloc))
    }
}

/// The layer with what is mapped and was not there.
fn grown<'a>(
    alloc: Global,
    links: &[Link<'a>],
    mappings: &[Mapping<'a>],
) -> Result<Vec<Link<'a>>, AllocError>
    ensures { IfOk result (λ grown. map link_in grown.items
        ≡ map link_in links.now ++ layers.new_links (map link_in links.now)
        (map mapping_in mappings.now)) }
{
    let labels = labels_of(alloc, links)?;
    let others = added(alloc, &labels, mappings)?;
    let mut grown = Vec::from_slice(alloc, links)?;
    grown.extend_from_slice(&others)?;
    Ok(grown)
}

/// The layer without what is mapped.
fn unmapped<'a>(
    alloc: Global,
    links: &[Link<'a>],
    mapped: &Labels<'a>,
) -> Result<Vec<Link<'a>>, AllocError>
    ensures { IfOk result (λ left. left.items
        ≡ filter (λ x. not (has mapped.now x.label.content.now)) links.now) }
{
    links
        .iter()
        .copied()
        .filter(|x| !mapped.contains(x.label))
        .collect(alloc)
}

/// The issuer domain policy of each mapping, in order.
fn issuer_domains<'a>(
    alloc: Global,
    mappings: &[Mapping<'a>],
) -> Result<Vec<OidRef<'a>>, AllocError>
    ensures { IfOk result (λ labels. labels.items ≡ map (λ m. m.issuer_domain) mappings.now) }
{
    mappings.iter().map(|m| m.issuer_domain).collect(alloc)
}

/// The issuer domain policies of the mappings, as a set.
fn mapped_by<'a>(alloc: Global, mappings: &[Mapping<'a>]) -> Result<Labels<'a>, AllocError>
    ensures { IfOk result (λ labels. (p : Label)
        → has labels p ≡ layers.is_from (map mapping_in mappings.now) p) }
{
    Ok(Labels::of(issuer_domains(alloc, mappings)?))
}

/// The layer after the mappings (RFC 5280 6.1.4 (b)).
fn mapped_layer<'a>(
    alloc: Global,
    cert: &Certificate<'a>,
    links: &[Link<'a>],
    mapped: &Labels<'a>,
) -> Result<Vec<Link<'a>>, AllocError>
    requires { (p : Label) → has mapped.now p ≡ layers.is_from (policies_in cert.now).mappings p }
    ensures { IfOk result (λ left. map link_in left.items
        ≡ layers.mapped_layer (policies_in cert.now) (map link_in links.now)) }
{
    if 0 < cert.policy_mapping {
        grown(alloc, links, &cert.mappings)
    } else {
        unmapped(alloc, links, mapped)
    }
}

/// What the labels that are mapped expect: the targets.
fn by_mapping<'a>(
    alloc: Global,
    labels: &Labels<'a>,
    mappings: &[Mapping<'a>],
) -> Result<Vec<Link<'a>>, AllocError>
    ensures { IfOk result (λ pairs. pairs.items
        ≡ map (λ m. link m.subject_domain m.issuer_domain)
        (filter (λ m. has labels.now m.issuer_domain.content.now) mappings.now)) }
{
    mappings
        .iter()
        .copied()
        .filter(|m| labels.contains(m.issuer_domain))
        .map(|m| Link {
            label: m.subject_domain,
            above: m.issuer_domain,
        })
        .collect(alloc)
}

/// What the other labels expect: themselves.
fn by_itself<'a>(
    alloc: Global,
    labels: &[OidRef<'a>],
    mapped: &Labels<'a>,
) -> Result<Vec<Link<'a>>, AllocError>
    ensures { IfOk result (λ pairs. pairs.items
        ≡ map (λ p. link p p) (filter (λ p. not (has mapped.now p.content.now)) labels.now)) }
{
    labels
        .iter()
        .copied()
        .filter(|p| !mapped.contains(*p))
        .map(|p| Link { label: p, above: p })
        .collect(alloc)
}

/// What the labels of a layer expect after the mappings, each beside the label that expects it.
fn expectations_of<'a>(
    alloc: Global,
    labels: &Labels<'a>,
    mappings: &[Mapping<'a>],
    mapped: &Labels<'a>,
) -> Result<Vec<Link<'a>>, AllocError>
    ensures { IfOk result (λ pairs. map link_in pairs.items
        ≡ layers.expectations_by labels.now (map mapping_in mappings.now) mapped.now) }
{
    let mut pairs = by_mapping(alloc, labels, mappings)?;
    let others = by_itself(alloc, labels.as_slice(), mapped)?;
    pairs.extend_from_slice(&others)?;
    Ok(pairs)
}

/// The layer after the mappings of its certificate, and what its labels then expect.
pub(crate) fn map_layer<'a>(
    alloc: Global,
    cert: &Certificate<'a>,
    links: &[Link<'a>],
) -> Result<(Vec<Link<'a>>, Vec<Link<'a>>), AllocError>
    ensures { IfOk result (λ r. AreMapped (policies_in cert.now) (map link_in links.now)
        (map link_in r.0.items) (map link_in r.1.items)) }
{
    let mapped = mapped_by(alloc, &cert.mappings)?;
    let left = mapped_layer(alloc, cert, links, &mapped)?;
    let labels = labels_of(alloc, &left)?;
    let expectations = expectations_of(alloc, &labels, &cert.mappings, &mapped)?;
    Ok((left, expectations))
}
