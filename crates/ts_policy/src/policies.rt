//! The policies of a path.

ghost use Rattle.std.specs.Prelude.{◌≡◌, ◌↔◌, ℕ, true, false, List, ◌∷◌, [], map, filter, ◌&&◌};
ghost use Rattle.std.specs.Prelude.{◌||◌, IfOk, IsTrue};
ghost use Rattle.std.specs.List.{list_any};
ghost use Rattle.ts_policy.specs.Labels.{Label, Path, any_policy as anyPolicy, same, In, has};
ghost use Rattle.ts_policy.specs.Paths.{InT, count, LatestMapsNoAny, any_counts};
ghost use Rattle.ts_policy.specs.Accepted.{IsAccepted, AreAscending, is_none};
ghost use Rattle.ts_policy.specs.Seen.{Seen, InPaths};
ghost use Rattle.ts_policy.specs.Certificates.{policies_in};
ghost use Rattle.ts_policy.specs.inside.Layers as graph;
ghost use Rattle.ts_policy.specs.inside.Links.{link_in};

use crate::certificate::Certificate;
use crate::labels::{Labels, any_policy, is_any};
use crate::layer::{Link, labels_of, map_layer, next_layer};
use std::alloc::{AllocError, Global};
use std::marker::Model;
use ts_der::OidRef;

/// The policies of the certificates of a path that were taken so far, from the trust anchor's side.
///
/// Each call but [`is_empty`](Policies::is_empty) takes the value, so there is none left when
/// memory has run out.
#[derive(Drop)]
pub struct Policies<'a> {
    taken: Vec<Certificate<'a>>,
    mapped: bool,
    layers: Vec<Vec<Link<'a>>>,
    expectations: Vec<Link<'a>>,
}

impl<'a> Model for Policies<'a> {
    ghost use Rattle.ts_policy.specs.Seen.{Seen};

    ghost Value = { Seen };

    ghost use Rattle.ts_policy.specs.inside.Kept.{seen_as, IsKept};

    ghost view = { seen_as };

    ghost invariant = { IsKept };
}

impl<'a> Policies<'a> {
    /// Before the first certificate (RFC 5280 6.1.2 (a)).
    ///
    /// # Errors
    ///
    /// Out of memory.
    pub fn start(alloc: Global) -> Result<Policies<'a>, AllocError>
        ensures { IfOk result (λ p. p ≡ record { certificates = []; mapped = true }) }
    {
        let any = any_policy();
        let mut expectations = Vec::new(alloc);
        expectations.push(Link {
            label: any,
            above: any,
        })?;
        Ok(Policies {
            taken: Vec::new(alloc),
            mapped: true,
            layers: Vec::new(alloc),
            expectations,
        })
    }

    /// Takes the next certificate (RFC 5280 6.1.3 (d)).
    ///
    /// # Errors
    ///
    /// Out of memory.
    pub fn certificate(
        self,
        alloc: Global,
        cert: Certificate<'a>,
    ) -> Result<Policies<'a>, AllocError>
        requires { self.mapped ≡ true }
        ensures { IfOk result (λ p. p ≡ record
            { certificates = policies_in cert.entry ∷ self.entry.certificates; mapped = false }) }
    {
        let layer = layer_of(alloc, &self.expectations, &cert)?;
        let mut taken = self.taken;
        let mut layers = self.layers;
        taken.push(cert)?;
        layers.push(layer)?;
        Ok(Policies {
            taken,
            mapped: false,
            layers,
            expectations: Vec::new(alloc),
        })
    }

    /// Applies the mappings of the latest certificate, none of which may name anyPolicy (RFC 5280
    /// 6.1.4 (b)).
    ///
    /// # Errors
    ///
    /// Out of memory.
    pub fn map(self, alloc: Global) -> Result<Policies<'a>, AllocError>
        requires open { self.mapped ≡ false }
        requires fine { LatestMapsNoAny self.certificates }
        ensures { IfOk result (λ p. p ≡ record
            { certificates = self.entry.certificates; mapped = true }) }
    {
        let taken = self.taken;
        let mut layers = self.layers;
        let Some(layer) = layers.pop() else {
            unreachable!()
        };
        if taken.is_empty() {
            unreachable!()
        }
        let (left, expectations) = map_layer(alloc, &taken[taken.len() - 1], &layer)?;
        layers.push(left)?;
        Ok(Policies {
            taken,
            mapped: true,
            layers,
            expectations,
        })
    }

    /// Whether no path is left: the policy tree is NULL (RFC 5280 6.1.3 (e), (f)).
    pub fn is_empty(&self) -> bool
        ensures { IsTrue result ↔ ((w : Path) → InPaths self.now w → ⊥) }
    {
        is_over(&self.layers)
    }

    /// The accepted policies, ascending by their content octets, each once, for a user who names
    /// these (RFC 5280 6.1.5 (g)). One who names none, or anyPolicy, accepts any.
    ///
    /// # Errors
    ///
    /// Out of memory.
    pub fn finish(self, alloc: Global, user: &[OidRef<'a>]) -> Result<Vec<OidRef<'a>>, AllocError>
        requires { self.mapped ≡ false }
        ensures accepted { IfOk result (λ found. (p : Label)
            → In p (map (λ x. x.content.now) found.items)
            ↔ IsAccepted (count self.entry.certificates) (InT self.entry.certificates)
            (map (λ x. x.content.now) user.now) p) }
        ensures ascending { IfOk result
            (λ found. AreAscending (map (λ x. x.content.now) found.items)) }
    {
        let layers = self.layers;
        if layers.is_empty() {
            unreachable!()
        }
        let last = &layers[layers.len() - 1];
        let alive = labels_of(alloc, last)?;
        let free = alive.contains(any_policy());
        let found = firsts(alloc, &layers, alive)?;
        let accepted = chosen(alloc, found, free, user)?;
        Ok(Labels::of(accepted).into_vec())
    }
}

/// The layer of a certificate, by what the labels of the layer above expect.
fn layer_of<'a>(
    alloc: Global,
    expectations: &[Link<'a>],
    cert: &Certificate<'a>,
) -> Result<Vec<Link<'a>>, AllocError>
    ensures { IfOk result (λ links. graph.IsNext (policies_in cert.now)
        (map link_in expectations.now) (map link_in links.items)) }
{
    let stated = Labels::of(Vec::from_slice(alloc, cert.stated())?);
    let links = next_layer(alloc, expectations, &stated, fills(cert, &stated))?;
    Ok(links)
}

/// Whether anyPolicy is stated and counts.
fn fills(cert: &Certificate<'_>, stated: &Labels<'_>) -> bool
    ensures { result ≡ (has stated.now anyPolicy && any_counts (policies_in cert.now)) }
{
    stated.contains(any_policy()) && cert.any_counts()
}

/// Whether the latest layer has no link.
fn is_over(layers: &[Vec<Link<'_>>]) -> bool
    ensures { result ≡ graph.is_over (graph.newest (λ v. map link_in v.items) [] layers.now) }
{
    if layers.is_empty() {
        return false;
    }
    let last = &layers[layers.len() - 1];
    last.is_empty()
}

/// The labels below anyPolicy, other than anyPolicy, that have a way down to the latest layer.
fn tops<'a>(
    alloc: Global,
    links: &[Link<'a>],
    alive: &Labels<'a>,
) -> Result<Vec<OidRef<'a>>, AllocError>
    ensures { IfOk result (λ labels. labels.items
        ≡ map (λ x. x.label) (filter (λ x. graph.is_top alive.now (link_in x)) links.now)) }
{
    links
        .iter()
        .copied()
        .filter(|x| alive.contains(x.label) && is_any(x.above) && !is_any(x.label))
        .map(|x| x.label)
        .collect(alloc)
}

/// The labels above of those links whose own label is alive.
fn above_alive<'a>(
    alloc: Global,
    links: &[Link<'a>],
    alive: &Labels<'a>,
) -> Result<Vec<OidRef<'a>>, AllocError>
    ensures { IfOk result (λ labels. labels.items
        ≡ map (λ x. x.above) (filter (λ x. has alive.now x.label.content.now) links.now)) }
{
    links
        .iter()
        .copied()
        .filter(|x| alive.contains(x.label))
        .map(|x| x.above)
        .collect(alloc)
}

/// The first labels other than anyPolicy of the paths to the labels that are alive.
fn firsts<'a>(
    alloc: Global,
    layers: &[Vec<Link<'a>>],
    ends: Labels<'a>,
) -> Result<Vec<OidRef<'a>>, AllocError>
    ensures { IfOk result (λ found. map (λ x. x.content.now) found.items
        ≡ graph.firsts (graph.newest (λ v. map link_in v.items) [] layers.now) ends.entry) }
{
    let mut found = Vec::new(alloc);
    let mut alive = ends;
    let mut i = layers.len();
    while i > 0 {
        i -= 1;
        let layer = &layers[i];
        let more = tops(alloc, layer, &alive)?;
        found.extend_from_slice(&more)?;
        alive = Labels::of(above_alive(alloc, layer, &alive)?);
    }
    Ok(found)
}

/// Whether the user names no policy, or anyPolicy.
fn accepts_any(user: &[OidRef<'_>]) -> bool
    ensures { result ≡ (is_none (map (λ x. x.content.now) user.now)
        || has (map (λ x. x.content.now) user.now) anyPolicy) }
{
    user.is_empty() || names_any(user)
}

/// Whether anyPolicy is among the user's policies.
fn names_any(user: &[OidRef<'_>]) -> bool
    ensures { result ≡ list_any (λ p. same p.content.now anyPolicy) user.now }
{
    user.iter().any(|p| is_any(*p))
}

/// The user's policies that were found, in the user's order.
fn members<'a>(
    alloc: Global,
    found: &Labels<'a>,
    user: &[OidRef<'a>],
) -> Result<Vec<OidRef<'a>>, AllocError>
    ensures { IfOk result (λ xs. xs.items ≡ filter (λ p. has found.now p.content.now) user.now) }
{
    user.iter()
        .copied()
        .filter(|p| found.contains(*p))
        .collect(alloc)
}

/// What the user accepts, in no order.
fn chosen<'a>(
    alloc: Global,
    mut found: Vec<OidRef<'a>>,
    free: bool,
    user: &[OidRef<'a>],
) -> Result<Vec<OidRef<'a>>, AllocError>
    ensures { IfOk result (λ xs. map (λ x. x.content.now) xs.items
        ≡ graph.chosen (map (λ x. x.content.now) found.entry.items) free
        (map (λ x. x.content.now) user.now)) }
{
    if accepts_any(user) {
        if free {
            found.push(any_policy())?;
        }
        return Ok(found);
    }
    if free {
        Vec::from_slice(alloc, user)
    } else {
        members(alloc, &Labels::of(found), user)
    }
}
