//! Names of hosts that are looked up among the domains of constraints.

ghost use Rattle.std.specs.Prelude.{◌≡◌, ◌↔◌, ℕ, List, IsTrue, IfOk, map, option_map};
ghost use Rattle.std.specs.Prelude.{option_to_list};
ghost use Rattle.ts_name.specs.General.{dNSName};
ghost use Rattle.ts_name.specs.GeneralView.{general_in};
ghost use Rattle.ts_name.specs.Holds.{Holds};
ghost use Rattle.ts_constraint.specs.Conditions.{Some_of};
ghost use Rattle.ts_constraint.specs.inside.Ending.{octets};
ghost use Rattle.ts_constraint.specs.inside.Hosts.{domain_ending, domain_endings, dotted_ending};
ghost use Rattle.ts_constraint.specs.inside.Hosts.{dotted_endings, has_host};
ghost use Rattle.ts_constraint.specs.View.{bases_in};

use crate::ending::Ending;
use crate::endings::Endings;
use std::alloc::{AllocError, Global};
use ts_name::{General, Subtree};

/// The domains of constraints, in which a host is looked up.
#[derive(Drop)]
pub(crate) struct Hosts<'a> {
    /// The domains of a host and of those below it.
    domains: Endings<'a>,
    /// The domains that begin with a dot, of the hosts below them alone.
    dotted: Endings<'a>,
}

impl<'a> Hosts<'a> {
    /// The domains among the bases of subtrees. The error is that memory ran out.
    pub(crate) fn new(alloc: Global, subtrees: &[Subtree<'a>]) -> Result<Self, AllocError>
        ensures { IfOk result (λ h. (host : List ℕ)
            → IsTrue (has_host h host) ↔ Some_of (λ base. Holds base (dNSName host))
            (bases_in subtrees.now)) }
    {
        let domains = gather_domains(alloc, subtrees)?;
        let dotted = gather_dotted(alloc, subtrees)?;
        Ok(Hosts {
            domains: Endings::new(domains),
            dotted: Endings::new(dotted),
        })
    }

    /// Whether a host lies in one of the domains.
    pub(crate) fn has(&self, host: &[u8]) -> bool
        ensures { result ≡ has_host self.now host.now }
    {
        let whole = Ending {
            text: host,
            dotted: true,
        };
        if self.domains.has_front(whole) {
            return true;
        }
        match host {
            [_, rest @ ..] => self.dotted.has_front(Ending {
                text: rest,
                dotted: false,
            }),
            [] => false,
        }
    }
}

/// The endings of the domains that do not begin with a dot.
fn gather_domains<'a>(
    alloc: Global,
    subtrees: &[Subtree<'a>],
) -> Result<Vec<Ending<'a>>, AllocError>
    ensures { IfOk result (λ v. map octets v.items ≡ domain_endings (bases_in subtrees.now)) }
{
    let mut endings = Vec::new(alloc);
    let mut rest = subtrees;
    while let [subtree, others @ ..] = rest {
        if let Some(ending) = domain(subtree.base()) {
            endings.push(ending)?;
        }
        rest = others;
    }
    Ok(endings)
}

/// The endings of the domains that begin with a dot.
fn gather_dotted<'a>(alloc: Global, subtrees: &[Subtree<'a>]) -> Result<Vec<Ending<'a>>, AllocError>
    ensures { IfOk result (λ v. map octets v.items ≡ dotted_endings (bases_in subtrees.now)) }
{
    let mut endings = Vec::new(alloc);
    let mut rest = subtrees;
    while let [subtree, others @ ..] = rest {
        if let Some(ending) = dotted(subtree.base()) {
            endings.push(ending)?;
        }
        rest = others;
    }
    Ok(endings)
}

/// The ending of a domain that does not begin with a dot.
fn domain(base: General<'_>) -> Option<Ending<'_>>
    ensures { option_to_list (option_map octets result) ≡ domain_ending (general_in base.entry) }
{
    match base {
        General::DnsName([]) => Some(Ending {
            text: &[],
            dotted: false,
        }),
        General::DnsName([b'.', ..]) => None,
        General::DnsName(text) => Some(Ending { text, dotted: true }),
        _ => None,
    }
}

/// The ending of a domain that begins with a dot.
fn dotted(base: General<'_>) -> Option<Ending<'_>>
    ensures { option_to_list (option_map octets result) ≡ dotted_ending (general_in base.entry) }
{
    match base {
        General::DnsName(text) if text.first() == Some(&b'.') => Some(Ending {
            text,
            dotted: false,
        }),
        _ => None,
    }
}
