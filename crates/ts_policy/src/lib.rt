//! Certificate policies with mappings (RFC 5280 6.1.3 (d), 6.1.4 (b), 6.1.5 (g)).
//!
//! A validator hands in, from the trust anchor's side, what each certificate states of policies,
//! and asks after each whether a policy path is left. At the end it gets the accepted policies.
//!
//! ```text
//! let mut policies = Policies::start(alloc)?;
//! for each certificate i of n {
//!     let cert = Certificate::of(alloc, cert, i == n, inhibit_any_policy, policy_mapping)?;
//!     let maps_any = cert.maps_any();
//!     policies = policies.certificate(alloc, cert)?;
//!     // explicit_policy is 0 and policies.is_empty(): a policy is required
//!     // i < n and maps_any: refused
//!     if i < n { policies = policies.map(alloc)?; }
//! }
//! let accepted = policies.finish(alloc, user)?;
//! ```
//!
//! Contracts see a `Policies` as the certificates that it took and whether the mappings of the
//! latest are applied, and by these a set of paths of policies (`specs/Paths`), each policy being
//! the content octets of its object identifier. The code has `OidRef`s, so that a policy is an
//! object identifier by its type.
//!
//! - [`Certificate::of`]: what an X.509 certificate states, by the values of its extensions.
//! - [`Certificate::maps_any`]: false exactly where no mapping names anyPolicy.
//! - [`Policies::start`]: the set with the empty path alone.
//! - [`Policies::certificate`], [`Policies::map`]: the set after 6.1.3 (d), and after 6.1.4 (b).
//! - [`Policies::is_empty`]: whether the set is empty.
//! - [`Policies::finish`]: `accepted`: the accepted policies (`specs/Accepted`); `ascending`: in
//!   the order of their octets, each once.
//! - [`laws::tree_paths`]: the valid policy tree of RFC 5280, with its pruning (`specs/Tree`), has
//!   these paths and no node off them.
//!
//! There is no limit on the number of paths. They are kept as layers of labels with links between
//! neighbouring layers, so a certificate costs time and memory by its own policies and mappings and
//! the labels of the layer above, never by their product. A refusal of memory is answered as
//! `AllocError`, and the `Policies` is then gone.
//!
//! # Not promised
//!
//! Only tested: worked chains, and one of 3^16 paths (`tests/lab/chains.rows`). Neither proved nor
//! tested: time and memory (`bench/README.md` has figures).
#![tactic(auto)]

mod certificate;
mod from_cert;
mod labels;
pub mod laws;
mod layer;
mod policies;

pub use certificate::{Certificate, Mapping};
pub use policies::Policies;
