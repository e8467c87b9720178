//! What has to be done so that a trust store holds exactly some anchors and CRLs.
//!
//! ```text
//! let steps = plan(alloc, &held, &wanted)?;      // ids that a node listed, and ids of files
//! ```
//!
//! A plan is steps over ids (`specs/Plan`): the anchors that are wanted and not held are added, and
//! then such CRLs loaded; then CRLs that are held and not wanted are dropped, and such anchors
//! withdrawn. What comes is in the order in which it is wanted, each once; what goes in that in
//! which it is held.
//!
//! - [`plan`]: those steps; [`plan_named`]: the same where anchors or CRLs that are not named stay.
//! - [`StepKind::brings`]: whether a step is one of those that bring something.
//! - [`laws::plans_reach`]: after the steps of a plan exactly what is wanted is held.
//! - [`laws::plans_keep`]: after any number of its steps what was held and is wanted is held.
//! - [`laws::plans_rest`]: there is no step exactly where the same is held and wanted.
//!
//! A store may do more than a step says, and less: a CRL takes the place of another one of its
//! issuer and scope, or is refused. Whoever follows a plan looks at the store again, and plans
//! again.
//!
//! Out of memory is answered as `AllocError`.
//!
//! # Not promised
//!
//! Neither proved nor tested: time. Each id is compared with each.
#![tactic(auto)]

pub mod laws;
mod planning;

pub use planning::{Holding, PlanStep, StepKind, plan, plan_named};
