//! What octets come to without a node: the verdict on a chain, with the text that says it.
//!
//! ```text
//! // what files hold, each value in DER; the text that is printed, and whether the chain is valid
//! let judgement = judge(alloc, &given, &options, host, json)?;
//! ```
//!
//! - [`judge`]: the text says the report of `ts_verify` on exactly these certificates, under
//!   exactly the trust anchors that are certificates, with exactly these CRLs, by signatures that
//!   are checked here (`IsJudgement`, `asked_of`); two lines, or a JSON object on a line. It is
//!   refused for the first of these (`IsRefusal`): no certificate or more than 33, no trust anchor,
//!   a certificate that breaks a rule, a CRL that can't be used.
//!
//! The two lines are printable characters of ASCII, each ended by a line feed (`IsText`,
//! `specs/Text`). The first has the words of the finding: `valid` and the policies, or `invalid`,
//! the place of a certificate, counted from the anchor's side, and the reason; `Host` is the reason
//! of a leaf that is for another host. The second explains it (`specs/Explained`): of a valid chain
//! how many certificates it has, under which anchor, and whether revocation was looked at; else the
//! place and the subject of the certificate that is not good, and which condition it does not meet,
//! or that its issuer is no trust anchor, exactly where that is so.
//!
//! The fields of the JSON object say the finding (`IsJson`, `specs/Fields`): whether it is valid,
//! the place, the reason and its section, the policies, whether revocation was looked at, the
//! subject of the certificate and the name of the anchor, and the second line of the text.
//!
//! # Not promised
//!
//! Neither proved nor tested: time. What `ts_verify` doesn't promise.
#![tactic(auto)]

mod fields;
mod given;
mod judging;
mod printed;
mod reading;

pub use given::{GivenChain, VerifyOptions};
pub use judging::{Judgement, judge};
