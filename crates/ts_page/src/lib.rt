//! The pages that a node shows a browser: plain HTML with a style and a little script, which load
//! nothing from elsewhere and can be read without either.
//!
//! ```text
//! let html = store_page(alloc, &peers, &view, now)?;       // what the store holds, with a slider
//! let html = verdict_page(alloc, &fields, &chain, note, &pairs)?;
//! ```
//!
//! A page is `Html`, which words of the program and texts from elsewhere are added to:
//!
//! - `Html::raw`: words of the program stand behind what was there, as they are. They are
//!   `'static`, so that no text from elsewhere can be written so.
//! - `Html::text`: `added`: the text stands behind what was there, each octet as its table says;
//!   `escaped`: what is added is of octets that are none of `& < > " '` and of the five entities
//!   for these alone (`specs/Escaped`), so that it ends neither a text nor the value of an
//!   attribute in quotation marks, and begins no tag. So no text of a certificate, a CRL or a
//!   request is markup.
//!
//! The pages:
//!
//! - [`store_page`]: the nodes and what they know; what the store holds after k commands, each list
//!   with its dates, of which nextUpdate is marked where it is past, or less than a day away; and
//!   the form.
//! - [`verdict_page`]: a verdict, the certificates of the question of which the one is marked that
//!   is not good, and the form with what was given.
//! - [`problem_page`]: why there is no verdict, and the form.
//! - [`STYLE`], [`SCRIPT`]: what the pages load. Without the script the slider has a button, and
//!   files can't be chosen.
//!
//! Out of memory is the only error.
//!
//! # Not promised
//!
//! What pages say, but for that: `tools/browser` looks at them in a browser.
#![tactic(auto)]

mod chain_table;
mod form;
mod head;
mod html;
mod loaded;
mod store;
mod verdict;

pub use loaded::{SCRIPT, STYLE};
pub use store::{PeerLine, StoreView, store_page};
pub use verdict::{problem_page, verdict_page};
