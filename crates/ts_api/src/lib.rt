//! What may be asked over HTTP, and what a response is, as values: the paths and their methods, the
//! question that a request asks, the frames by which a node is asked, and responses.
//!
//! ```text
//! let route = route_in(&request.target);                  // which path it asks for
//! let method = method_of(&request.method);
//! if route.methods().takes(method) { .. }
//! let asked = question_in(alloc, &request, now)?;         // the question, or why there is none
//! let frame = question_frame(alloc, asked.question)?;     // by which the node is asked it
//! ```
//!
//! - [`route_in`], [`method_of`], [`Route::methods`], [`Methods::takes`]: which path is asked for,
//!   and by which methods it may be (`specs/Routes`).
//! - [`Route::path`]: a path that leads to a route. [`Route::place`]: its place in [`Route::all`].
//! - [`bearer_in`]: which secret the header fields show; [`query_of`]: the query of a target
//!   (`specs/Request`).
//! - [`question_in`], [`question_from`], [`asked_of`], [`wanted_in`]: the question that the query
//!   and the body of a request say, or pairs, or fields, or why they say none (`specs/Asking`).
//! - [`status_frame`], [`identify_frame`], [`outcome_frame`], [`question_frame`], [`submit_frame`]:
//!   the octets of the frame by which the node is asked.
//! - [`Response`]: `new`, `json`, `object`: a status, and a body of text or of JSON
//!   (`specs/Response`). [`phrase_of`], [`headers_of`]: the phrase of its status, and its header
//!   fields (`specs/Heading`).
//! - [`fault_text`]: why pairs are refused, in words (`specs/Words`).
//!
//! Out of memory is the only error.
#![tactic(auto)]

mod asking;
mod frames;
mod heading;
mod request;
mod response;
mod route;
mod scene;
mod words;

pub use asking::{AskedQuestion, NoQuestion, asked_of, question_from, question_in, wanted_in};
pub use frames::{identify_frame, outcome_frame, question_frame, status_frame, submit_frame};
pub use heading::{headers_of, phrase_of};
pub use request::{Bearer, bearer_in, query_of, route_in};
pub use response::{Content, Keeps, Response};
pub use route::{Method, Methods, Route, method_of};
pub use scene::Scene;
pub use words::{LIMITS, fault_text};
