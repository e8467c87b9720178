//! What is answered to a request.

ghost use Rattle.std.specs.Prelude.{IfOk};
ghost use Rattle.ts_site.specs.Requests.{Begins, GoesOn};

use crate::board::Board;
use crate::commanding::{begin_command, begin_outcome, end_command};
use crate::explaining::{end_chain, go_on_anchors};
use crate::form::{begin_form, end_form};
use crate::gauging::{go_on_gauge, go_on_metrics};
use crate::listing::{begin_rows, end_rows};
use crate::next::{Next, Pending, Waits};
use crate::paging::{begin_home, end_home, go_on_home, script, style};
use crate::refusing::not_allowed;
use crate::status::{ask_status, end_health, end_identity, end_prefix};
use crate::verifying::{begin_verdict, end_verdict};
use std::alloc::{AllocError, Global};
use ts_api::{Method, Response, Route, Scene, method_of, route_in};
use ts_http::Request;
use ts_wire::Frame;

/// What a request comes to first.
///
/// # Errors
///
/// Out of memory.
pub(crate) fn begin(alloc: Global, request: &Request, scene: &Scene<'_>) -> Result<Next, AllocError>
    ensures { IfOk result (Begins scene.entry.now request.now) }
{
    let route = route_in(&request.target);
    let method = method_of(&request.method);
    if route != Route::None && !route.methods().takes(method) {
        return Ok(Next::Tell(not_allowed(alloc, route)?));
    }
    match route {
        Route::Verify | Route::Check | Route::Explain => {
            begin_verdict(alloc, request, route, scene.now)
        }
        Route::Form => begin_form(alloc, request, scene.now),
        Route::Store => begin_rows(alloc, request, false),
        Route::Log => begin_rows(alloc, request, true),
        Route::Commands if method == Method::Post => { begin_command(alloc, request, scene) }
        Route::Commands => begin_outcome(alloc, request),
        Route::Home => begin_home(alloc, request),
        Route::Status => ask_status(alloc, Waits::Prefix),
        Route::Health => ask_status(alloc, Waits::Health),
        Route::Metrics => ask_status(alloc, Waits::Metrics),
        Route::Style => Ok(Next::Tell(style(alloc)?)),
        Route::Script => Ok(Next::Tell(script(alloc)?)),
        Route::None => {
            let words = "there is nothing at this path";
            Ok(Next::Tell(Response::line(alloc, 404, words)?))
        }
    }
}

/// What comes next, once the node has answered by a frame.
///
/// # Errors
///
/// Out of memory.
pub(crate) fn go_on(
    alloc: Global,
    pending: Pending,
    frame: &Frame,
    board: &mut Board,
) -> Result<Next, AllocError>
    ensures { IfOk result (GoesOn pending.waits frame.now) }
{
    match pending.waits {
        Waits::Verdict(asked, route) => end_verdict(alloc, asked, route, frame, board),
        Waits::Rows(asked) => end_rows(alloc, asked, frame),
        Waits::Health => end_health(alloc, frame),
        Waits::Prefix => end_prefix(alloc, frame),
        Waits::Identity(prefix) => end_identity(alloc, prefix, frame),
        Waits::Command(id) => end_command(alloc, &id, frame),
        Waits::Home(asked) => go_on_home(alloc, asked, frame),
        Waits::HomeRows(asked, prefix) => end_home(alloc, asked, prefix, frame, board),
        Waits::Form(asked, pairs) => end_form(alloc, asked, pairs, frame, board),
        Waits::Anchors(explaining) => go_on_anchors(alloc, explaining, frame),
        Waits::Chain(asked, form) => end_chain(alloc, &asked, &form, frame),
        Waits::Metrics => go_on_metrics(alloc, frame, board),
        Waits::Gauge(gauging) => go_on_gauge(alloc, gauging, frame, board),
    }
}
