//! The laws of a connection of HTTP before a node. Each is the contract of a function that does
//! nothing.

ghost use Rattle.std.specs.Prelude.{◌≡◌, ℤ, List, Ok};
ghost use Rattle.ts_http.specs.declared.request.Request.{Request};
ghost use Rattle.ts_wire.specs.Frames.{frame_encoding};
ghost use Rattle.ts_wire.specs.declared.frame.Frame.TheVariants.{Question};
ghost use Rattle.ts_api.specs.Asking.{IsAskedBy};
ghost use Rattle.ts_api.specs.Request.{route_in};
ghost use Rattle.ts_api.specs.declared.asking.AskedQuestion.{AskedQuestion};
ghost use Rattle.ts_api.specs.declared.route.Route.{Route};
ghost use Rattle.ts_site.specs.Account.{Call, Calls, IsAsked, IsBegun, AsksForIts};
ghost use Rattle.ts_site.specs.Faces.{State};
ghost use Rattle.ts_site.specs.declared.face.Asking.{Asking};
ghost use Rattle.ts_site.specs.declared.next.Waits.TheVariants.{Verdict};

/// Whatever calls are made on a connection, and in whatever order: what the node is asked, it is
/// asked for the request that waits for its response, first or behind its answers to what it was
/// asked for that request before.
pub fn asks_for_requests()
    ensures { (s t : State) (calls : List Call) → IsBegun s → Calls s calls t → AsksForIts t }
{}

/// While a verdict is asked for a request, the frame is that of the question that the request
/// itself says, at some moment.
pub fn asks_their_questions()
    ensures { (r : Request) (asking : Asking) (asked : AskedQuestion) (route : Route)
        → IsAsked r asking → asking.pending.waits ≡ Verdict asked route
        → (route ≡ route_in r.target.items)
        × ((now : ℤ) × IsAskedBy r.target.items r.body.items now (Ok asked))
        × (asking.frame.items ≡ frame_encoding (Question asked.question)) }
{}
