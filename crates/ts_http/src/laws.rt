//! The law of a connection. It is the contract of a function that does nothing.

ghost use Rattle.std.specs.Prelude.{List};
ghost use Rattle.ts_http.specs.Account.{IsFair, Move, Moves};
ghost use Rattle.ts_http.specs.Moves.{IsNew};
ghost use Rattle.ts_http.specs.declared.connection.Connection.{Connection};

/// Whatever moves are made on a connection, and in whatever order: what left it and what waits is
/// the text of the responses, in their order. Each is to one request, and these are the first
/// requests of the octets that came, by the grammar of HTTP/1.1, however they came; but the last
/// may be to no request, and then ends the connection. What that is to, and its status, is what the
/// move says that read it (`IsRefused`, `IsUnwanted`).
pub fn each_is_answered()
    ensures { (a b : Connection) (moves : List Move) → IsNew a → Moves a moves b
        → IsFair moves b }
{}
