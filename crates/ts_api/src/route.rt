//! What there is, by its path.

ghost use Rattle.std.specs.Prelude.{◌≡◌, ◌<◌, Some, slice_get};
ghost use Rattle.std.specs.Str.{bytes_eq};
ghost use Rattle.ts_api.specs.Routes.{all_routes, method_of, methods_of, program_route, route_of};
ghost use Rattle.ts_api.specs.Routes.{takes};

/// What there is, by its path.
#[derive(Clone, Copy, Debug, PartialEq, Eq)]
pub enum Route {
    /// `/`: the page of the store.
    Home,
    /// `/style.css`: the pages' style.
    Style,
    /// `/script.js`: their script.
    Script,
    /// `/verify`: their form.
    Form,
    /// `/v1/verify`: a question.
    Verify,
    /// `/v1/check`: a question, whose status says the verdict.
    Check,
    /// `/v1/explain`: a question, and where a search finds nothing, one about the chain as it was
    /// sent.
    Explain,
    /// `/v1/store`: what the store holds.
    Store,
    /// `/v1/log`: the commands that it took.
    Log,
    /// `/v1/commands`: a command, and what became of one.
    Commands,
    /// `/v1/status`: how many commands the node knows, and which node it is.
    Status,
    /// `/healthz`: whether the node answers.
    Health,
    /// `/metrics`: counts.
    Metrics,
    /// Anything else.
    None,
}

/// How a request asks.
#[derive(Clone, Copy, Debug, PartialEq, Eq)]
pub enum Method {
    /// GET or HEAD.
    Get,
    /// POST.
    Post,
    /// Another.
    Other,
}

/// How what is at a path may be asked for.
#[derive(Clone, Copy, Debug, PartialEq, Eq)]
pub enum Methods {
    Get,
    Post,
    Both,
}

/// How a method asks.
pub fn method_of(method: &[u8]) -> Method
    ensures { result ≡ method_of method.now }
{
    match method {
        b"GET" | b"HEAD" => Method::Get,
        b"POST" => Method::Post,
        _ => Method::Other,
    }
}

/// Whether octets are a word.
fn is_word(octets: &[u8], word: &str) -> bool
    ensures { result ≡ bytes_eq octets.now word.now }
{
    octets == word.as_bytes()
}

/// What is at a path for programs that speak of the store, or of the node.
fn program_route(path: &[u8]) -> Route
    ensures { result ≡ program_route path.now }
{
    if is_word(path, "/v1/store") {
        return Route::Store;
    }
    if is_word(path, "/v1/log") {
        return Route::Log;
    }
    if is_word(path, "/v1/commands") {
        return Route::Commands;
    }
    if is_word(path, "/v1/status") {
        return Route::Status;
    }
    if is_word(path, "/healthz") {
        return Route::Health;
    }
    if is_word(path, "/metrics") {
        return Route::Metrics;
    }
    Route::None
}

/// What is at a path.
pub(crate) fn route_of(path: &[u8]) -> Route
    ensures { result ≡ route_of path.now }
{
    if is_word(path, "/") {
        return Route::Home;
    }
    if is_word(path, "/style.css") {
        return Route::Style;
    }
    if is_word(path, "/script.js") {
        return Route::Script;
    }
    if is_word(path, "/verify") {
        return Route::Form;
    }
    if is_word(path, "/v1/verify") {
        return Route::Verify;
    }
    if is_word(path, "/v1/check") {
        return Route::Check;
    }
    if is_word(path, "/v1/explain") {
        return Route::Explain;
    }
    program_route(path)
}

impl Methods {
    /// Whether this method is among them.
    pub fn takes(self, method: Method) -> bool
        ensures { result ≡ takes self method }
    {
        match method {
            Method::Get => self != Methods::Post,
            Method::Post => self != Methods::Get,
            Method::Other => false,
        }
    }
}

impl Route {
    /// How what is there may be asked for.
    pub fn methods(self) -> Methods
        ensures { result ≡ methods_of self }
    {
        match self {
            Route::Form | Route::Verify | Route::Check | Route::Explain => Methods::Post,
            Route::Commands => Methods::Both,
            _ => Methods::Get,
        }
    }

    /// The path, as metrics name it: one that leads here.
    pub fn path(self) -> &'static str
        ensures { route_of result.now ≡ self }
    {
        match self {
            Route::Home => "/",
            Route::Style => "/style.css",
            Route::Script => "/script.js",
            Route::Form => "/verify",
            Route::Verify => "/v1/verify",
            Route::Check => "/v1/check",
            Route::Explain => "/v1/explain",
            Route::Store => "/v1/store",
            Route::Log => "/v1/log",
            Route::Commands => "/v1/commands",
            Route::Status => "/v1/status",
            Route::Health => "/healthz",
            Route::Metrics => "/metrics",
            Route::None => "other",
        }
    }

    /// The place among all routes.
    pub fn place(self) -> usize
        ensures within { result < 14 }
        ensures here { slice_get all_routes result ≡ Some self }
    {
        match self {
            Route::Home => 0,
            Route::Style => 1,
            Route::Script => 2,
            Route::Form => 3,
            Route::Verify => 4,
            Route::Check => 5,
            Route::Explain => 6,
            Route::Store => 7,
            Route::Log => 8,
            Route::Commands => 9,
            Route::Status => 10,
            Route::Health => 11,
            Route::Metrics => 12,
            Route::None => 13,
        }
    }

    /// All routes, in the order of their places.
    pub fn all() -> [Route; 14]
        ensures { result ≡ all_routes }
    {
        [
            Route::Home,
            Route::Style,
            Route::Script,
            Route::Form,
            Route::Verify,
            Route::Check,
            Route::Explain,
            Route::Store,
            Route::Log,
            Route::Commands,
            Route::Status,
            Route::Health,
            Route::Metrics,
            Route::None,
        ]
    }
}
