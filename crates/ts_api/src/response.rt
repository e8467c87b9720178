//! Responses.

ghost use Rattle.std.specs.Prelude.{◌≡◌, ◌++◌, ◌∷◌, [], IfOk, map};
ghost use Rattle.ts_json.specs.Members.{named_value, object_of};
ghost use Rattle.ts_api.specs.Heading.{allow_of, control_of, media_type};
ghost use Rattle.ts_api.specs.Response.{IsJson, IsLine, IsPlain};
ghost use Rattle.ts_api.specs.declared.response.Content.TheVariants.{Json};

use crate::route::Methods;
use std::alloc::{AllocError, Global};
use ts_json::{Member, members_text};

/// What a body is.
#[derive(Clone, Copy, Debug, PartialEq, Eq)]
pub enum Content {
    Text,
    Json,
    Html,
    Css,
    JavaScript,
    /// The text format of Prometheus.
    Metrics,
}

/// For how long a response may be kept.
#[derive(Clone, Copy, Debug, PartialEq, Eq)]
pub enum Keeps {
    /// It is not kept.
    Never,
    /// An hour.
    Hour,
    /// It is the answer for ever.
    Always,
}

/// What is answered to a request.
#[derive(Drop)]
pub struct Response {
    pub status: u16,
    pub content: Content,
    pub keeps: Keeps,
    /// How the path may be asked for, where the request has another method.
    pub allow: Option<Methods>,
    pub body: Vec<u8>,
}

impl Content {
    /// The media type.
    pub fn media_type(self) -> &'static str
        ensures { result.now ≡ media_type self }
    {
        match self {
            Content::Text => "text/plain; charset=utf-8",
            Content::Json => "application/json",
            Content::Html => "text/html; charset=utf-8",
            Content::Css => "text/css; charset=utf-8",
            Content::JavaScript => "text/javascript; charset=utf-8",
            Content::Metrics => "text/plain; version=0.0.4; charset=utf-8",
        }
    }
}

impl Keeps {
    /// The value of Cache-Control (RFC 9111 5.2.2, RFC 8246).
    pub fn control(self) -> &'static str
        ensures { result.now ≡ control_of self }
    {
        match self {
            Keeps::Never => "no-store",
            Keeps::Hour => "max-age=3600",
            Keeps::Always => "public, max-age=31536000, immutable",
        }
    }
}

impl Methods {
    /// The value of Allow (RFC 9110 10.2.1).
    pub fn allow(self) -> &'static str
        ensures { result.now ≡ allow_of self }
    {
        match self {
            Methods::Get => "GET, HEAD",
            Methods::Post => "POST",
            Methods::Both => "GET, HEAD, POST",
        }
    }
}

impl Response {
    /// A response that isn't kept, with this body.
    pub fn new(status: u16, content: Content, body: Vec<u8>) -> Response
        ensures { IsPlain status content body.items result }
    {
        Response {
            status,
            content,
            keeps: Keeps::Never,
            allow: None,
            body,
        }
    }

    /// A line of text.
    pub fn line(alloc: Global, status: u16, words: &str) -> Result<Response, AllocError>
        ensures { IfOk result (IsLine status words.now) }
    {
        let mut body = Vec::from_slice(alloc, words.as_bytes())?;
        body.push(b'\n')?;
        Ok(Response::new(status, Content::Text, body))
    }

    /// A line of JSON.
    pub fn json(alloc: Global, status: u16, text: &str) -> Result<Response, AllocError>
        ensures { IfOk result (IsPlain status Json (text.now ++ 10 ∷ [])) }
    {
        let mut body = Vec::from_slice(alloc, text.as_bytes())?;
        body.push(b'\n')?;
        Ok(Response::new(status, Content::Json, body))
    }

    /// An object of these members, as a line of JSON.
    pub fn object(alloc: Global, status: u16, members: &[Member]) -> Result<Response, AllocError>
        ensures { IfOk result (IsJson status (object_of (map named_value members.now))) }
    {
        let text = members_text(alloc, members)?;
        Response::json(alloc, status, text.as_str())
    }
}
