//! The header fields of responses.

ghost use Rattle.std.specs.Prelude.{◌≡◌, IfOk};
ghost use Rattle.http1.specs.Head.{header_parts, pairs};
ghost use Rattle.ts_api.specs.Heading.{headers_of, phrase_of};

use crate::response::Response;
use std::alloc::{AllocError, Global};
use ts_http::Header;

/// What a page may load and do (CSP Level 3): its own style, script and forms.
const POLICY: &str = "default-src 'none'; style-src 'self'; script-src 'self'; \
    form-action 'self'; base-uri 'none'; frame-ancestors 'none'";

/// The reason phrase of a status (RFC 9110 15).
pub fn phrase_of(status: u16) -> &'static str
    ensures { result.now ≡ phrase_of status }
{
    match status {
        200 => "OK",
        202 => "Accepted",
        400 => "Bad Request",
        401 => "Unauthorized",
        403 => "Forbidden",
        404 => "Not Found",
        405 => "Method Not Allowed",
        413 => "Content Too Large",
        414 => "URI Too Long",
        431 => "Request Header Fields Too Large",
        501 => "Not Implemented",
        503 => "Service Unavailable",
        _ => "Error",
    }
}

/// A header field.
fn header(name: &'static str, value: &'static str) -> Header<'static>
    ensures { header_parts result ≡ (name.now, value.now) }
{
    Header {
        name: name.as_bytes(),
        value: value.as_bytes(),
    }
}

/// The header fields of a response.
///
/// # Errors
///
/// Out of memory.
pub fn headers_of(alloc: Global, response: &Response) -> Result<Vec<Header<'static>>, AllocError>
    ensures { IfOk result (λ headers. pairs headers.items ≡ headers_of response.now) }
{
    let mut headers = Vec::new(alloc);
    headers.push(header("content-type", response.content.media_type()))?;
    headers.push(header("cache-control", response.keeps.control()))?;
    headers.push(header("content-security-policy", POLICY))?;
    headers.push(header("x-content-type-options", "nosniff"))?;
    headers.push(header("referrer-policy", "no-referrer"))?;
    if let Some(methods) = response.allow {
        headers.push(header("allow", methods.allow()))?;
    }
    if response.status == 401 {
        headers.push(header("www-authenticate", "Bearer"))?;
    }
    if response.status == 503 {
        headers.push(header("retry-after", "1"))?;
    }
    Ok(headers)
}
