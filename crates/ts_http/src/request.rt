//! A request.

ghost use Rattle.std.specs.Prelude.{◌≡◌, All, IfOk, length, map};
ghost use Rattle.http1.specs.Framing.{method_kind};
ghost use Rattle.http1.specs.Server.{is_head};
ghost use Rattle.httparse.specs.Spans.{IsHeaderWithin, IsRequestWithin, header_bytes};
ghost use Rattle.ts_http.specs.Request.{IsAt, field_in};

use httparse::spans::{HeaderSpan, RequestSpans};
use std::alloc::{AllocError, Global};

/// A header field.
#[derive(Debug, Drop)]
pub struct Field {
    pub name: Vec<u8>,
    pub value: Vec<u8>,
}

/// A request, as far as it has come.
#[derive(Debug, Drop)]
pub struct Request {
    pub method: Vec<u8>,
    pub target: Vec<u8>,
    pub fields: Vec<Field>,
    pub body: Vec<u8>,
}

/// The fields that spans cover.
fn fields_at(alloc: Global, octets: &[u8], headers: &[HeaderSpan]) -> Result<Vec<Field>, AllocError>
    requires { All (IsHeaderWithin (length octets.now)) headers.now }
    ensures { IfOk result (λ fields. map field_in fields.items
        ≡ map (header_bytes octets.now) headers.now) }
{
    let mut fields = Vec::new(alloc);
    for header in headers {
        let name = Vec::from_slice(alloc, header.name.of(octets))?;
        let value = Vec::from_slice(alloc, header.value.of(octets))?;
        fields.push(Field { name, value })?;
    }
    Ok(fields)
}

/// The request whose head spans cover, of whose body nothing has come.
pub(crate) fn request_at(
    alloc: Global,
    octets: &[u8],
    headers: &[HeaderSpan],
    head: RequestSpans,
) -> Result<Request, AllocError>
    requires { IsRequestWithin octets.now headers.now head }
    ensures { IfOk result (IsAt octets.now headers.now head) }
{
    Ok(Request {
        method: Vec::from_slice(alloc, head.method.of(octets))?,
        target: Vec::from_slice(alloc, head.path.of(octets))?,
        fields: fields_at(alloc, octets, &headers[..head.headers])?,
        body: Vec::new(alloc),
    })
}

impl Request {
    /// Whether it is HEAD, whose response has no body.
    pub(crate) fn is_head(&self) -> bool
        ensures { result ≡ is_head (method_kind self.now.method.items) }
    {
        self.method.as_slice() == b"HEAD".as_slice()
    }
}
