// Whether a request comes from elsewhere, judged by the fields of its head.
ghost use Rattle.std.specs.Prelude.{◌≡◌, length, map, All};
ghost use Rattle.httparse.specs.Spans.{IsHeaderWithin, header_bytes};
ghost use Rattle.esm_api.specs.Host.{is_port, is_port_part, is_host, names_here, is_foreign_field, is_foreign};

use esm_model::spelling::are_digits;
use http1::text::eq_ignore_case;
use httparse::spans::HeaderSpan;

/// The most digits of a port.
pub const MAX_PORT_DIGITS: usize = 5;

/// Whether one of the fields is an `Origin` (RFC 6454, section 7), or a `Host` that names another machine (RFC 9110,
/// section 7.2).
pub fn is_foreign(bytes: &[u8], fields: &[HeaderSpan]) -> bool
    requires { All (IsHeaderWithin (length bytes.now)) fields.now }
    ensures { result ≡ is_foreign (map (header_bytes bytes.now) fields.now) }
{
    for field in fields {
        if is_foreign_field(bytes, field) {
            return true;
        }
    }
    false
}

/// Whether this field is one of them.
fn is_foreign_field(bytes: &[u8], field: &HeaderSpan) -> bool
    requires { IsHeaderWithin (length bytes.now) field.now }
    ensures { result ≡ is_foreign_field (header_bytes bytes.now field.now) }
{
    let name = field.name.of(bytes);
    eq_ignore_case(name, b"origin")
        || eq_ignore_case(name, b"host") && !names_here(field.value.of(bytes))
}

/// Whether the value of a `Host` names this machine.
fn names_here(value: &[u8]) -> bool
    ensures { result ≡ names_here value.now }
{
    is_host(b"127.0.0.1", value) || is_host(b"localhost", value) || is_host(b"[::1]", value)
}

/// Whether the value is this host, in any case of letters, with or without a port.
fn is_host(host: &[u8], value: &[u8]) -> bool
    ensures { result ≡ is_host host.now value.now }
{
    let (front, rest) = value.split_at(host.len().min(value.len()));
    eq_ignore_case(front, host) && is_port_part(rest)
}

/// Nothing, or a colon and a port.
fn is_port_part(text: &[u8]) -> bool
    ensures { result ≡ is_port_part text.now }
{
    match text {
        [] => true,
        [first, port @ ..] => *first == b':' && is_port(port),
    }
}

/// One to five digits.
fn is_port(text: &[u8]) -> bool
    ensures { result ≡ is_port text.now }
{
    !text.is_empty() && text.len() <= MAX_PORT_DIGITS && are_digits(text)
}
