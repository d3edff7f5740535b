// The refusals of an API request before its command is applied, each with its status code, error and message.
ghost use Rattle.std.specs.Prelude.{◌≡◌};
ghost use Rattle.esm_api.specs.Answer.{status_of, error_of, message_of};

use esm_registry::ErrorName;

/// The rows of the table that can refuse a request before its command is applied, in their order (Lambda API Reference of
/// 2015-03-31, event source mappings; the rows' order and messages are this product's own).
#[derive(Clone, Copy, Debug, PartialEq, Eq)]
pub enum Refusal {
    /// No head within the limits can begin with these bytes.
    Head,
    /// The head has an `Origin`, or a `Host` that names another machine.
    Host,
    /// The target has a `?`.
    Query,
    /// The path has none of the forms.
    Path,
    /// The path does not take this method.
    Method,
    /// The body's length isn't stated by one `Content-Length` of digits alone.
    Length,
    /// The body is longer than `MAX_REQUEST_BODY`.
    Body,
    /// The body isn't JSON.
    Json,
    /// The path does not end in a UUID.
    Mapping,
}

impl Refusal {
    /// The status code.
    pub fn status(self) -> u16
        ensures { result ≡ status_of self }
    {
        match self {
            Refusal::Head | Refusal::Query | Refusal::Json => 400,
            Refusal::Host => 403,
            Refusal::Path | Refusal::Mapping => 404,
            Refusal::Method => 405,
            Refusal::Length => 411,
            Refusal::Body => 413,
        }
    }

    /// The error's name.
    pub fn error(self) -> &'static str
        ensures { result.now ≡ error_of self }
    {
        match self {
            Refusal::Head | Refusal::Length | Refusal::Json => {
                ErrorName::InvalidRequestContentException.name()
            }
            Refusal::Host => "AccessDeniedException",
            Refusal::Query => ErrorName::InvalidParameterValueException.name(),
            Refusal::Path | Refusal::Mapping => ErrorName::ResourceNotFoundException.name(),
            Refusal::Method => ErrorName::MethodNotAllowed.name(),
            Refusal::Body => ErrorName::RequestTooLargeException.name(),
        }
    }

    /// The message: the row's name.
    pub fn message(self) -> &'static str
        ensures { result.now ≡ message_of self }
    {
        match self {
            Refusal::Head => "head",
            Refusal::Host => "host",
            Refusal::Query => "query",
            Refusal::Path => "path",
            Refusal::Method => "method",
            Refusal::Length => "length",
            Refusal::Body => "body",
            Refusal::Json => "json",
            Refusal::Mapping => "mapping",
        }
    }
}
