ghost use Rattle.std.specs.Prelude.{◌≡◌};
ghost use Rattle.dw_http.specs.Texts.{word_of, status_of};

use http::StatusCode;

/// Why bytes are no message: the first rule that they break.
#[derive(Clone, Copy, Debug, PartialEq, Eq)]
pub enum HttpWhy {
    /// They cannot become a head.
    Head,
    /// No head stands in the bytes and header lines that a head may have.
    Large,
    /// A body in a transfer coding is not read.
    Transfer,
    /// A `content-length` is no number of 1 to 19 digits, or two differ.
    Length,
    /// The body is longer than 4,194,304 bytes.
    Body,
    /// The input ended inside a head or a body.
    Cut,
}

impl HttpWhy {
    /// The word of the last reply.
    pub(crate) fn word(self) -> &'static str
        ensures { result.now ≡ word_of self }
    {
        match self {
            HttpWhy::Head => "head",
            HttpWhy::Large => "large",
            HttpWhy::Transfer => "transfer",
            HttpWhy::Length => "length",
            HttpWhy::Body => "body",
            HttpWhy::Cut => "cut",
        }
    }

    /// The status of the last reply.
    pub(crate) fn status(self) -> StatusCode
        ensures { result ≡ status_of self }
    {
        match self {
            HttpWhy::Head => StatusCode::BAD_REQUEST,
            HttpWhy::Large => StatusCode::REQUEST_HEADER_FIELDS_TOO_LARGE,
            HttpWhy::Transfer => StatusCode::NOT_IMPLEMENTED,
            HttpWhy::Length => StatusCode::BAD_REQUEST,
            HttpWhy::Body => StatusCode::PAYLOAD_TOO_LARGE,
            HttpWhy::Cut => StatusCode::BAD_REQUEST,
        }
    }
}
