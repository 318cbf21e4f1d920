//! Why the front refuses a request.
ghost use Rattle.std.specs.Prelude.{◌≡◌};
ghost use Rattle.am_http.specs.Codes.{code_of, status_of};

use std::error::Error;
use std::fmt;

/// Why the front refuses a request, in the order in which the checks are looked at.
#[derive(Clone, Copy, Debug, PartialEq, Eq)]
pub enum FrontRefusal {
    /// `H4`, 431: the first 16,384 bytes are no whole head, and more came.
    LongHead,
    /// `H1`, 400: the head isn't one by RFC 9112 sections 2 to 5, or has more than 64 field lines.
    BadHead,
    /// `H1`, 400: a Content-Length isn't a decimal number, or two of them differ (RFC 9112 section 6.3).
    BadLength,
    /// `H2`, 411: a POST states no Content-Length.
    MissingLength,
    /// `H2`, 411: the body comes in a transfer coding (RFC 9112 section 6.1), which isn't taken.
    TransferCoding,
    /// `H3`, 413: the body has more than 1,048,576 bytes.
    LongBody,
    /// `N0`, 401: no tenant is named.
    NoTenant,
    /// `N1`, 400: the tenant's name is empty.
    EmptyTenant,
    /// `N2`, 400: the tenant's name has more than 150 bytes.
    TenantTooLong,
    /// `N3`, 400: the tenant's name has a byte that isn't allowed.
    BadTenant,
    /// `N3`, 400: the header that names the tenant is given twice, whatever its values.
    TenantTwice,
    /// `N4`, 400: the tenant's name is reserved.
    ReservedTenant,
    /// `H5`, 404: there is no such path.
    NoSuchPath,
    /// `H6`, 405: the path doesn't take the method.
    WrongMethod,
}

impl FrontRefusal {
    /// The code that the refusal's body names.
    pub fn code(self) -> &'static str
        ensures { result.now ≡ code_of self }
    {
        match self {
            FrontRefusal::LongHead => "H4",
            FrontRefusal::BadHead | FrontRefusal::BadLength => "H1",
            FrontRefusal::MissingLength | FrontRefusal::TransferCoding => "H2",
            FrontRefusal::LongBody => "H3",
            FrontRefusal::NoTenant => "N0",
            FrontRefusal::EmptyTenant => "N1",
            FrontRefusal::TenantTooLong => "N2",
            FrontRefusal::BadTenant | FrontRefusal::TenantTwice => "N3",
            FrontRefusal::ReservedTenant => "N4",
            FrontRefusal::NoSuchPath => "H5",
            FrontRefusal::WrongMethod => "H6",
        }
    }

    /// The status code of the refusal's reply.
    pub fn status(self) -> u16
        ensures { result ≡ status_of self }
    {
        match self {
            FrontRefusal::LongHead => 431,
            FrontRefusal::MissingLength | FrontRefusal::TransferCoding => 411,
            FrontRefusal::LongBody => 413,
            FrontRefusal::NoTenant => 401,
            FrontRefusal::NoSuchPath => 404,
            FrontRefusal::WrongMethod => 405,
            FrontRefusal::BadHead
            | FrontRefusal::BadLength
            | FrontRefusal::EmptyTenant
            | FrontRefusal::TenantTooLong
            | FrontRefusal::BadTenant
            | FrontRefusal::TenantTwice
            | FrontRefusal::ReservedTenant => 400,
        }
    }
}

impl fmt::Display for FrontRefusal {
    ghost use Rattle.std.specs.Prelude.{Some};
    ghost use Rattle.am_http.specs.Codes.{code_of};

    ghost output = { λ refusal. Some (code_of refusal) };

    fn fmt<W: fmt::Write>(&self, f: &mut fmt::Formatter<W>) -> fmt::Result {
        f.write_str(self.code())
    }
}

impl Error for FrontRefusal {}
