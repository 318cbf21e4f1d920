//! What the fields of a head say.
ghost use Rattle.std.specs.Prelude.{◌≡◌, ◌<◌, ◌^◌, ◌==◌, All, length, map, min, unwrap_or, option_map, Some, IfOk, IsTrue};
ghost use Rattle.std.specs.Char.{is_ascii_digit};
ghost use Rattle.std.specs.List.{list_all};
ghost use Rattle.std.specs.Str.{str_eq_ignore_ascii_case};
ghost use Rattle.std.specs.Str.Parse.{digits_value};
ghost use Rattle.httparse.specs.Spans.{IsWithin, IsHeaderWithin, header_bytes, span_bytes};
ghost use Rattle.am_tenant.specs.Names.{name_refusal};
ghost use Rattle.am_http.specs.Fields.{has_field as holds_field, is_digits, number, content_length as stated_length, named, tenant_refusal, tenant_of};
ghost use Rattle.am_http.specs.Values.{without_zeros, number_at, seen, IsNumberAt};
ghost use Rattle.am_http.specs.Stating.{stated_view, and_stated, IsStatedAt};

use crate::refusal::FrontRefusal;
use am_tenant::{NameRefusal, TenantName};
use httparse::spans::{HeaderSpan, Span};

// Whether a field has this name, in any case.
fn is_named(head: &[u8], field: &HeaderSpan, name: &[u8]) -> bool
    requires { IsHeaderWithin (length head.now) field.now }
    ensures { result ≡ str_eq_ignore_ascii_case (header_bytes head.now field.now).0 name.now }
{
    field.name.of(head).eq_ignore_ascii_case(name)
}

/// Whether there is a field of this name.
pub(crate) fn has_field(head: &[u8], fields: &[HeaderSpan], name: &[u8]) -> bool
    requires { All (IsHeaderWithin (length head.now)) fields.now }
    ensures { result ≡ holds_field name.now (map (header_bytes head.now) fields.now) }
{
    for field in fields {
        if is_named(head, field, name) {
            return true;
        }
    }
    false
}

// The front's refusal for a tenant's name that is refused.
fn refusal_of(refusal: NameRefusal) -> FrontRefusal
    ensures { result ≡ tenant_refusal refusal }
{
    match refusal {
        NameRefusal::Empty => FrontRefusal::EmptyTenant,
        NameRefusal::TooLong => FrontRefusal::TenantTooLong,
        NameRefusal::BadByte => FrontRefusal::BadTenant,
        NameRefusal::Reserved => FrontRefusal::ReservedTenant,
    }
}

// The tenant of this name.
fn tenant_named(name: &[u8]) -> Result<TenantName, FrontRefusal>
    ensures { result ≡ named name.now (name_refusal name.now) }
{
    match TenantName::read(name) {
        Ok(tenant) => Ok(tenant),
        Err(refusal) => Err(refusal_of(refusal)),
    }
}

/// The tenant that a head names.
pub(crate) fn tenant(head: &[u8], fields: &[HeaderSpan]) -> Result<TenantName, FrontRefusal>
    requires { All (IsHeaderWithin (length head.now)) fields.now }
    ensures { result ≡ tenant_of (map (header_bytes head.now) fields.now) }
{
    let mut found: Option<Span> = None;
    for field in fields {
        if is_named(head, field, b"X-Scope-OrgID") {
            if found.is_some() {
                return Err(FrontRefusal::TenantTwice);
            }
            found = Some(field.value);
        }
    }
    match found {
        Some(value) => tenant_named(value.of(head)),
        None => Err(FrontRefusal::NoTenant),
    }
}

// The digits from the first that isn't zero.
fn significant(digits: &[u8]) -> &[u8]
    ensures { result.now ≡ without_zeros digits.now }
{
    for (i, digit) in digits.iter().enumerate() {
        if *digit != b'0' {
            return &digits[i..];
        }
    }
    &[]
}

// Whether each byte is a decimal digit.
fn are_digits(bytes: &[u8]) -> bool
    ensures { result ≡ list_all is_ascii_digit bytes.now }
{
    bytes.iter().all(|byte| byte.is_ascii_digit())
}

// Whether these are decimal digits, one at least.
fn is_number(digits: &[u8]) -> bool
    ensures { result ≡ is_digits digits.now }
{
    !digits.is_empty() && are_digits(digits)
}

// Whether two numbers are the same.
fn is_same_number(a: &[u8], b: &[u8]) -> bool
    requires first { IsTrue (is_digits a.now) }
    requires second { IsTrue (is_digits b.now) }
    ensures { result ≡ (digits_value 10 a.now == digits_value 10 b.now) }
{
    significant(a) == significant(b)
}

// The number that these digits write, or `most` where it is above that.
fn number_up_to(digits: &[u8], most: u32) -> u32
    requires digits { IsTrue (list_all is_ascii_digit digits.now) }
    requires bound { most < 2 ^ 24 }
    ensures { result ≡ min (digits_value 10 digits.now) most }
{
    let mut value = 0;
    for digit in digits {
        value = (value * 10 + u32::from(*digit - b'0')).min(most);
    }
    value
}

// What the Content-Length fields so far state.
#[derive(Clone, Copy)]
enum Stated {
    // No length.
    Nothing,
    // The number whose digits these are.
    Number(Span),
    // No number, or different ones.
    Bad,
}

// A number after those before.
fn and_number(head: &[u8], before: Stated, value: Span) -> Stated
    requires within { IsWithin (length head.now) value }
    requires before { IsStatedAt head.now before }
    ensures stated { stated_view head.now result ≡
        and_stated (stated_view head.now before) (number (span_bytes head.now value)) }
    ensures number { IsStatedAt head.now result }
{
    let digits = value.of(head);
    if !is_number(digits) {
        return Stated::Bad;
    }
    match before {
        Stated::Nothing => Stated::Number(value),
        Stated::Number(span) => {
            if is_same_number(span.of(head), digits) {
                Stated::Number(value)
            } else {
                Stated::Bad
            }
        }
        Stated::Bad => Stated::Bad,
    }
}

/// The number that Content-Length states, if there is one.
pub(crate) fn content_length(
    head: &[u8],
    fields: &[HeaderSpan],
) -> Result<Option<Span>, FrontRefusal>
    requires { All (IsHeaderWithin (length head.now)) fields.now }
    ensures stated { seen (option_map (number_at head.now)) result ≡
        stated_length (map (header_bytes head.now) fields.now) }
    ensures number { IfOk result (IsNumberAt head.now) }
{
    let mut stated = Stated::Nothing;
    for field in fields {
        if is_named(head, field, b"Content-Length") {
            stated = and_number(head, stated, field.value);
        }
    }
    match stated {
        Stated::Nothing => Ok(None),
        Stated::Number(digits) => Ok(Some(digits)),
        Stated::Bad => Err(FrontRefusal::BadLength),
    }
}

/// The length in bytes of a body of the stated length, or `most` where it is longer.
pub(crate) fn body_len(head: &[u8], stated: Option<Span>, most: u32) -> u32
    requires number { IsNumberAt head.now stated }
    requires bound { most < 2 ^ 24 }
    ensures { result ≡ min (unwrap_or (option_map (number_at head.now) stated) 0) most }
{
    match stated {
        Some(digits) => number_up_to(digits.of(head), most),
        None => 0,
    }
}
