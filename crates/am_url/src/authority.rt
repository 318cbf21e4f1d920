//! The host of a URL and its port.

ghost use Rattle.std.specs.Prelude.{◌≡◌, Some, None, if◌then◌else◌};
ghost use Rattle.std.specs.Char.{is_ascii_digit};
ghost use Rattle.std.specs.List.{list_all};
ghost use Rattle.std.specs.Str.Parse.{digits_value};
ghost use Rattle.am_url.specs.Urls.{is_number, is_address, is_host, is_authority, port_of};

/// The port of a host with perhaps a port from 1 to 65535 behind a colon: 80 where none is written. `None` where the
/// text is no such authority.
#[tactic(auto, unfolding(crate::specs::Urls::is_authority, crate::specs::Urls::port_of))]
pub(crate) fn port_of(text: &str) -> Option<u16>
    ensures { result ≡ (if is_authority text.now then Some (port_of text.now) else None) }
{
    match text.split_once(':') {
        None if is_host(text) => Some(80),
        Some((host, port)) if is_host(host) => number_of(port, 1, u16::MAX),
        _ => None,
    }
}

fn is_host(text: &str) -> bool
    ensures { result ≡ is_host text.now }
{
    text == "localhost" || is_address(text)
}

// Whether these are four numbers from 0 to 255 with dots between.
#[tactic(auto, unfolding(crate::specs::Urls::is_address))]
fn is_address(text: &str) -> bool
    ensures { result ≡ is_address text.now }
{
    let Some((first, behind)) = text.split_once('.') else {
        return false;
    };
    let Some((second, after)) = behind.split_once('.') else {
        return false;
    };
    let Some((third, fourth)) = after.split_once('.') else {
        return false;
    };
    is_octet(first) && is_octet(second) && is_octet(third) && is_octet(fourth)
}

fn is_octet(digits: &str) -> bool
    ensures { result ≡ is_number 0 255 digits.now }
{
    number_of(digits, 0, 255).is_some()
}

// The decimal number that the text is, where it lies within these bounds; zeros may stand in front.
fn number_of(digits: &str, least: u16, most: u16) -> Option<u16>
    ensures { result ≡ (if is_number least most digits.now then Some (digits_value 10 digits.now) else None) }
{
    if !are_digits(digits) {
        return None;
    }
    match digits.parse::<u16>() {
        Ok(number) if least <= number && number <= most => Some(number),
        Ok(_) => None,
        Err(_) => None,
    }
}

fn are_digits(text: &str) -> bool
    ensures { result ≡ list_all is_ascii_digit text.now }
{
    text.bytes().all(|byte| byte.is_ascii_digit())
}
