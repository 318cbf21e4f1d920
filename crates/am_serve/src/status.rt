//! The status line of a response (RFC 9112 section 4).
ghost use Rattle.std.specs.Prelude.{◌≡◌, ◌≤◌, ◌<◌, ◌+◌, ◌-◌, ℕ, IfNone, IfSome, length};
ghost use Rattle.am_serve.specs.Statuses.{IsDigit, IsStatusLine};

/// How many bytes of a response tell its status: `HTTP/1.1 200` and what ends it.
pub const STATUS_BYTES: usize = 13;

// The value of a digit.
fn digit(byte: u8) -> Option<u16>
    ensures some { IfSome result (λ value. IsDigit byte × (value + 48 ≡ byte)) }
    ensures none { IfNone result (IsDigit byte → ⊥) }
{
    if byte.is_ascii_digit() {
        Some(u16::from(byte - b'0'))
    } else {
        None
    }
}

// The status of a response that begins with these bytes, 100 to 999, where its version is 1.0 or 1.1.
pub fn read_status(line: &[u8]) -> Option<u16>
    requires { length line.now ≡ 13 }
    ensures some { IfSome result (λ status. IsStatusLine line.now status) }
    ensures none { IfNone result ((status : ℕ) → IsStatusLine line.now status → ⊥) }
{
    if !line.starts_with(b"HTTP/1.") || line[8] != b' ' {
        return None;
    }
    if !matches!(line[7], b'0' | b'1') || !matches!(line[12], b' ' | b'\r') {
        return None;
    }
    let hundreds = digit(line[9])?;
    let tens = digit(line[10])?;
    let ones = digit(line[11])?;
    if hundreds == 0 {
        return None;
    }
    Some(hundreds * 100 + tens * 10 + ones)
}
