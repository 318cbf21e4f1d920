//! A call of a webhook, with what is told where it fails.
ghost use Rattle.std.specs.Prelude.{◌≡◌};
ghost use Rattle.am_admin.specs.Calls.{given_notice};

use am_gateway::Try;
use am_server::Notice;
use am_text::Text;
use memchr::memmem;
use serde_json::Value;
use std::alloc::Global;
use std::str;

/// What stands before the name of the receiver in the body of a notice. Within a text of the body each `"` has a `\`
/// before it, and only other keys that tenants don't choose come behind.
const BEFORE: &[u8] = b",\"receiver\":";

/// What stands behind it.
const BEHIND: &[u8] = b",\"status\":";

/// What a server knows a call by.
#[derive(Drop)]
pub struct Called {
    /// The try whose call it is.
    pub attempted: Try,
    /// The name of the receiver whose webhook it is; `None` where memory was refused.
    pub receiver: Option<Text>,
}

/// A notice, whose call is known by the receiver too.
pub fn name_call(alloc: Global, notice: Notice<Try>) -> Notice<Called>
    ensures { given_notice result ≡ notice }
{
    let Notice { name, url, request } = notice;
    let receiver = receiver_of(alloc, request.as_slice());
    Notice {
        name: Called {
            attempted: name,
            receiver,
        },
        url,
        request,
    }
}

// The name of the receiver in the request of a notice, looked for from its end on. None where memory is refused.
fn receiver_of(alloc: Global, request: &[u8]) -> Option<Text> {
    let place = memmem::rfind(request, BEFORE)?;
    let rest = request.get(place.saturating_add(BEFORE.len())..)?;
    let end = memmem::find(rest, BEHIND)?;
    let written = str::from_utf8(rest.get(..end)?).ok()?;
    match Value::from_str(alloc, written) {
        Ok(Value::String(name)) => Some(Text::from_string(name)),
        _ => None,
    }
}
