//! What a webhook's answer says.
ghost use Rattle.std.specs.Prelude.{◌≡◌, ◌≤◌, ℕ, List, length, IfSome, Some};
ghost use Rattle.httparse.specs.Grammar.{ReadsResponse, ResponseHead, status_code};
ghost use Rattle.am_outlet.specs.Statuses.{IsStatusOf, most_fields};

use httparse::Status;
use httparse::spans::{EMPTY_HEADER_SPAN, parse_response};

// How many field lines a head has at most.
const FIELD_LIMIT: usize = 64;

/// The status of the response head with which the bytes begin, by the grammar of `httparse`. `None` where they begin
/// with no whole head that has at most 64 field lines.
pub fn read_status(bytes: &[u8]) -> Option<u16>
    ensures status { IfSome result (λ status. IsStatusOf bytes.now status) }
    ensures found { (head : ResponseHead) (rest : List ℕ) → ReadsResponse bytes.now head rest → length head.fields ≤ most_fields → result ≡ Some (status_code head) }
{
    let mut fields = [EMPTY_HEADER_SPAN; FIELD_LIMIT];
    match parse_response(bytes, &mut fields) {
        Ok(Status::Complete(head)) => Some(head.code),
        _ => None,
    }
}
