//! Laws of what the contracts cite. Each function does nothing: its contract is the law.
ghost use Rattle.std.specs.Prelude.{◌≡◌, ◌≢◌, ◌+◌, ◌<◌, ℕ, List, [], ◌++◌, length};
ghost use Rattle.std.specs.List.{concat};
ghost use Rattle.am_http.specs.Checks.{longest_body};
ghost use Rattle.am_http.specs.HeadEnd.{head_len, IsHeadLen};
ghost use Rattle.am_http.specs.Reading.{read_head, HeadIs};
ghost use Rattle.am_http.specs.Pieces.{verdict_in_pieces};
ghost use Rattle.am_http.specs.Replies.{phrase_of, HasPhrases};
ghost use Rattle.am_http.specs.Verdict.{longest_head, verdict};
ghost use Rattle.am_http.specs.declared.request.Fed.TheVariants.{Waits};

/// The reader of heads answers the grammar of `httparse`: the head that a text is, with at most 64 field
/// lines, or that it is none.
pub fn heads_by_grammar()
    ensures { (text : List ℕ) → HeadIs text (read_head text) }
{}

/// A head is the least beginning of a text that ends with an empty line after one that isn't empty.
pub fn heads_are_least()
    ensures { (text : List ℕ) → IsHeadLen text (head_len text) }
{}

/// More bytes never change a verdict.
pub fn verdicts_stay()
    ensures { (text more : List ℕ) → verdict text ≢ Waits → verdict (text ++ more) ≡ verdict text }
{}

/// Bytes that aren't decided are fewer than a head and a body of the greatest lengths.
pub fn waiting_bytes_are_few()
    ensures { (text : List ℕ) → verdict text ≡ Waits → length text < longest_head + longest_body }
{}

/// Bytes that come in pieces, of which none is taken in after a verdict, come to what all of them together
/// come to.
pub fn pieces_are_one_text()
    ensures { (pieces : List (List ℕ)) → verdict_in_pieces [] pieces ≡ verdict (concat pieces) }
{}

/// The phrases of the status codes that replies have.
pub fn phrases_of_replies()
    ensures { HasPhrases phrase_of }
{}
