ghost use Rattle.std.specs.Prelude.{◌≡◌, false, IfOk, MatchOption, Some, None, chars, string_bytes, encode_utf8_all};
ghost use Rattle.am_match.specs.Reading.{skip, run, is_in_name as in_name, operator, unescaped, quoted, is_bare, trim_end, bare, value, one, after_comma, is_end, several, matchers_of};
ghost use Rattle.am_match.specs.InBytes.{in_bytes, pair_in_bytes};

use crate::matcher::{Matcher, Operator};
use am_text::Text;
use std::alloc::{AllocError, Global};

// What follows the spaces at the front.
fn skip_spaces(text: &[char]) -> &[char]
    ensures { result.now ≡ skip text.now }
{
    let mut rest = text;
    'space: while let [c, tail @ ..] = rest {
        if *c != ' ' {
            break;
        }
        rest = tail;
    }
    rest
}

// The characters of a name at the front, and the rest.
fn read_name(alloc: Global, text: &[char]) -> Result<(String, &[char]), AllocError>
    ensures { IfOk result (λ p. run in_name text.now ≡ (string_bytes p.0, p.1.now)) }
{
    let mut name = String::new(alloc);
    let mut rest = text;
    'name: while let [c, tail @ ..] = rest {
        if !is_in_name(*c) {
            break;
        }
        name.push(*c)?;
        rest = tail;
    }
    Ok((name, rest))
}

fn is_in_name(c: char) -> bool
    ensures { result ≡ in_name c }
{
    c.is_ascii_alphanumeric() || c == '_'
}

// The operator at the front, the longest that fits, and the rest.
fn read_operator(text: &[char]) -> Option<(Operator, &[char])>
    ensures { MatchOption result (operator text.now ≡ None) (λ p. operator text.now ≡ Some (p.0, p.1.now)) }
{
    match text {
        ['=', '~', rest @ ..] => Some((Operator::Match, rest)),
        ['!', '~', rest @ ..] => Some((Operator::NotMatch, rest)),
        ['!', '=', rest @ ..] => Some((Operator::NotEqual, rest)),
        ['=', rest @ ..] => Some((Operator::Equal, rest)),
        _ => None,
    }
}

// What the character behind a backslash stands for.
fn unescape(c: char) -> Option<char>
    ensures { result ≡ unescaped c }
{
    match c {
        '"' => Some('"'),
        '\\' => Some('\\'),
        'n' => Some('\n'),
        _ => None,
    }
}

// What is quoted, behind the opening quotation mark, and what follows the closing one.
fn read_quoted(alloc: Global, text: &[char]) -> Result<Option<(String, &[char])>, AllocError>
    ensures { IfOk result (λ r. MatchOption r (in_bytes (quoted false text.now) ≡ None)
        (λ p. in_bytes (quoted false text.now) ≡ Some (string_bytes p.0, p.1.now))) }
{
    let mut read = String::new(alloc);
    let mut escaped = false;
    let mut rest = text;
    'quoted: while let [c, tail @ ..] = rest {
        rest = tail;
        if escaped {
            let Some(meant) = unescape(*c) else {
                return Ok(None);
            };
            read.push(meant)?;
            escaped = false;
        } else if *c == '"' {
            return Ok(Some((read, tail)));
        } else if *c == '\\' {
            escaped = true;
        } else {
            read.push(*c)?;
        }
    }
    Ok(None)
}

// The longest beginning that may stand without quotation marks, and the rest.
fn split_bare(alloc: Global, text: &[char]) -> Result<(Vec<char>, &[char]), AllocError>
    ensures { IfOk result (λ p. run is_bare text.now ≡ (p.0.items, p.1.now)) }
{
    let mut read = Vec::new(alloc);
    let mut rest = text;
    'bare: while let [c, tail @ ..] = rest {
        if matches!(*c, ',' | '"' | '{' | '}') {
            break;
        }
        read.push(*c)?;
        rest = tail;
    }
    Ok((read, rest))
}

// Takes off the spaces at the end.
fn trim_spaces(read: &mut Vec<char>)
    ensures { read.new.items ≡ trim_end read.old.items }
{
    'space: while let Some(c) = read.last() {
        if *c != ' ' {
            break;
        }
        read.pop();
    }
}

// The characters as UTF-8.
fn string_of(alloc: Global, characters: &[char]) -> Result<String, AllocError>
    ensures { IfOk result (λ s. string_bytes s ≡ encode_utf8_all characters.now) }
{
    characters.iter().copied().collect(alloc)
}

// A value without quotation marks, and the rest.
fn read_bare(alloc: Global, text: &[char]) -> Result<(String, &[char]), AllocError>
    ensures { IfOk result (λ p. pair_in_bytes (bare text.now) ≡ (string_bytes p.0, p.1.now)) }
{
    let (mut read, rest) = split_bare(alloc, text)?;
    trim_spaces(&mut read);
    let value = string_of(alloc, &read)?;
    Ok((value, rest))
}

// A value, and the rest.
fn read_value(alloc: Global, text: &[char]) -> Result<Option<(String, &[char])>, AllocError>
    ensures { IfOk result (λ r. MatchOption r (in_bytes (value text.now) ≡ None)
        (λ p. in_bytes (value text.now) ≡ Some (string_bytes p.0, p.1.now))) }
{
    match text {
        ['"', within @ ..] => read_quoted(alloc, within),
        _ => {
            let found = read_bare(alloc, text)?;
            Ok(Some(found))
        }
    }
}

// One matcher with the spaces around its parts, and the rest.
fn read_one(alloc: Global, text: &[char]) -> Result<Option<(Matcher, &[char])>, AllocError>
    ensures { IfOk result (λ r. MatchOption r (one text.now ≡ None) (λ p. one text.now ≡ Some (p.0, p.1.now))) }
{
    let (name, rest) = read_name(alloc, skip_spaces(text))?;
    let Some((operator, rest)) = read_operator(skip_spaces(rest)) else {
        return Ok(None);
    };
    let Some((value, rest)) = read_value(alloc, skip_spaces(rest))? else {
        return Ok(None);
    };
    match Matcher::new(operator, Text::from_string(name), Text::from_string(value)) {
        Some(matcher) => Ok(Some((matcher, skip_spaces(rest)))),
        None => Ok(None),
    }
}

// What follows a comma at the front.
fn read_comma(text: &[char]) -> Option<&[char]>
    ensures { MatchOption result (after_comma text.now ≡ None) (λ rest. after_comma text.now ≡ Some (rest.now)) }
{
    match text {
        [',', rest @ ..] => Some(rest),
        _ => None,
    }
}

// Whether nothing is left but the closing brace, where one was opened.
fn is_at_end(text: &[char], braced: bool) -> bool
    ensures { result ≡ is_end braced text.now }
{
    match text {
        [] => !braced,
        ['}'] => braced,
        _ => false,
    }
}

// At most so many matchers, with commas between, up to the end.
fn read_several(
    alloc: Global,
    text: &[char],
    braced: bool,
    most: usize,
) -> Result<Option<Vec<Matcher>>, AllocError>
    ensures { IfOk result (λ r. MatchOption r (several braced most text.now ≡ None)
        (λ v. several braced most text.now ≡ Some v.items)) }
{
    let mut matchers = Vec::new(alloc);
    let mut rest = text;
    let mut left = most;
    'several: while left > 0 {
        left -= 1;
        let Some((matcher, behind)) = read_one(alloc, rest)? else {
            return Ok(None);
        };
        matchers.push(matcher)?;
        if is_at_end(behind, braced) {
            return Ok(Some(matchers));
        }
        let Some(more) = read_comma(behind) else {
            return Ok(None);
        };
        rest = more;
    }
    Ok(None)
}

fn characters_of(alloc: Global, text: &str) -> Result<Vec<char>, AllocError>
    ensures { IfOk result (λ v. v.items ≡ chars text.now) }
{
    text.chars().collect(alloc)
}

/// The matchers that a text gives, where it gives any.
pub(crate) fn parse(alloc: Global, text: &str) -> Result<Option<Vec<Matcher>>, AllocError>
    ensures { IfOk result (λ r. MatchOption r (matchers_of (chars text.now) ≡ None)
        (λ v. matchers_of (chars text.now) ≡ Some v.items)) }
{
    let characters = characters_of(alloc, text)?;
    let text = characters.as_slice();
    match text {
        ['{', within @ ..] => read_several(alloc, within, true, text.len()),
        _ => read_several(alloc, text, false, text.len()),
    }
}
