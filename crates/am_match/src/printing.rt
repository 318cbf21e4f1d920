ghost use Rattle.std.specs.Prelude.{◌≡◌, ◌≢◌, All, ◌++◌, ◌∷◌, [], Some, IfOk, OnOk, chars, string_bytes, encode_utf8_all};
ghost use Rattle.std.specs.List.{flat_map};
ghost use Rattle.am_match.specs.Matchers.{IsMatcher};
ghost use Rattle.am_match.specs.Printing.{operator_text, escaped, printed_value, printed_one, printed};
ghost use Rattle.am_match.specs.Reading.{matchers_of};

use crate::matcher::{Matcher, Operator};
use am_text::Text;
use std::alloc::{AllocError, Global};

fn symbol_of(operator: Operator) -> &'static str
    ensures { result.now ≡ operator_text operator }
{
    match operator {
        Operator::Equal => "=",
        Operator::NotEqual => "!=",
        Operator::Match => "=~",
        Operator::NotMatch => "!~",
    }
}

fn push_escaped(text: &mut String, c: char) -> Result<(), AllocError>
    ensures { OnOk result (string_bytes text.new ≡ string_bytes text.old ++ encode_utf8_all (escaped c)) }
{
    match c {
        '"' => text.push_str("\\\"")?,
        '\\' => text.push_str("\\\\")?,
        '\n' => text.push_str("\\n")?,
        _ => text.push(c)?,
    }
    Ok(())
}

fn push_characters(text: &mut String, value: &str) -> Result<(), AllocError>
    ensures { OnOk result (string_bytes text.new ≡ string_bytes text.old ++ encode_utf8_all (flat_map escaped (chars value.now))) }
{
    for c in value.chars() {
        push_escaped(text, c)?;
    }
    Ok(())
}

fn push_value(text: &mut String, value: &str) -> Result<(), AllocError>
    ensures { OnOk result (string_bytes text.new ≡ string_bytes text.old ++ encode_utf8_all (printed_value value.now)) }
{
    text.push('"')?;
    push_characters(text, value)?;
    text.push('"')?;
    Ok(())
}

fn push_matcher(text: &mut String, matcher: &Matcher) -> Result<(), AllocError>
    ensures text { OnOk result (string_bytes text.new ≡ string_bytes text.old ++ encode_utf8_all (printed_one matcher.now)) }
    ensures matcher { OnOk result (IsMatcher matcher.now) }
{
    text.push_str(matcher.name())?;
    text.push_str(symbol_of(matcher.operator()))?;
    push_value(text, matcher.value())?;
    Ok(())
}

fn push_others(text: &mut String, matchers: &[Matcher]) -> Result<(), AllocError>
    ensures text { OnOk result (string_bytes text.new ≡ string_bytes text.old
        ++ encode_utf8_all (flat_map (λ m. 44 ∷ printed_one m) matchers.now)) }
    ensures matchers { OnOk result (All IsMatcher matchers.now) }
{
    for matcher in matchers {
        text.push(',')?;
        push_matcher(text, matcher)?;
    }
    Ok(())
}

/// The text of the matchers, with commas between and each value in quotation marks. Where there is a matcher, it reads
/// as these matchers.
pub fn print_matchers(alloc: Global, matchers: &[Matcher]) -> Result<Text, AllocError>
    ensures text { IfOk result (λ t. t ≡ encode_utf8_all (printed matchers.now)) }
    ensures reads_back { IfOk result (λ t. matchers.now ≢ [] → matchers_of (chars t) ≡ Some matchers.now) }
{
    let mut text = String::new(alloc);
    let [first, others @ ..] = matchers else {
        return Ok(Text::from_string(text));
    };
    push_matcher(&mut text, first)?;
    push_others(&mut text, others)?;
    Ok(Text::from_string(text))
}
