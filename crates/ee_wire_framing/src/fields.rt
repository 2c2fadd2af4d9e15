//! What the fields of a head say about the body and the connection.
ghost use Rattle.std.specs.Prelude.{◌≡◌, ◌+◌, length, map, All, if◌then◌else◌, true, nat_le, ◌≤◌, ◌*◌};
ghost use Rattle.std.specs.Char.{is_ascii_digit, digit_value};
ghost use Rattle.httparse.specs.Spans.{IsHeaderWithin, header_bytes};
ghost use Rattle.ee_wire_framing.specs.Framing.{most_body, same_word, values_of, checked_length, body_length, has_close};
ghost use Rattle.ee_wire_framing.specs.Inner.Heads.{AreValues, next};

use crate::{BODY_LIMIT, FramingFault, HEADER_LIMIT};
use httparse::spans::{HeaderSpan, Span};

/// The values of the fields with one name.
#[derive(Clone, Copy)]
pub enum Values {
    None,
    One(Span),
    Many,
}

fn same_word(a: &[u8], b: &[u8]) -> bool
    ensures { result ≡ same_word a.now b.now }
{
    a.eq_ignore_ascii_case(b)
}

fn next_if(is_named: bool, values: Values, value: Span) -> Values
    ensures { result ≡ (if is_named then next values value else values) }
{
    match values {
        _ if !is_named => values,
        Values::None => Values::One(value),
        _ => Values::Many,
    }
}

fn values_of(lines: &[u8], fields: &[HeaderSpan], name: &[u8]) -> Values
    requires { All (IsHeaderWithin (length lines.now)) fields.now }
    ensures { AreValues lines.now (values_of name.now (map (header_bytes lines.now) fields.now)) result }
{
    let mut values = Values::None;
    for field in fields {
        let is_named = same_word(field.name.of(lines), name);
        values = next_if(is_named, values, field.value);
    }
    values
}

/// The number with one more digit, up to the limit.
fn with_digit(value: usize, byte: u8) -> usize
    requires digit { is_ascii_digit byte ≡ true }
    requires small { value ≤ 10485769 }
    ensures { result ≡ (if nat_le value most_body then value * 10 + digit_value byte else value) }
{
    if value <= BODY_LIMIT {
        value * 10 + (byte - b'0') as usize
    } else {
        value
    }
}

fn checked_length(text: &[u8]) -> Result<usize, FramingFault>
    ensures { result ≡ checked_length text.now }
{
    let mut value = 0;
    for byte in text {
        if !byte.is_ascii_digit() {
            return Err(FramingFault::BadLength);
        }
        value = with_digit(value, *byte);
    }
    if text.is_empty() {
        Err(FramingFault::BadLength)
    } else if value > BODY_LIMIT {
        Err(FramingFault::BodyTooLong)
    } else {
        Ok(value)
    }
}

/// The length of the body.
pub fn body_length(lines: &[u8], fields: &[HeaderSpan]) -> Result<usize, FramingFault>
    requires { All (IsHeaderWithin (length lines.now)) fields.now }
    ensures { result ≡ body_length (map (header_bytes lines.now) fields.now) }
{
    if fields.len() > HEADER_LIMIT {
        return Err(FramingFault::BadHead);
    }
    let codings = values_of(lines, fields, b"transfer-encoding");
    let Values::None = codings else {
        return Err(FramingFault::BadLength);
    };
    match values_of(lines, fields, b"content-length") {
        Values::None => Ok(0),
        Values::One(text) => checked_length(text.of(lines)),
        Values::Many => Err(FramingFault::BadLength),
    }
}

/// Whether a field asks to close.
pub fn has_close(lines: &[u8], fields: &[HeaderSpan]) -> bool
    requires { All (IsHeaderWithin (length lines.now)) fields.now }
    ensures { result ≡ has_close (map (header_bytes lines.now) fields.now) }
{
    for field in fields {
        if same_word(field.name.of(lines), b"connection")
            && same_word(field.value.of(lines), b"close")
        {
            return true;
        }
    }
    false
}
