//! Text that stands within other text.
ghost use Rattle.std.specs.Prelude.{◌≡◌, ◌++◌, option_map, OnOk};
ghost use Rattle.std.specs.String.{string_bytes};
ghost use Rattle.message_words.specs.Names.{name_in};
ghost use Rattle.test_reports.specs.Escaping.{attribute_char, char_text, element_char, escaped_char, escaped_text};
ghost use Rattle.test_reports.specs.Escaping.{in_quotes, is_control, quoted_char, references, title_char};

use scenario_words::hex_word;
use std::alloc::{AllocError, Global};

/// Where a text stands, and so which of its characters are written otherwise.
#[derive(Clone, Copy)]
pub enum Escape {
    /// In the description of a test point of TAP.
    Title,
    /// In double quotes in YAML.
    Quoted,
    /// In the value of an attribute in XML.
    Attribute,
    /// In an element in XML.
    Element,
}

/// Writes a character as it is, but for U+FFFE and U+FFFF, which are none.
fn put_char(out: &mut String, c: char) -> Result<(), AllocError>
    ensures { OnOk result (string_bytes out.new ≡ string_bytes out.old ++ char_text c) }
{
    if c == '\u{FFFE}' || c == '\u{FFFF}' {
        return out.push('\u{FFFD}');
    }
    out.push(c)
}

fn put_title_char(out: &mut String, c: char) -> Result<(), AllocError>
    ensures { OnOk result (string_bytes out.new ≡ string_bytes out.old ++ title_char c) }
{
    if c == '#' || c == '\\' {
        out.push('\\')?;
        return out.push(c);
    }
    out.push(c)
}

fn is_control(c: char) -> bool
    ensures { result ≡ is_control c }
{
    c < ' ' || ('\u{7F}' <= c && c <= '\u{9F}')
}

fn put_quoted_char(alloc: Global, out: &mut String, c: char) -> Result<(), AllocError>
    ensures { OnOk result (string_bytes out.new ≡ string_bytes out.old ++ quoted_char c) }
{
    if c == '"' || c == '\\' {
        out.push('\\')?;
        return out.push(c);
    }
    if is_control(c) {
        let digits = hex_word(alloc, &[c as u8])?;
        out.push_str("\\x")?;
        return out.push_str(digits.as_str());
    }
    put_char(out, c)
}

/// What stands for a character in XML that would mean something, or would be read as a space.
fn reference(c: char) -> Option<&'static str>
    ensures { option_map (λ r. r.now) result ≡ name_in references c }
{
    match c {
        '&' => Some("&amp;"),
        '<' => Some("&lt;"),
        '>' => Some("&gt;"),
        '"' => Some("&quot;"),
        '\t' => Some("&#9;"),
        '\n' => Some("&#10;"),
        '\r' => Some("&#13;"),
        _ => None,
    }
}

fn put_attribute_char(out: &mut String, c: char) -> Result<(), AllocError>
    ensures { OnOk result (string_bytes out.new ≡ string_bytes out.old ++ attribute_char c) }
{
    if let Some(reference) = reference(c) {
        return out.push_str(reference);
    }
    if c < ' ' {
        return out.push('\u{FFFD}');
    }
    put_char(out, c)
}

fn put_element_char(out: &mut String, c: char) -> Result<(), AllocError>
    ensures { OnOk result (string_bytes out.new ≡ string_bytes out.old ++ element_char c) }
{
    if c == '\n' {
        return out.push('\n');
    }
    put_attribute_char(out, c)
}

fn put_escaped_char(
    alloc: Global,
    out: &mut String,
    escape: Escape,
    c: char,
) -> Result<(), AllocError>
    ensures { OnOk result (string_bytes out.new ≡ string_bytes out.old ++ escaped_char escape c) }
{
    match escape {
        Escape::Title => put_title_char(out, c),
        Escape::Quoted => put_quoted_char(alloc, out, c),
        Escape::Attribute => put_attribute_char(out, c),
        Escape::Element => put_element_char(out, c),
    }
}

/// Writes a text as it is written there.
#[tactic(auto, unfolding(crate::specs::Escaping::escaped_text))]
pub fn put_escaped(
    alloc: Global,
    out: &mut String,
    escape: Escape,
    text: &str,
) -> Result<(), AllocError>
    ensures { OnOk result (string_bytes out.new ≡ string_bytes out.old ++ escaped_text escape text.now) }
{
    for symbol in text.chars() {
        put_escaped_char(alloc, out, escape, symbol)?;
    }
    Ok(())
}

/// Writes a text in double quotes.
#[tactic(auto, unfolding(crate::specs::Escaping::in_quotes))]
pub fn put_in_quotes(alloc: Global, out: &mut String, text: &str) -> Result<(), AllocError>
    ensures { OnOk result (string_bytes out.new ≡ string_bytes out.old ++ in_quotes text.now) }
{
    out.push('"')?;
    put_escaped(alloc, out, Escape::Quoted, text)?;
    out.push('"')
}
