//! The options of a mnemonic's message (RFC 7252 section 5.10, RFC 7641 section 2).

ghost use Rattle.std.specs.Prelude.{◌≡◌, ◌<◌, ◌∷◌, ◌++◌, [], IfOk, OnOk};
ghost use Rattle.std.specs.Fmt.{decimal};
ghost use Rattle.coap_codec.specs.OptionNumber.{observe_option, uri_path_option, content_format_option};
ghost use Rattle.coap_codec.specs.OptionNumber.{uri_query_option};
ghost use Rattle.coap_codec.specs.OptionNumber.{accept_option};
ghost use Rattle.coap_codec.specs.Number.{shortest_big_endian};
ghost use Rattle.scenario_words.specs.PathWord.{IsPath};
ghost use Rattle.scenario_mnemonics.specs.Messages.{fields_of, options_with, format_values, segments, options_of};

use crate::action::Action;
use crate::format::Format;
use coap_codec::option_number::{ACCEPT, CONTENT_FORMAT, OBSERVE, URI_PATH, URI_QUERY};
use coap_codec::{Opt, Options, uint_bytes};
use itoa::Buffer;
use object_defs::Path;
use octets::Bytes;
use std::alloc::{AllocError, Global};

/// Adds an option whose value is a number in the fewest bytes.
fn put_number(
    alloc: Global,
    options: &mut Options,
    option: u16,
    number: u32,
) -> Result<(), AllocError>
    ensures { OnOk result (options.new ≡ options.old ++ options_with option (shortest_big_endian number ∷ [])) }
{
    let value = uint_bytes(alloc, number)?;
    options.push(Opt {
        number: option,
        value,
    })
}

/// Adds a segment of the path.
fn put_segment(alloc: Global, options: &mut Options, number: u16) -> Result<(), AllocError>
    ensures put { OnOk result (options.new ≡ options.old ++ options_with uri_path_option (decimal number ∷ [])) }
    ensures small { number < 65536 }
{
    let mut digits = Buffer::new();
    let value = Bytes::from_slice(alloc, digits.format(number).as_bytes())?;
    options.push(Opt {
        number: URI_PATH,
        value,
    })
}

/// Adds the format that a Read accepts, or that a payload has.
fn put_format(
    alloc: Global,
    options: &mut Options,
    option: u16,
    format: Format,
) -> Result<(), AllocError>
    ensures { OnOk result (options.new ≡ options.old ++ options_with option (format_values format)) }
{
    match format {
        Format::Any => Ok(()),
        Format::Text => put_number(alloc, options, option, 0),
        Format::Opaque => put_number(alloc, options, option, 42),
        Format::Tlv => put_number(alloc, options, option, 11542),
    }
}

fn put_observe(alloc: Global, options: &mut Options, action: &Action) -> Result<(), AllocError>
    ensures { OnOk result (options.new ≡ options.old ++ options_with observe_option (fields_of action.now).observe) }
{
    match action {
        Action::Observe(_) => put_number(alloc, options, OBSERVE, 0),
        Action::Cancel(_) => put_number(alloc, options, OBSERVE, 1),
        _ => Ok(()),
    }
}

fn put_path(alloc: Global, options: &mut Options, path: Path) -> Result<(), AllocError>
    ensures put { OnOk result (options.new ≡ options.old ++ options_with uri_path_option (segments path)) }
    ensures path { OnOk result (IsPath path) }
{
    match path {
        Path::Object(object) => put_segment(alloc, options, object),
        Path::Instance(object, instance) => {
            put_segment(alloc, options, object)?;
            put_segment(alloc, options, instance)
        }
        Path::Resource(object, instance, resource) => {
            put_segment(alloc, options, object)?;
            put_segment(alloc, options, instance)?;
            put_segment(alloc, options, resource)
        }
        Path::Part(object, instance, resource, part) => {
            put_segment(alloc, options, object)?;
            put_segment(alloc, options, instance)?;
            put_segment(alloc, options, resource)?;
            put_segment(alloc, options, part)
        }
    }
}

fn put_content(alloc: Global, options: &mut Options, action: &Action) -> Result<(), AllocError>
    ensures { OnOk result (options.new ≡ options.old
        ++ options_with content_format_option (fields_of action.now).content) }
{
    match action {
        Action::Write(format, _) | Action::Update(format, _) | Action::Create(format, _) => {
            put_format(alloc, options, CONTENT_FORMAT, *format)
        }
        _ => Ok(()),
    }
}

fn put_query(options: &mut Options, query: &Bytes) -> Result<(), AllocError>
    ensures { OnOk result (options.new ≡ options.old ++ options_with uri_query_option (query.now ∷ [])) }
{
    let value = query.clone()?;
    options.push(Opt {
        number: URI_QUERY,
        value,
    })
}

fn put_each(options: &mut Options, queries: &[Bytes]) -> Result<(), AllocError>
    ensures { OnOk result (options.new ≡ options.old ++ options_with uri_query_option queries.now) }
{
    for query in queries {
        put_query(options, query)?;
    }
    Ok(())
}

fn put_queries(options: &mut Options, action: &Action) -> Result<(), AllocError>
    ensures { OnOk result (options.new ≡ options.old ++ options_with uri_query_option (fields_of action.now).queries) }
{
    match action {
        Action::Attr(queries) => put_each(options, queries.as_slice()),
        _ => Ok(()),
    }
}

fn put_accept(alloc: Global, options: &mut Options, action: &Action) -> Result<(), AllocError>
    ensures { OnOk result (options.new ≡ options.old ++ options_with accept_option (fields_of action.now).accept) }
{
    match action {
        Action::Read(format) | Action::Observe(format) | Action::Cancel(format) => {
            put_format(alloc, options, ACCEPT, *format)
        }
        Action::Discover => put_number(alloc, options, ACCEPT, 40),
        _ => Ok(()),
    }
}

/// The options of a request, in the order of their numbers.
pub(crate) fn options_of(alloc: Global, path: Path, action: &Action) -> Result<Options, AllocError>
    ensures options { IfOk result (λ o. o ≡ options_of path action.now) }
    ensures path { IfOk result (λ o. IsPath path) }
{
    let mut options = Options::new(alloc);
    put_observe(alloc, &mut options, action)?;
    put_path(alloc, &mut options, path)?;
    put_content(alloc, &mut options, action)?;
    put_queries(&mut options, action)?;
    put_accept(alloc, &mut options, action)?;
    Ok(options)
}
