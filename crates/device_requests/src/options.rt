//! What the options of a request say (RFC 7252 sections 5.4 and 5.10).

ghost use Rattle.std.specs.Prelude.{◌≡◌, ◌==◌, ◌++◌, ◌∷◌, [], find, true, false, None, IfSome, IfNone};
ghost use Rattle.std.specs.Option.{option_copied};
ghost use Rattle.device_requests.specs.Options.{has_known_form, is_critical, repeats, has_unknown_critical};
ghost use Rattle.device_requests.specs.Options.{has_unrecognized_critical, short_number, accept_of, content_format_of};
ghost use Rattle.device_requests.specs.Options.{has_query, observe_number, observe_of, segments_of, path_of, path_from};
ghost use Rattle.device_requests.specs.Inside.{is_path_alone, is_segment, numbers_in};

use coap_codec::option_number::{
    ACCEPT, CONTENT_FORMAT, OBSERVE, URI_HOST, URI_PATH, URI_PORT, URI_QUERY,
};
use coap_codec::{Opt, uint};
use object_defs::{Path, decimal_number};

/// Whether the option is a recognized one whose value has a length that this one may have.
pub fn has_known_form(option: &Opt) -> bool
    ensures { result ≡ has_known_form option.now }
{
    let length = option.value.len();
    match option.number {
        URI_HOST => 1 <= length && length <= 255,
        OBSERVE => length <= 3,
        URI_PATH | URI_QUERY => length <= 255,
        URI_PORT | CONTENT_FORMAT | ACCEPT => length <= 2,
        _ => false,
    }
}

/// Whether the option must be understood: it has an odd number.
fn is_critical(option: &Opt) -> bool
    ensures { result ≡ is_critical option.now }
{
    option.number % 2 == 1
}

/// Whether the option of this number stands there twice or more.
fn repeats(number: u16, options: &[Opt]) -> bool
    ensures { result ≡ repeats number options.now }
{
    options.iter().filter(|o| o.number == number).count() > 1
}

/// Whether a critical option is unknown or of a wrong length.
fn has_unknown_critical(options: &[Opt]) -> bool
    ensures { result ≡ has_unknown_critical options.now }
{
    options.iter().any(|o| is_critical(o) && !has_known_form(o))
}

/// Whether a critical option is not recognized: one that is unknown, one of a wrong length, or a
/// second Uri-Host, Uri-Port or Accept.
pub fn has_unrecognized_critical(options: &[Opt]) -> bool
    ensures { result ≡ has_unrecognized_critical options.now }
{
    has_unknown_critical(options)
        || repeats(URI_HOST, options)
        || repeats(URI_PORT, options)
        || repeats(ACCEPT, options)
}

/// Whether the option is a Uri-Path of a length that it may have.
fn is_segment(option: &Opt) -> bool
    ensures { result ≡ is_segment option.now }
{
    option.number == URI_PATH && option.value.len() <= 255
}

/// Whether the options name a path and say nothing else.
fn is_path_alone(options: &[Opt]) -> bool
    ensures { result ≡ is_path_alone options.now }
{
    options.iter().all(|o| is_segment(o))
}

/// The number in an option of at most two bytes.
fn short_number(option: &Opt) -> Option<u16>
    ensures { result ≡ short_number option.now }
{
    match option.value.as_slice() {
        [] => Some(0),
        [low] => Some(u16::from(*low)),
        [high, low] => Some(256 * u16::from(*high) + u16::from(*low)),
        _ => None,
    }
}

/// The first option of this number.
fn first_of(number: u16, options: &[Opt]) -> Option<&Opt>
    ensures { option_copied result ≡ find (λ o. o.number == number) options.now }
{
    options.iter().find(|o| o.number == number)
}

/// The format that the first Accept names.
fn accept_of(options: &[Opt]) -> Option<u16>
    ensures { result ≡ accept_of options.now }
{
    short_number(first_of(ACCEPT, options)?)
}

/// The format that the first Content-Format names; one of a wrong length counts as none.
fn content_format_of(options: &[Opt]) -> Option<u16>
    ensures { result ≡ content_format_of options.now }
{
    short_number(first_of(CONTENT_FORMAT, options)?)
}

/// The number in an Observe, of at most three bytes.
fn observe_number(option: &Opt) -> Option<u32>
    ensures { result ≡ observe_number option.now }
{
    let value = option.value.as_slice();
    if value.len() <= 3 {
        return Some(uint(value));
    }
    None
}

/// The number of the first Observe; one of a wrong length counts as none.
pub fn observe_of(options: &[Opt]) -> Option<u32>
    ensures { result ≡ observe_of options.now }
{
    observe_number(first_of(OBSERVE, options)?)
}

/// Whether there is a Uri-Query.
fn has_query(options: &[Opt]) -> bool
    ensures { result ≡ has_query options.now }
{
    options.iter().any(|o| o.number == URI_QUERY)
}

/// A path with one number more, where it has three at most; no path is one of no number.
pub(crate) fn extended(path: Option<Path>, number: u16) -> Option<Path>
    ensures { result ≡ path_from (numbers_in path ++ number ∷ []) }
{
    match path {
        None => Some(Path::Object(number)),
        Some(Path::Object(object)) => Some(Path::Instance(object, number)),
        Some(Path::Instance(object, instance)) => Some(Path::Resource(object, instance, number)),
        Some(Path::Resource(object, instance, resource)) => {
            Some(Path::Part(object, instance, resource, number))
        }
        Some(Path::Part(_, _, _, _)) => None,
    }
}

/// The path that the Uri-Path options name, of one to four numbers.
pub fn path_of(options: &[Opt]) -> Option<Path>
    ensures { result ≡ path_of (segments_of options.now) }
{
    let mut path: Option<Path> = None;
    for option in options {
        if option.number == URI_PATH {
            path = Some(extended(path, decimal_number(option.value.as_slice())?)?);
        }
    }
    path
}

/// The options of a request beside its path.
#[derive(Drop)]
pub(crate) struct RequestOptions {
    /// The format that the first Accept names.
    pub accept: Option<u16>,
    /// Whether there is a Uri-Query.
    pub has_query: bool,
    /// The format that the first Content-Format names.
    pub content_format: Option<u16>,
    /// The number of the first Observe.
    pub observe: Option<u32>,
}

/// The options beside the path, or none if one that must be understood is not. Most requests have a path
/// alone, whose options are looked through once.
pub(crate) fn request_options(options: &[Opt]) -> Option<RequestOptions>
    ensures understood { IfSome result (λ s. has_unrecognized_critical options.now ≡ false) }
    ensures accept { IfSome result (λ s. s.accept ≡ accept_of options.now) }
    ensures query { IfSome result (λ s. s.has_query ≡ has_query options.now) }
    ensures content_format { IfSome result (λ s. s.content_format ≡ content_format_of options.now) }
    ensures observe { IfSome result (λ s. s.observe ≡ observe_of options.now) }
    ensures rejected { IfNone result (has_unrecognized_critical options.now ≡ true) }
{
    if is_path_alone(options) {
        return Some(RequestOptions {
            accept: None,
            has_query: false,
            content_format: None,
            observe: None,
        });
    }
    if has_unrecognized_critical(options) {
        return None;
    }
    Some(RequestOptions {
        accept: accept_of(options),
        has_query: has_query(options),
        content_format: content_format_of(options),
        observe: observe_of(options),
    })
}
