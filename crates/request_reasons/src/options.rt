//! Rule 3: the option that must be understood and is not.

ghost use Rattle.std.specs.Prelude.{◌≡◌, true};
ghost use Rattle.device_requests.specs.Options.{has_unrecognized_critical};
ghost use Rattle.request_reasons.specs.Options.{IsFaultOf, IsUnrecognized, is_known};

use coap_codec::Opt;
use coap_codec::option_number::{
    ACCEPT, CONTENT_FORMAT, OBSERVE, URI_HOST, URI_PATH, URI_PORT, URI_QUERY,
};
use device_requests::{has_known_form, has_unrecognized_critical};

/// Why an option that must be understood is not recognized.
#[derive(Clone, Copy)]
pub enum OptionFault {
    /// No option of its number is.
    Unknown,
    /// Its value has a length that this option may not have.
    Length {
        /// How many bytes it has.
        length: usize,
    },
    /// It is a second one, where there may be one.
    Repeated,
}

/// Whether an option of this number is recognized where its length is right.
fn is_known(number: u16) -> bool
    ensures { result ≡ is_known number }
{
    match number {
        URI_HOST | OBSERVE | URI_PORT | URI_PATH | CONTENT_FORMAT | URI_QUERY | ACCEPT => true,
        _ => false,
    }
}

/// Why an option is not recognized that must be understood.
fn fault_of(option: &Opt) -> OptionFault
    ensures { IsFaultOf option.now result }
{
    if !is_known(option.number) {
        return OptionFault::Unknown;
    }
    if has_known_form(option) {
        return OptionFault::Repeated;
    }
    OptionFault::Length {
        length: option.value.len(),
    }
}

/// The number of the first option that must be understood and is not, and why.
pub(crate) fn unrecognized(options: &[Opt]) -> (u16, OptionFault)
    requires { has_unrecognized_critical options.now ≡ true }
    ensures { IsUnrecognized options.now result.0 result.1 }
{
    for (i, option) in options.iter().enumerate() {
        if has_unrecognized_critical(&options[..i + 1]) {
            return (option.number, fault_of(option));
        }
    }
    unreachable!()
}
