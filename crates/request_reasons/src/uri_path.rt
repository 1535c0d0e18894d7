//! The path that the Uri-Path options of a request name.

ghost use Rattle.std.specs.Prelude.{◌≡◌, ◌==◌, count_by, filter, find, position, IfOk};
ghost use Rattle.std.specs.Option.{option_copied};
ghost use Rattle.device_requests.specs.Options.{segments_of};
ghost use Rattle.request_reasons.specs.Segments.{IsNoPath, is_no_number};

use coap_codec::Opt;
use coap_codec::option_number::URI_PATH;
use object_defs::decimal_number;
use octets::Bytes;
use std::alloc::AllocError;

/// Why a Uri-Path is not a path of one to four numbers.
#[derive(Drop)]
pub enum PathFault {
    /// A segment is not a number from 0 to 65535 in decimal, with no leading zero.
    Segment {
        /// The place of the first such segment, counted from 1.
        place: usize,
        /// Its bytes.
        bytes: Bytes,
    },
    /// There is no segment, or there are more than four.
    Count {
        /// How many there are.
        count: usize,
    },
}

/// Whether an option has no number from 0 to 65535 in decimal.
fn is_no_number(option: &Opt) -> bool
    ensures { result ≡ is_no_number option.now.value }
{
    decimal_number(option.value.as_slice()).is_none()
}

/// How many segments there are.
fn segment_count(options: &[Opt]) -> usize
    ensures { result ≡ count_by (λ o. o.number == 11) options.now }
{
    options.iter().filter(|o| o.number == URI_PATH).count()
}

/// The place of the first segment that is not a number, counted from 0.
fn bad_place(options: &[Opt]) -> Option<usize>
    ensures { result ≡ position (λ o. is_no_number o.value) (filter (λ o. o.number == 11) options.now) }
{
    let mut segments = options.iter().filter(|o| o.number == URI_PATH);
    segments.position(|o| is_no_number(o))
}

/// The first segment that is not a number.
fn bad_segment(options: &[Opt]) -> Option<&Opt>
    ensures { option_copied result ≡ find (λ o. is_no_number o.value) (filter (λ o. o.number == 11) options.now) }
{
    let mut segments = options.iter().filter(|o| o.number == URI_PATH);
    segments.find(|o| is_no_number(o))
}

/// Why the Uri-Path options are not a path.
pub(crate) fn path_fault(options: &[Opt]) -> Result<PathFault, AllocError>
    ensures { IfOk result (λ fault. IsNoPath (segments_of options.now) fault) }
{
    let count = segment_count(options);
    let Some(option) = bad_segment(options) else {
        return Ok(PathFault::Count { count });
    };
    match bad_place(options) {
        Some(place) => Ok(PathFault::Segment {
            place: place + 1,
            bytes: option.value.clone()?,
        }),
        None => unreachable!(),
    }
}
