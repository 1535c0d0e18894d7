//! The paths of requests, segment by segment.
ghost use Rattle.std.specs.Prelude.{◌≡◌, ◌==◌, ◌≤◌, length};
ghost use Rattle.std.specs.Cmp.Lexicographic.{pointwise};
ghost use Rattle.device_requests.specs.Options.{segments_of};
ghost use Rattle.server_lint.specs.History.{message_of};
ghost use Rattle.server_lint.specs.Inside.{begins_with_segment};
ghost use Rattle.server_lint.specs.Observing.{has_path_of, shares_path};

use crate::transmission::Transmission;
use coap_codec::Opt;
use coap_codec::option_number::URI_PATH;

/// The options from the first Uri-Path on.
fn from_path(options: &[Opt]) -> &[Opt]
    ensures segments { segments_of result.now ≡ segments_of options.now }
    ensures first { begins_with_segment result.now }
    ensures shorter { length result.now ≤ length options.now }
{
    let mut rest = options;
    while let [option, others @ ..] = rest {
        if option.number == URI_PATH {
            return rest;
        }
        rest = others;
    }
    rest
}

/// Whether the segments of two paths are the same.
fn has_same_segments(a: &[Opt], b: &[Opt]) -> bool
    ensures { result ≡ pointwise (pointwise ◌==◌) (segments_of a.now) (segments_of b.now) }
{
    let mut ours = from_path(a);
    let mut theirs = from_path(b);
    while let [x, more @ ..] = ours {
        let [y, others @ ..] = theirs else {
            return false;
        };
        if x.value != y.value {
            return false;
        }
        ours = from_path(more);
        theirs = from_path(others);
    }
    theirs.is_empty()
}

/// Whether it has the path of a request.
pub(crate) fn shares_path(request: &Transmission, t: &Transmission) -> bool
    ensures { result ≡ shares_path request.now t.now }
{
    let Some(asked) = request.message() else {
        return false;
    };
    let Some(message) = t.message() else {
        return false;
    };
    has_same_segments(asked.options().as_slice(), message.options().as_slice())
}
