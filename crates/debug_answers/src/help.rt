//! What a person gets who asks for help.
ghost use Rattle.std.specs.Prelude.{◌≡◌, false, true, IfOk};
ghost use Rattle.std.specs.String.{string_bytes};
ghost use Rattle.debug_answers.specs.Help.{help_text};

use std::alloc::{AllocError, Global};

const HELP: &str = "at              the place: how many entries are before it
forward N       N entries forward
back N          N entries back
break POINT     a breakpoint: at N, step D K, changed D PATH, code D C or notified D
clear ID        removes a breakpoint
resume          to the next place at which a breakpoint holds, or to the end
value D PATH    the value of device D at a path
obs D           the observations of device D
out D           the latest outputs of device D
quit            the end
";

const HELP_WITH_WHY: &str = "at              the place: how many entries are before it
forward N       N entries forward
back N          N entries back
break POINT     a breakpoint: at N, step D K, changed D PATH, code D C or notified D
clear ID        removes a breakpoint
resume          to the next place at which a breakpoint holds, or to the end
value D PATH    the value of device D at a path
obs D           the observations of device D
out D           the latest outputs of device D
why D           why device D handled the datagram of its latest step so
quit            the end
";

/// The commands without `why`, a line for each.
fn show_plain_help(alloc: Global) -> Result<String, AllocError>
    ensures { IfOk result (λ text. string_bytes text ≡ help_text false) }
{
    String::from_str(alloc, HELP)
}

/// The commands with `why`, a line for each.
fn show_help_with_why(alloc: Global) -> Result<String, AllocError>
    ensures { IfOk result (λ text. string_bytes text ≡ help_text true) }
{
    String::from_str(alloc, HELP_WITH_WHY)
}

/// The commands of a debugger, which is asked for reasons or not, a line for each.
pub fn show_help(alloc: Global, reasons: bool) -> Result<String, AllocError>
    ensures { IfOk result (λ text. string_bytes text ≡ help_text reasons) }
{
    if reasons {
        show_help_with_why(alloc)
    } else {
        show_plain_help(alloc)
    }
}
