ghost use Rattle.std.specs.Prelude.{◌≡◌, ◌==◌, nat_le, is_some, IfSome, IsTrue};
ghost use Rattle.std.specs.List.{list_any};
ghost use Rattle.object_defs.specs.Path.{full_path};
ghost use Rattle.scenario_image.specs.Scenario.{is_in_range, is_within_limits, accounts_of, is_known, HasFields};
ghost use Rattle.scenario_image.specs.Scenario.{HasShortNumbers};

use device_machine::{Event, Template};
use object_defs::Path;

/// A step of a device in a scenario.
#[derive(Clone, Drop)]
pub enum Step {
    /// The device takes an event.
    Event(Event),
    /// The device posts to a board's group. Its state stays, and it outputs nothing.
    Post(u8),
    /// The device waits until there are n posts to a group, 1 to 1,000,000. Its state stays, and it outputs
    /// nothing.
    Need(u8, u32),
}

/// Whether the step's numbers are in range: seconds 1 to 86,400, posts 1 to 1,000,000, a code of the firmware 0 to 9,
/// a path of three or four numbers.
pub(crate) fn is_in_range(step: &Step) -> bool
    ensures { result ≡ is_in_range step.now }
{
    match step {
        Step::Event(Event::Recv { .. }) | Step::Post(_) => true,
        Step::Event(Event::Put { path, .. }) => path.full().is_some(),
        Step::Event(Event::Firmware(code)) => *code <= 9,
        Step::Event(Event::Tick(seconds)) => 1 <= *seconds && *seconds <= 86_400,
        Step::Need(_, count) => 1 <= *count && *count <= 1_000_000,
    }
}

/// Reads the numbers of a path, which are then known to be of two bytes.
fn read_numbers(path: Path)
    ensures { IfSome (full_path path) HasShortNumbers }
{
    match path {
        Path::Object(_) | Path::Instance(_, _) => {}
        Path::Resource(_object, _instance, _resource) => {}
        Path::Part(_object, _instance, _resource, _part) => {}
    }
}

/// Whether a datagram has at most 1,500 bytes, and a value that is put is within its limits. All else that a step holds
/// is of its fields' types.
pub(crate) fn is_within_limits(step: &Step) -> bool
    ensures within { result ≡ is_within_limits step.now }
    ensures fields { IsTrue result → HasFields step.now }
{
    match step {
        Step::Event(Event::Recv { server, bytes }) => {
            // For the proof alone: what the code reads is known to be in its type's range.
            let _known = *server;
            let bytes = bytes.as_slice();
            bytes.len() <= 1500
        }
        Step::Event(Event::Put { path, value }) => {
            read_numbers(*path);
            value.is_good()
        }
        Step::Event(Event::Firmware(_) | Event::Tick(_)) => true,
        Step::Post(group) | Step::Need(group, _) => {
            // For the proof alone: what the code reads is known to be in its type's range.
            let _known = *group;
            true
        }
    }
}

/// Whether the server is one of the accounts.
pub fn is_account(accounts: &[u16], server: u16) -> bool
    ensures { result ≡ list_any (λ account. account == server) accounts.now }
{
    accounts.iter().any(|account| *account == server)
}

/// Whether the server is an account of the class.
fn has_account(classes: &[Template], class: u16, server: u16) -> bool
    ensures { result ≡ list_any (λ account. account == server) (accounts_of classes.now class) }
{
    match classes.get(usize::from(class)) {
        None => false,
        Some(class) => is_account(class.accounts(), server),
    }
}

/// Whether a datagram's server is an account of the class.
pub(crate) fn is_known(classes: &[Template], class: u16, step: &Step) -> bool
    ensures { result ≡ is_known (accounts_of classes.now class) step.now }
{
    match step {
        Step::Event(Event::Recv { server, .. }) => has_account(classes, class, *server),
        Step::Event(Event::Put { .. } | Event::Firmware(_) | Event::Tick(_))
        | Step::Post(_)
        | Step::Need(_, _) => true,
    }
}
