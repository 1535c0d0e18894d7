//! Words that name devices of a scenario.
ghost use Rattle.std.specs.Prelude.{ℕ, ◌≤◌, IfNone, IfSome};
ghost use Rattle.command_files.specs.Devices.{IsDeviceRange, IsShortNumber};
ghost use Rattle.command_files.specs.declared.devices.Devices.{Devices as DevicesData};

/// Devices of a scenario, by the numbers of their rows.
#[derive(Clone, Copy)]
pub struct Devices {
    pub first: u16,
    /// The last one of them.
    pub last: u16,
}

/// The number of 16 bits that a word is.
pub fn read_number(word: &str) -> Option<u16>
    ensures number { IfSome result (IsShortNumber word.now) }
    ensures none { IfNone result ((n : ℕ) → IsShortNumber word.now n → ⊥) }
{
    word.parse::<u16>().ok()
}

/// The devices from one number to another.
fn devices_of(first: &str, last: &str) -> Option<Devices>
    ensures first { IfSome result (λ devices. IsShortNumber first.now devices.first) }
    ensures last { IfSome result (λ devices. IsShortNumber last.now devices.last) }
    ensures some { IfSome result (λ devices. devices.first ≤ devices.last) }
    ensures none { IfNone result ((devices : DevicesData) → IsShortNumber first.now devices.first
        → IsShortNumber last.now devices.last → devices.first ≤ devices.last → ⊥) }
{
    let first = read_number(first)?;
    let last = read_number(last)?;
    if first > last {
        return None;
    }
    Some(Devices { first, last })
}

/// The devices of `A-B`.
pub fn read_devices(text: &str) -> Option<Devices>
    ensures range { IfSome result (IsDeviceRange text.now) }
    ensures none { IfNone result ((devices : DevicesData) → IsDeviceRange text.now devices → ⊥) }
{
    let (first, last) = text.split_once('-')?;
    devices_of(first, last)
}
