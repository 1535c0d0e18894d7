//! What a device's next step asks for, and the one test of whether it may be made.

ghost use Rattle.std.specs.Prelude.{◌≡◌, slice_index};
ghost use Rattle.std.specs.Option.{option_copied};
ghost use Rattle.fleet_core.specs.Next.{next_of, may_pass};

use scenario_image::Step;

/// What a device's next step asks for.
#[derive(Clone, Copy)]
pub enum Next {
    /// The device has no next step.
    End,
    /// An event or a post, which may be made at any time.
    Free,
    /// A need: this many posts to the group.
    Waits(u8, u32),
}

/// What the step asks for.
pub fn next_of(step: Option<&Step>) -> Next
    ensures { result ≡ next_of (option_copied step.entry) }
{
    match step {
        None => Next::End,
        Some(Step::Event(_) | Step::Post(_)) => Next::Free,
        Some(Step::Need(group, count)) => Next::Waits(*group, *count),
    }
}

/// The posts to a group: none where the table has no place for it.
fn posts_in(posts: &[u32], group: u8) -> u32
    ensures { result ≡ slice_index posts.now group }
{
    match posts.get(usize::from(group)) {
        Some(count) => *count,
        None => 0,
    }
}

/// Whether the step may be made where each group has as many posts as the table says: none where it has no place for
/// the group.
pub fn may_pass(next: Next, posts: &[u32]) -> bool
    ensures { result ≡ may_pass (λ g. slice_index posts.now g) next }
{
    match next {
        Next::End => false,
        Next::Free => true,
        Next::Waits(group, count) => count <= posts_in(posts, group),
    }
}
