//! What happens to the datagrams of a fleet: a schedule, which is a function of the seed, the device, the direction and
//! the number of the datagram, and of nothing else.
ghost use Rattle.std.specs.Prelude.{◌≡◌};
ghost use Rattle.std.specs.List.{list_any};
ghost use Rattle.fleet_wire.specs.Schedule.{chooses, drawn_word, fate_of, goes_at_once, is_drawn, is_in, lost_by};
ghost use Rattle.fleet_wire.specs.Schedule.{stream_of};

use crate::choice::{Choice, Span};
use rand_core::utils::NextWord;
use rand_pcg::Pcg32;

/// Which way a datagram goes.
#[derive(Clone, Copy)]
pub enum Direction {
    /// To a device.
    In,
    /// From a device.
    Out,
}

/// What happens to a datagram on the wire.
#[derive(Clone, Copy)]
pub enum Fate {
    /// It never goes on.
    Lost,
    /// It goes on at once, and then once more.
    Twice,
    /// It goes on right after the next one that goes on at once, or late.
    Swapped,
    /// It goes on once the seconds of the plan have passed.
    Late,
    /// It goes on at once.
    Passes,
}

impl Fate {
    /// Whether it goes on as it comes.
    pub(crate) fn goes_at_once(self) -> bool
        ensures { result ≡ goes_at_once self }
    {
        match self {
            Fate::Lost | Fate::Swapped | Fate::Late => false,
            Fate::Twice | Fate::Passes => true,
        }
    }
}

/// What a word is drawn for.
#[derive(Clone, Copy)]
pub(crate) enum Kind {
    Lose,
    Twice,
    Swap,
    Late,
}

/// What a wire does.
#[derive(Drop)]
pub struct Plan {
    /// What all words that are drawn begin from.
    pub seed: u64,
    /// Those that are lost on their way to a device.
    pub lose_in: Choice,
    /// Those that are lost on their way from a device.
    pub lose_out: Choice,
    pub twice: Choice,
    pub swap: Choice,
    pub late: Choice,
    /// For how many seconds a datagram is held that is late or waits for the next one.
    pub late_by: u32,
}

/// The number of the stream of words for a device, a direction and a kind.
fn stream_of(direction: Direction, kind: Kind, device: usize) -> u64
    ensures { result ≡ stream_of direction kind device }
{
    let way: u64 = match direction {
        Direction::In => 0,
        Direction::Out => 4,
    };
    let lane: u64 = match kind {
        Kind::Lose => way,
        Kind::Twice => way + 1,
        Kind::Swap => way + 2,
        Kind::Late => way + 3,
    };
    (device as u64 % (1 << 59)) * 8 + lane
}

/// Whether the numbers of a list have this one among them.
fn is_in(spans: &[Span], number: u64) -> bool
    ensures { result ≡ list_any (is_in number) spans.now }
{
    spans
        .iter()
        .any(|span| span.from <= number && number <= span.to)
}

impl Plan {
    /// The word that is drawn for a datagram.
    #[tactic(auto, unfolding(crate::specs::Schedule::drawn_word))]
    fn draw(&self, direction: Direction, kind: Kind, device: usize, number: u64) -> u32
        ensures { result ≡ drawn_word self.now.seed direction kind device number }
    {
        let mut words = Pcg32::new(self.seed, stream_of(direction, kind, device));
        words.advance(number.saturating_sub(1));
        words.next_word()
    }

    /// Whether a choice chooses a datagram.
    fn chooses(
        &self,
        choice: &Choice,
        direction: Direction,
        kind: Kind,
        device: usize,
        number: u64,
    ) -> bool
        ensures { result ≡ chooses self.now.seed choice.now direction kind device number }
    {
        match choice {
            Choice::Never => false,
            Choice::Share(percent) => {
                let word = self.draw(direction, kind, device, number);
                u64::from(word) * 100 < u64::from(*percent) * (1 << 32)
            }
            Choice::Listed(spans) => is_in(spans, number),
        }
    }

    /// The choice of those that are lost.
    fn lost(&self, direction: Direction) -> &Choice
        ensures { result.now ≡ lost_by self.now direction }
    {
        match direction {
            Direction::In => &self.lose_in,
            Direction::Out => &self.lose_out,
        }
    }

    /// What happens to the datagram of this number, of those of a device that go this way.
    #[tactic(auto, unfolding(crate::specs::Schedule::fate_of))]
    pub fn fate(&self, direction: Direction, device: usize, number: u64) -> Fate
        ensures { result ≡ fate_of self.now direction device number }
    {
        if self.chooses(self.lost(direction), direction, Kind::Lose, device, number) {
            return Fate::Lost;
        }
        if self.chooses(&self.twice, direction, Kind::Twice, device, number) {
            return Fate::Twice;
        }
        if self.chooses(&self.swap, direction, Kind::Swap, device, number) {
            return Fate::Swapped;
        }
        if self.chooses(&self.late, direction, Kind::Late, device, number) {
            return Fate::Late;
        }
        Fate::Passes
    }
}
