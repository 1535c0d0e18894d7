ghost use Rattle.std.specs.Prelude.{◌≡◌, ◌≢◌, ◌<◌, ◌≤◌, ◌↔◌, [], length, remove, slice_get, count_by, None, Some};
ghost use Rattle.std.specs.Prelude.{IfOk, IfSome, OnOk, OnErr, IsErrOf, IsTrue, IsFalse, MatchOption, position};
ghost use Rattle.std.specs.Prelude.{slice_set};
ghost use Rattle.std.specs.Option.{option_copied, option_map};
ghost use Rattle.std.specs.List.{AllByRecursion, list_any};
ghost use Rattle.notifier.specs.declared.observation.Observation.{Observation};
ghost use Rattle.notifier.specs.Due.{IsFirstDue, IsNeverDue};
ghost use Rattle.notifier.specs.Observed.{with_acknowledged, without_cancelled, has_name, is_awaited, next_number};
ghost use Rattle.notifier.specs.Observed.{number_for, is_named, open_bytes, was_sent, with_registered, with_sent};
ghost use Rattle.notifier.specs.Observed.{without_reset, HasToken, HasNumber, HaveDistinctNames};
ghost use Rattle.notifier.specs.Resending.{turn_at};
ghost use Rattle.notifier.specs.Said.{said_with, said_without, with_idle};

use crate::entries::{
    Key, add, awaits, clone_of, close_awaited, count_sent, notify, observation_at, open_bytes,
    place_of, place_sent, remove_at, renew,
};
use crate::fault::ObserveFault;
use crate::observation::{Observation, Report, Timer};
use crate::pending::{Outlook, Pending};
use crate::turn::{Turn, next_of};
use indexmap::IndexMap;
use notification_times::earlier;
use object_defs::Path;
use octets::Bytes;
use std::alloc::{AllocError, Global};
use std::marker::Model;

/// How many observations a device keeps.
const MOST: usize = 32;

/// The observations of a device. Contracts see the list of them, in the order of registration, and beside
/// it what was last said of each: what its present answer is, and its periods.
pub struct Observations {
    alloc: Global,
    entries: IndexMap<Key, Observation>,
    said: Vec<Outlook>,
}

/// By hand, so that a caller's proof has one step where it is dropped, and no case for each of its parts.
impl Drop for Observations {
    fn drop(self) {
        let Observations {
            alloc: _,
            entries: _entries,
            said: _said,
        } = self;
    }
}

impl Model for Observations {
    ghost use Rattle.std.specs.Prelude.{◌≡◌, length, ◌≤◌};
    ghost use Rattle.std.specs.List.{AllByRecursion};
    ghost use Rattle.indexmap.specs.IndexMap.{values};
    ghost use Rattle.notifier.specs.Observed.{IsKeyed};
    ghost use Rattle.notifier.specs.Said.{Watch};

    ghost Value = { Watch };

    ghost view = { λ o. record { list = values o.entries; said = o.said.items } };

    ghost invariant = { λ o. AllByRecursion IsKeyed o.entries.entries
        × ((length o.entries.entries ≤ 32) × (length o.said.items ≡ length o.entries.entries)) };
}

impl Observations {
    /// No observation.
    pub fn new(alloc: Global) -> Observations
        ensures { result ≡ record { list = []; said = [] } }
    {
        Observations {
            alloc,
            entries: IndexMap::new(alloc),
            said: Vec::new(alloc),
        }
    }

    /// A copy, which equals its source. Only an observation takes memory.
    pub fn copy(&self) -> Result<Observations, AllocError>
        ensures same { IfOk result (λ o. o ≡ self.now) }
        ensures may_lack_memory { OnErr result (self.now.list ≢ []) }
    {
        if self.entries.is_empty() {
            return Ok(Observations::new(self.alloc));
        }
        Ok(Observations {
            alloc: self.alloc,
            entries: clone_of(&self.entries)?,
            said: self.said.clone()?,
        })
    }

    /// Registers an observation with the reply to its request: adds it at the end, with the Observe number 0, or
    /// updates the one of its server and token in its place, with the next number. Returns the number. An update
    /// closes. `now` is the second of the reply, `mid` its message ID, and `non` whether it is a NON. A token has 8
    /// bytes at most.
    ///
    /// `Full` exactly for a new server and token beside 32 observations. An error changes nothing, and only a new one
    /// takes memory. Until more is said of it, nothing is pending of it, with a pmin of 0 and no pmax.
    pub fn register(
        &mut self,
        server: u16,
        token: Bytes,
        path: Path,
        accept: Option<u16>,
        report: Report,
        now: u64,
        mid: u16,
        non: bool,
    ) -> Result<u32, ObserveFault>
        requires { length token ≤ 8 }
        ensures ok { OnOk result (self.new.list ≡ with_registered self.old.list
            (record {
              server = server;
              token = token;
              path = path;
              accept = accept;
              report = report;
              second =
                  now;
              number = 0;
              non = non;
              mid = mid;
              timer = None;
            })) }
        ensures said { OnOk result (self.new.said ≡ said_with server token self.old.list self.old.said) }
        ensures number { IfOk result (λ n. n ≡ number_for self.old.list server token) }

        // The name is new, and there are 32. Only a new name takes memory.
        ensures full { IsErrOf result ObserveFault.Full
            ↔ (IsFalse (has_name self.old.list server token) × (32 ≤ length self.old.list)) }
        ensures may_lack_memory { IsErrOf result ObserveFault.Memory → IsFalse (has_name self.old.list server token) }
        ensures unchanged { OnErr result (self.new ≡ self.old) }
    {
        let observation = Observation {
            server,
            token,
            path,
            accept,
            report,
            second: now,
            number: 0,
            non,
            mid,
            timer: None,
        };
        match place_of(&self.entries, server, observation.token.as_slice()) {
            Some(place) => {
                self.said[place] = Outlook::unsaid();
                Ok(renew(&mut self.entries, place, observation))
            }
            None => {
                if self.entries.len() >= MOST {
                    return Err(ObserveFault::Full);
                }
                self.said.push(Outlook::unsaid())?;
                if let Err(fault) = add(&mut self.entries, observation) {
                    self.said.pop();
                    return Err(fault);
                }
                Ok(0)
            }
        }
    }

    /// The place of the observation of this server under this token.
    pub fn place_of(&self, server: u16, token: &[u8]) -> Option<usize>
        ensures { result ≡ position (is_named server token.now) self.now.list }
    {
        place_of(&self.entries, server, token)
    }

    /// Removes the observation of this server under this token. Answers whether there was one. What was said of the
    /// others stays.
    pub fn cancel(&mut self, server: u16, token: &[u8]) -> bool
        ensures answer { result ≡ has_name self.old.list server token.now }
        ensures left { self.new.list ≡ without_cancelled self.old.list server token.now }
        ensures said { self.new.said ≡ said_without (is_named server token.now) self.old.list self.old.said }
    {
        let mut held = false;
        while let Some(place) = place_of(&self.entries, server, token) {
            self.remove(place);
            held = true;
        }
        held
    }

    /// Removes each observation of the server whose last message was a NON with this message ID, or a CON
    /// that is still open, which an Empty Reset rejects (RFC 7641 section 3.6). Answers how many. What was said of the
    /// others stays.
    pub fn reset(&mut self, server: u16, mid: u16) -> usize
        ensures count { result ≡ count_by (was_sent server mid) self.old.list }
        ensures left { self.new.list ≡ without_reset self.old.list server mid }
        ensures said { self.new.said ≡ said_without (was_sent server mid) self.old.list self.old.said }
    {
        let count = count_sent(&self.entries, server, mid);
        while let Some(place) = place_sent(&self.entries, server, mid) {
            self.remove(place);
        }
        count
    }

    /// Closes each observation of the server whose last message is an open CON with this message ID,
    /// which an Empty ACK answers (RFC 7252 section 4.2). Answers whether there was one.
    pub fn acknowledge(&mut self, server: u16, mid: u16) -> bool
        ensures answer { result ≡ list_any (is_awaited server mid) self.old.list }
        ensures left { self.new.list ≡ with_acknowledged self.old.list server mid }
        ensures said { self.new.said ≡ self.old.said }
    {
        let awaited = awaits(&self.entries, server, mid);
        close_awaited(&mut self.entries, server, mid);
        awaited
    }

    /// Says what the present answer of the observation at a place is, and its periods, in seconds.
    pub fn pending(&mut self, place: usize, pending: Pending, pmin: u64, pmax: Option<u64>)
        requires { place < length self.old.list }
        ensures list { self.new.list ≡ self.old.list }
        ensures said { self.new.said
            ≡ slice_set self.old.said place (record { pending = pending; pmin = pmin; pmax = pmax }) }
    {
        self.said[place] = Outlook {
            pending,
            pmin,
            pmax,
        };
    }

    /// What was last said of the observation at a place.
    pub fn outlook(&self, place: usize) -> Outlook
        requires { place < length self.now.list }
        ensures { slice_get self.now.said place ≡ Some result }
    {
        self.said[place]
    }

    /// Notes a notification of the observation at a place, of this second, with this message ID and this
    /// report: a CON, which opens the observation, with what it is sent again by, or else a NON. Answers
    /// its Observe number, the next one. Nothing is pending of it then, and its periods are as they were said.
    pub fn sent(
        &mut self,
        place: usize,
        now: u64,
        mid: u16,
        report: Report,
        timer: Option<Timer>,
    ) -> u32
        requires { place < length self.old.list }
        ensures number { option_map (λ o. next_number o.number) (slice_get self.old.list place) ≡ Some result }
        ensures sent { self.new.list ≡ with_sent self.old.list place now mid report timer }
        ensures said { self.new.said ≡ with_idle self.old.said place }
    {
        self.said[place].pending = Pending::Idle;
        notify(&mut self.entries, place, now, mid, report, timer)
    }

    /// What the observation at a place does in the second that the clock shows.
    pub fn turn(&self, place: usize, now: u64) -> Turn
        requires { place < length self.now.list }
        ensures { option_map (λ o. turn_at o now) (slice_get self.now.list place) ≡ Some result }
    {
        self.entries[place].turn(now)
    }

    /// The bytes of the notification of the observation at a place, if that is open.
    pub fn open_bytes(&self, place: usize) -> Option<&[u8]>
        ensures { option_copied result ≡ open_bytes self.now.list place }
    {
        open_bytes(&self.entries, place)
    }

    /// Removes the observation at a place. What was said of the others stays.
    pub fn remove(&mut self, place: usize)
        requires { place < length self.old.list }
        ensures list { self.new.list ≡ remove self.old.list place }
        ensures said { self.new.said ≡ remove self.old.said place }
    {
        remove_at(&mut self.entries, place);
        self.said.remove(place);
    }

    /// How many observations there are. They are 32 at most, no two have one name, and their Observe
    /// numbers are below 2^24. Something was said of each.
    pub fn len(&self) -> usize
        ensures len { result ≡ length self.now.list }
        ensures few { length self.now.list ≤ 32 }
        ensures names { HaveDistinctNames self.now.list }
        ensures numbers { AllByRecursion HasNumber self.now.list }
        ensures said { length self.now.said ≡ length self.now.list }
    {
        self.entries.len()
    }

    /// Whether there is no observation.
    pub fn is_empty(&self) -> bool
        ensures { IsTrue result ↔ (length self.now.list ≡ 0) }
    {
        self.len() == 0
    }

    /// The observation at a place. Its token has 8 bytes at most, and its Observe number is
    /// below 2^24.
    pub fn at(&self, place: usize) -> Option<&Observation>
        ensures value { option_copied result ≡ slice_get self.now.list place }
        ensures token { IfSome (option_copied result) HasToken }
        ensures number { IfSome (option_copied result) HasNumber }
    {
        observation_at(&self.entries, place)
    }

    /// The first second after `now`, below 2^64, at which an observation sends or is removed, by what was last said of
    /// each; none if there is none. Of one that is open it is the next second at which its notification is sent again,
    /// or at which it is removed, whatever was said of it. It takes no memory.
    pub fn due(&self, now: u64) -> Option<u64>
        ensures { MatchOption result (IsNeverDue now self.now.list self.now.said)
            (λ first. IsFirstDue now self.now.list self.now.said first) }
    {
        let mut first = None;
        for (place, outlook) in self.said.iter().enumerate() {
            first = earlier(first, next_of(now, &self.entries[place], outlook));
        }
        first
    }
}
