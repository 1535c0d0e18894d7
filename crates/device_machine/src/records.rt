//! The requests that a device has recorded, found by server, type and message ID.

ghost use Rattle.std.specs.Prelude.{◌≡◌, ◌≢◌, ◌++◌, ◌∷◌, [], true, false, None, Some, ◌&&◌, filter, find};
ghost use Rattle.std.specs.Prelude.{IfOk, OnErr, OnOk};
ghost use Rattle.std.specs.Option.{option_copied};
ghost use Rattle.std.specs.List.{list_any};
ghost use Rattle.coap_codec.specs.Message.{kind_number};
ghost use Rattle.indexmap.specs.IndexMap.{values};
ghost use Rattle.device_machine.specs.State.{is_live, lifetime};
ghost use Rattle.device_machine.specs.Records.{IsIndexed, IsKeyed, IsNewIn, end_of_life, first_end, has_key, is_recalled};
ghost use Rattle.device_machine.specs.Records.{HaveOwnKeys, number_of, recalled_requests};
ghost use Rattle.device_machine.specs.declared.recorded.Recorded.{Recorded as Request};

use crate::recorded::Recorded;
use coap_codec::Kind;
use indexmap::IndexMap;
use std::alloc::{AllocError, Global};
use std::hash::{Hash, Hasher};
use std::marker::Model;

/// What a repeat has in common with its request.
#[derive(Clone, Drop)]
pub(crate) struct RecordKey {
    server: u16,
    kind: Kind,
    mid: u16,
}

impl RecordKey {
    /// The key as one number: it is compared and hashed in one step.
    fn number(&self) -> u64
        ensures { result ≡ number_of self.now }
    {
        4_294_967_296 * u64::from(kind_number(self.kind))
            + (65_536 * u64::from(self.server) + u64::from(self.mid))
    }
}

impl PartialEq for RecordKey {
    ghost use Rattle.std.specs.Prelude.{nat_eq};
    ghost use Rattle.std.specs.Ordering.{on};
    ghost use Rattle.std.specs.Cmp.Rules.{comparing};
    ghost use Rattle.std.proofs.Common.{rules};
    ghost use Rattle.device_machine.specs.Records.{number_of};

    ghost eq = { on number_of nat_eq };

    ghost laws = { Prim.search (comparing, rules) };

    fn eq(&self, other: &RecordKey) -> bool {
        self.number() == other.number()
    }
}

impl Eq for RecordKey {
    ghost use Rattle.std.specs.Cmp.Rules.{comparing};
    ghost use Rattle.std.proofs.Common.{rules};

    ghost laws = { Prim.search (comparing, rules) };
}

impl Hash for RecordKey {
    ghost use Rattle.std.specs.Hash as fed;
    ghost use Rattle.std.specs.Cmp.Rules.{hashing};
    ghost use Rattle.std.proofs.Common.{rules};
    ghost use Rattle.device_machine.specs.Records.{number_of};

    ghost hash_input = { λ k. fed.u64 (number_of k) };

    ghost respects_eq = { Prim.search (hashing, rules) };

    fn hash<H: Hasher>(&self, state: &mut H) {
        state.write_u64(self.number());
    }
}

/// How many requests of one type are known to be forgotten, and how far the entries were looked through for them. The
/// requests of one type end in the order of their seconds, so each is looked at once, however many live.
#[derive(Clone, Copy)]
struct Front {
    place: usize,
    forgotten: usize,
}

/// No entry was looked at.
const NOT_LOOKED: Front = Front {
    place: 0,
    forgotten: 0,
};

/// Requests, no two of one server, type and message ID. Those that are forgotten are removed, the others are recalled.
#[derive(Drop)]
struct Index {
    entries: IndexMap<RecordKey, Recorded>,
    /// The first second in which one of the entries no longer lives.
    due: u64,
    /// The entries that do not live in this second are forgotten, or where there is no second, none.
    ended: Option<u64>,
    /// The CONs that are known to be forgotten.
    cons: Front,
    /// The NONs that are known to be forgotten.
    nons: Front,
}

/// Recorded requests, no two of one server, type and message ID. Contracts see the list of them, oldest first.
pub(crate) struct Records {
    alloc: Global,
    index: Index,
}

/// By hand, so that a caller's proof has one step where it is dropped, and no case for each of its parts.
impl Drop for Records {
    fn drop(self) {
        let Records {
            alloc: _,
            index: _index,
        } = self;
    }
}

impl Model for Records {
    ghost use Rattle.std.specs.Prelude.{List};
    ghost use Rattle.device_machine.specs.declared.recorded.Recorded.{Recorded};
    ghost use Rattle.device_machine.specs.Records.{IsIndexed, recalled_requests};

    ghost Value = { List Recorded };

    ghost view = { λ r. recalled_requests r.index };

    ghost invariant = { λ r. IsIndexed r.index };
}

fn kind_number(kind: Kind) -> u8
    ensures { result ≡ kind_number kind }
{
    match kind {
        Kind::Con => 0,
        Kind::Non => 1,
        Kind::Ack => 2,
        Kind::Rst => 3,
    }
}

/// For how many seconds the message ID of a request of this type is not used again (RFC 7252 section 4.8.2).
fn lifetime(kind: Kind) -> u64
    ensures { result ≡ lifetime kind }
{
    match kind {
        Kind::Con => 247,
        Kind::Non => 145,
        Kind::Ack | Kind::Rst => 0,
    }
}

/// Whether the request's message ID is not free again yet.
fn is_live(clock: u64, request: &Recorded) -> bool
    ensures { result ≡ is_live clock request.now }
{
    clock.saturating_sub(request.second) < lifetime(request.kind)
}

/// The second from which on the request no longer lives.
fn end_of_life(request: &Recorded) -> u64
    ensures { result ≡ end_of_life request.now }
{
    let life = lifetime(request.kind);
    if life == 0 {
        return 0;
    }
    request.second.saturating_add(life)
}

/// The first second in which one of the requests no longer lives.
fn first_end(entries: &IndexMap<RecordKey, Recorded>) -> u64
    ensures { result ≡ first_end (values entries.now) }
{
    entries
        .values()
        .fold(u64::MAX, |first, request| first.min(end_of_life(request)))
}

/// Whether the request is recalled. Where there is a second, those that do not live in it are forgotten.
fn is_recalled(ended: Option<u64>, request: &Recorded) -> bool
    ensures { result ≡ is_recalled ended request.now }
{
    match ended {
        None => true,
        Some(second) => is_live(second, request),
    }
}

/// The second in which those live that live in this one and are recalled.
fn later(ended: Option<u64>, clock: u64) -> u64
    ensures { (r : Request) → (is_recalled (Some result) r ≡ (is_live clock r && is_recalled ended r)) }
{
    match ended {
        None => clock,
        Some(second) => second.max(clock),
    }
}

/// Whether one of the requests is recalled.
fn recalls_any(entries: &IndexMap<RecordKey, Recorded>, ended: Option<u64>) -> bool
    ensures { result ≡ list_any (λ r. is_recalled ended r) (values entries.now) }
{
    entries.values().any(|request| is_recalled(ended, request))
}

/// Keeps the requests that are recalled.
fn keep_recalled(entries: &mut IndexMap<RecordKey, Recorded>, ended: Option<u64>)
    requires { IsKeyed entries.old }
    ensures recalled { values entries.new ≡ filter (λ r. is_recalled ended r) (values entries.old) }
    ensures keyed { IsKeyed entries.new }
{
    entries.retain(
        |_key: &RecordKey, request: &mut Recorded| -> bool
            ensures { (result ≡ is_recalled ended request.old) × (request.new ≡ request.old) }
        { is_recalled(ended, request) },
    );
}

/// The request of this server, type and message ID.
fn request_of(
    entries: &IndexMap<RecordKey, Recorded>,
    server: u16,
    kind: Kind,
    mid: u16,
) -> Option<&Recorded>
    requires { IsKeyed entries.now }
    ensures { option_copied result ≡ find (has_key server kind mid) (values entries.now) }
{
    entries.get(&RecordKey { server, kind, mid })
}

/// How many requests of this type are known to be forgotten, once those from the front on were looked at, up to the
/// first that is recalled.
fn look_on(
    entries: &IndexMap<RecordKey, Recorded>,
    ended: Option<u64>,
    kind: Kind,
    front: Front,
) -> Front {
    let mut forgotten = front.forgotten;
    for place in front.place..entries.len() {
        let Some((_key, request)) = entries.get_index(place) else {
            break;
        };
        if request.kind == kind {
            if is_recalled(ended, request) {
                return Front { place, forgotten };
            }
            forgotten = forgotten.saturating_add(1);
        }
    }
    Front {
        place: entries.len(),
        forgotten,
    }
}

/// Gives memory back where there is room for over eight times as many requests as there are.
fn give_room_back(entries: &mut IndexMap<RecordKey, Recorded>)
    requires { IsKeyed entries.old }
    ensures same { values entries.new ≡ values entries.old }
    ensures keyed { IsKeyed entries.new }
{
    let len = entries.len();
    if entries.capacity() / 8 > len {
        entries.shrink_to(2 * len);
    }
}

/// Adds a request of a new key at the end.
fn add(entries: &mut IndexMap<RecordKey, Recorded>, request: Recorded) -> Result<(), AllocError>
    requires keyed { IsKeyed entries.old }
    requires new { IsNewIn (values entries.old) request }
    ensures ok { OnOk result (values entries.new ≡ values entries.old ++ request ∷ []) }
    ensures keyed { IsKeyed entries.new }
    ensures err { OnErr result (values entries.new ≡ values entries.old) }
{
    let key = RecordKey {
        server: request.server,
        kind: request.kind,
        mid: request.mid,
    };
    entries.insert(key, request)?;
    Ok(())
}

/// A clone of a map whose keys are those of their requests.
fn clone_of(
    entries: &IndexMap<RecordKey, Recorded>,
) -> Result<IndexMap<RecordKey, Recorded>, AllocError>
    requires { IsKeyed entries.now }
    ensures values { IfOk result (λ m. values m ≡ values entries.now) }
    ensures keyed { IfOk result (λ m. IsKeyed m) }
{
    entries.clone()
}

impl Index {
    /// No request.
    fn new(alloc: Global) -> Index
        ensures none { recalled_requests result ≡ [] }
        ensures indexed { IsIndexed result }
    {
        Index {
            entries: IndexMap::new(alloc),
            due: u64::MAX,
            ended: None,
            cons: NOT_LOOKED,
            nons: NOT_LOOKED,
        }
    }

    /// Whether no request is recalled.
    fn is_empty(&self) -> bool
        ensures none { result ≡ true → recalled_requests self.now ≡ [] }
        ensures some { result ≡ false → recalled_requests self.now ≢ [] }
    {
        !recalls_any(&self.entries, self.ended)
    }

    /// A copy of the requests that are recalled. It has no other.
    fn copy(&self) -> Result<Index, AllocError>
        requires { IsIndexed self.now }
        ensures same { IfOk result (λ i. recalled_requests i ≡ recalled_requests self.now) }
        ensures alone { IfOk result (λ i. values i.entries ≡ recalled_requests self.now) }
        ensures indexed { IfOk result (λ i. IsIndexed i) }
    {
        let mut copy = Index {
            entries: clone_of(&self.entries)?,
            due: self.due,
            ended: self.ended,
            cons: NOT_LOOKED,
            nons: NOT_LOOKED,
        };
        copy.remove_forgotten();
        Ok(copy)
    }

    /// The request of this server, type and message ID that is recalled.
    fn find(&self, server: u16, kind: Kind, mid: u16) -> Option<&Recorded>
        requires { IsIndexed self.now }
        ensures { option_copied result ≡ find (has_key server kind mid) (recalled_requests self.now) }
    {
        let request = request_of(&self.entries, server, kind, mid)?;
        if is_recalled(self.ended, request) {
            Some(request)
        } else {
            None
        }
    }

    /// Removes the requests that are forgotten.
    fn remove_forgotten(&mut self)
        requires { IsIndexed self.old }
        ensures same { recalled_requests self.new ≡ recalled_requests self.old }
        ensures alone { values self.new.entries ≡ recalled_requests self.old }
        ensures indexed { IsIndexed self.new }
        ensures all { self.new.ended ≡ None }
    {
        let Some(_second) = self.ended else {
            return;
        };
        keep_recalled(&mut self.entries, self.ended);
        give_room_back(&mut self.entries);
        self.ended = None;
        self.due = first_end(&self.entries);
        self.cons = NOT_LOOKED;
        self.nons = NOT_LOOKED;
    }

    /// Removes the requests that are forgotten once they are a quarter of the entries: so each that is removed pays for
    /// a look at four.
    fn tidy(&mut self)
        requires { IsIndexed self.old }
        ensures same { recalled_requests self.new ≡ recalled_requests self.old }
        ensures indexed { IsIndexed self.new }
    {
        self.cons = look_on(&self.entries, self.ended, Kind::Con, self.cons);
        self.nons = look_on(&self.entries, self.ended, Kind::Non, self.nons);
        let forgotten = self.cons.forgotten.saturating_add(self.nons.forgotten);
        if forgotten.saturating_mul(4) >= self.entries.len() {
            self.remove_forgotten();
        }
    }

    /// Whether the request can be added without a removal: it would be recalled, and no other has its key.
    fn can_add(&self, request: &Recorded) -> bool
        requires indexed { IsIndexed self.now }
        requires new { IsNewIn (recalled_requests self.now) request.now }
        ensures new { result ≡ true → IsNewIn (values self.now.entries) request.now }
        ensures recalled { result ≡ true → is_recalled self.now.ended request.now ≡ true }
    {
        let Some(second) = self.ended else {
            return true;
        };
        is_live(second, request)
            && request_of(&self.entries, request.server, request.kind, request.mid).is_none()
    }

    /// Removes those that are forgotten, if the request cannot be added otherwise.
    fn make_room(&mut self, request: &Recorded)
        requires indexed { IsIndexed self.old }
        requires new { IsNewIn (recalled_requests self.old) request.now }
        ensures same { recalled_requests self.new ≡ recalled_requests self.old }
        ensures indexed { IsIndexed self.new }
        ensures new { IsNewIn (values self.new.entries) request.now }
        ensures recalled { is_recalled self.new.ended request.now ≡ true }
    {
        if self.can_add(request) {
            return;
        }
        self.remove_forgotten();
    }

    /// Adds a request that will be recalled, where none has its key.
    fn append(&mut self, request: Recorded) -> Result<(), AllocError>
        requires indexed { IsIndexed self.old }
        requires new { IsNewIn (values self.old.entries) request }
        requires recalled { is_recalled self.old.ended request ≡ true }
        ensures added { OnOk result (recalled_requests self.new ≡ recalled_requests self.old ++ request ∷ []) }
        ensures unchanged { OnErr result (recalled_requests self.new ≡ recalled_requests self.old) }
        ensures indexed { IsIndexed self.new }
    {
        let due = self.due.min(end_of_life(&request));
        add(&mut self.entries, request)?;
        self.due = due;
        Ok(())
    }

    /// Forgets the requests that do not live in this second.
    fn forget(&mut self, clock: u64)
        requires { IsIndexed self.old }
        ensures living { recalled_requests self.new ≡ filter (λ r. is_live clock r) (recalled_requests self.old) }
        ensures indexed { IsIndexed self.new }
    {
        if clock < self.due {
            return;
        }
        self.ended = Some(later(self.ended, clock));
        self.tidy();
    }
}

impl Records {
    /// No request.
    pub(crate) fn new(alloc: Global) -> Records
        ensures { result ≡ [] }
    {
        Records {
            alloc,
            index: Index::new(alloc),
        }
    }

    /// A copy, which equals its source.
    pub(crate) fn copy(&self) -> Result<Records, AllocError>
        ensures same { IfOk result (λ r. r ≡ self.now) }
        ensures may_lack_memory { OnErr result (self.now ≢ []) }
    {
        if self.index.is_empty() {
            return Ok(Records::new(self.alloc));
        }
        Ok(Records {
            alloc: self.alloc,
            index: self.index.copy()?,
        })
    }

    /// No two of them are of one server, type and message ID. It is called for that alone.
    pub(crate) fn knows_keys(&self)
        ensures { HaveOwnKeys self.now }
    {
        // For the proof alone: the keys of an index that is read are known to be those of its requests.
        let _known = &self.index;
    }

    /// The request of this server, type and message ID.
    pub(crate) fn find(&self, server: u16, kind: Kind, mid: u16) -> Option<&Recorded>
        ensures { option_copied result ≡ find (has_key server kind mid) self.now }
    {
        self.index.find(server, kind, mid)
    }

    /// Adds a request, where there is none of its server, type and message ID.
    pub(crate) fn push(&mut self, request: Recorded) -> Result<(), AllocError>
        requires { find (has_key request.server request.kind request.mid) self.old ≡ None }
        ensures added { OnOk result (self.new ≡ self.old ++ request ∷ []) }
        ensures unchanged { OnErr result (self.new ≡ self.old) }
    {
        self.index.make_room(&request);
        self.index.append(request)
    }

    /// Forgets the requests that no longer live in this second. Those that live are not looked at.
    pub(crate) fn forget(&mut self, clock: u64)
        ensures { self.new ≡ filter (λ r. is_live clock r) self.old }
    {
        self.index.forget(clock);
    }
}
