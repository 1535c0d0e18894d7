ghost use Rattle.std.specs.Prelude.{◌≡◌, ◌≢◌, ◌+◌, ◌≤◌, ◌∷◌, ◌++◌, [], length, map, IfOk, IsOk, OnErr, OnOk};
ghost use Rattle.std.specs.Prelude.{vec_capacity, vec_len};
ghost use Rattle.device_notifications.specs.Outbox.{HasRoom};
ghost use Rattle.device_machine.specs.Acts.{act_name};
ghost use Rattle.device_machine.specs.Reactions.{outputs_of_act, send_of};

use device_notifications::Datagram;
use device_requests::Act;
use octets::Bytes;
use std::alloc::{AllocError, Global};
use std::marker::Model;
use std::{mem, slice};

/// What a device outputs.
#[derive(Clone, Debug, Drop)]
pub enum Output {
    /// A datagram is sent.
    Send {
        /// The Short Server ID of the server that it goes to.
        server: u16,
        /// The bytes of the datagram.
        bytes: Bytes,
    },
    /// The device does this.
    Act(Act),
}

/// The name of an act, as traces print it: `reboot`, `factory reset`, `reg update`, `disable` or `missed`.
pub fn act_name(act: Act) -> &'static str
    ensures { result.now ≡ act_name act }
{
    match act {
        Act::Reboot => "reboot",
        Act::FactoryReset => "factory reset",
        Act::RegUpdate => "reg update",
        Act::Disable => "disable",
        Act::Missed => "missed",
    }
}

/// What a device outputs at one event, in order. Contracts see the list.
#[derive(Clone, Debug)]
pub struct Outputs {
    alloc: Global,
    items: Items,
}

/// Outputs: one, which takes no memory of its own, or a list.
#[derive(Clone, Debug, Drop)]
enum Items {
    One(Output),
    Listed(Vec<Output>),
}

impl Model for Outputs {
    ghost use Rattle.std.specs.Prelude.{List};
    ghost use Rattle.device_machine.specs.declared.output.Output.{Output};
    ghost use Rattle.device_machine.specs.Items.{items_of};

    ghost Value = { List Output };

    ghost view = { λ o. items_of o.items };
}

/// The output that sends a datagram.
fn send_of(datagram: Datagram) -> Output
    ensures { result ≡ send_of datagram }
{
    Output::Send {
        server: datagram.server,
        bytes: datagram.bytes,
    }
}

/// Adds outputs that send these datagrams, in order, after those of a list that has room for them.
#[tactic(auto, using(crate::proofs::Sending::one_more))]
fn push_sent(items: &mut Vec<Output>, datagrams: Vec<Datagram>)
    requires { vec_len items.old + vec_len datagrams ≤ vec_capacity items.old }
    ensures { items.new.items ≡ items.old.items ++ map send_of datagrams.items }
{
    for datagram in datagrams {
        items.push_reserved(send_of(datagram));
    }
}

impl Outputs {
    /// No output.
    pub(crate) fn none(alloc: Global) -> Outputs
        ensures { result ≡ [] }
    {
        Outputs {
            alloc,
            items: Items::Listed(Vec::new(alloc)),
        }
    }

    /// One output, which takes no memory.
    pub fn one(alloc: Global, output: Output) -> Result<Outputs, AllocError>
        ensures one { IfOk result (λ o. o ≡ output ∷ []) }
        ensures succeeds { IsOk result }
    {
        Ok(Outputs {
            alloc,
            items: Items::One(output),
        })
    }

    /// These datagrams, each sent, in order. They take no memory: where they are more than one, they stand in the list.
    #[tactic(auto, using(crate::proofs::Sending::alone))]
    pub(crate) fn of_datagrams(room: Vec<Output>, datagrams: Vec<Datagram>) -> Outputs
        requires empty { room.items ≡ [] }
        requires room { HasRoom datagrams.items (vec_len room) (vec_capacity room) }
        ensures { result ≡ map send_of datagrams.items }
    {
        let mut items = room;
        let mut datagrams = datagrams;
        if datagrams.len() > 1 {
            push_sent(&mut items, datagrams);
            return Outputs::from_vec(items);
        }
        match datagrams.pop() {
            None => Outputs::from_vec(items),
            Some(datagram) => Outputs {
                alloc: *items.allocator(),
                items: Items::One(send_of(datagram)),
            },
        }
    }

    /// Adds an output after the others.
    fn push(&mut self, output: Output) -> Result<(), AllocError>
        ensures added { OnOk result (self.new ≡ self.old ++ output ∷ []) }
        ensures unchanged { OnErr result (self.new ≡ self.old) }
    {
        match &mut self.items {
            Items::Listed(items) => {
                items.push(output)?;
                return Ok(());
            }
            Items::One(_) => {}
        }
        let mut items = Vec::with_capacity(self.alloc, 2)?;
        match mem::replace(&mut self.items, Items::Listed(Vec::new(self.alloc))) {
            Items::One(first) => items.push(first)?,
            Items::Listed(_) => {}
        }
        items.push(output)?;
        self.items = Items::Listed(items);
        Ok(())
    }

    /// Adds what the device does after the others, if there is something.
    pub(crate) fn act(&mut self, act: Option<Act>) -> Result<(), AllocError>
        ensures acts { OnOk result (self.new ≡ self.old ++ outputs_of_act act) }
        ensures may_lack_memory { OnErr result (outputs_of_act act ≢ []) }
        ensures unchanged { OnErr result (self.new ≡ self.old) }
    {
        match act {
            None => Ok(()),
            Some(act) => self.push(Output::Act(act)),
        }
    }

    /// The outputs of a vector, which keeps its memory.
    pub fn from_vec(items: Vec<Output>) -> Outputs
        ensures { result ≡ items.items }
    {
        Outputs {
            alloc: *items.allocator(),
            items: Items::Listed(items),
        }
    }

    /// The outputs as a vector, in order. It takes memory only where there is exactly one, which may not be in a vector
    /// yet.
    pub fn into_vec(self) -> Result<Vec<Output>, AllocError>
        ensures items { IfOk result (λ items. items.items ≡ self) }
        ensures may_lack_memory { OnErr result (length self ≡ 1) }
    {
        let Outputs { alloc, items } = self;
        match items {
            Items::One(output) => {
                let mut items = Vec::with_capacity(alloc, 1)?;
                items.push_reserved(output);
                Ok(items)
            }
            Items::Listed(items) => Ok(items),
        }
    }

    /// The outputs, in order.
    pub fn as_slice(&self) -> &[Output]
        ensures { result.now ≡ self.now }
    {
        match &self.items {
            Items::One(output) => slice::from_ref(output),
            Items::Listed(items) => items.as_slice(),
        }
    }
}

/// By hand, so that a caller's proof has one step where outputs are dropped, and no case for each place of them.
impl Drop for Outputs {
    fn drop(self) {
        let Outputs {
            alloc: _,
            items: _items,
        } = self;
    }
}
