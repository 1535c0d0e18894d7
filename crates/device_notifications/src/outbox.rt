ghost use Rattle.std.specs.Prelude.{◌≡◌, OnErr, OnOk, vec_capacity, vec_len};
ghost use Rattle.device_notifications.specs.Outbox.{HasRoom, after_post, after_repost, empty};

use crate::datagram::Datagram;
use std::alloc::{AllocError, Global};
use std::marker::Model;

/// What a device sends of its own in an event, in order, and the message ID of its next message.
#[derive(Drop)]
pub struct Outbox {
    items: Vec<Datagram>,
    next_id: u16,
}

impl Model for Outbox {
    ghost use Rattle.device_notifications.specs.Outbox.{Outbox};

    ghost Value = { Outbox };

    ghost view = { λ o. record { sent = o.items.items; next_id = o.next_id } };
}

impl Outbox {
    /// Nothing to send yet, and the device's next message ID.
    pub(crate) fn new(alloc: Global, next_id: u16) -> Outbox
        ensures { result ≡ empty next_id }
    {
        Outbox {
            items: Vec::new(alloc),
            next_id,
        }
    }

    /// The message ID of the next message.
    pub fn next_id(&self) -> u16
        ensures { result ≡ self.now.next_id }
    {
        self.next_id
    }

    /// Adds a datagram after the others, and counts the message ID on, modulo 65,536.
    pub(crate) fn post(&mut self, datagram: Datagram) -> Result<(), AllocError>
        ensures posted { OnOk result (self.new ≡ after_post self.old datagram) }
        ensures unchanged { OnErr result (self.new ≡ self.old) }
    {
        self.items.push(datagram)?;
        self.next_id = self.next_id.wrapping_add(1);
        Ok(())
    }

    /// Adds a datagram that is sent again, which has its message ID, after the others.
    pub(crate) fn repost(&mut self, resent: Datagram) -> Result<(), AllocError>
        ensures posted { OnOk result (self.new ≡ after_repost self.old resent) }
        ensures unchanged { OnErr result (self.new ≡ self.old) }
    {
        self.items.push(resent)?;
        Ok(())
    }

    /// Reserves a place for each of the datagrams in a list, where they are more than one.
    pub(crate) fn reserve_in<T>(&self, list: &mut Vec<T>) -> Result<(), AllocError>
        ensures items { list.new.items ≡ list.old.items }
        ensures room { OnOk result (HasRoom self.now.sent (vec_len list.new) (vec_capacity list.new)) }
    {
        let count = self.items.len();
        if count > 1 {
            list.reserve(count)?;
        }
        Ok(())
    }

    /// The datagrams, in order.
    pub fn into_vec(self) -> Vec<Datagram>
        ensures { result.items ≡ self.sent }
    {
        let items = self.items;
        items
    }
}
