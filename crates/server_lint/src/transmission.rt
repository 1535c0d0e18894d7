//! A datagram of the history of a device.
ghost use Rattle.std.specs.Prelude.{◌≡◌, IfOk};
ghost use Rattle.std.specs.Option.{option_copied};
ghost use Rattle.server_lint.specs.History.{message_of};

use crate::sender::Sender;
use coap_codec::{Message, message_in};
use octets::Bytes;
use std::alloc::{AllocError, Global};
use std::marker::Model;

/// A datagram that went between a device and a server. What it says is read once, when it is made.
///
/// Contracts see the record of its other parts.
#[derive(Drop)]
pub struct Transmission {
    step: u32,
    second: u32,
    sender: Sender,
    server: u16,
    bytes: Bytes,
    message: Option<Message>,
}

impl Model for Transmission {
    ghost use Rattle.server_lint.specs.History.{Transmission};

    ghost Value = { Transmission };

    ghost view = { λ t. record {
      step = t.step;
      second = t.second;
      sender = t.sender;
      server = t.server;
      bytes = t.bytes;
    } };

    ghost use Rattle.std.specs.Prelude.{◌≡◌};
    ghost use Rattle.std.specs.Result.{result_ok};
    ghost use Rattle.coap_codec.specs.Reading.{reading_of};

    ghost invariant = { λ t. t.message ≡ result_ok (reading_of t.bytes) };
}

impl Transmission {
    /// A datagram that went at this step, counted from 0, and in this second, between a device and this server.
    pub fn new(
        alloc: Global,
        step: u32,
        second: u32,
        sender: Sender,
        server: u16,
        bytes: Bytes,
    ) -> Result<Transmission, AllocError>
        ensures { IfOk result (λ t. t ≡ record {
          step = step;
          second = second;
          sender = sender;
          server = server;
          bytes = bytes;
        }) }
    {
        let message = message_in(alloc, bytes.as_slice())?;
        Ok(Transmission {
            step,
            second,
            sender,
            server,
            bytes,
            message,
        })
    }

    /// The step of the device at which it went, counted from 0.
    pub fn step(&self) -> u32
        ensures { result ≡ self.now.step }
    {
        self.step
    }

    /// The second in which it went.
    pub fn second(&self) -> u32
        ensures { result ≡ self.now.second }
    {
        self.second
    }

    /// Who sent it.
    pub fn sender(&self) -> Sender
        ensures { result ≡ self.now.sender }
    {
        self.sender
    }

    /// The Short Server ID of the server that sent or received it.
    pub fn server(&self) -> u16
        ensures { result ≡ self.now.server }
    {
        self.server
    }

    /// Its bytes.
    pub fn bytes(&self) -> &[u8]
        ensures { result.now ≡ self.now.bytes }
    {
        self.bytes.as_slice()
    }

    /// The message that its bytes spell, if they spell one.
    pub fn message(&self) -> Option<&Message>
        ensures { option_copied result ≡ message_of self.now }
    {
        self.message.as_ref()
    }
}
