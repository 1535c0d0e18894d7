ghost use Rattle.std.specs.Prelude.{◌≡◌, ◌↔◌, [], IsSome, IfSome, IsTrue};
ghost use Rattle.coap_codec.specs.Message.{IsOptionList, IsWellFormed};

use crate::{Kind, Opt, Options};
use octets::Bytes;
use std::marker::Model;

/// A well-formed message (RFC 7252 section 3): type, code, message ID, token, options and payload,
/// where an empty payload is none.
///
/// Contracts see the record of its parts.
pub struct Message {
    kind: Kind,
    code: u8,
    mid: u16,
    token: Bytes,
    options: Options,
    payload: Bytes,
}

/// By hand, so that a caller's proof has one step where it is dropped, and no case for each of its parts.
impl Drop for Message {
    fn drop(self) {
        let Message {
            kind: _,
            code: _,
            mid: _,
            token: _token,
            options: _options,
            payload: _payload,
        } = self;
    }
}

impl Model for Message {
    ghost use Rattle.coap_codec.specs.Message.{Message, IsWellFormed};

    ghost Value = { Message };

    ghost view = { λ m. record {
      kind = m.kind;
      code = m.code;
      mid = m.mid;
      token = m.token;
      options =
          m.options;
      payload = m.payload;
    } };

    ghost invariant = { λ m. IsWellFormed (record {
      kind = m.kind;
      code = m.code;
      mid = m.mid;
      token = m.token;
      options =
          m.options;
      payload = m.payload;
    }) };
}

impl Message {
    /// The message of these parts, exactly if they are well formed: a token of at most 8 bytes, options that ascend
    /// with values of at most 65,804 bytes, and nothing beside code 0.00 (RFC 7252 sections 3 and 4.1).
    pub fn new(
        kind: Kind,
        code: u8,
        mid: u16,
        token: Bytes,
        options: Options,
        payload: Bytes,
    ) -> Option<Message>
        ensures well_formed { IsSome result
            ↔ IsWellFormed (record {
              kind = kind;
              code = code;
              mid = mid;
              token = token;
              options = options;
              payload =
                  payload;
            }) }
        ensures value { IfSome result
            (λ m. m ≡ record {
              kind = kind;
              code = code;
              mid = mid;
              token = token;
              options = options;
              payload =
                  payload;
            }) }
    {
        let bare = token.is_empty() && options.is_empty() && payload.is_empty();
        if token.len() > 8 || (code == 0 && !bare) || !is_option_list(options.as_slice()) {
            return None;
        }
        Some(Message::of_parts(kind, code, mid, token, options, payload))
    }

    /// The message of parts that are known to be well formed.
    pub fn of_parts(
        kind: Kind,
        code: u8,
        mid: u16,
        token: Bytes,
        options: Options,
        payload: Bytes,
    ) -> Message
        requires { IsWellFormed (record {
          kind = kind;
          code = code;
          mid = mid;
          token = token;
          options =
              options;
          payload = payload;
        }) }
        ensures { result ≡ record {
          kind = kind;
          code = code;
          mid = mid;
          token = token;
          options = options;
          payload =
              payload;
        } }
    {
        Message {
            kind,
            code,
            mid,
            token,
            options,
            payload,
        }
    }

    /// The type.
    pub fn kind(&self) -> Kind
        ensures { result ≡ self.now.kind }
    {
        self.kind
    }

    /// The code: class in the three high bits, detail in the five low ones (RFC 7252 section 3).
    pub fn code(&self) -> u8
        ensures { result ≡ self.now.code }
    {
        self.code
    }

    /// The message ID.
    pub fn mid(&self) -> u16
        ensures { result ≡ self.now.mid }
    {
        self.mid
    }

    /// The token, of at most 8 bytes.
    pub fn token(&self) -> &Bytes
        ensures { result.now ≡ self.now.token }
    {
        &self.token
    }

    /// The options, in the order in which they stand; a caller learns here that the message is well formed.
    pub fn options(&self) -> &Options
        ensures value { result.now ≡ self.now.options }
        ensures well_formed { IsWellFormed self.now }
    {
        &self.options
    }

    /// The memory of its list of options, without an option, for `decode_in`.
    pub fn into_spare(self) -> Vec<Opt>
        ensures { result.items ≡ [] }
    {
        let Message {
            kind: _,
            code: _,
            mid: _,
            token: _token,
            options,
            payload: _payload,
        } = self;
        options.into_spare()
    }

    /// The payload, empty where there is none.
    pub fn payload(&self) -> &Bytes
        ensures { result.now ≡ self.now.payload }
    {
        &self.payload
    }
}

/// Whether options ascend from 0 and each value's length can be spelled.
fn is_option_list(options: &[Opt]) -> bool
    ensures { IsTrue result ↔ IsOptionList 0 options.now }
{
    let mut number: u16 = 0;
    for option in options {
        if option.number < number || option.value.len() > 65804 {
            return false;
        }
        number = option.number;
    }
    true
}
