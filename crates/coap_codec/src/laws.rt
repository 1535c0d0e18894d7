ghost use Rattle.std.specs.Prelude.{◌≡◌, ◌<◌, ◌↔◌, List, ℕ, All, Ok, Err};
ghost use Rattle.coap_codec.specs.Message.{Message, Spells};
ghost use Rattle.coap_codec.specs.Fault.{HasFault};
ghost use Rattle.coap_codec.specs.Reading.{reading_of};

use crate::CoapFault;

/// Bytes spell at most one message, have at most one fault, and never both; and what `reading_of` computes of bytes,
/// numbers below 256, is the message that they spell, or else their fault.
pub fn one_reading()
    ensures message { (bytes : List ℕ) (m k : Message) → Spells bytes m → Spells bytes k → m ≡ k }
    ensures fault { (bytes : List ℕ) (f g : CoapFault) → HasFault bytes f → HasFault bytes g → f ≡ g }
    ensures never_both { (bytes : List ℕ) (m : Message) (f : CoapFault) → Spells bytes m → HasFault bytes f → ⊥ }
    ensures reads_message { (bytes : List ℕ) → All (λ b. b < 256) bytes → (m : Message) → (reading_of bytes ≡ Ok m)
        ↔ Spells bytes m }
    ensures reads_fault { (bytes : List ℕ) → All (λ b. b < 256) bytes → (f : CoapFault) → (reading_of bytes ≡ Err f)
        ↔ HasFault bytes f }
{}
