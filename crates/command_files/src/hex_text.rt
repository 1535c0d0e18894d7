ghost use Rattle.std.specs.Prelude.{◌≡◌, ◌%◌, ◌⊎◌, IfOk, IfErr, IsErr, length};
ghost use Rattle.hex.specs.Hex.{decode_of};
ghost use Rattle.command_files.specs.declared.fault.Fault.TheVariants.{Hex, Memory};

use crate::fault::Fault;
use octets::Bytes;
use std::alloc::Global;

/// The bytes that hex digits in either case spell, two digits a byte.
pub fn read_hex(alloc: Global, text: &str) -> Result<Bytes, Fault>
    ensures value { IfOk result (λ bytes. decode_of text.now ≡ Ok bytes) }
    ensures refused { IfErr result (λ e.
        (e ≡ Memory) ⊎ ((e ≡ Hex) × IsErr (decode_of text.now))) }
    ensures odd { length text.now % 2 ≡ 1 → result ≡ Err Hex }
{
    Ok(Bytes::from_vec(hex::decode(alloc, text)?))
}
