ghost use Rattle.std.specs.Prelude.{◌≡◌, ◌↔◌, ◌≤◌, ◌⊎◌, List, ℕ, length, Ok, Err};
ghost use Rattle.byte_layout.specs.declared.fault.Break.{Break};
ghost use Rattle.byte_layout.specs.declared.fault.LayoutFault.{LayoutFault};
ghost use Rattle.std.specs.Int.{w8, w16, w32, w64};
ghost use Rattle.byte_layout.specs.Layout.{raw, number, signed_number};
ghost use Rattle.byte_layout.specs.Whole.{IsAll, BreaksOff, HasFault, read_all};
ghost use Rattle.byte_layout.specs.Exact.{IsBytes, IsExact, left_of};

use crate::format::Format;

/// In each format whose layout is exact, bytes are those of one value or have one fault, never both, and always one of
/// the two; a fault's place is among them; and `read_all` computes which it is.
pub fn one_reading<F: Format>()
    requires { IsExact F.layout }
    ensures value { (bytes : List ℕ) (a b : F.Data) → IsAll F.layout bytes a → IsAll F.layout bytes b → a ≡ b }
    ensures fault { (bytes : List ℕ) (f g : LayoutFault) → HasFault F.layout bytes f → HasFault F.layout bytes g
        → f ≡ g }
    ensures never_both { (bytes : List ℕ) (a : F.Data) (f : LayoutFault) → IsAll F.layout bytes a
        → HasFault F.layout bytes f → ⊥ }
    ensures either { (bytes : List ℕ) → IsBytes bytes → ((a : F.Data) × IsAll F.layout bytes a)
        ⊎ ((f : LayoutFault) × HasFault F.layout bytes f) }
    ensures within { (bytes : List ℕ) (b : Break) → BreaksOff F.layout bytes b → left_of b ≤ length bytes }
    ensures reads_value { (bytes : List ℕ) → IsBytes bytes → (a : F.Data) → (read_all F.layout bytes ≡ Ok a)
        ↔ IsAll F.layout bytes a }
    ensures reads_break { (bytes : List ℕ) → IsBytes bytes → (b : Break) → (read_all F.layout bytes ≡ Err b)
        ↔ BreaksOff F.layout bytes b }
{}

/// The layouts of bytes and of single numbers are exact.
pub fn exact_fields()
    ensures bytes { (n : ℕ) → IsExact (raw n) }
    ensures one_byte { IsExact (number w8) }
    ensures two_bytes { IsExact (number w16) }
    ensures four_bytes { IsExact (number w32) }
    ensures eight_bytes { IsExact (number w64) }
    ensures signed { IsExact (signed_number w64) }
{}
