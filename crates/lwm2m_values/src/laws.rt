ghost use Rattle.std.specs.Prelude.{◌≡◌, ◌≤◌, ◌↔◌, ◌⊎◌, ℕ, List, length, Some};
ghost use Rattle.std.specs.Int.Digits.{AllBelowBase};
ghost use Rattle.lwm2m_values.specs.declared.value.Value.{Value};
ghost use Rattle.lwm2m_values.specs.declared.kind.ValueKind.{ValueKind};
ghost use Rattle.lwm2m_values.specs.declared.fault.TlvFault.{TlvFault};
ghost use Rattle.lwm2m_values.specs.declared.level.Around.TheVariants.{Top};
ghost use Rattle.lwm2m_values.specs.Tree.{Trees};
ghost use Rattle.lwm2m_values.specs.Tlv.{IsTlv, HasFault, IsWritable, shortest_tlv};
ghost use Rattle.lwm2m_values.specs.Value.{kind_of, IsGood, IsText, text_of, IsBytesOf, bytes_of};
ghost use Rattle.lwm2m_values.specs.Reading.{value_of_text, value_of_bytes, nodes_of_bytes};

/// The laws of plain texts. A text has one valid value of each kind, and the text that is written of a valid value is
/// a text of it, so it is read again; and no text of it is shorter. What `value_of_text` computes of a kind and a text
/// is that value.
pub fn one_text_value()
    ensures written { (v : Value) → IsGood v → IsText v (text_of v) }
    ensures shortest { (v : Value) (text : List ℕ) → IsGood v → IsText v text → length (text_of v) ≤ length text }
    ensures one { (v w : Value) (text : List ℕ) → IsGood v → IsGood w → kind_of v ≡ kind_of w → IsText v text
        → IsText w text → v ≡ w }
    ensures reads { (kind : ValueKind) (v : Value) (text : List ℕ) → (value_of_text kind text ≡ Some v)
        ↔ (IsGood v × (kind_of v ≡ kind) × IsText v text) }
    ensures reads_written { (v : Value) → IsGood v → value_of_text (kind_of v) (text_of v) ≡ Some v }
{}

/// The laws of values' bytes. Bytes are those of one valid value of each kind; the bytes that are written of a valid
/// value are bytes of it, so they are read again; and no bytes of a value are shorter. What `value_of_bytes` computes
/// of a kind and bytes is that value.
pub fn one_value_of_bytes()
    ensures written { (v : Value) → IsGood v → IsBytesOf v (bytes_of v) }
    ensures one { (v w : Value) (bytes : List ℕ) → IsGood v → IsGood w → kind_of v ≡ kind_of w → IsBytesOf v bytes
        → IsBytesOf w bytes → v ≡ w }
    ensures shortest { (v : Value) (bytes : List ℕ) → IsBytesOf v bytes → length (bytes_of v) ≤ length bytes }
    ensures reads { (kind : ValueKind) (v : Value) (bytes : List ℕ) → (value_of_bytes kind bytes ≡ Some v)
        ↔ (IsGood v × (kind_of v ≡ kind) × IsBytesOf v bytes) }
    ensures reads_written { (v : Value) → IsGood v → value_of_bytes (kind_of v) (bytes_of v) ≡ Some v }
{}

/// The laws of TLV. Bytes are TLV of one list of nodes, or else have one fault, and never both; bytes that are TLV of
/// no nodes have a fault. What is written is read again; and no TLV of the nodes is shorter. What `nodes_of_bytes`
/// computes of bytes is the nodes whose TLV they are, for every list of numbers, also one that holds more than bytes.
pub fn one_tlv()
    ensures nodes { (bytes : List ℕ) (f g : Trees) → IsTlv f bytes → IsTlv g bytes → f ≡ g }
    ensures fault { (bytes : List ℕ) (d e : TlvFault) → HasFault Top bytes d → HasFault Top bytes e → d ≡ e }
    ensures written { (f : Trees) → IsWritable f → IsTlv f (shortest_tlv f) }
    ensures shortest { (f : Trees) (bytes : List ℕ) → AllBelowBase 256 bytes → IsTlv f bytes
        → length (shortest_tlv f) ≤ length bytes }
    ensures not_both { (bytes : List ℕ) (f : Trees) (e : TlvFault) → IsTlv f bytes → HasFault Top bytes e → ⊥ }
    ensures either { (bytes : List ℕ) → ((f : Trees) × IsTlv f bytes) ⊎ ((e : TlvFault) × HasFault Top bytes e) }
    ensures reads { (bytes : List ℕ) (f : Trees) → (nodes_of_bytes bytes ≡ Some f) ↔ IsTlv f bytes }
    ensures reads_written { (f : Trees) → IsWritable f → nodes_of_bytes (shortest_tlv f) ≡ Some f }
{}
