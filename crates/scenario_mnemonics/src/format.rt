/// The format that a mnemonic names (CoAP Content-Formats; OMA LwM2M 1.1 Core).
#[derive(Clone, Copy)]
pub enum Format {
    /// No option, `any`.
    Any,
    /// Plain text, 0, `text`.
    Text,
    /// Opaque, 42, `opaque`.
    Opaque,
    /// OMA LwM2M TLV, 11542, `tlv`.
    Tlv,
}
