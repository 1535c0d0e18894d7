//! What follows from the definitions, for their readers. The call does nothing; its contract is the law.
ghost use Rattle.command_words.specs.Again.{AcksAreFound, AcksAreSaidAgain, MnemonicsAreFound};
ghost use Rattle.command_words.specs.Again.{MnemonicsAreSaidAgain, OthersAreSaidAgain};

/// The law of `say` and `spell`: of the datagram that `spell` prints for a statement of a server, `say` with this
/// server prints the canonical line of the statement first. It has the mnemonic also where the datagram was spelled by
/// `recv`, and `ack` where it is an Empty ACK; `recv` only where neither denotes it.
pub fn spelled_is_said()
    ensures mnemonics { MnemonicsAreSaidAgain }
    ensures acks { AcksAreSaidAgain }
    ensures recv_as_mnemonic { MnemonicsAreFound }
    ensures recv_as_ack { AcksAreFound }
    ensures recv { OthersAreSaidAgain }
{}
