ghost use Rattle.std.specs.Prelude.{◌≡◌, ◌<◌, ◌≤◌, ◌↔◌, ℕ, List, All, Some, Ok};
ghost use Rattle.std.specs.List.{AllByRecursion, join_with_byte};
ghost use Rattle.scenario_words.specs.Words.{words, IsWord};
ghost use Rattle.scenario_mnemonics.specs.declared.mnemonic.Mnemonic.{Mnemonic};
ghost use Rattle.scenario_mnemonics.specs.declared.verb.Keyword.{Keyword};
ghost use Rattle.scenario_mnemonics.specs.Messages.{datagram_of, IsGood};
ghost use Rattle.scenario_mnemonics.specs.Denoting.{mnemonic_of};
ghost use Rattle.scenario_mnemonics.specs.MnemonicWords.{keyword_word, keyword_named, keyword_of, mnemonic_at};
ghost use Rattle.scenario_mnemonics.specs.MnemonicWords.{behind_keyword, words_of_mnemonic};

/// The law of mnemonics and datagrams: `mnemonic_for` finds the mnemonic of a datagram wherever there is one
/// (`denotes`), of those that text can say and that fit, and there is at most one (`one`).
pub fn one_mnemonic()
    ensures denotes { (bytes : List ℕ) (m : Mnemonic) → All (λ b. b < 256) bytes
        → (mnemonic_of bytes ≡ Some m) ↔ (IsGood m × (datagram_of m ≡ bytes)) }
    ensures one { (m k : Mnemonic) → IsGood m → IsGood k → datagram_of m ≡ datagram_of k → m ≡ k }
{}

/// The law of words: the words of a mnemonic that is written are found again, and are read as this mnemonic of this
/// server.
pub fn words_again()
    ensures keyword { (k : Keyword) → keyword_named (keyword_word k) ≡ Some k }
    ensures read { (server : ℕ) (m : Mnemonic) → 1 ≤ server → server ≤ 65534 → IsGood m
        → mnemonic_at (keyword_of m) (behind_keyword server m) ≡ Ok (server, m) }
    ensures words { (server : ℕ) (m : Mnemonic) → server ≤ 65534 → IsGood m
        → AllByRecursion IsWord (words_of_mnemonic server m) }
    ensures line { (server : ℕ) (m : Mnemonic) → server ≤ 65534 → IsGood m
        → words (join_with_byte 32 (words_of_mnemonic server m)) ≡ words_of_mnemonic server m }
{}
