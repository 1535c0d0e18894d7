ghost use Rattle.std.specs.Prelude.{◌≡◌, ◌<◌, ◌≤◌, ◌^◌, ◌↔◌, ℕ, ℤ, List, [], ◌∷◌, ◌++◌, Ok, FitsSigned};
ghost use Rattle.std.specs.Int.{w64};
ghost use Rattle.std.specs.Fmt.{decimal, signed_decimal};
ghost use Rattle.std.specs.Str.{IsUtf8};
ghost use Rattle.std.specs.List.{AllByRecursion, flat_map, join_with_byte};
ghost use Rattle.std.specs.Int.Digits.{AllBelowBase};
ghost use Rattle.scenario_words.specs.Words.{words, lines, ended_line, IsWord, IsLine};
ghost use Rattle.scenario_words.specs.HexWord.{bytes_of, hex_word, IsHex};
ghost use Rattle.scenario_words.specs.Quoted.{text_of, quoted_word, IsQuoted};
ghost use Rattle.object_defs.specs.declared.path.Path.{Path};
ghost use Rattle.lwm2m_values.specs.declared.value.Value.{Value};
ghost use Rattle.lwm2m_values.specs.Value.{kind_of};
ghost use Rattle.scenario_words.specs.PathWord.{path_of, IsPath, link_of, link_word};
ghost use Rattle.object_defs.specs.Path.{path_text};
ghost use Rattle.scenario_words.specs.ValueWords.{kind_word, value_at, value_word, spelling_of_value, IsValue};
ghost use Rattle.scenario_words.specs.Number.{number_of, integer_of};

/// The law of numbers: a word is read as a number exactly if it is the number's decimal spelling and the number is in
/// its range.
pub fn numbers()
    ensures natural { (low high n : ℕ) (w : List ℕ) → high < 2 ^ 64
        → (number_of low high w ≡ Ok n) ↔ ((w ≡ decimal n) × (low ≤ n) × (n ≤ high)) }
    ensures integer { (z : ℤ) (w : List ℕ) → (integer_of w ≡ Ok z) ↔ ((w ≡ signed_decimal z) × FitsSigned w64 z) }
{}

/// The law of bytes in hex: a word is read as these bytes exactly where it stands for them, and the word that is
/// written stands for them.
pub fn bytes_in_hex()
    ensures read { (w bs : List ℕ) → (bytes_of w ≡ Ok bs) ↔ IsHex w bs }
    ensures written { (bs : List ℕ) → AllBelowBase 256 bs → IsHex (hex_word bs) bs }
{}

/// The law of quoted text: a word is read as this text exactly where it is the text in quotes, and so is the word
/// that is written.
pub fn texts_in_quotes()
    ensures read { (w t : List ℕ) → (text_of w ≡ Ok t) ↔ IsQuoted w t }
    ensures written { (t : List ℕ) → IsUtf8 t → AllBelowBase 256 t → IsQuoted (quoted_word t) t }
{}

/// The law of paths and links: a word is read as one exactly if it is as that is written, with numbers of 16 bits.
pub fn paths_and_links()
    ensures path { (w : List ℕ) (p : Path) → (path_of w ≡ Ok p) ↔ ((w ≡ path_text p) × IsPath p) }
    ensures link { (w : List ℕ) (o i : ℕ) → (link_of w ≡ Ok (o, i))
        ↔ ((w ≡ link_word o i) × (o < 65536) × (i < 65536)) }
{}

/// The law of values: the two words of a value that is written are found again, and are read as this value; so
/// values that are written alike are one.
pub fn values_read_again()
    ensures words { (v : Value) → IsValue v → words (spelling_of_value v) ≡ kind_word (kind_of v) ∷ value_word v ∷ [] }
    ensures value { (v : Value) (ws : List (List ℕ)) → IsValue v
        → value_at (kind_word (kind_of v) ∷ value_word v ∷ ws) ≡ Ok (v, ws) }
{}

/// The law of words and lines: words that are joined by spaces are found again, and so are lines that are ended.
/// After the last LF stands one more line, without bytes.
pub fn words_and_lines()
    ensures words { (ws : List (List ℕ)) → AllByRecursion IsWord ws → words (join_with_byte 32 ws) ≡ ws }
    ensures lines { (ls : List (List ℕ)) → AllByRecursion IsLine ls → lines (flat_map ended_line ls) ≡ ls ++ [] ∷ [] }
{}
