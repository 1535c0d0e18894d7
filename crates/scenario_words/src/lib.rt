//! The words of scenario text: how a text is cut into lines and words, one reader for each kind of
//! word, and how words are written.
#![tactic(auto)]

mod cause;
mod cutting;
mod hex_words;
mod laws;
mod line;
mod number;
mod paths;
mod quotes;
mod values;

pub use cause::{Cause, cause_words};
pub use cutting::{cut, next_line};
pub use hex_words::{hex_bytes, hex_word};
pub use laws::{
    bytes_in_hex, numbers, paths_and_links, texts_in_quotes, values_read_again, words_and_lines,
};
pub use line::{end, first_word, is_name, next_word};
pub use number::{integer, natural};
pub use paths::path;
pub use quotes::{hex_digit_value, is_plain, quoted, quoted_word};
pub use values::{is_too_long, kind, kind_word, name_fault, spell, value};
