//! What came, the words of each answer, and what datagrams say.
ghost use Rattle.std.specs.Prelude.{◌≡◌, ◌++◌, ◌∷◌, [], map, IfOk, OnOk};
ghost use Rattle.std.specs.Str.Lines.{lines};
ghost use Rattle.std.specs.String.{string_bytes};
ghost use Rattle.command_test.specs.Came.{answers_of, output_answer, output_answers, plain, said, says_of, text_line};

use crate::words::{came_words, output_words};
use case_play::Came;
use device_machine::Output;
use lwm2m_values::Text;
use message_words::datagram_text;
use std::alloc::{AllocError, Global};
use test_reports::{CameAnswer, CameAnswers};

/// What a datagram says.
pub(crate) fn said(alloc: Global, bytes: &[u8]) -> Result<Text, AllocError>
    ensures { IfOk result (λ text. text ≡ said bytes.now) }
{
    let words = datagram_text(alloc, bytes)?;
    Ok(Text::from_string(words))
}

/// Adds an answer.
fn put(answers: &mut Vec<CameAnswer>, words: String, says: Option<Text>) -> Result<(), AllocError>
    ensures { OnOk result (answers.new.items
        ≡ answers.old.items ++ (record { words = string_bytes words; says = says }) ∷ []) }
{
    answers.push(CameAnswer {
        words: Text::from_string(words),
        says,
    })?;
    Ok(())
}

/// What an output says, if it is a datagram.
fn says_of(alloc: Global, output: &Output) -> Result<Option<Text>, AllocError>
    ensures { IfOk result (λ o. o ≡ says_of output.now) }
{
    match output {
        Output::Send { bytes, .. } => Ok(Some(said(alloc, bytes.as_slice())?)),
        Output::Act(_) => Ok(None),
    }
}

fn put_output(
    alloc: Global,
    answers: &mut Vec<CameAnswer>,
    output: &Output,
) -> Result<(), AllocError>
    ensures { OnOk result (answers.new.items ≡ answers.old.items ++ output_answer output.now ∷ []) }
{
    let words = output_words(alloc, output)?;
    let says = says_of(alloc, output)?;
    put(answers, words, says)
}

fn put_each_output(
    alloc: Global,
    answers: &mut Vec<CameAnswer>,
    outputs: &[Output],
) -> Result<(), AllocError>
    ensures { OnOk result (answers.new.items ≡ answers.old.items ++ map output_answer outputs.now) }
{
    for output in outputs {
        put_output(alloc, answers, output)?;
    }
    Ok(())
}

fn put_word(alloc: Global, answers: &mut Vec<CameAnswer>, word: &str) -> Result<(), AllocError>
    ensures { OnOk result (answers.new.items ≡ answers.old.items ++ plain word.now ∷ []) }
{
    let words = String::from_str(alloc, word)?;
    put(answers, words, None)
}

/// Adds outputs, in their order, or that there are none.
fn put_outputs(
    alloc: Global,
    answers: &mut Vec<CameAnswer>,
    outputs: &[Output],
) -> Result<(), AllocError>
    ensures { OnOk result (answers.new.items ≡ answers.old.items ++ output_answers outputs.now) }
{
    match outputs {
        [] => put_word(alloc, answers, "nothing"),
        [_, ..] => put_each_output(alloc, answers, outputs),
    }
}

fn put_text_line(alloc: Global, answers: &mut Vec<CameAnswer>, line: &str) -> Result<(), AllocError>
    ensures { OnOk result (answers.new.items ≡ answers.old.items ++ text_line line.now ∷ []) }
{
    let words = format!(in alloc; "=| {line}")?;
    put(answers, words, None)
}

/// Adds the lines of a text, in their order.
fn put_text_lines(
    alloc: Global,
    answers: &mut Vec<CameAnswer>,
    text: &str,
) -> Result<(), AllocError>
    ensures { OnOk result (answers.new.items ≡ answers.old.items ++ map text_line (lines text.now)) }
{
    for line in text.lines() {
        put_text_line(alloc, answers, line)?;
    }
    Ok(())
}

/// Adds a word, and the lines of a text after it.
fn put_text(
    alloc: Global,
    answers: &mut Vec<CameAnswer>,
    word: &str,
    text: &str,
) -> Result<(), AllocError>
    ensures { OnOk result (answers.new.items
        ≡ answers.old.items ++ plain word.now ∷ map text_line (lines text.now)) }
{
    put_word(alloc, answers, word)?;
    put_text_lines(alloc, answers, text)
}

/// Adds what came.
fn put_came(alloc: Global, answers: &mut Vec<CameAnswer>, came: &Came) -> Result<(), AllocError>
    ensures { OnOk result (answers.new.items ≡ answers.old.items ++ answers_of came.now) }
{
    match came {
        Came::Outputs(outputs) => put_outputs(alloc, answers, outputs.as_slice()),
        Came::Text(text) => put_text(alloc, answers, "text", text.as_str()),
        Came::Entries(text) => put_text(alloc, answers, "entries", text.as_str()),
        Came::Nowhere
        | Came::Value(_)
        | Came::Clock(_)
        | Came::Observations(_)
        | Came::Due(_)
        | Came::Run { .. }
        | Came::Image(_)
        | Came::Trace(_)
        | Came::TooLarge
        | Came::IsRun
        | Came::NotARun(_)
        | Came::Fault(_)
        | Came::Ok { .. }
        | Came::OkEntries(_) => {
            let words = came_words(alloc, came)?;
            put(answers, words, None)
        }
    }
}

/// What came, answer by answer.
pub(crate) fn answers_of(alloc: Global, came: &Came) -> Result<CameAnswers, AllocError>
    ensures { IfOk result (λ answers. answers ≡ answers_of came.now) }
{
    let mut answers = Vec::new(alloc);
    put_came(alloc, &mut answers, came)?;
    Ok(CameAnswers::from_vec(answers))
}
