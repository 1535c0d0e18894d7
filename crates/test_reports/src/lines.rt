//! The lines of a text by their numbers.
ghost use Rattle.std.specs.Prelude.{◌≡◌, option_map, slice_get};
ghost use Rattle.scenario_words.specs.Words.{lines};
ghost use Rattle.test_reports.specs.Report.{line_at};

/// The line of this number, counted from 1; an empty one where there is none.
#[tactic(auto, using(crate::proofs::LinesAt::none_before, crate::proofs::LinesAt::none_past, crate::proofs::LinesAt::there, crate::proofs::LinesAt::not_there))]
pub fn line_at(text: &str, number: u128) -> &str
    ensures { result.now ≡ line_at text.now number }
{
    if number == 0 {
        return "";
    }
    if number - 1 > text.len() as u128 {
        return "";
    }
    let place = (number - 1) as usize;
    match line_of(text, place) {
        Some(line) => line,
        None => "",
    }
}

/// The line at this place, counted from 0.
fn line_of(text: &str, place: usize) -> Option<&str>
    ensures { option_map (λ x. x.now) result ≡ slice_get (lines text.now) place }
{
    text.split('\n').nth(place)
}
