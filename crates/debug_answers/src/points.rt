//! The points of breakpoints, and the arguments that other commands have too.

ghost use Rattle.std.specs.Prelude.{◌≤◌, IfOk};
ghost use Rattle.scenario_words.specs.Words.{words};
ghost use Rattle.scenario_words.specs.Reading.{Reads, word_by};
ghost use Rattle.debug_answers.specs.Reading.{byte_of, code_point, device_and_path, only_number, point_by, step_point};

use crate::command::Point;
use object_defs::Path;
use scenario_words::{Cause, end, first_word, hex_digit_value, is_name, natural, path};

/// One number from 0 to `high`, and no further word.
pub(crate) fn only_number(line: &[u8], high: u64) -> Result<u64, Cause>
    ensures number { Reads (λ n. n) result (only_number high (words line.now)) }
    ensures range { IfOk result (λ n. n ≤ high) }
{
    let (number, line) = natural(line, 0, high)?;
    end(line)?;
    Ok(number)
}

/// A device and a path, and no further word.
pub(crate) fn device_and_path(line: &[u8]) -> Result<(u16, Path), Cause>
    ensures { Reads (λ x. x) result (device_and_path (words line.now)) }
{
    let (device, line) = natural(line, 0, 65535)?;
    let (path, line) = path(line)?;
    end(line)?;
    Ok((device as u16, path))
}

fn step_point(line: &[u8]) -> Result<Point, Cause>
    ensures { Reads (λ p. p) result (step_point (words line.now)) }
{
    let (device, line) = natural(line, 0, 65535)?;
    let (step, line) = natural(line, 0, 4_294_967_295)?;
    end(line)?;
    Ok(Point::Step(device as u16, step as u32))
}

/// The byte of exactly two hex digits.
fn byte_of(word: &[u8]) -> Result<u8, Cause>
    ensures { Reads (λ b. b) result (byte_of word.now) }
{
    let [high, low] = word else {
        return Err(Cause::Token);
    };
    match (hex_digit_value(*high), hex_digit_value(*low)) {
        (Some(high), Some(low)) => Ok(high * 16 + low),
        _ => Err(Cause::Token),
    }
}

/// The first word of the line as a byte of two hex digits, and the line after it.
fn code(line: &[u8]) -> Result<(u8, &[u8]), Cause>
    ensures { Reads (λ x. (x.0, words x.1.now)) result (word_by byte_of (words line.now)) }
{
    let (word, line) = first_word(line)?;
    let byte = byte_of(word)?;
    Ok((byte, line))
}

fn code_point(line: &[u8]) -> Result<Point, Cause>
    ensures { Reads (λ p. p) result (code_point (words line.now)) }
{
    let (device, line) = natural(line, 0, 65535)?;
    let (code, line) = code(line)?;
    end(line)?;
    Ok(Point::Code(device as u16, code))
}

/// The point of a breakpoint, by its first word and the line after it.
pub(crate) fn point_by(word: &[u8], line: &[u8]) -> Result<Point, Cause>
    ensures { Reads (λ p. p) result (point_by word.now (words line.now)) }
{
    if is_name(word, "at") {
        let place = only_number(line, u64::MAX)?;
        Ok(Point::At(place))
    } else if is_name(word, "step") {
        step_point(line)
    } else if is_name(word, "changed") {
        let (device, path) = device_and_path(line)?;
        Ok(Point::Changed(device, path))
    } else if is_name(word, "code") {
        code_point(line)
    } else if is_name(word, "notified") {
        let device = only_number(line, 65535)?;
        Ok(Point::Notified(device as u16))
    } else {
        Err(Cause::UnknownWord)
    }
}
