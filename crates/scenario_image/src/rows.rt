//! Rows, read from the front of bytes and written.

ghost use Rattle.std.specs.Prelude.{◌≡◌, ◌≢◌, ◌++◌, nat_lt, length, IfErr, OnOk};
ghost use Rattle.std.specs.Int.{w16};
ghost use Rattle.std.specs.Io.{StartsWith};
ghost use Rattle.byte_layout.specs.declared.fault.Break.TheVariants.{BadField};
ghost use Rattle.byte_layout.specs.declared.fault.ReadError.TheVariants.{Memory};
ghost use Rattle.byte_layout.specs.Outcome.{Gives};
ghost use Rattle.byte_layout.specs.Layout.{number, layout_with_test};
ghost use Rattle.scenario_image.specs.Layout.{row, rows};
ghost use Rattle.scenario_image.specs.Scenario.{accounts_of};

use crate::reading::steps_at;
use crate::row::Row;
use crate::scenario::MOST_ROWS;
use crate::writing::put_steps;
use byte_layout::{
    Break, Items, PutItems, ReadError, items_at, put_items, put_u16, u16_at, u16_at_most,
};
use device_machine::Template;
use std::alloc::{AllocError, Global};

/// The accounts of the class at this place; none where there is no such class.
fn accounts_of(classes: &[Template], class: u16) -> &[u16]
    ensures { result.now ≡ accounts_of classes.now class }
{
    match classes.get(usize::from(class)) {
        None => &[],
        Some(class) => class.accounts(),
    }
}

/// The place of a class that is there.
fn class_number_at<'a>(classes: &[Template], bytes: &'a [u8]) -> Result<(u16, &'a [u8]), ReadError>
    ensures read { Gives (λ x. (x.0, x.1.now)) result
        ((layout_with_test BadField (λ class. nat_lt class (length classes.now)) (number w16)).read bytes.now) }
    ensures no_memory { IfErr result (λ e. e ≢ Memory) }
{
    let (class, rest) = u16_at(bytes)?;
    if usize::from(class) >= classes.len() {
        return Err(ReadError::Fault(Break::BadField(bytes.len())));
    }
    Ok((class, rest))
}

/// The row of a device of one of these classes, and the bytes after it.
#[tactic(auto, unfolding(crate::specs::Layout::row))]
pub(crate) fn row_at<'a>(
    alloc: Global,
    classes: &[Template],
    bytes: &'a [u8],
) -> Result<(Row, &'a [u8]), ReadError>
    ensures { Gives (λ x. (x.0, x.1.now)) result ((row classes.now).read bytes.now) }
{
    let (class, rest) = class_number_at(classes, bytes)?;
    let accounts = accounts_of(classes, class);
    let (steps, rest) = steps_at(alloc, accounts, rest)?;
    Ok((Row::with_steps(class, steps), rest))
}

/// Writes the row of a device of one of these classes. Where memory runs out, some of its bytes may have been written
/// after those that stood there.
#[tactic(auto, using(byte_layout::proofs::Appended::appended), unfolding(crate::specs::Layout::row))]
pub(crate) fn put_row(out: &mut Vec<u8>, classes: &[Template], held: &Row) -> Result<(), AllocError>
    requires { (row classes.now).Good held.now }
    ensures ok { OnOk result (out.new.items ≡ out.old.items ++ (row classes.now).spell held.now) }
    ensures appends { StartsWith out.new.items out.old.items }
{
    put_u16(out, held.class())?;
    put_steps(out, accounts_of(classes, held.class()), held.steps())
}

/// Rows of devices of these classes.
#[derive(Drop)]
struct Rows<'a> {
    classes: &'a [Template],
}

impl<'a> Items for Rows<'a> {
    ghost use Rattle.scenario_image.specs.Layout.{row};

    type Item = Row;

    ghost part = { λ r before. row r.classes.now };

    fn item_at<'b>(
        &self,
        alloc: Global,
        _before: &[Row],
        bytes: &'b [u8],
    ) -> Result<(Row, &'b [u8]), ReadError> {
        row_at(alloc, self.classes, bytes)
    }
}

impl<'a> PutItems for Rows<'a> {
    fn put_item(&self, out: &mut Vec<u8>, _before: &[Row], item: &Row) -> Result<(), AllocError> {
        put_row(out, self.classes, item)
    }
}

/// The rows of devices of these classes, at most 16,384, and the bytes after them.
#[tactic(auto, unfolding(crate::specs::Layout::rows))]
pub(crate) fn rows_at<'a>(
    alloc: Global,
    classes: &[Template],
    bytes: &'a [u8],
) -> Result<(Vec<Row>, &'a [u8]), ReadError>
    ensures { Gives (λ x. (x.0.items, x.1.now)) result ((rows classes.now).read bytes.now) }
{
    let (count, rest) = u16_at_most(MOST_ROWS, bytes)?;
    items_at(&Rows { classes }, alloc, usize::from(count), rest)
}

/// Writes rows of devices of these classes. Where memory runs out, some of their bytes may have been written.
#[tactic(auto, unfolding(crate::specs::Layout::rows))]
pub(crate) fn put_rows(
    out: &mut Vec<u8>,
    classes: &[Template],
    list: &[Row],
) -> Result<(), AllocError>
    requires { (rows classes.now).Good list.now }
    ensures { OnOk result (out.new.items ≡ out.old.items ++ (rows classes.now).spell list.now) }
{
    put_u16(out, list.len() as u16)?;
    put_items(&Rows { classes }, out, list)
}
