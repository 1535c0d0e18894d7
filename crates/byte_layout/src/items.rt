ghost use Rattle.std.specs.Prelude.{◌≡◌, ◌++◌, [], length, OnOk};
ghost use Rattle.std.specs.Io.{StartsWith};
ghost use Rattle.byte_layout.specs.Layout.{each};
ghost use Rattle.byte_layout.specs.Outcome.{Gives};

use crate::fault::ReadError;
use std::alloc::{AllocError, Global};

/// How items are read that stand one after another, where each may depend on those before it.
pub trait Items {
    ghost use Rattle.std.specs.Prelude.{List};
    ghost use Rattle.byte_layout.specs.Layout.{Layout};
    ghost use Rattle.byte_layout.specs.Outcome.{Gives};

    /// An item.
    type Item: Drop;

    /// How an item is laid out after those.
    ghost part: { Self → List Self.Item → Layout Self.Item };

    /// The item at the front of the bytes, after those, and the bytes after it.
    fn item_at<'a>(
        &self,
        alloc: Global,
        before: &[Self::Item],
        bytes: &'a [u8],
    ) -> Result<(Self::Item, &'a [u8]), ReadError>
        ensures { Gives (λ x. (x.0, x.1.now)) result ((part self.now before.now).read bytes.now) };
}

/// n items at the front of the bytes, and the bytes after them. No room is made for more items than are read.
pub fn items_at<'a, I: Items>(
    items: &I,
    alloc: Global,
    count: usize,
    bytes: &'a [u8],
) -> Result<(Vec<I::Item>, &'a [u8]), ReadError>
    ensures { Gives (λ x. (x.0.items, x.1.now)) result ((each (I.part items.now) count []).read bytes.now) }
{
    let mut found = Vec::new(alloc);
    let mut rest = bytes;
    for _ in 0..count {
        let (item, after) = items.item_at(alloc, &found, rest)?;
        found.push(item)?;
        rest = after;
    }
    Ok((found, rest))
}

/// How such items are written.
pub trait PutItems: Items {
    ghost use Rattle.std.specs.Prelude.{◌≡◌, ◌++◌, OnOk};
    ghost use Rattle.std.specs.Io.{StartsWith};

    /// Writes the item that stands after those. Where memory runs out, some of its bytes may have been written after
    /// those that stood there.
    fn put_item(
        &self,
        out: &mut Vec<u8>,
        before: &[Self::Item],
        item: &Self::Item,
    ) -> Result<(), AllocError>
        requires { (Self.part self.now before.now).Good item.now }
        ensures ok { OnOk result (out.new.items ≡ out.old.items ++ (Self.part self.now before.now).spell item.now) }
        ensures appends { StartsWith out.new.items out.old.items };
}

/// Writes items one after another. Where memory runs out, some of their bytes may have been written after those that
/// stood there.
pub fn put_items<I: PutItems>(
    items: &I,
    out: &mut Vec<u8>,
    list: &[I::Item],
) -> Result<(), AllocError>
    requires { (each (I.part items.now) (length list.now) []).Good list.now }
    ensures ok { OnOk result (out.new.items ≡ out.old.items
        ++ (each (I.part items.now) (length list.now) []).spell list.now) }
    ensures appends { StartsWith out.new.items out.old.items }
{
    for (i, item) in list.iter().enumerate() {
        items.put_item(out, &list[..i], item)?;
    }
    Ok(())
}
