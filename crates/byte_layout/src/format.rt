ghost use Rattle.std.specs.Prelude.{◌≡◌, ◌≢◌, IfOk, IfErr, IsErrAnd, MatchResult};
ghost use Rattle.byte_layout.specs.declared.fault.LayoutFault.{LayoutFault};
ghost use Rattle.byte_layout.specs.declared.fault.LayoutFault.TheVariants.{Memory};
ghost use Rattle.byte_layout.specs.Whole.{IsAll, HasFault, read_all};
ghost use Rattle.byte_layout.specs.Exact.{IsExact};
ghost use Rattle.byte_layout.specs.Outcome.{Gives};

use crate::fault::{Break, LayoutFault, ReadError, fault_at};
use std::alloc::Global;

/// A format of bytes, and how values are read in it.
pub trait Format {
    ghost use Rattle.byte_layout.specs.Layout.{Layout};
    ghost use Rattle.byte_layout.specs.Outcome.{Gives};

    /// What is read.
    type Value: Drop;

    /// What contracts see of it.
    ghost Data: { Type 0 };

    ghost view: { Self.Value → Data };

    /// How it is laid out.
    ghost layout: { Layout Data };

    /// The value at the front of the bytes, and the bytes after it.
    fn read(alloc: Global, bytes: &[u8]) -> Result<(Self::Value, &[u8]), ReadError>
        ensures { Gives (λ x. (view x.0, x.1.now)) result (layout.read bytes.now) };
}

/// The value whose bytes these are, all of them, otherwise their first fault from the left: of any format whose layout
/// is exact.
pub fn load<F: Format>(alloc: Global, bytes: &[u8]) -> Result<F::Value, LayoutFault>
    requires { IsExact F.layout }
    ensures found { IfOk result (λ v. IsAll F.layout bytes.now (F.view v)) }
    ensures only { (a : F.Data) → IsAll F.layout bytes.now a
        → MatchResult result (λ v. F.view v ≡ a) (λ f. f ≡ Memory) }
    ensures fault { IfErr result (λ f. f ≢ Memory → HasFault F.layout bytes.now f) }
    ensures refused { (f : LayoutFault) → HasFault F.layout bytes.now f → IsErrAnd result (λ g. g ≢ Memory → g ≡ f) }
{
    match read_whole::<F>(alloc, bytes) {
        Ok(value) => Ok(value),
        Err(error) => Err(fault_at(bytes.len(), error)),
    }
}

/// The value of all of the bytes.
fn read_whole<F: Format>(alloc: Global, bytes: &[u8]) -> Result<F::Value, ReadError>
    ensures { Gives F.view result (read_all F.layout bytes.now) }
{
    let (value, rest) = F::read(alloc, bytes)?;
    if !rest.is_empty() {
        return Err(ReadError::Fault(Break::Trailing));
    }
    Ok(value)
}
