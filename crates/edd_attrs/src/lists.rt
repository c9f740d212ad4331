//! Lists of elements.

ghost use Rattle.std.specs.Prelude.{IsErrOf, IsTrue, OnOk, map};
ghost use Rattle.std.specs.List.{flat_map, list_all};
ghost use Rattle.edd_code.specs.Tables.{Grows, Overflows};
ghost use Rattle.edd_code.specs.Written.{WritesBlock};
ghost use Rattle.edd_attrs.specs.TreeBlocks.{IsLineBlock};

use crate::elements::Element;
use edd_code::LowerFault;
use edd_instructions::Emitter;
use edd_strings::Table;
use std::alloc::Global;

/// The code of a list of elements.
pub fn write_all<V: Element>(
    alloc: Global,
    code: &mut Emitter,
    table: &mut Table,
    all: &[V],
) -> Result<(), LowerFault>
    requires { IsTrue (list_all V.is_kept (map V.view all.now)) }
    ensures sound { OnOk result
        (WritesBlock table.old code.old (flat_map V.strings (map V.view all.now))
        (λ numbered b. IsLineBlock (V.is_block numbered) (map V.view all.now) b) table.new
        code.new) }
    ensures grows { Grows table.old table.new }
    ensures refused { IsErrOf result LowerFault.TooMany
        → Overflows table.old (flat_map V.strings (map V.view all.now)) }
{
    for v in all {
        v.write(alloc, code, table)?;
    }
    Ok(())
}
