//! What leads to the arms of a `switch`.

ghost use Rattle.std.specs.Prelude.{◌≡◌, OnOk, codes};
ghost use Rattle.rhai_lower.specs.declared.stmt.SwitchCase.{out-SwitchCase};
ghost use Rattle.rhai_json.specs.Fields.{list_field, numbers_field};
ghost use Rattle.rhai_json.specs.Trees.{range_value};

use crate::fields::{put_flag, put_integer, put_number, put_numbers};
use crate::out::Out;
use rhai_lower::{RangeCase, SwitchCase};
use std::alloc::AllocError;

/// The arms that a value leads to.
pub fn put_indices(out: &mut Out, case: &SwitchCase) -> Result<(), AllocError>
    ensures { OnOk result (out.new
        ≡ numbers_field (codes "indices") (out-SwitchCase case.now).indices.items out.old) }
{
    put_numbers(out, "indices", &case.indices)
}

fn put_range(out: &mut Out, range: &RangeCase) -> Result<(), AllocError>
    ensures { OnOk result (out.new ≡ range_value range.now out.old) }
{
    out.begin_object()?;
    put_integer(out, "first", range.first)?;
    put_integer(out, "last", range.last)?;
    put_flag(out, "is_inclusive", range.is_inclusive)?;
    put_number(out, "index", range.index)?;
    out.end_object()
}

/// The ranges that lead to arms.
pub fn put_ranges(out: &mut Out, ranges: &[RangeCase]) -> Result<(), AllocError>
    ensures { OnOk result (out.new ≡ list_field (codes "ranges") range_value ranges.now out.old) }
{
    out.key("ranges")?;
    out.begin_array()?;
    for range in ranges {
        put_range(out, range)?;
    }
    out.end_array()
}
