ghost use Rattle.std.specs.Prelude.{◌≡◌};
ghost use Rattle.std.specs.Option.{ok_or};
ghost use Rattle.toml.specs.View.{view, items_view};
ghost use Rattle.mpm_machine_file.specs.Reading.{ReadsValue, Gives};
ghost use Rattle.mpm_machine_file.specs.Fields.{all_of};
ghost use Rattle.mpm_machine_file.specs.Segments as spec;

use crate::error::MachineError;
use crate::fields::{has_only, number_at};
use crate::lists::Segments;
use mpm_base::SegmentSpec;
use std::alloc::Global;
use toml::Value;

/// The page at which common memory begins: segments end below it.
const END_PAGE: u32 = 192;

/// How many segments a machine file of a version, 1 or 2, may have.
pub fn most_segments(version: u32) -> usize
    ensures { result ≡ spec.most_segments version }
{
    if version == 1 { 8 } else { 16 }
}

/// The segments of the array at `segment`: one or more, and no more than that many.
#[tactic(auto, unfolding(crate::specs::Segments::segments_of))]
pub fn segments(alloc: Global, most: usize, value: &Value) -> Result<Segments, MachineError>
    ensures { ReadsValue result (spec.segments_of most (view value.now)) }
{
    let Some(items) = value.as_array() else {
        return Err(MachineError::Fault);
    };
    let segments = each_segment(alloc, items.as_slice())?;
    if 1 <= segments.len() && segments.len() <= most {
        Ok(Segments::of(segments))
    } else {
        Err(MachineError::Fault)
    }
}

/// Each of some values as a segment.
fn each_segment(alloc: Global, items: &[Value]) -> Result<Vec<SegmentSpec>, MachineError>
    ensures { Gives (λ v. v.items) result (all_of spec.segment_of (items_view items.now)) }
{
    let mut segments = Vec::new(alloc);
    for item in items {
        segments.push(segment(item)?)?;
    }
    Ok(segments)
}

/// A table of a base page and a number of pages.
#[tactic(auto, unfolding(crate::specs::Segments::segment_of))]
fn segment(value: &Value) -> Result<SegmentSpec, MachineError>
    ensures { result ≡ ok_or (spec.segment_of (view value.now)) MachineError.Fault }
{
    let Some(table) = value.as_table() else {
        return Err(MachineError::Fault);
    };
    let base = number_at(table, "base", 0, 188)?;
    let pages = number_at(table, "pages", 4, END_PAGE)?;
    if !has_only(table, &["base", "pages"]) || base + pages > END_PAGE {
        return Err(MachineError::Fault);
    }
    Ok(SegmentSpec {
        base: base as u8,
        pages: pages as u8,
    })
}
