//! How regions are opened.
ghost use Rattle.std.specs.Prelude.{◌≡◌, ℕ, ◌+◌, ◌<◌, ◌≤◌, true, [], length, set};
ghost use Rattle.slots.specs.Cells.{cell_at, is_free, frees, next_of, cells};
ghost use Rattle.slots.specs.Cells.{Live};
ghost use Rattle.row.specs.Items.{row_items};
ghost use Rattle.model.specs.Calls.{Opened};

use model::ids::{OpId, Region, RegionId};
use model::limits::MAX_REGIONS;
use row::Row;
use slots::Table;

/// Opens one region for `owner`.
fn open_region(regions: &mut Table<Region>, owner: OpId, graph: bool) -> RegionId
    requires { 0 < frees (cells regions.old) }
    ensures free { is_free (cell_at (cells regions.old) result.slot) ≡ true }
    ensures next { result.generation ≡ next_of (cell_at (cells regions.old) result.slot) }
    ensures cells { cells regions.new ≡ set (cells regions.old) result.slot (Live result.generation (record { graph = graph; owner = owner })) }
{
    let slot = regions.free_slot().unwrap();
    let generation = regions.occupy(slot, Region { graph, owner });
    RegionId { slot, generation }
}

/// Opens a region for `owner` for each mark, and answers their identities.
pub fn open_regions(
    regions: &mut Table<Region>,
    owner: OpId,
    marks: &[bool],
) -> Row<RegionId, MAX_REGIONS>
    requires few { length marks.now ≤ 4 }
    requires room { length marks.now ≤ frees (cells regions.old) }
    ensures { Opened (cells regions.old) (cells regions.new) owner marks.now (row_items result) }
{
    let mut ids = Row::default();
    for graph in marks {
        ids.push(open_region(regions, owner, *graph));
    }
    ids
}
