// The work table, a row for each rider set.
ghost use Rattle.std.specs.Prelude.{◌≤◌, ◌≡◌, length};
ghost use Rattle.rules.specs.Network.{node_count};
ghost use Rattle.rules.specs.Rooms.{Table, table_places};
ghost use Rattle.rules.specs.Request.{rider_count_of};
ghost use Rattle.table.specs.Filling.{KnownDistances, RowReady, RowFilled};

use crate::places::rider_bit;
use crate::tables::Tables;
use records::inner::Job;
use spread::inner::spread_drives;

// Fills row after row, so that a row is there before any larger rider set asks for it.
pub fn fill_table(job: &Job, distances: &[u32], table: &mut [u64])
    requires { KnownDistances job.now.network job.now.request distances.now
        × (table_places (node_count job.now.network) (rider_count_of job.now.request) ≤ length table.old) }
    ensures { Table job.now.network job.now.request table.old table.new }
{
    let n = job.network.node_count();
    for riders in 0..rider_bit(job.request.rider_count as u32) {
        let (below, rest) = table.split_at_mut(riders as usize * n);
        let tables = Tables {
            job: &*job,
            distances: &*distances,
            table: below,
        };
        fill_row(&tables, riders, &mut rest[..n]);
    }
}

// Fills row `riders`, from the rows below it. How far the table is filled is a clause and no type, since each row changes it.
fn fill_row(tables: &Tables, riders: u32, row: &mut [u64])
    requires { RowReady tables.now riders × (length row.old ≡ node_count tables.now.job.now.network) }
    ensures { RowFilled tables.now riders row.new }
{
    let job = tables.job;
    for v in 0..row.len() {
        row[v] = tables.start_value(riders, v);
    }
    spread_drives(job.network, job.request.bus_weight, row);
}
