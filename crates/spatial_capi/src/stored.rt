// What the exported functions of space store in a slice of the caller's: a joint's rows and their ids.
ghost use Rattle.std.specs.Prelude.{◌≡◌, ◌+◌, ◌*◌, ◌≤◌, ◌<◌, length};
ghost use Rattle.spatial_capi.specs.Stored.{put_if, put_three_rows, put_first, id_number, put_id, put_three_ids, put_ids};
ghost use Rattle.spatial_model.specs.Layout.{row_width};
ghost use Rattle.spatial_model.specs.Store.{put_row};

use rows::joint_velocity_constraint::WritebackId;
use rows::row_ids::RowId;
use spatial_model::single_records::write_row;
use spatial_rows::joint_velocity_constraint::{JointConstraint, Rows};
use spatial_rows::row_ids::RowIds;

// The slice with row k replaced, which it holds.
pub fn put_row(s: &mut [f32], k: usize, row: JointConstraint)
    requires { k * row_width + row_width ≤ length s.old }
    ensures { s.new ≡ put_row s.old k row }
{
    write_row(s, k, row);
}

// Row k stored, if it is one of the first n.
fn put_if(rows: &mut [f32], k: usize, n: usize, row: JointConstraint)
    requires k_bound { k < 9 }
    requires in_bounds { 261 ≤ length rows.old }
    ensures { rows.new ≡ put_if rows.old k n row }
{
    if k < n {
        put_row(rows, k, row);
    }
}

// Three rows from row k on, each if it is one of the first n.
fn put_three_rows(
    rows: &mut [f32],
    k: usize,
    n: usize,
    a: JointConstraint,
    b: JointConstraint,
    c: JointConstraint,
)
    requires k_bound { k + 2 < 9 }
    requires in_bounds { 261 ≤ length rows.old }
    ensures { rows.new ≡ put_three_rows rows.old k n a b c }
{
    put_if(rows, k, n, a);
    put_if(rows, k + 1, n, b);
    put_if(rows, k + 2, n, c);
}

pub fn put_first(rows: &mut [f32], made: Rows)
    requires { 261 ≤ length rows.old }
    ensures { rows.new ≡ put_first rows.old made }
{
    let n = made.len;
    let all = made.rows;
    put_three_rows(rows, 0, n, all[0], all[1], all[2]);
    put_three_rows(rows, 3, n, all[3], all[4], all[5]);
    put_three_rows(rows, 6, n, all[6], all[7], all[8]);
}

// An id's number. The axes are 0 to 5.
fn id_number(id: WritebackId) -> u32
    ensures { result ≡ id_number id }
{
    match id {
        WritebackId::Dof(i) => (i % 8) as u32,
        WritebackId::Limit(i) => 8 + (i % 8) as u32,
        WritebackId::Motor(i) => 16 + (i % 8) as u32,
    }
}

// The number of id k stored, if it is one of the first n.
fn put_id(ids: &mut [u32], k: usize, n: usize, named: RowId)
    requires { k < length ids.old }
    ensures { ids.new ≡ put_id ids.old k n named }
{
    if k < n {
        let id = named.id;
        let number = id_number(id);
        ids[k] = number;
    }
}

// Three ids' numbers from place k on, each if it is one of the first n.
fn put_three_ids(ids: &mut [u32], k: usize, n: usize, a: RowId, b: RowId, c: RowId)
    requires { k + 2 < length ids.old }
    ensures { ids.new ≡ put_three_ids ids.old k n a b c }
{
    put_id(ids, k, n, a);
    put_id(ids, k + 1, n, b);
    put_id(ids, k + 2, n, c);
}

pub fn put_ids(ids: &mut [u32], named: RowIds)
    requires { 9 ≤ length ids.old }
    ensures { ids.new ≡ put_ids ids.old named }
{
    let n = named.len;
    let all = named.ids;
    put_three_ids(ids, 0, n, all[0], all[1], all[2]);
    put_three_ids(ids, 3, n, all[3], all[4], all[5]);
    put_three_ids(ids, 6, n, all[6], all[7], all[8]);
}
