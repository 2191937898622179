// What the exported functions store in a slice of the caller's: three numbers, a joint's rows and their ids.
ghost use Rattle.std.specs.Prelude.{◌≡◌, ◌+◌, ◌*◌, ◌≤◌, ◌<◌, length};
ghost use Rattle.capi.specs.Stored.{put_three, put_if, put_first, id_number, put_id, put_ids};
ghost use Rattle.model.specs.Layout.{row_width};
ghost use Rattle.model.specs.Store.{put_row};

use model::single_records::write_row;
use rows::joint_velocity_constraint::{JointConstraint, Rows, WritebackId};
use rows::row_ids::{RowId, RowIds};

// Three numbers, stored from `at` on.
pub fn put_three(out: &mut [f32], at: usize, a: f32, b: f32, c: f32)
    requires { at + 2 < length out.old }
    ensures { out.new ≡ put_three out.old at a b c }
{
    out[at] = a;
    out[at + 1] = b;
    out[at + 2] = c;
}

// The slice with row k replaced, which it holds.
pub fn put_row(s: &mut [f32], k: usize, row: JointConstraint)
    requires { k * row_width + row_width ≤ length s.old }
    ensures { s.new ≡ put_row s.old k row }
{
    write_row(s, k, row);
}

// Row k stored, if it is one of the first n.
fn put_if(rows: &mut [f32], k: usize, n: usize, row: JointConstraint)
    requires k_bound { k < 6 }
    requires in_bounds { 108 ≤ length rows.old }
    ensures { rows.new ≡ put_if rows.old k n row }
{
    if k < n {
        put_row(rows, k, row);
    }
}

pub fn put_first(rows: &mut [f32], made: Rows)
    requires { 108 ≤ length rows.old }
    ensures { rows.new ≡ put_first rows.old made }
{
    let n = made.len;
    let all = made.rows;
    put_if(rows, 0, n, all[0]);
    put_if(rows, 1, n, all[1]);
    put_if(rows, 2, n, all[2]);
    put_if(rows, 3, n, all[3]);
    put_if(rows, 4, n, all[4]);
    put_if(rows, 5, n, all[5]);
}

// An id's number. The axes are 0, 1 and 2.
fn id_number(id: WritebackId) -> u32
    ensures { result ≡ id_number id }
{
    match id {
        WritebackId::Dof(i) => (i % 4) as u32,
        WritebackId::Limit(i) => 4 + (i % 4) as u32,
        WritebackId::Motor(i) => 8 + (i % 4) as u32,
    }
}

// The number of id k stored, if it is one of the first n.
fn put_id(ids: &mut [u32], k: usize, n: usize, named: RowId)
    requires { k < length ids.old }
    ensures { ids.new ≡ put_id ids.old k n named }
{
    if k < n {
        let id = named.id;
        let number = id_number(id);
        ids[k] = number;
    }
}

pub fn put_ids(ids: &mut [u32], named: RowIds)
    requires { 6 ≤ length ids.old }
    ensures { ids.new ≡ put_ids ids.old named }
{
    let n = named.len;
    let all = named.ids;
    put_id(ids, 0, n, all[0]);
    put_id(ids, 1, n, all[1]);
    put_id(ids, 2, n, all[2]);
    put_id(ids, 3, n, all[3]);
    put_id(ids, 4, n, all[4]);
    put_id(ids, 5, n, all[5]);
}
