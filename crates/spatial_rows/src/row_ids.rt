// Which rows a joint in space has, from its masks: document 01, "Which rows, in which order", at three linear and three angular axes.
ghost use Rattle.std.specs.Prelude.{◌≡◌, not, ◌&&◌, ◌%◌, ◌<◌, length};
ghost use Rattle.std.specs.Int.Count.{ones};
ghost use Rattle.rows.specs.RowIds.{has_axis, group_one, row_ids};
ghost use Rattle.rows.specs.RowSlots.{bits_of};
ghost use Rattle.spatial_rows.specs.SpatialMasks.{spatial_masks};
ghost use Rattle.spatial_rows.specs.RowIds.{row_ids_array};
ghost use Rattle.spatial_rows.specs.RowSlots.{slot_id, linear_axes, slot_bits};

use rows::generic_joint::Masks;
use rows::joint_velocity_constraint::WritebackId;
use rows::row_ids::RowId;

// A joint's ids: `len` of them, of which the first `first` are group one.
#[derive(Clone, Copy)]
pub struct RowIds {
    pub ids: [RowId; 9],
    pub first: usize,
    pub len: usize,
}

// ---- the ids one by one: twelve slots in the order of rows, one bit for each that is named

// The linear axes of a mask that are not locked.
fn unlocked(mask: u32, locked: u32) -> u32
    ensures value { result ≡ bits_of (linear_axes (λ i. has_axis (mask % 8) i && not (has_axis (locked % 64) i))) }
    ensures upper_bound { result < 8 }
{
    (mask % 8) & !(locked % 8)
}

// A joint's slots. Their ids, from the lowest bit up, are the joint's.
pub(crate) fn row_slots(masks: Masks) -> u32
    ensures { result ≡ slot_bits masks }
{
    let locked = masks.locked_axes;
    let motors = unlocked(masks.motor_axes, locked);
    let limits = unlocked(masks.limit_axes, locked);
    motors + locked % 64 / 8 * 8 + locked % 8 * 64 + limits * 512
}

// The id of slot s.
pub(crate) fn slot_id(s: u32) -> WritebackId
    ensures { result ≡ slot_id s }
{
    if s < 3 {
        WritebackId::Motor(s as usize)
    } else if s < 6 {
        WritebackId::Dof(s as usize)
    } else if s < 9 {
        WritebackId::Dof((s - 6) as usize)
    } else {
        WritebackId::Limit((s - 9) as usize)
    }
}

// How many slots of motors are named.
pub(crate) fn motors_of(slots: u32) -> usize
    ensures { result ≡ ones (slots % 8) }
{
    u32::count_ones(slots % 8) as usize
}

// The number of a joint's motor rows. They are its first ones.
pub fn motor_count(masks: Masks) -> usize
    ensures { result ≡ length (group_one 3 3 (spatial_masks masks)) }
{
    motors_of(row_slots(masks))
}

// The number of a joint's rows.
pub fn row_count(masks: Masks) -> usize
    ensures { result ≡ length (row_ids 3 3 (spatial_masks masks)) }
{
    u32::count_ones(row_slots(masks)) as usize
}

// A joint's ids, in the order of its rows.
pub fn row_ids(masks: Masks) -> RowIds
    ensures { result ≡ row_ids_array masks }
{
    let mut ids = [RowId {
        id: WritebackId::Dof(0),
    }; 9];
    // One turn a set bit, the lowest first: no range counts them.
    let mut left = row_slots(masks);
    let mut k = 0usize;
    while left > 0 {
        let id = slot_id(u32::trailing_zeros(left));
        ids[k] = RowId { id };
        left &= left - 1;
        k += 1;
    }
    let first = motor_count(masks);
    RowIds { ids, first, len: k }
}
