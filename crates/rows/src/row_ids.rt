// Which rows a joint has, from its masks: document 01, "Which rows, in which order".
ghost use Rattle.std.specs.Prelude.{◌≡◌, true, cond, not, ◌&&◌, List, [], ◌∷◌, ◌++◌, ℕ, ◌+◌, ◌*◌, ◌/◌, ◌%◌, ◌≤◌, ◌<◌, ltb, length};
ghost use Rattle.std.specs.Int.Count.{ones};
ghost use Rattle.rows.specs.RowIds.{has_axis, is_locked, is_motor, is_limit, is_coupled, some, first_coupled, shares_linear, group_one, row_ids, row_ids_array};
ghost use Rattle.rows.specs.RowSlots.{slot_axis, slot_id, bits_of, at_axes, slot_bits};
ghost use Rattle.rows.specs.declared.joint_velocity_constraint.WritebackId.{WritebackId};

use crate::generic_joint::{Masks, has_axis};
use crate::joint_velocity_constraint::WritebackId;

// An id in an array: an array's element is a struct.
#[derive(Clone, Copy)]
pub struct RowId {
    pub id: WritebackId,
}

// A joint's ids: `len` of them, of which the first `first` are group one.
#[derive(Clone, Copy)]
pub struct RowIds {
    pub ids: [RowId; 6],
    pub first: usize,
    pub len: usize,
}

impl Masks {
    pub fn is_locked(self, axis: usize) -> bool
        ensures { result ≡ is_locked self axis }
    {
        has_axis(self.locked_axes, axis)
    }

    // A motor without a lock.
    pub fn is_motor(self, axis: usize) -> bool
        ensures { result ≡ is_motor self axis }
    {
        has_axis(self.motor_axes, axis) && !has_axis(self.locked_axes, axis)
    }

    // A limit without a lock.
    pub fn is_limit(self, axis: usize) -> bool
        ensures { result ≡ is_limit self axis }
    {
        has_axis(self.limit_axes, axis) && !has_axis(self.locked_axes, axis)
    }

    pub fn is_coupled(self, axis: usize) -> bool
        ensures { result ≡ is_coupled self axis }
    {
        has_axis(self.coupled_axes, axis)
    }

    fn is_motor_outside(self, axis: usize) -> bool
        ensures { result ≡ (is_motor self axis && not (is_coupled self axis)) }
    {
        self.is_motor(axis) && !self.is_coupled(axis)
    }

    fn is_limit_outside(self, axis: usize) -> bool
        ensures { result ≡ (is_limit self axis && not (is_coupled self axis)) }
    {
        self.is_limit(axis) && !self.is_coupled(axis)
    }

    fn is_coupled_motor(self, axis: usize) -> bool
        ensures { result ≡ (is_motor self axis && is_coupled self axis) }
    {
        self.is_motor(axis) && self.is_coupled(axis)
    }

    // Whether M and C share a linear bit.
    fn shares_linear(self) -> bool
        ensures { result ≡ shares_linear 2 self }
    {
        self.is_coupled_motor(0) || self.is_coupled_motor(1)
    }

    // F, the lowest set bit of C's linear part; 32 where it has none.
    pub(crate) fn first_coupled_lin_axis_id(self) -> usize
        ensures { first_coupled 2 self ≡ cond (ltb result 2) (result ∷ []) [] }
    {
        u32::trailing_zeros(self.coupled_axes & 3) as usize
    }

    // Whether C has a linear bit and T holds F.
    fn has_coupled_limit(self) -> bool
        ensures { result ≡ some (is_limit self) (first_coupled 2 self) }
    {
        let f = self.first_coupled_lin_axis_id();
        f < 2 && self.is_limit(f)
    }
}

// ---- the ids one by one: eleven slots in the order of rows, one bit for each that is named

// The axes of a mask below 8 as bits in the order of rows: the angular one is the lowest.
fn in_order(mask: u32) -> u32
    ensures { result ≡ mask % 4 * 2 + mask / 4 }
{
    mask % 4 * 2 + mask / 4
}

// The axes of a mask that are neither locked nor coupled, likewise.
fn outside(mask: u32, locked: u32, coupled: u32) -> u32
    ensures value { result ≡ bits_of (at_axes (λ i. has_axis mask i && not (has_axis locked i) && not (has_axis coupled i))) }
    ensures upper_bound { result < 8 }
{
    in_order((mask % 8) & !(locked % 8) & !(coupled % 8))
}

// The axes that are locked, likewise.
fn locks(locked: u32) -> u32
    ensures value { result ≡ bits_of (at_axes (λ i. has_axis locked i)) }
    ensures upper_bound { result < 8 }
{
    in_order(locked % 8)
}

// A joint's slots. Their ids, from the lowest bit up, are the joint's.
pub(crate) fn row_slots(masks: Masks) -> u32
    ensures { result ≡ slot_bits masks }
{
    let locked = masks.locked_axes;
    let coupled = masks.coupled_axes;
    let motors = outside(masks.motor_axes, locked, coupled);
    let limits = outside(masks.limit_axes, locked, coupled);
    let locked_bits = locks(locked);
    let coupled_motor = masks.shares_linear() as u32;
    let coupled_limit = masks.has_coupled_limit() as u32;
    motors + coupled_motor * 8 + locked_bits * 16 + limits * 128 + coupled_limit * 1024
}

// The axis of slot i of a kind; f is F.
fn slot_axis(i: u32, f: usize) -> usize
    ensures { result ≡ slot_axis i f }
{
    if i == 0 {
        2
    } else if i < 3 {
        (i - 1) as usize
    } else {
        f
    }
}

// The id of slot s.
pub(crate) fn slot_id(s: u32, f: usize) -> WritebackId
    ensures { result ≡ slot_id s f }
{
    if s < 4 {
        WritebackId::Motor(slot_axis(s, f))
    } else if s < 7 {
        WritebackId::Dof(slot_axis(s - 4, f))
    } else {
        WritebackId::Limit(slot_axis(s - 7, f))
    }
}

// How many slots of motors are named.
pub(crate) fn motors_of(slots: u32) -> usize
    ensures { result ≡ ones (slots % 16) }
{
    u32::count_ones(slots % 16) as usize
}

// The number of a joint's motor rows. They are its first ones.
pub fn motor_count(masks: Masks) -> usize
    ensures { result ≡ length (group_one 2 1 masks) }
{
    motors_of(row_slots(masks))
}

// The number of a joint's rows.
pub fn row_count(masks: Masks) -> usize
    ensures { result ≡ length (row_ids 2 1 masks) }
{
    u32::count_ones(row_slots(masks)) as usize
}

// A joint's ids, in the order of its rows.
pub fn row_ids(masks: Masks) -> RowIds
    ensures { result ≡ row_ids_array masks }
{
    let f = masks.first_coupled_lin_axis_id();
    let mut ids = [RowId {
        id: WritebackId::Dof(0),
    }; 6];
    // One turn a set bit, the lowest first: no range counts them.
    let mut left = row_slots(masks);
    let mut k = 0usize;
    while left > 0 {
        let id = slot_id(u32::trailing_zeros(left), f);
        ids[k] = RowId { id };
        left &= left - 1;
        k += 1;
    }
    let first = motor_count(masks);
    RowIds { ids, first, len: k }
}
