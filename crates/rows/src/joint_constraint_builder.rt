// The Rust's dynamics/solver/joint_constraint/joint_constraint_builder.rs, by value: a joint's rows
// from the poses of its bodies, and where their impulses start.
ghost use Rattle.std.specs.Prelude.{◌≡◌};
ghost use Rattle.rows.specs.Builder.{solver_body_of, joint_context_of, seed_of, builder_update_of};
ghost use Rattle.rows.specs.Warmed.{warmed_of};
ghost use Rattle.rows.specs.Update.{rows_array};

use crate::generic_joint::GenericJoint;
use crate::integration_parameters::IntegrationParameters;
use crate::joint_constraint_helper::{AngularLimitParams, finalize_lent};
use crate::joint_velocity_constraint::{JointSolverBody, RowContext, Rows, WritebackId, blank_row};
use crate::row::Row;
use crate::row_ids::{motors_of, row_slots, slot_id};
use floats::pose::Pose;
use floats::rotation_ops::Rotation;
use floats::vector::Vector;

// What the rows read of a body, its pose being that of its centre of mass.
#[derive(Clone, Copy)]
pub struct SolverPose {
    pub pose: Pose,
    pub ii: f32,
    pub im: Vector,
}

// A joint with its stored Dof impulses, and the centre of its angular limit as cosine and sine.
#[derive(Clone, Copy)]
pub struct ImpulseJoint {
    pub data: GenericJoint,
    pub impulses: [f32; 3],
    pub center: Rotation,
}

impl SolverPose {
    pub fn solver_body(self) -> JointSolverBody
        ensures { result ≡ solver_body_of self }
    {
        JointSolverBody {
            im: self.im,
            ii: self.ii,
            world_com: self.pose.translation,
        }
    }
}

impl ImpulseJoint {
    pub fn context(
        self,
        params: IntegrationParameters,
        body1: SolverPose,
        body2: SolverPose,
    ) -> RowContext
        ensures { result ≡ joint_context_of params body1 body2 self }
    {
        let data = self.data;
        let limits = data.limits_at(2);
        let ang_limit = AngularLimitParams::new(limits.min, limits.max, self.center);
        RowContext::new(
            params,
            body1.solver_body(),
            body2.solver_body(),
            body1.pose.mul(data.local_frame1),
            body2.pose.mul(data.local_frame2),
            data,
            ang_limit,
        )
    }

    // An id's stored impulse.
    pub fn seed(self, id: WritebackId) -> f32
        ensures { result ≡ seed_of self id }
    {
        match id {
            WritebackId::Dof(axis) => {
                if axis < 3 {
                    self.impulses[axis]
                } else {
                    0.0 / 0.0
                }
            }
            WritebackId::Limit(axis) => self.data.limits_at(axis).impulse,
            WritebackId::Motor(axis) => self.data.motor_at(axis).impulse,
        }
    }
}

// Where a row's impulse starts, from the warm coefficient, if any, its stored impulse and its last one.
pub fn warmed<R: Row>(warmstart: Option<f32>, substep_id: u32, seed: f32, prev: f32, row: R) -> R
    ensures { result ≡ warmed_of R.with_impulse warmstart substep_id seed prev row }
{
    match warmstart {
        Some(coeff) => {
            if substep_id == 0 {
                row.with_impulse(seed * coeff)
            } else {
                row.with_impulse(prev * coeff)
            }
        }
        None => row,
    }
}

// The Rust's `update`, after `update_warmstart_seeds`. `prevs` are the impulses of the rows that the
// last build made, by row. A row gets the impulse that it starts from as soon as it is made, because
// orthogonalising a group reads and changes none.
pub fn update(
    params: IntegrationParameters,
    substep_id: u32,
    warmstart: Option<f32>,
    body1: SolverPose,
    body2: SolverPose,
    joint: ImpulseJoint,
    prevs: [f32; 6],
) -> Rows
    ensures { result ≡ rows_array (builder_update_of params substep_id warmstart body1 body2 joint prevs) }
{
    let masks = joint.data.masks;
    let f = masks.first_coupled_lin_axis_id();
    let context = joint.context(params, body1, body2);
    let mut rows = [blank_row(); 6];
    let slots = row_slots(masks);
    let first = motors_of(slots);
    // One turn a set bit, the lowest first: no range counts them.
    let mut left = slots;
    let mut k = 0usize;
    while left > 0 {
        let id = slot_id(u32::trailing_zeros(left), f);
        rows[k] = warmed(
            warmstart,
            substep_id,
            joint.seed(id),
            prevs[k],
            context.row(id),
        );
        left &= left - 1;
        k += 1;
    }
    finalize_lent(&mut rows[..], first, k);
    Rows { rows, len: k }
}
