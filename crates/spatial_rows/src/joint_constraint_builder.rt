// The Rust's dynamics/solver/joint_constraint/joint_constraint_builder.rs in space, by value: a joint's rows
// from the poses of its bodies, and where their impulses start.
ghost use Rattle.std.specs.Prelude.{◌≡◌};
ghost use Rattle.spatial_rows.specs.Builder.{solver_body_of, joint_context_of, seed_of, builder_update_of};
ghost use Rattle.spatial_rows.specs.Update.{rows_array};

use crate::generic_joint::GenericJoint;
use crate::joint_velocity_constraint::{JointSolverBody, RowContext, Rows, blank_row};
use crate::row_ids::{motors_of, row_slots, slot_id};
use rows::integration_parameters::IntegrationParameters;
use rows::joint_constraint_builder::warmed;
use rows::joint_constraint_helper::finalize_lent;
use rows::joint_velocity_constraint::WritebackId;
use spatial_floats::angular_inertia_ops::SdpMatrix3;
use spatial_floats::pose::Pose;
use spatial_floats::vector::Vector;

// What the rows read of a body, its pose being that of its centre of mass.
#[repr(C)]
#[derive(Clone, Copy)]
pub struct SolverPose {
    pub pose: Pose,
    pub ii: SdpMatrix3,
    pub im: Vector,
}

// A joint with its stored Dof impulses.
#[derive(Clone, Copy)]
pub struct ImpulseJoint {
    pub data: GenericJoint,
    pub impulses: [f32; 6],
}

impl SolverPose {
    pub fn solver_body(self) -> JointSolverBody
        ensures { result ≡ solver_body_of self }
    {
        JointSolverBody {
            im: self.im,
            ii: self.ii,
            world_com: self.pose.translation,
        }
    }
}

impl ImpulseJoint {
    pub fn context(
        self,
        params: IntegrationParameters,
        body1: SolverPose,
        body2: SolverPose,
    ) -> RowContext
        ensures { result ≡ joint_context_of params body1 body2 self }
    {
        let data = self.data;
        RowContext::new(
            params,
            body1.solver_body(),
            body2.solver_body(),
            body1.pose.mul(data.local_frame1),
            body2.pose.mul(data.local_frame2),
            data,
        )
    }

    // An id's stored impulse.
    pub fn seed(self, id: WritebackId) -> f32
        ensures { result ≡ seed_of self id }
    {
        match id {
            WritebackId::Dof(axis) => {
                if axis < 6 {
                    self.impulses[axis]
                } else {
                    0.0 / 0.0
                }
            }
            WritebackId::Limit(axis) => self.data.limits_at(axis).impulse,
            WritebackId::Motor(axis) => self.data.motor_at(axis).impulse,
        }
    }
}

// The Rust's `update`, after `update_warmstart_seeds`. `prevs` are the impulses of the rows that the
// last build made, by row. A row gets the impulse that it starts from as soon as it is made, because
// orthogonalising a group reads and changes none.
pub fn update(
    params: IntegrationParameters,
    substep_id: u32,
    warmstart: Option<f32>,
    body1: SolverPose,
    body2: SolverPose,
    joint: ImpulseJoint,
    prevs: [f32; 9],
) -> Rows
    ensures { result ≡ rows_array (builder_update_of params substep_id warmstart body1 body2 joint prevs) }
{
    let masks = joint.data.masks;
    let context = joint.context(params, body1, body2);
    let mut made = Rows {
        rows: [blank_row(); 9],
        len: 0,
    };
    let slots = row_slots(masks);
    let first = motors_of(slots);
    // One turn a set bit, the lowest first: no range counts them.
    let mut left = slots;
    let mut k = 0usize;
    while left > 0 {
        let id = slot_id(u32::trailing_zeros(left));
        made.rows[k] = warmed(
            warmstart,
            substep_id,
            joint.seed(id),
            prevs[k],
            context.row(id),
        );
        left &= left - 1;
        k += 1;
    }
    finalize_lent(&mut made.rows[..], first, k);
    made.len = k;
    made
}
