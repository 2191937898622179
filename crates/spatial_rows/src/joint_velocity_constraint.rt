// The Rust's dynamics/solver/joint_constraint/joint_velocity_constraint.rs in space: a row, and what it does
// to the velocities of its two bodies.
ghost use Rattle.std.specs.Prelude.{◌≡◌, ◌≤◌};
ghost use Rattle.spatial_rows.specs.Makers.{two_bodies};
ghost use Rattle.spatial_rows.specs.Update.{context_of, motor_limits_of, row_of, update_of, blank_row, rows_array, made_rows};
ghost use Rattle.spatial_rows.specs.Step.{wanted_impulse_of, applied_of, step_of, residual_of, warmstart_of, remove_bias_of};

use crate::generic_joint::{GenericJoint, spatial_masks};
use crate::joint_constraint_helper::{JointConstraintHelper, finalize_groups};
use crate::row_ids::{RowIds, row_ids};
use floats::scalar::{Side, clamp};
use rows::integration_parameters::IntegrationParameters;
use rows::joint_constraint_helper::LimitEnds;
use rows::joint_velocity_constraint::WritebackId;
use rows::row::Row;
use spatial_floats::angular_inertia_ops::SdpMatrix3;
use spatial_floats::pose::Pose;
use spatial_floats::vector::Vector;

// What a row reads of a body.
#[derive(Clone, Copy)]
pub struct JointSolverBody {
    pub im: Vector,
    pub ii: SdpMatrix3,
    pub world_com: Vector,
}

#[repr(C)]
#[derive(Clone, Copy)]
pub struct SolverVel {
    pub linear: Vector,
    pub angular: Vector,
}

// The velocities of a row's two bodies.
#[repr(C)]
#[derive(Clone, Copy)]
pub struct SolverVels {
    pub vel1: SolverVel,
    pub vel2: SolverVel,
}

// A row. Its bodies, its joint and its id are not kept in it: they come from the model.
#[repr(C)]
#[derive(Clone, Copy)]
pub struct JointConstraint {
    pub impulse: f32,
    pub impulse_min: f32,
    pub impulse_max: f32,
    pub lin_jac: Vector,
    pub ang_jac1: Vector,
    pub ang_jac2: Vector,
    pub ii_ang_jac1: Vector,
    pub ii_ang_jac2: Vector,
    pub inv_lhs: f32,
    pub rhs: f32,
    pub rhs_wo_bias: f32,
    pub cfm_gain: f32,
    pub cfm_coeff: f32,
    pub im1: Vector,
    pub im2: Vector,
}

// What a joint's rows are made from.
#[derive(Clone, Copy)]
pub struct RowContext {
    pub params: IntegrationParameters,
    pub body1: JointSolverBody,
    pub body2: JointSolverBody,
    pub helper: JointConstraintHelper,
    pub joint: GenericJoint,
    pub erp_inv_dt: f32,
    pub cfm_coeff: f32,
}

// A joint's rows: `len` of them, and blank ones.
#[repr(C)]
#[derive(Clone, Copy)]
pub struct Rows {
    pub rows: [JointConstraint; 9],
    pub len: usize,
}

// What one step leaves: the row, and the velocities of its two bodies; and which bound of the row the wanted impulse met.
#[derive(Clone, Copy)]
pub struct Solved {
    pub row: JointConstraint,
    pub vels: SolverVels,
    pub side: Side,
}

impl JointConstraint {
    // The impulse that the row wants, before its bounds.
    pub fn wanted_impulse(self, vel1: SolverVel, vel2: SolverVel) -> f32
        ensures { result ≡ wanted_impulse_of self vel1 vel2 }
    {
        let dlinvel = self.lin_jac.gdot(vel2.linear.sub(vel1.linear));
        let dangvel = self.ang_jac2.gdot(vel2.angular) - self.ang_jac1.gdot(vel1.angular);
        let rhs = dlinvel + dangvel + self.rhs;
        self.impulse + self.inv_lhs * (rhs - self.cfm_gain * self.impulse)
    }

    // Both velocities once an impulse acts along the row.
    pub fn applied(self, vel1: SolverVel, vel2: SolverVel, impulse: f32) -> SolverVels
        ensures { result ≡ applied_of self vel1 vel2 impulse }
    {
        let lin_impulse = self.lin_jac.mul(impulse);
        SolverVels {
            vel1: SolverVel {
                linear: vel1.linear.add(lin_impulse.component_mul(self.im1)),
                angular: vel1.angular.add(self.ii_ang_jac1.mul(impulse)),
            },
            vel2: SolverVel {
                linear: vel2.linear.sub(lin_impulse.component_mul(self.im2)),
                angular: vel2.angular.sub(self.ii_ang_jac2.mul(impulse)),
            },
        }
    }

    // One step of the Rust's `solve_generic`, by value.
    pub fn step(self, vel1: SolverVel, vel2: SolverVel) -> Solved
        ensures { result ≡ step_of self vel1 vel2 }
    {
        let wanted = self.wanted_impulse(vel1, vel2);
        let clamped = clamp(wanted, self.impulse_min, self.impulse_max);
        let delta_impulse = clamped.value - self.impulse;
        Solved {
            row: self.with_impulse(clamped.value),
            vels: self.applied(vel1, vel2, delta_impulse),
            side: clamped.side,
        }
    }

    // The change that one more step would make to the row's impulse.
    pub fn residual(self, vel1: SolverVel, vel2: SolverVel) -> f32
        ensures { result ≡ residual_of self vel1 vel2 }
    {
        let wanted = self.wanted_impulse(vel1, vel2);
        let clamped = clamp(wanted, self.impulse_min, self.impulse_max);
        clamped.value - self.impulse
    }

    pub fn warmstart_generic(self, vel1: SolverVel, vel2: SolverVel) -> SolverVels
        ensures { result ≡ warmstart_of self vel1 vel2 }
    {
        self.applied(vel1, vel2, self.impulse)
    }

    pub fn remove_bias_from_rhs(self) -> JointConstraint
        ensures { result ≡ remove_bias_of self }
    {
        let mut row = self;
        row.rhs = self.rhs_wo_bias;
        row
    }
}

// The Rust's `solve_generic`: the row and both velocities that it is lent change by one step. Which bound the step met comes back.
pub fn solve_generic(
    row: &mut JointConstraint,
    solver_vel1: &mut SolverVel,
    solver_vel2: &mut SolverVel,
) -> Side
    ensures { (result ≡ (step_of row.old solver_vel1.old solver_vel2.old).side)
        × (row.new ≡ (step_of row.old solver_vel1.old solver_vel2.old).row)
        × (solver_vel1.new ≡ (step_of row.old solver_vel1.old solver_vel2.old).vels.vel1)
        × (solver_vel2.new ≡ (step_of row.old solver_vel1.old solver_vel2.old).vels.vel2) }
{
    let solved = row.step(*solver_vel1, *solver_vel2);
    *row = solved.row;
    *solver_vel1 = solved.vels.vel1;
    *solver_vel2 = solved.vels.vel2;
    solved.side
}

// `solve_generic` for a row and velocities that are not lent but handed over.
pub fn solve_row(row: JointConstraint, vel1: SolverVel, vel2: SolverVel) -> Solved
    ensures { result ≡ step_of row vel1 vel2 }
{
    let mut c = row;
    let mut v1 = vel1;
    let mut v2 = vel2;
    let side = solve_generic(&mut c, &mut v1, &mut v2);
    Solved {
        row: c,
        vels: SolverVels { vel1: v1, vel2: v2 },
        side,
    }
}

// A row of zeros.
pub fn blank_row() -> JointConstraint
    ensures { result ≡ blank_row }
{
    let zero = Vector {
        x: 0.0,
        y: 0.0,
        z: 0.0,
    };
    JointConstraint {
        impulse: 0.0,
        impulse_min: 0.0,
        impulse_max: 0.0,
        lin_jac: zero,
        ang_jac1: zero,
        ang_jac2: zero,
        ii_ang_jac1: zero,
        ii_ang_jac2: zero,
        inv_lhs: 0.0,
        rhs: 0.0,
        rhs_wo_bias: 0.0,
        cfm_gain: 0.0,
        cfm_coeff: 0.0,
        im1: zero,
        im2: zero,
    }
}

// The limits of an axis for its motor.
pub fn motor_limits(joint: GenericJoint, axis: usize) -> Option<LimitEnds>
    ensures { result ≡ motor_limits_of joint axis }
{
    let masks = spatial_masks(joint.masks);
    if masks.is_limit(axis) {
        let limits = joint.limits_at(axis);
        Some(LimitEnds {
            min: limits.min,
            max: limits.max,
        })
    } else {
        None
    }
}

impl RowContext {
    pub fn new(
        params: IntegrationParameters,
        body1: JointSolverBody,
        body2: JointSolverBody,
        frame1: Pose,
        frame2: Pose,
        joint: GenericJoint,
    ) -> RowContext
        ensures { result ≡ context_of params (two_bodies body1 body2) frame1 frame2 joint }
    {
        let helper = JointConstraintHelper::new(
            frame1,
            frame2,
            body1.world_com,
            body2.world_com,
            joint.masks.locked_axes,
        );
        RowContext {
            params,
            body1,
            body2,
            helper,
            joint,
            erp_inv_dt: joint.softness.erp_inv_dt(params.dt),
            cfm_coeff: joint.softness.cfm_coeff(params.dt),
        }
    }

    pub fn dof_row(self, axis: usize) -> JointConstraint
        ensures { result ≡ row_of self (WritebackId.Dof axis) }
    {
        let RowContext {
            helper,
            body1,
            body2,
            erp_inv_dt,
            cfm_coeff,
            ..
        } = self;
        if axis >= 3 {
            helper.lock_angular(body1, body2, axis - 3, erp_inv_dt, cfm_coeff)
        } else {
            helper.lock_linear(body1, body2, axis, erp_inv_dt, cfm_coeff)
        }
    }

    pub fn limit_row(self, axis: usize) -> JointConstraint
        ensures { result ≡ row_of self (WritebackId.Limit axis) }
    {
        let RowContext {
            params,
            body1,
            body2,
            helper,
            joint,
            erp_inv_dt,
            cfm_coeff,
        } = self;
        let limits = joint.limits_at(axis);
        let ends = LimitEnds {
            min: limits.min,
            max: limits.max,
        };
        helper.limit_linear(params, body1, body2, axis, ends, erp_inv_dt, cfm_coeff)
    }

    pub fn motor_row(self, axis: usize) -> JointConstraint
        ensures { result ≡ row_of self (WritebackId.Motor axis) }
    {
        let RowContext {
            params,
            body1,
            body2,
            helper,
            joint,
            ..
        } = self;
        let motor = joint.motor_at(axis);
        let motor_params = motor.motor_params(params.dt);
        let limits = motor_limits(joint, axis);
        helper.motor_linear(params, body1, body2, axis, motor_params, limits)
    }

    // The row of an id.
    pub fn row(self, id: WritebackId) -> JointConstraint
        ensures { result ≡ row_of self id }
    {
        match id {
            WritebackId::Dof(axis) => self.dof_row(axis),
            WritebackId::Limit(axis) => self.limit_row(axis),
            WritebackId::Motor(axis) => self.motor_row(axis),
        }
    }

    // The rows of the first `count` ids, before their groups are orthogonalised.
    fn made(self, ids: RowIds, count: usize) -> [JointConstraint; 9]
        requires { count ≤ 9 }
        ensures { result ≡ made_rows self ids.ids count }
    {
        let mut rows = [blank_row(); 9];
        for k in 0..count {
            rows[k] = self.row(ids.ids[k].id);
        }
        rows
    }

    pub fn update(self) -> Rows
        ensures { result ≡ rows_array (update_of self) }
    {
        let ids = row_ids(self.joint.masks);
        let len = ids.len;
        Rows {
            rows: finalize_groups(self.made(ids, len), ids.first, len),
            len,
        }
    }
}
