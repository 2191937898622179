// The Rust's dynamics/solver/joint_constraint/joint_constraint_helper.rs in space: one function a row kind.
ghost use Rattle.std.specs.Prelude.{◌≡◌, ◌≤◌};
ghost use Rattle.spatial_rows.specs.Row.{with_impulse};
ghost use Rattle.spatial_rows.specs.Finalize.{im_sum_of, row_dot_of, head_of, is_lock, without_of, less_of, inv_dot_of, pair_of, finalize_groups};
ghost use Rattle.spatial_rows.specs.Helper.{coord_of, snapped_of, cross_basis_of, angular_part_of, new_of, linear_axis_of, angular_axis_of};
ghost use Rattle.rows.specs.Makers.{erp_cfm};
ghost use Rattle.spatial_rows.specs.Makers.{two_bodies, assemble_of, motor_row_of, limit_linear_of, motor_linear_of, lock_linear_of, lock_angular_of};

use crate::joint_velocity_constraint::{JointConstraint, JointSolverBody};
use floats::utils::simd_inv;
use rows::generic_joint::has_axis;
use rows::integration_parameters::{IntegrationParameters, MAX};
use rows::joint_constraint_helper::{
    ImpulseBounds, LimitEnds, limit_bias, limit_bounds, lock_bounds, motor_bounds, motor_rhs,
};
use rows::joint_velocity_constraint::MotorParameters;
use rows::row::Row;
use spatial_floats::angular_inertia_ops::transform_vector;
use spatial_floats::matrix::{Matrix, gcross_matrix};
use spatial_floats::pose::Pose;
use spatial_floats::rotation_ops::Rotation;
use spatial_floats::sign::sign_of;
use spatial_floats::vector::Vector;

// `cmat1_basis` and `cmat2_basis` are by linear axis, `ang_basis` is by angular axis.
#[derive(Clone, Copy)]
pub struct JointConstraintHelper {
    pub basis: Matrix,
    pub cmat1_basis: Matrix,
    pub cmat2_basis: Matrix,
    pub ang_basis: Matrix,
    pub lin_err: Vector,
    pub ang_err: Rotation,
}

// What angular rows are made from.
#[derive(Clone, Copy)]
pub struct AngularPart {
    pub ang_basis: Matrix,
    pub ang_err: Rotation,
}

// A row's direction, and the distance along it: of one linear axis, or of one angular axis.
#[derive(Clone, Copy)]
pub struct RowAxis {
    pub dist: f32,
    pub lin_jac: Vector,
    pub ang_jac1: Vector,
    pub ang_jac2: Vector,
}

// The number of an axis: for axes 0 and 1 the first and the second, and else the third.
pub fn coord(v: Vector, axis: usize) -> f32
    ensures { result ≡ coord_of v axis }
{
    if axis == 0 {
        v.x
    } else if axis == 1 {
        v.y
    } else {
        v.z
    }
}

// The centre snapped to the first frame along an axis, where that is locked.
pub fn snapped(
    center: Vector,
    basis: Matrix,
    lin_err: Vector,
    locked_axes: u32,
    axis: usize,
) -> Vector
    ensures { result ≡ snapped_of center basis lin_err locked_axes axis }
{
    if has_axis(locked_axes, axis) {
        let column = basis.column(axis);
        center.sub(column.mul(lin_err.gdot(column)))
    } else {
        center
    }
}

// The cross matrix of an arm, times the basis.
pub fn cross_basis(arm: Vector, basis: Matrix) -> Matrix
    ensures { result ≡ cross_basis_of arm basis }
{
    gcross_matrix(arm).mul(basis)
}

// The derivative of the rotations' error, transposed, and that error, each with the sign of their dot.
pub fn angular_part(rotation1: Rotation, rotation2: Rotation) -> AngularPart
    ensures { result ≡ angular_part_of rotation1 rotation2 }
{
    let sign = sign_of(rotation1.dot(rotation2));
    let derivative = rotation1.diff_conj1_2_tr(rotation2);
    let error = rotation1.inverse().mul(rotation2);
    AngularPart {
        ang_basis: derivative.scaled(sign),
        ang_err: error.times(sign),
    }
}

impl JointConstraintHelper {
    // Only the linear bits of `locked_axes` move the centre.
    pub fn new(
        frame1: Pose,
        frame2: Pose,
        world_com1: Vector,
        world_com2: Vector,
        locked_axes: u32,
    ) -> JointConstraintHelper
        ensures { result ≡ new_of frame1 frame2 world_com1 world_com2 locked_axes }
    {
        let rotation1 = frame1.rotation;
        let rotation2 = frame2.rotation;
        let translation1 = frame1.translation;
        let translation2 = frame2.translation;
        let basis = rotation1.to_mat();
        let lin_err = translation2.sub(translation1);
        let once = snapped(translation2, basis, lin_err, locked_axes, 0);
        let twice = snapped(once, basis, lin_err, locked_axes, 1);
        let new_center1 = snapped(twice, basis, lin_err, locked_axes, 2);
        let angular = angular_part(rotation1, rotation2);
        let cmat1_basis = cross_basis(new_center1.sub(world_com1), basis);
        let cmat2_basis = cross_basis(translation2.sub(world_com2), basis);
        JointConstraintHelper {
            basis,
            cmat1_basis,
            cmat2_basis,
            ang_basis: angular.ang_basis,
            lin_err,
            ang_err: angular.ang_err,
        }
    }
}

// A row from what differs between the kinds; its inverse left-hand side comes with its group.
pub fn assemble(
    body1: JointSolverBody,
    body2: JointSolverBody,
    axis: RowAxis,
    bounds: ImpulseBounds,
    rhs: f32,
    rhs_wo_bias: f32,
    cfm_coeff: f32,
    cfm_gain: f32,
) -> JointConstraint
    ensures { result ≡ assemble_of (two_bodies body1 body2) axis bounds
        (record { rhs = rhs; rhs_wo_bias = rhs_wo_bias; cfm_coeff = cfm_coeff; cfm_gain = cfm_gain }) }
{
    JointConstraint {
        impulse: 0.0,
        impulse_min: bounds.min,
        impulse_max: bounds.max,
        lin_jac: axis.lin_jac,
        ang_jac1: axis.ang_jac1,
        ang_jac2: axis.ang_jac2,
        ii_ang_jac1: transform_vector(body1.ii, axis.ang_jac1),
        ii_ang_jac2: transform_vector(body2.ii, axis.ang_jac2),
        inv_lhs: 0.0,
        rhs,
        rhs_wo_bias,
        cfm_gain,
        cfm_coeff,
        im1: body1.im,
        im2: body2.im,
    }
}

// The row of a motor, from its direction and its right-hand side.
pub fn motor_row(
    body1: JointSolverBody,
    body2: JointSolverBody,
    axis: RowAxis,
    motor_params: MotorParameters,
    rhs: f32,
) -> JointConstraint
    ensures { result ≡ motor_row_of (two_bodies body1 body2) axis motor_params rhs }
{
    assemble(
        body1,
        body2,
        axis,
        motor_bounds(motor_params),
        rhs,
        rhs,
        motor_params.cfm_coeff,
        motor_params.cfm_gain,
    )
}

impl JointConstraintHelper {
    // The direction of a linear row, and the distance along it.
    pub fn linear_axis(self, axis: usize) -> RowAxis
        ensures { result ≡ linear_axis_of self axis }
    {
        let lin_jac = self.basis.column(axis);
        RowAxis {
            dist: self.lin_err.gdot(lin_jac),
            lin_jac,
            ang_jac1: self.cmat1_basis.column(axis),
            ang_jac2: self.cmat2_basis.column(axis),
        }
    }

    // The direction of an angular row: both angular jacobians are the same.
    pub fn angular_axis(self, axis: usize) -> RowAxis
        ensures { result ≡ angular_axis_of self axis }
    {
        let ang_jac = self.ang_basis.column(axis);
        RowAxis {
            dist: 0.0,
            lin_jac: Vector {
                x: 0.0,
                y: 0.0,
                z: 0.0,
            },
            ang_jac1: ang_jac,
            ang_jac2: ang_jac,
        }
    }

    pub fn limit_linear(
        self,
        params: IntegrationParameters,
        body1: JointSolverBody,
        body2: JointSolverBody,
        limited_axis: usize,
        limits: LimitEnds,
        erp_inv_dt: f32,
        cfm_coeff: f32,
    ) -> JointConstraint
        ensures { result ≡ limit_linear_of self params (two_bodies body1 body2) limited_axis limits (erp_cfm erp_inv_dt cfm_coeff) }
    {
        let axis = self.linear_axis(limited_axis);
        let dist = axis.dist;
        let rhs_bias = limit_bias(params, dist, limits.min, limits.max, erp_inv_dt);
        assemble(
            body1,
            body2,
            axis,
            limit_bounds(dist, limits.min, limits.max),
            0.0 + rhs_bias,
            0.0,
            cfm_coeff,
            0.0,
        )
    }

    pub fn motor_linear(
        self,
        params: IntegrationParameters,
        body1: JointSolverBody,
        body2: JointSolverBody,
        motor_axis: usize,
        motor_params: MotorParameters,
        limits: Option<LimitEnds>,
    ) -> JointConstraint
        ensures { result ≡ motor_linear_of self params (two_bodies body1 body2) motor_axis motor_params limits }
    {
        let axis = self.linear_axis(motor_axis);
        let rhs = motor_rhs(params, motor_params, limits, axis.dist);
        motor_row(body1, body2, axis, motor_params, rhs)
    }

    pub fn lock_linear(
        self,
        body1: JointSolverBody,
        body2: JointSolverBody,
        locked_axis: usize,
        erp_inv_dt: f32,
        cfm_coeff: f32,
    ) -> JointConstraint
        ensures { result ≡ lock_linear_of self (two_bodies body1 body2) locked_axis (erp_cfm erp_inv_dt cfm_coeff) }
    {
        let axis = self.linear_axis(locked_axis);
        let rhs_bias = axis.lin_jac.gdot(self.lin_err) * erp_inv_dt;
        assemble(
            body1,
            body2,
            axis,
            lock_bounds(),
            0.0 + rhs_bias,
            0.0,
            cfm_coeff,
            0.0,
        )
    }

    // The axis is counted from the first angular one.
    pub fn lock_angular(
        self,
        body1: JointSolverBody,
        body2: JointSolverBody,
        locked_axis: usize,
        erp_inv_dt: f32,
        cfm_coeff: f32,
    ) -> JointConstraint
        ensures { result ≡ lock_angular_of self (two_bodies body1 body2) locked_axis (erp_cfm erp_inv_dt cfm_coeff) }
    {
        let axis = self.angular_axis(locked_axis);
        let rhs_bias = coord(self.ang_err.xyz(), locked_axis) * erp_inv_dt;
        assemble(
            body1,
            body2,
            axis,
            lock_bounds(),
            0.0 + rhs_bias,
            0.0,
            cfm_coeff,
            0.0,
        )
    }
}

// ---- `finalize_constraints`: the rows of one group

// J_i M⁻¹ J_jᵀ of two rows of one joint.
pub fn row_dot(imsum: Vector, c_i: JointConstraint, c_j: JointConstraint) -> f32
    ensures { result ≡ row_dot_of imsum c_i c_j }
{
    c_i.lin_jac.gdot(imsum.component_mul(c_j.lin_jac))
        + c_i.ii_ang_jac1.gdot(c_j.ang_jac1)
        + c_i.ii_ang_jac2.gdot(c_j.ang_jac2)
}

pub fn less(c_i: JointConstraint, c_j: JointConstraint, coeff: f32) -> JointConstraint
    ensures { result ≡ less_of c_i c_j coeff }
{
    let mut row = c_i;
    row.lin_jac = without(c_i.lin_jac, c_j.lin_jac, coeff);
    row.ang_jac1 = without(c_i.ang_jac1, c_j.ang_jac1, coeff);
    row.ang_jac2 = without(c_i.ang_jac2, c_j.ang_jac2, coeff);
    row.ii_ang_jac1 = without(c_i.ii_ang_jac1, c_j.ii_ang_jac1, coeff);
    row.ii_ang_jac2 = without(c_i.ii_ang_jac2, c_j.ii_ang_jac2, coeff);
    row.rhs_wo_bias = c_i.rhs_wo_bias - c_j.rhs_wo_bias * coeff;
    row.rhs = c_i.rhs - c_j.rhs * coeff;
    row
}

// A vector less a number times another.
pub fn without(v: Vector, w: Vector, coeff: f32) -> Vector
    ensures { result ≡ without_of v w coeff }
{
    v.sub(w.mul(coeff))
}

impl Row for JointConstraint {
    type Masses = Vector;

    ghost with_impulse = { with_impulse };

    ghost im_sum = { im_sum_of };

    ghost head = { head_of };

    ghost is_lock = { is_lock };

    ghost inv_dot = { inv_dot_of };

    ghost pair = { pair_of };

    fn with_impulse(self, impulse: f32) -> JointConstraint {
        let mut row = self;
        row.impulse = impulse;
        row
    }

    fn im_sum(self) -> Vector {
        self.im1.add(self.im2)
    }

    fn head(self, imsum: Vector) -> JointConstraint {
        let dot_jj = row_dot(imsum, self, self);
        let cfm_gain = dot_jj * self.cfm_coeff + self.cfm_gain;
        JointConstraint {
            inv_lhs: simd_inv(dot_jj + cfm_gain),
            cfm_gain,
            ..self
        }
    }

    fn is_lock(self) -> bool {
        self.impulse_min == -MAX && self.impulse_max == MAX
    }

    fn inv_dot(self, imsum: Vector) -> f32 {
        simd_inv(row_dot(imsum, self, self))
    }

    fn pair(self, imsum: Vector, inv_dot_jj: f32, c_j: JointConstraint) -> JointConstraint {
        let coeff = row_dot(imsum, self, c_j) * inv_dot_jj;
        less(self, c_j, coeff)
    }
}

// The crate rows' `finalize_groups` for nine rows.
pub fn finalize_groups(rows: [JointConstraint; 9], first: usize, len: usize) -> [JointConstraint; 9]
    requires { (first ≤ len) × (len ≤ 9) }
    ensures { result ≡ finalize_groups first len rows }
{
    rows::joint_constraint_helper::finalize_groups(rows, first, len)
}
