// The Rust's dynamics/solver/joint_constraint/joint_constraint_helper.rs: one function a row kind.
ghost use Rattle.std.specs.Prelude.{◌≡◌, ◌≤◌, length};
ghost use Rattle.rows.specs.Row.{with_impulse};
ghost use Rattle.rows.specs.Finalize.{im_sum_of, row_dot_of, head_of, is_lock, less_of, inv_dot_of, pair_of};
ghost use Rattle.rows.specs.Groups.{group_of, finalize_of, finalize_groups};
ghost use Rattle.rows.specs.Helper.{angular_limit_params_of, snapped_of, new_of, coord_of, linear_axis_of, angular_axis, coupled_step_of, coupled_axis_of};
ghost use Rattle.rows.specs.Makers.{two_bodies, erp_cfm, assemble_of, lock_bounds, limit_bounds_of, limit_bias_of, limited_target_vel_of, motor_rhs_of, motor_bounds_of, motor_row_of, limit_linear_of, limit_linear_coupled_of, motor_linear_of, motor_linear_coupled_of, lock_linear_of, recentered_angle_of, limit_angular_of, motor_angular_rhs_of, motor_angular_of, lock_angular_of};

use crate::generic_joint::has_axis;
use crate::integration_parameters::{IntegrationParameters, MAX};
use crate::joint_velocity_constraint::{JointConstraint, JointSolverBody, MotorParameters};
use crate::row::Row;
use floats::angle::angle;
use floats::angular_inertia_ops::transform_vector;
use floats::pose::Pose;
use floats::rotation_ops::{Matrix, Rotation};
use floats::scalar::{clamp, infinity, max, min};
use floats::utils::{simd_inv, smallest_abs_diff_between_angles};
use floats::vector::Vector;

const PI: f32 = 3.141592653589793;

// An angular limit by the middle of its range, as cosine and sine, and half its range.
#[derive(Clone, Copy)]
pub struct AngularLimitParams {
    pub center: Rotation,
    pub half_range: f32,
}

// `cmat1_basis` and `cmat2_basis` are by linear axis.
#[derive(Clone, Copy)]
pub struct JointConstraintHelper {
    pub basis: Matrix,
    pub cmat1_basis: Vector,
    pub cmat2_basis: Vector,
    pub lin_err: Vector,
    pub ang_err: Rotation,
}

// A row's direction, and the distance along it: of one linear axis, of the coupled ones together, or
// of the angular axis.
#[derive(Clone, Copy)]
pub struct RowAxis {
    pub dist: f32,
    pub lin_jac: Vector,
    pub ang_jac1: f32,
    pub ang_jac2: f32,
}

// A limit's two ends: the Rust's `[N; 2]`.
#[derive(Clone, Copy)]
pub struct LimitEnds {
    pub min: f32,
    pub max: f32,
}

// The bounds of a row's impulse.
#[derive(Clone, Copy)]
pub struct ImpulseBounds {
    pub min: f32,
    pub max: f32,
}

impl AngularLimitParams {
    // The centre is the caller's, where the Rust takes the sine and the cosine of the middle.
    pub fn new(min: f32, max: f32, center: Rotation) -> AngularLimitParams
        ensures { result ≡ angular_limit_params_of min max center }
    {
        let half_range = (max - min) * 0.5;
        if half_range >= PI || half_range != half_range {
            return AngularLimitParams {
                center: Rotation { re: 1.0, im: 0.0 },
                half_range: 10.0,
            };
        }
        AngularLimitParams { center, half_range }
    }
}

// The number of a linear axis: for axis 0 the first, and else the second.
pub fn coord(v: Vector, axis: usize) -> f32
    ensures { result ≡ coord_of v axis }
{
    if axis == 0 { v.x } else { v.y }
}

// The centre snapped to the first frame along an axis, where that is locked.
pub fn snapped(
    center: Vector,
    basis: Matrix,
    lin_err: Vector,
    locked_axes: u32,
    axis: usize,
) -> Vector
    ensures { result ≡ snapped_of center basis lin_err locked_axes axis }
{
    if has_axis(locked_axes, axis) {
        let column = basis.column(axis);
        center.sub(column.mul(lin_err.gdot(column)))
    } else {
        center
    }
}

impl JointConstraintHelper {
    pub fn new(
        frame1: Pose,
        frame2: Pose,
        world_com1: Vector,
        world_com2: Vector,
        locked_axes: u32,
    ) -> JointConstraintHelper
        ensures { result ≡ new_of frame1 frame2 world_com1 world_com2 locked_axes }
    {
        let rotation1 = frame1.rotation;
        let translation2 = frame2.translation;
        let basis = rotation1.to_mat();
        let lin_err = translation2.sub(frame1.translation);
        let once = snapped(translation2, basis, lin_err, locked_axes, 0);
        let new_center1 = snapped(once, basis, lin_err, locked_axes, 1);
        let cmat1 = new_center1.sub(world_com1).gcross_matrix();
        let cmat2 = translation2.sub(world_com2).gcross_matrix();
        let column0 = basis.column(0);
        let column1 = basis.column(1);
        JointConstraintHelper {
            basis,
            cmat1_basis: Vector {
                x: cmat1.gdot(column0),
                y: cmat1.gdot(column1),
            },
            cmat2_basis: Vector {
                x: cmat2.gdot(column0),
                y: cmat2.gdot(column1),
            },
            lin_err,
            ang_err: rotation1.inverse().mul(frame2.rotation),
        }
    }

    // The jacobians of a coupled row with one more linear axis, if that is coupled.
    pub fn coupled_step(self, c: RowAxis, coupled_axes: u32, axis: usize) -> RowAxis
        ensures { result ≡ coupled_step_of self c coupled_axes axis }
    {
        if has_axis(coupled_axes, axis) {
            let column = self.basis.column(axis);
            let coeff = column.gdot(self.lin_err);
            RowAxis {
                dist: c.dist,
                lin_jac: c.lin_jac.add(column.mul(coeff)),
                ang_jac1: c.ang_jac1 + coord(self.cmat1_basis, axis) * coeff,
                ang_jac2: c.ang_jac2 + coord(self.cmat2_basis, axis) * coeff,
            }
        } else {
            c
        }
    }

    // What the coupled limit and the coupled motor share: the length is taken before scaling.
    pub fn coupled_axis(self, coupled_axes: u32) -> RowAxis
        ensures { result ≡ coupled_axis_of self coupled_axes }
    {
        let none = RowAxis {
            dist: 0.0,
            lin_jac: Vector { x: 0.0, y: 0.0 },
            ang_jac1: 0.0,
            ang_jac2: 0.0,
        };
        let c = self.coupled_step(self.coupled_step(none, coupled_axes, 0), coupled_axes, 1);
        let dist = c.lin_jac.simd_length();
        let inv_dist = simd_inv(dist);
        RowAxis {
            dist,
            lin_jac: c.lin_jac.mul(inv_dist),
            ang_jac1: c.ang_jac1 * inv_dist,
            ang_jac2: c.ang_jac2 * inv_dist,
        }
    }
}

// A row from what differs between the kinds; its inverse left-hand side comes with its group.
pub fn assemble(
    body1: JointSolverBody,
    body2: JointSolverBody,
    axis: RowAxis,
    bounds: ImpulseBounds,
    rhs: f32,
    rhs_wo_bias: f32,
    cfm_coeff: f32,
    cfm_gain: f32,
) -> JointConstraint
    ensures { result ≡ assemble_of (two_bodies body1 body2) axis bounds
        (record { rhs = rhs; rhs_wo_bias = rhs_wo_bias; cfm_coeff = cfm_coeff; cfm_gain = cfm_gain }) }
{
    JointConstraint {
        impulse: 0.0,
        impulse_min: bounds.min,
        impulse_max: bounds.max,
        lin_jac: axis.lin_jac,
        ang_jac1: axis.ang_jac1,
        ang_jac2: axis.ang_jac2,
        ii_ang_jac1: transform_vector(body1.ii, axis.ang_jac1),
        ii_ang_jac2: transform_vector(body2.ii, axis.ang_jac2),
        inv_lhs: 0.0,
        rhs,
        rhs_wo_bias,
        cfm_gain,
        cfm_coeff,
        im1: body1.im,
        im2: body2.im,
    }
}

// The bounds of a row that pushes both ways: a lock.
pub fn lock_bounds() -> ImpulseBounds
    ensures { result ≡ lock_bounds }
{
    ImpulseBounds {
        min: -MAX,
        max: MAX,
    }
}

// The bounds of a limit's row: each end that is reached opens its side.
pub fn limit_bounds(dist: f32, min: f32, max: f32) -> ImpulseBounds
    ensures { result ≡ limit_bounds_of dist min max }
{
    ImpulseBounds {
        min: if dist <= min { -infinity() } else { 0.0 },
        max: if max <= dist { infinity() } else { 0.0 },
    }
}

// A limit's bias: how far an end is passed, times erp_inv_dt, at most the corrective velocity.
pub fn limit_bias(
    params: IntegrationParameters,
    dist: f32,
    low: f32,
    high: f32,
    erp_inv_dt: f32,
) -> f32
    ensures { result ≡ limit_bias_of params dist low high erp_inv_dt }
{
    let max_bias = params.max_corrective_velocity();
    let capped = clamp(
        (max(dist - high, 0.0) - max(low - dist, 0.0)) * erp_inv_dt,
        -max_bias,
        max_bias,
    );
    capped.value
}

// A linear motor's target velocity, kept within what reaches the ends of its limits in one step.
pub fn limited_target_vel(target_vel: f32, limits: Option<LimitEnds>, dist: f32, inv_dt: f32) -> f32
    ensures { result ≡ limited_target_vel_of target_vel limits dist inv_dt }
{
    match limits {
        Some(ends) => {
            let low = (ends.min - dist) * inv_dt;
            let high = (ends.max - dist) * inv_dt;
            clamp(target_vel, low, high).value
        }
        None => target_vel,
    }
}

// A linear motor's right-hand side, at its distance.
pub fn motor_rhs(
    params: IntegrationParameters,
    motor_params: MotorParameters,
    limits: Option<LimitEnds>,
    dist: f32,
) -> f32
    ensures { result ≡ motor_rhs_of params motor_params limits dist }
{
    let mut rhs_wo_bias = 0.0;
    if motor_params.erp_inv_dt != 0.0 {
        rhs_wo_bias = rhs_wo_bias + (dist - motor_params.target_pos) * motor_params.erp_inv_dt;
    }
    let target_vel = limited_target_vel(motor_params.target_vel, limits, dist, params.inv_dt());
    rhs_wo_bias + -target_vel
}

pub fn motor_bounds(motor_params: MotorParameters) -> ImpulseBounds
    ensures { result ≡ motor_bounds_of motor_params }
{
    ImpulseBounds {
        min: -motor_params.max_impulse,
        max: motor_params.max_impulse,
    }
}

// The row of a motor, from its direction and its right-hand side.
pub fn motor_row(
    body1: JointSolverBody,
    body2: JointSolverBody,
    axis: RowAxis,
    motor_params: MotorParameters,
    rhs: f32,
) -> JointConstraint
    ensures { result ≡ motor_row_of (two_bodies body1 body2) axis motor_params rhs }
{
    assemble(
        body1,
        body2,
        axis,
        motor_bounds(motor_params),
        rhs,
        rhs,
        motor_params.cfm_coeff,
        motor_params.cfm_gain,
    )
}

// The direction of an angular row: both angular jacobians are 1.
pub fn angular_axis() -> RowAxis
    ensures { result ≡ angular_axis }
{
    RowAxis {
        dist: 0.0,
        lin_jac: Vector { x: 0.0, y: 0.0 },
        ang_jac1: 1.0,
        ang_jac2: 1.0,
    }
}

impl JointConstraintHelper {
    // The direction of an uncoupled linear row, and the distance along it.
    pub fn linear_axis(self, axis: usize) -> RowAxis
        ensures { result ≡ linear_axis_of self axis }
    {
        let lin_jac = self.basis.column(axis);
        RowAxis {
            dist: self.lin_err.gdot(lin_jac),
            lin_jac,
            ang_jac1: coord(self.cmat1_basis, axis),
            ang_jac2: coord(self.cmat2_basis, axis),
        }
    }

    pub fn limit_linear(
        self,
        params: IntegrationParameters,
        body1: JointSolverBody,
        body2: JointSolverBody,
        limited_axis: usize,
        limits: LimitEnds,
        erp_inv_dt: f32,
        cfm_coeff: f32,
    ) -> JointConstraint
        ensures { result ≡ limit_linear_of self params (two_bodies body1 body2) limited_axis limits (erp_cfm erp_inv_dt cfm_coeff) }
    {
        let axis = self.linear_axis(limited_axis);
        let dist = axis.dist;
        let rhs_bias = limit_bias(params, dist, limits.min, limits.max, erp_inv_dt);
        assemble(
            body1,
            body2,
            axis,
            limit_bounds(dist, limits.min, limits.max),
            0.0 + rhs_bias,
            0.0,
            cfm_coeff,
            0.0,
        )
    }

    // Only the upper end is read.
    pub fn limit_linear_coupled(
        self,
        params: IntegrationParameters,
        body1: JointSolverBody,
        body2: JointSolverBody,
        coupled_axes: u32,
        limits: LimitEnds,
        erp_inv_dt: f32,
        cfm_coeff: f32,
    ) -> JointConstraint
        ensures { result ≡ limit_linear_coupled_of self params (two_bodies body1 body2) coupled_axes limits (erp_cfm erp_inv_dt cfm_coeff) }
    {
        let axis = self.coupled_axis(coupled_axes);
        let passed = axis.dist - limits.max;
        let rhs_wo_bias = min(passed, 0.0) * params.inv_dt();
        let max_bias = params.max_corrective_velocity();
        let rhs_bias = clamp(max(passed, 0.0) * erp_inv_dt, -max_bias, max_bias).value;
        assemble(
            body1,
            body2,
            axis,
            ImpulseBounds {
                min: 0.0,
                max: infinity(),
            },
            rhs_wo_bias + rhs_bias,
            rhs_wo_bias,
            cfm_coeff,
            0.0,
        )
    }

    pub fn motor_linear(
        self,
        params: IntegrationParameters,
        body1: JointSolverBody,
        body2: JointSolverBody,
        motor_axis: usize,
        motor_params: MotorParameters,
        limits: Option<LimitEnds>,
    ) -> JointConstraint
        ensures { result ≡ motor_linear_of self params (two_bodies body1 body2) motor_axis motor_params limits }
    {
        let axis = self.linear_axis(motor_axis);
        let rhs = motor_rhs(params, motor_params, limits, axis.dist);
        motor_row(body1, body2, axis, motor_params, rhs)
    }

    pub fn motor_linear_coupled(
        self,
        params: IntegrationParameters,
        body1: JointSolverBody,
        body2: JointSolverBody,
        coupled_axes: u32,
        motor_params: MotorParameters,
        limits: Option<LimitEnds>,
    ) -> JointConstraint
        ensures { result ≡ motor_linear_coupled_of self params (two_bodies body1 body2) coupled_axes motor_params limits }
    {
        let axis = self.coupled_axis(coupled_axes);
        let rhs = motor_rhs(params, motor_params, limits, axis.dist);
        motor_row(body1, body2, axis, motor_params, rhs)
    }

    pub fn lock_linear(
        self,
        body1: JointSolverBody,
        body2: JointSolverBody,
        locked_axis: usize,
        erp_inv_dt: f32,
        cfm_coeff: f32,
    ) -> JointConstraint
        ensures { result ≡ lock_linear_of self (two_bodies body1 body2) locked_axis (erp_cfm erp_inv_dt cfm_coeff) }
    {
        let axis = self.linear_axis(locked_axis);
        let rhs_bias = axis.lin_jac.gdot(self.lin_err) * erp_inv_dt;
        assemble(
            body1,
            body2,
            axis,
            lock_bounds(),
            0.0 + rhs_bias,
            0.0,
            cfm_coeff,
            0.0,
        )
    }

    // The angle of the joint from the centre of its limit.
    pub fn recentered_angle(self, limit: AngularLimitParams) -> f32
        ensures { result ≡ recentered_angle_of self limit }
    {
        let center = limit.center;
        let ang_err = self.ang_err;
        let re = center.re * ang_err.re + center.im * ang_err.im;
        let im = center.re * ang_err.im - center.im * ang_err.re;
        angle(re, im)
    }

    pub fn limit_angular(
        self,
        params: IntegrationParameters,
        body1: JointSolverBody,
        body2: JointSolverBody,
        limit: AngularLimitParams,
        erp_inv_dt: f32,
        cfm_coeff: f32,
    ) -> JointConstraint
        ensures { result ≡ limit_angular_of self params (two_bodies body1 body2) limit (erp_cfm erp_inv_dt cfm_coeff) }
    {
        let ang = self.recentered_angle(limit);
        let high = limit.half_range;
        let low = -high;
        let rhs_bias = limit_bias(params, ang, low, high, erp_inv_dt);
        assemble(
            body1,
            body2,
            angular_axis(),
            limit_bounds(ang, low, high),
            0.0 + rhs_bias,
            0.0,
            cfm_coeff,
            0.0,
        )
    }

    // An angular motor's right-hand side.
    pub fn motor_angular_rhs(self, motor_params: MotorParameters) -> f32
        ensures { result ≡ motor_angular_rhs_of self motor_params }
    {
        let mut rhs_wo_bias = 0.0;
        if motor_params.erp_inv_dt != 0.0 {
            let ang_err = self.ang_err;
            let ang_dist = angle(ang_err.re, ang_err.im);
            rhs_wo_bias = rhs_wo_bias
                + smallest_abs_diff_between_angles(ang_dist, motor_params.target_pos)
                    * motor_params.erp_inv_dt;
        }
        rhs_wo_bias + -motor_params.target_vel
    }

    pub fn motor_angular(
        self,
        body1: JointSolverBody,
        body2: JointSolverBody,
        motor_params: MotorParameters,
    ) -> JointConstraint
        ensures { result ≡ motor_angular_of self (two_bodies body1 body2) motor_params }
    {
        let rhs = self.motor_angular_rhs(motor_params);
        motor_row(body1, body2, angular_axis(), motor_params, rhs)
    }

    pub fn lock_angular(
        self,
        body1: JointSolverBody,
        body2: JointSolverBody,
        erp_inv_dt: f32,
        cfm_coeff: f32,
    ) -> JointConstraint
        ensures { result ≡ lock_angular_of self (two_bodies body1 body2) (erp_cfm erp_inv_dt cfm_coeff) }
    {
        let rhs_bias = self.ang_err.im * erp_inv_dt;
        assemble(
            body1,
            body2,
            angular_axis(),
            lock_bounds(),
            0.0 + rhs_bias,
            0.0,
            cfm_coeff,
            0.0,
        )
    }
}

// ---- `finalize_constraints`: the rows of one group

// J_i M⁻¹ J_jᵀ of two rows of one joint.
pub fn row_dot(imsum: Vector, c_i: JointConstraint, c_j: JointConstraint) -> f32
    ensures { result ≡ row_dot_of imsum c_i c_j }
{
    c_i.lin_jac.gdot(imsum.component_mul(c_j.lin_jac))
        + c_i.ii_ang_jac1 * c_j.ang_jac1
        + c_i.ii_ang_jac2 * c_j.ang_jac2
}

pub fn less(c_i: JointConstraint, c_j: JointConstraint, coeff: f32) -> JointConstraint
    ensures { result ≡ less_of c_i c_j coeff }
{
    let mut row = c_i;
    row.lin_jac = c_i.lin_jac.sub(c_j.lin_jac.mul(coeff));
    row.ang_jac1 = c_i.ang_jac1 - c_j.ang_jac1 * coeff;
    row.ang_jac2 = c_i.ang_jac2 - c_j.ang_jac2 * coeff;
    row.ii_ang_jac1 = c_i.ii_ang_jac1 - c_j.ii_ang_jac1 * coeff;
    row.ii_ang_jac2 = c_i.ii_ang_jac2 - c_j.ii_ang_jac2 * coeff;
    row.rhs_wo_bias = c_i.rhs_wo_bias - c_j.rhs_wo_bias * coeff;
    row.rhs = c_i.rhs - c_j.rhs * coeff;
    row
}

impl Row for JointConstraint {
    type Masses = Vector;

    ghost with_impulse = { with_impulse };

    ghost im_sum = { im_sum_of };

    ghost head = { head_of };

    ghost is_lock = { is_lock };

    ghost inv_dot = { inv_dot_of };

    ghost pair = { pair_of };

    fn with_impulse(self, impulse: f32) -> JointConstraint {
        JointConstraint { impulse, ..self }
    }

    fn im_sum(self) -> Vector {
        self.im1.add(self.im2)
    }

    fn head(self, imsum: Vector) -> JointConstraint {
        let dot_jj = row_dot(imsum, self, self);
        let cfm_gain = dot_jj * self.cfm_coeff + self.cfm_gain;
        JointConstraint {
            inv_lhs: simd_inv(dot_jj + cfm_gain),
            cfm_gain,
            ..self
        }
    }

    fn is_lock(self) -> bool {
        self.impulse_min == -MAX && self.impulse_max == MAX
    }

    fn inv_dot(self, imsum: Vector) -> f32 {
        simd_inv(row_dot(imsum, self, self))
    }

    fn pair(self, imsum: Vector, inv_dot_jj: f32, c_j: JointConstraint) -> JointConstraint {
        let coeff = row_dot(imsum, self, c_j) * inv_dot_jj;
        less(self, c_j, coeff)
    }
}

// The Rust's `finalize_constraints`: the lent rows are one group, made orthogonal by the modified
// Gram-Schmidt process. The inverse masses are those of the first row.
pub fn finalize_constraints<R: Row>(rows: &mut [R])
    ensures { rows.new ≡ finalize_of (group_of R R.Masses R.im_sum R.head R.is_lock R.inv_dot R.pair) rows.old }
{
    let n = rows.len();
    if 0 < n {
        let imsum = rows[0].im_sum();
        for j in 0..n {
            let c_j = rows[j].head(imsum);
            let inv_dot_jj = c_j.inv_dot(imsum);
            rows[j] = c_j;
            if c_j.is_lock() {
                for i in j + 1..n {
                    rows[i] = rows[i].pair(imsum, inv_dot_jj, c_j);
                }
            }
        }
    }
}

// `finalize_constraints` for two groups of lent rows: those before row `first`, and those from there to before row `len`.
pub fn finalize_lent<R: Row>(rows: &mut [R], first: usize, len: usize)
    requires { (first ≤ len) × (len ≤ length rows.old) }
    ensures { rows.new ≡ finalize_groups (group_of R R.Masses R.im_sum R.head R.is_lock R.inv_dot R.pair) first len rows.old }
{
    finalize_constraints(&mut rows[..first]);
    finalize_constraints(&mut rows[first..len]);
}

// The same of an array that is handed over.
pub fn finalize_groups<R: Row, const N: usize>(rows: [R; N], first: usize, len: usize) -> [R; N]
    requires { (first ≤ len) × (len ≤ N) }
    ensures { result ≡ finalize_groups (group_of R R.Masses R.im_sum R.head R.is_lock R.inv_dot R.pair) first len rows }
{
    let mut groups = rows;
    finalize_lent(&mut groups[..], first, len);
    groups
}
