// A joint's reaction: what its rows together gave its two bodies. It is not the Rust's; it is a function of the rows and of both poses.
ghost use Rattle.std.specs.Prelude.{◌≡◌, length};
ghost use Rattle.rows.specs.Reaction.{rows_in, no_impulses, given_of, impulses_of, along_of, moment_of, reaction_of};

use crate::generic_joint::GenericJoint;
use crate::joint_velocity_constraint::{JointConstraint, Rows};
use floats::pose::Pose;
use floats::rotation_ops::Rotation;
use floats::vector::Vector;

// What a body got, the angular part about its centre of mass.
#[derive(Clone, Copy)]
pub struct BodyImpulse {
    pub linear: Vector,
    pub angular: f32,
}

#[derive(Clone, Copy)]
pub struct BodyImpulses {
    pub body1: BodyImpulse,
    pub body2: BodyImpulse,
}

// What each body got; body 1's linear part along frame 1's directions; the moment that body 1 gets at frame 2's place.
#[derive(Clone, Copy)]
pub struct Reaction {
    pub impulses: BodyImpulses,
    pub along: Vector,
    pub moment: f32,
}

fn no_impulses() -> BodyImpulses
    ensures { result ≡ no_impulses }
{
    let none = BodyImpulse {
        linear: Vector { x: 0.0, y: 0.0 },
        angular: 0.0,
    };
    BodyImpulses {
        body1: none,
        body2: none,
    }
}

// What was given, with one more row.
fn given(before: BodyImpulses, row: JointConstraint) -> BodyImpulses
    ensures { result ≡ given_of before row }
{
    let impulse = row.impulse;
    let linear = row.lin_jac.mul(impulse);
    BodyImpulses {
        body1: BodyImpulse {
            linear: before.body1.linear.add(linear),
            angular: before.body1.angular + row.ang_jac1 * impulse,
        },
        body2: BodyImpulse {
            linear: before.body2.linear.sub(linear),
            angular: before.body2.angular - row.ang_jac2 * impulse,
        },
    }
}

// How many rows an array holds.
fn held(rows: Rows) -> usize
    ensures { result ≡ length (rows_in rows) }
{
    rows.len.min(6)
}

// What a joint's rows together gave each body.
pub fn impulses(rows: Rows) -> BodyImpulses
    ensures { result ≡ impulses_of (rows_in rows) }
{
    let n = held(rows);
    let mut sums = no_impulses();
    for k in 0..n {
        sums = given(sums, rows.rows[k]);
    }
    sums
}

// A vector along the two directions of a frame.
fn along(frame: Rotation, v: Vector) -> Vector
    ensures { result ≡ along_of frame v }
{
    let basis = frame.to_mat();
    Vector {
        x: basis.column(0).gdot(v),
        y: basis.column(1).gdot(v),
    }
}

// The moment that body 1 gets at a point, from what body 2 got about its centre of mass.
fn moment(point: Vector, center: Vector, got: BodyImpulse) -> f32
    ensures { result ≡ moment_of point center got }
{
    point.sub(center).gcross_matrix().gdot(got.linear) - got.angular
}

// The reaction of a joint that has these rows, its bodies at these poses.
pub fn joint_reaction(rows: Rows, pose1: Pose, pose2: Pose, joint: GenericJoint) -> Reaction
    ensures { result ≡ reaction_of (rows_in rows) pose1 pose2 joint }
{
    let sums = impulses(rows);
    let frame1 = pose1.mul(joint.local_frame1);
    let frame2 = pose2.mul(joint.local_frame2);
    Reaction {
        impulses: sums,
        along: along(frame1.rotation, sums.body1.linear),
        moment: moment(frame2.translation, pose2.translation, sums.body2),
    }
}
