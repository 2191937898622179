// How a substep moves the bodies.
ghost use Rattle.std.specs.Prelude.{◌≡◌, ◌<◌, ◌≤◌};
ghost use Rattle.multibody.specs.Model.{most_bodies};
ghost use Rattle.multibody.specs.Counts.{body_count};
ghost use Rattle.model.specs.Planar.{plane};
ghost use Rattle.model.specs.Refusals.{finite_pose};
ghost use Rattle.frames.specs.Moving.{moved_rotation, moved_pose, new_pose, moved, move_from};

use floats::pose::Pose;
use floats::rotation_ops::Rotation;
use floats::scalar::is_finite;
use floats::vector::Vector;
use model::layout::BODY_WIDTH;
use model::single_records::{read_pose, read_vel, write_pose};
use rows::joint_velocity_constraint::SolverVel;

// A rotation turned by a small angle and brought back to length one; the old one where the length is zero.
fn moved_rotation(old: Rotation, a: f32) -> Rotation
    ensures { result ≡ moved_rotation old a }
{
    let new = Vector {
        x: old.re - old.im * a,
        y: old.im + old.re * a,
    };
    let length = new.simd_length();
    if length == 0.0 {
        old
    } else {
        Rotation {
            re: new.x / length,
            im: new.y / length,
        }
    }
}

fn moved_pose(pose: Pose, vel: SolverVel, h: f32) -> Pose
    ensures { result ≡ moved_pose pose vel h }
{
    Pose {
        rotation: moved_rotation(pose.rotation, vel.angular * h),
        translation: pose.translation.add(vel.linear.mul(h)),
    }
}

fn finite_pose(p: Pose) -> bool
    ensures { result ≡ finite_pose p }
{
    is_finite(p.rotation.re)
        && is_finite(p.rotation.im)
        && is_finite(p.translation.x)
        && is_finite(p.translation.y)
}

fn new_pose(b: &[f32], i: u32, h: f32) -> Pose
    requires { i < body_count plane b.now }
    ensures { result ≡ new_pose h b.now i }
{
    moved_pose(read_pose(b, i), read_vel(b, i), h)
}

// Every body, ascending, up to the first whose new pose is not finite; whether there was none.
pub fn move_all(b: &mut [f32], h: f32) -> bool
    requires { body_count plane b.old ≤ most_bodies }
    ensures { moved b.new result ≡ move_from h 0 (body_count plane b.old) b.old }
{
    let n = (b.len() / BODY_WIDTH) as u32;
    for i in 0..n {
        let pose = new_pose(b, i, h);
        if !finite_pose(pose) {
            return false;
        }
        write_pose(b, i, pose);
    }
    true
}
