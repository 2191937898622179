// A joint's reaction and a row's residual from flat storage, for callers who have the joint's rows: what a row read answered. What is there is read; an absent
// joint is one of zeros between the world and the world, and an absent body is the world.
ghost use Rattle.std.specs.Prelude.{◌≡◌};
ghost use Rattle.rows.specs.Reaction.{rows_in};
ghost use Rattle.model.specs.Reactions.{body1_if_there, body2_if_there, reaction_at, residual_at};

use crate::layout::{WORDS_WIDTH, WORLD};
use crate::plane::Plane;
use crate::single_records::{read_joint, read_pose, read_vel};
use multibody::kind::Kind;
use rows::joint_velocity_constraint::{JointConstraint, Rows};
use rows::reaction::{Reaction, joint_reaction};

fn read_body1(words: &[u32], j: usize) -> u32
    ensures { result ≡ body1_if_there words.now j }
{
    if j < words.len() / WORDS_WIDTH {
        return Plane::body1_at(words, j);
    }
    WORLD
}

fn read_body2(words: &[u32], j: usize) -> u32
    ensures { result ≡ body2_if_there words.now j }
{
    if j < words.len() / WORDS_WIDTH {
        return Plane::body2_at(words, j);
    }
    WORLD
}

// The reaction of joint j, which has these rows.
pub fn reaction_at(bodies: &[f32], words: &[u32], numbers: &[f32], rows: Rows, j: usize) -> Reaction
    ensures { result ≡ reaction_at bodies.now words.now numbers.now (rows_in rows) j }
{
    let pose1 = read_pose(bodies, read_body1(words, j));
    let pose2 = read_pose(bodies, read_body2(words, j));
    let joint = read_joint(words, numbers, j);
    joint_reaction(rows, pose1, pose2, joint.data)
}

// The residual of a row of joint j.
pub fn residual_at(bodies: &[f32], words: &[u32], row: JointConstraint, j: usize) -> f32
    ensures { result ≡ residual_at bodies.now words.now row j }
{
    let vel1 = read_vel(bodies, read_body1(words, j));
    let vel2 = read_vel(bodies, read_body2(words, j));
    row.residual(vel1, vel2)
}
