// What stands in flat storage in any number of axes: six numbers at a time, an axis's limits and motor, whether a joint is enabled.
ghost use Rattle.std.specs.Prelude.{◌≡◌, [], ◌∷◌, ◌+◌, ◌≤◌, length};
ghost use Rattle.multibody.specs.Records.{num_from, puts};
ghost use Rattle.multibody.specs.JointRecords.{six_of, limits_of, motor_model_of, motor_of, enabled_of, axis_of};

use rows::generic_joint::{JointEnabled, JointLimits, JointMotor};
use rows::joint_velocity_constraint::WritebackId;
use rows::motor_model::MotorModel;

// Six numbers one after the other.
#[derive(Clone, Copy)]
pub struct Six {
    pub n0: f32,
    pub n1: f32,
    pub n2: f32,
    pub n3: f32,
    pub n4: f32,
    pub n5: f32,
}

// The six numbers from number c on of the record that starts at place o.
pub fn six_at(s: &[f32], o: usize, c: usize) -> Six
    requires { o + c + 6 ≤ length s.now }
    ensures { result ≡ six_of (num_from s.now o) c }
{
    let i = o + c;
    Six {
        n0: s[i],
        n1: s[i + 1],
        n2: s[i + 2],
        n3: s[i + 3],
        n4: s[i + 4],
        n5: s[i + 5],
    }
}

// Six numbers from place o on.
pub fn put6(s: &mut [f32], o: usize, a: f32, b: f32, c: f32, d: f32, e: f32, f: f32)
    requires { o + 6 ≤ length s.old }
    ensures { s.new ≡ puts s.old o 0 (a ∷ b ∷ c ∷ d ∷ e ∷ f ∷ []) }
{
    s[o] = a;
    s[o + 1] = b;
    s[o + 2] = c;
    s[o + 3] = d;
    s[o + 4] = e;
    s[o + 5] = f;
}

// An axis's limits, in three numbers from number c on of the record that starts at place o.
pub fn limits_at(s: &[f32], o: usize, c: usize) -> JointLimits
    requires { o + c + 3 ≤ length s.now }
    ensures { result ≡ limits_of (num_from s.now o) c }
{
    let a = o + c;
    JointLimits {
        min: s[a],
        max: s[a + 1],
        impulse: s[a + 2],
    }
}

// 0 is acceleration based, and every other number force based.
fn motor_model_of(m: u32) -> MotorModel
    ensures { result ≡ motor_model_of m }
{
    match m {
        0 => MotorModel::AccelerationBased,
        _ => MotorModel::ForceBased,
    }
}

// An axis's motor, in six numbers likewise, and the number of its model.
pub fn motor_at(s: &[f32], o: usize, c: usize, m: u32) -> JointMotor
    requires { o + c + 6 ≤ length s.now }
    ensures { result ≡ motor_of (num_from s.now o) c m }
{
    let a = six_at(s, o, c);
    JointMotor {
        target_vel: a.n0,
        target_pos: a.n1,
        stiffness: a.n2,
        damping: a.n3,
        max_force: a.n4,
        impulse: a.n5,
        model: motor_model_of(m),
    }
}

// The Rust's kinds in the order of its declaration; every other number is `Disabled`.
pub fn enabled_of(e: u32) -> JointEnabled
    ensures { result ≡ enabled_of e }
{
    match e {
        0 => JointEnabled::Enabled,
        1 => JointEnabled::DisabledByAttachedBody,
        _ => JointEnabled::Disabled,
    }
}

// The axis that an id is of.
pub fn axis(id: WritebackId) -> usize
    ensures { result ≡ axis_of id }
{
    match id {
        WritebackId::Dof(i) => i,
        WritebackId::Limit(i) => i,
        WritebackId::Motor(i) => i,
    }
}
