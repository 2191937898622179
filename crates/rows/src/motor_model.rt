// The Rust's dynamics/joint/motor_model.rs.
ghost use Rattle.std.specs.Prelude.{◌≡◌};
ghost use Rattle.rows.specs.MotorModel.{combine_coefficients_of};

use floats::utils::inv;

#[derive(Clone, Copy)]
pub enum MotorModel {
    AccelerationBased,
    ForceBased,
}

// The three results of `combine_coefficients`, a tuple in the Rust.
#[derive(Clone, Copy)]
pub struct MotorCoefficients {
    pub erp_inv_dt: f32,
    pub cfm_coeff: f32,
    pub cfm_gain: f32,
}

impl MotorModel {
    pub fn combine_coefficients(self, dt: f32, stiffness: f32, damping: f32) -> MotorCoefficients
        ensures { result ≡ combine_coefficients_of self dt stiffness damping }
    {
        let erp_inv_dt = stiffness * inv(dt * stiffness + damping);
        let cfm = inv(dt * dt * stiffness + dt * damping);
        match self {
            MotorModel::AccelerationBased => MotorCoefficients {
                erp_inv_dt,
                cfm_coeff: cfm,
                cfm_gain: 0.0,
            },
            MotorModel::ForceBased => MotorCoefficients {
                erp_inv_dt,
                cfm_coeff: 0.0,
                cfm_gain: cfm,
            },
        }
    }
}
