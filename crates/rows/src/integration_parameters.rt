// The Rust's dynamics/integration_parameters.rs: what the joint rows read of it.
ghost use Rattle.std.specs.Prelude.{◌≡◌};
ghost use Rattle.rows.specs.IntegrationParameters.{angular_frequency_of, erp_inv_dt_of, erp_of, damped_of, undamped_of, cfm_coeff_of, inv_dt_of, max_corrective_velocity_of};

// f32::MAX.
pub const MAX: f32 = 3.40282347e+38;

const TWO_PI: f32 = 6.283185307179586;

#[derive(Clone, Copy)]
pub struct SpringCoefficients {
    pub natural_frequency: f32,
    pub damping_ratio: f32,
}

#[derive(Clone, Copy)]
pub struct IntegrationParameters {
    pub dt: f32,
    pub length_unit: f32,
    pub normalized_max_corrective_velocity: f32,
}

impl SpringCoefficients {
    pub fn angular_frequency(self) -> f32
        ensures { result ≡ angular_frequency_of self }
    {
        self.natural_frequency * TWO_PI
    }

    pub fn erp_inv_dt(self, dt: f32) -> f32
        ensures { result ≡ erp_inv_dt_of self dt }
    {
        let ang_freq = self.angular_frequency();
        ang_freq / (dt * ang_freq + 2.0 * self.damping_ratio)
    }

    pub fn erp(self, dt: f32) -> f32
        ensures { result ≡ erp_of self dt }
    {
        dt * self.erp_inv_dt(dt)
    }

    // The first branch of `cfm_coeff`, at an erp.
    pub fn damped(self, erp: f32) -> f32
        ensures { result ≡ damped_of self erp }
    {
        let inv_erp_minus_one = 1.0 / erp - 1.0;
        inv_erp_minus_one * inv_erp_minus_one
            / ((1.0 + inv_erp_minus_one) * 4.0 * self.damping_ratio * self.damping_ratio)
    }

    // The second branch of `cfm_coeff`.
    pub fn undamped(self, dt: f32) -> f32
        ensures { result ≡ undamped_of self dt }
    {
        let dt_omega = dt * self.angular_frequency();
        1.0 / (dt_omega * (dt_omega + 2.0 * self.damping_ratio))
    }

    pub fn cfm_coeff(self, dt: f32) -> f32
        ensures { result ≡ cfm_coeff_of self dt }
    {
        let erp = self.erp(dt);
        if erp != 0.0 {
            if self.damping_ratio == 0.0 {
                self.undamped(dt)
            } else {
                self.damped(erp)
            }
        } else {
            0.0
        }
    }
}

impl IntegrationParameters {
    pub fn inv_dt(self) -> f32
        ensures { result ≡ inv_dt_of self }
    {
        if self.dt == 0.0 { 0.0 } else { 1.0 / self.dt }
    }

    pub fn max_corrective_velocity(self) -> f32
        ensures { result ≡ max_corrective_velocity_of self }
    {
        if self.normalized_max_corrective_velocity != MAX {
            self.normalized_max_corrective_velocity * self.length_unit
        } else {
            MAX
        }
    }
}
