// The rows of a joint over numbers and slices, as comparison has them.
ghost use Rattle.std.specs.Prelude.{◌≡◌};
ghost use Rattle.comparison.specs.JointExports.{step_row, step_vels, step_side, warmstart, remove_bias, writeback, finalize, combine_coefficients, spring, angular_limit, build_rows, build_ids, build_count};
ghost use Rattle.capi.specs.CallExports.{params_of};
ghost use Rattle.floats.specs.Operators.{bits};
ghost use Rattle.rows.specs.IntegrationParameters.{inv_dt_of, max_corrective_velocity_of};
ghost use Rattle.rows.specs.GenericJoint.{max_impulse_of};

// Which bound the step met comes back, as `katydidzinc_clamp_side` has it; 3 where a slice is too short, and then nothing is done.
#[unsafe(no_mangle)]
pub extern "C" fn katydidzinc_rows_step(row: &mut [f32], vels: &mut [f32]) -> u32
    ensures value { result ≡ step_side row.old vels.old }
    ensures row_after { row.new ≡ step_row row.old vels.old }
    ensures vels_after { vels.new ≡ step_vels row.old vels.old }
{
    comparison::joint::katydidzinc_rows_step(row, vels)
}

#[unsafe(no_mangle)]
pub extern "C" fn katydidzinc_rows_warmstart(row: &[f32], vels: &mut [f32])
    ensures { vels.new ≡ warmstart row.now vels.old }
{
    comparison::joint::katydidzinc_rows_warmstart(row, vels);
}

#[unsafe(no_mangle)]
pub extern "C" fn katydidzinc_rows_remove_bias(row: &mut [f32])
    ensures { row.new ≡ remove_bias row.old }
{
    comparison::joint::katydidzinc_rows_remove_bias(row);
}

// A row's impulse stored in a joint's numbers.
#[unsafe(no_mangle)]
pub extern "C" fn katydidzinc_rows_writeback(id: u32, impulse: f32, numbers: &mut [f32])
    ensures { numbers.new ≡ writeback id impulse numbers.old }
{
    comparison::joint::katydidzinc_rows_writeback(id, impulse, numbers);
}

// The first n of six rows as one group, or all six.
#[unsafe(no_mangle)]
pub extern "C" fn katydidzinc_rows_finalize(n: usize, rows: &mut [f32])
    ensures { rows.new ≡ finalize n rows.old }
{
    comparison::joint::katydidzinc_rows_finalize(n, rows);
}

#[unsafe(no_mangle)]
pub extern "C" fn katydidzinc_combine_coefficients(
    model: u32,
    dt: f32,
    stiffness: f32,
    damping: f32,
    out: &mut [f32],
)
    ensures { out.new ≡ combine_coefficients model dt stiffness damping out.old }
{
    comparison::joint::katydidzinc_combine_coefficients(model, dt, stiffness, damping, out);
}

#[unsafe(no_mangle)]
pub extern "C" fn katydidzinc_spring(
    natural_frequency: f32,
    damping_ratio: f32,
    dt: f32,
    out: &mut [f32],
)
    ensures { out.new ≡ spring natural_frequency damping_ratio dt out.old }
{
    comparison::joint::katydidzinc_spring(natural_frequency, damping_ratio, dt, out);
}

#[unsafe(no_mangle)]
pub extern "C" fn katydidzinc_inv_dt(dt: f32) -> f32
    ensures { result ≡ inv_dt_of (params_of dt (bits 0) (bits 0)) }
{
    comparison::joint::katydidzinc_inv_dt(dt)
}

#[unsafe(no_mangle)]
pub extern "C" fn katydidzinc_max_corrective_velocity(length_unit: f32, normalized: f32) -> f32
    ensures { result ≡ max_corrective_velocity_of (params_of (bits 0) length_unit normalized) }
{
    comparison::joint::katydidzinc_max_corrective_velocity(length_unit, normalized)
}

#[unsafe(no_mangle)]
pub extern "C" fn katydidzinc_max_impulse(max_force: f32, dt: f32) -> f32
    ensures { result ≡ max_impulse_of max_force dt }
{
    comparison::joint::katydidzinc_max_impulse(max_force, dt)
}

#[unsafe(no_mangle)]
pub extern "C" fn katydidzinc_angular_limit(min: f32, max: f32, cos: f32, sin: f32, out: &mut [f32])
    ensures { out.new ≡ angular_limit min max cos sin out.old }
{
    comparison::joint::katydidzinc_angular_limit(min, max, cos, sin, out);
}

#[unsafe(no_mangle)]
pub extern "C" fn katydidzinc_rows_build(
    words: &[u32],
    numbers: &[f32],
    rows: &mut [f32],
    ids: &mut [u32],
) -> usize
    ensures value { result ≡ build_count words.now numbers.now rows.old ids.old }
    ensures rows_after { rows.new ≡ build_rows words.now numbers.now rows.old ids.old }
    ensures ids_after { ids.new ≡ build_ids words.now numbers.now rows.old ids.old }
{
    comparison::joint::katydidzinc_rows_build(words, numbers, rows, ids)
}
