// The calls on a model in space, as spatial_capi has them.
ghost use Rattle.std.specs.Prelude.{◌≡◌, [], cond};
ghost use Rattle.multibody.specs.Calls.{run};
ghost use Rattle.multibody.specs.Calls.Call.{load, place, build, warm_start, sweep, remove_bias, write_back, read_velocity};
ghost use Rattle.spatial_model.specs.Spatial.{spatial};
ghost use Rattle.capi.specs.CallExports.{warm_of, number, marked_number, short_slice, room_for_counts, counts_out};
ghost use Rattle.spatial_capi.specs.CallExports.{lent, pose_from, rows_read_at, rows_number, rows_out, ids_out, swept_at, velocity_number, velocity_out};

#[unsafe(no_mangle)]
pub extern "C" fn katydidzinc_space_load(
    dt: f32,
    length_unit: f32,
    normalized: f32,
    built: u32,
    bodies: &[f32],
    words: &[u32],
    numbers: &[f32],
    rows: &[f32],
) -> u64
    ensures { result ≡ marked_number (run spatial load (lent dt length_unit normalized built bodies.now words.now numbers.now) rows.now) }
{
    spatial_capi::calls::katydidzinc_space_load(
        dt,
        length_unit,
        normalized,
        built,
        bodies,
        words,
        numbers,
        rows,
    )
}

#[unsafe(no_mangle)]
pub extern "C" fn katydidzinc_space_place(
    dt: f32,
    length_unit: f32,
    normalized: f32,
    built: u32,
    bodies: &mut [f32],
    words: &[u32],
    numbers: &[f32],
    body: u32,
    qx: f32,
    qy: f32,
    qz: f32,
    qw: f32,
    x: f32,
    y: f32,
    z: f32,
) -> u64
    ensures value { result ≡ number (run spatial (place body (pose_from qx qy qz qw x y z)) (lent dt length_unit normalized built bodies.old words.now numbers.now) []).answer }
    ensures bodies_after { bodies.new ≡ (run spatial (place body (pose_from qx qy qz qw x y z)) (lent dt length_unit normalized built bodies.old words.now numbers.now) []).after.bodies }
{
    spatial_capi::calls::katydidzinc_space_place(
        dt,
        length_unit,
        normalized,
        built,
        bodies,
        words,
        numbers,
        body,
        qx,
        qy,
        qz,
        qw,
        x,
        y,
        z,
    )
}

#[unsafe(no_mangle)]
pub extern "C" fn katydidzinc_space_build(
    dt: f32,
    length_unit: f32,
    normalized: f32,
    built: u32,
    bodies: &[f32],
    words: &[u32],
    numbers: &[f32],
    rows: &mut [f32],
    warm: u32,
    coefficient: f32,
    substep_id: u32,
) -> u64
    ensures value { result ≡ marked_number (run spatial (build (warm_of warm coefficient) substep_id) (lent dt length_unit normalized built bodies.now words.now numbers.now) rows.old) }
    ensures rows_after { rows.new ≡ (run spatial (build (warm_of warm coefficient) substep_id) (lent dt length_unit normalized built bodies.now words.now numbers.now) rows.old).rows }
{
    spatial_capi::calls::katydidzinc_space_build(
        dt,
        length_unit,
        normalized,
        built,
        bodies,
        words,
        numbers,
        rows,
        warm,
        coefficient,
        substep_id,
    )
}

#[unsafe(no_mangle)]
pub extern "C" fn katydidzinc_space_warm_start(
    dt: f32,
    length_unit: f32,
    normalized: f32,
    built: u32,
    bodies: &mut [f32],
    words: &[u32],
    numbers: &[f32],
    rows: &[f32],
) -> u64
    ensures value { result ≡ number (run spatial warm_start (lent dt length_unit normalized built bodies.old words.now numbers.now) rows.now).answer }
    ensures bodies_after { bodies.new ≡ (run spatial warm_start (lent dt length_unit normalized built bodies.old words.now numbers.now) rows.now).after.bodies }
{
    spatial_capi::calls::katydidzinc_space_warm_start(
        dt,
        length_unit,
        normalized,
        built,
        bodies,
        words,
        numbers,
        rows,
    )
}

// 128 bytes are lent for the counts, one a joint. Where there are fewer the answer says so, and nothing is done.
#[unsafe(no_mangle)]
pub extern "C" fn katydidzinc_space_sweep(
    dt: f32,
    length_unit: f32,
    normalized: f32,
    built: u32,
    bodies: &mut [f32],
    words: &[u32],
    numbers: &[f32],
    rows: &mut [f32],
    n: u32,
    counts: &mut [u8],
) -> u64
    ensures value { result ≡ cond (room_for_counts counts.old) (number (run spatial (sweep n) (lent dt length_unit normalized built bodies.old words.now numbers.now) rows.old).answer) short_slice }
    ensures bodies_after { bodies.new ≡ cond (room_for_counts counts.old) (run spatial (sweep n) (lent dt length_unit normalized built bodies.old words.now numbers.now) rows.old).after.bodies bodies.old }
    ensures rows_after { rows.new ≡ cond (room_for_counts counts.old) (run spatial (sweep n) (lent dt length_unit normalized built bodies.old words.now numbers.now) rows.old).rows rows.old }
    ensures counts_after { counts.new ≡ cond (room_for_counts counts.old) (counts_out (swept_at n (lent dt length_unit normalized built bodies.old words.now numbers.now) rows.old) counts.old) counts.old }
{
    spatial_capi::calls::katydidzinc_space_sweep(
        dt,
        length_unit,
        normalized,
        built,
        bodies,
        words,
        numbers,
        rows,
        n,
        counts,
    )
}

#[unsafe(no_mangle)]
pub extern "C" fn katydidzinc_space_remove_bias(
    dt: f32,
    length_unit: f32,
    normalized: f32,
    built: u32,
    bodies: &[f32],
    words: &[u32],
    numbers: &[f32],
    rows: &mut [f32],
) -> u64
    ensures value { result ≡ number (run spatial remove_bias (lent dt length_unit normalized built bodies.now words.now numbers.now) rows.old).answer }
    ensures rows_after { rows.new ≡ (run spatial remove_bias (lent dt length_unit normalized built bodies.now words.now numbers.now) rows.old).rows }
{
    spatial_capi::calls::katydidzinc_space_remove_bias(
        dt,
        length_unit,
        normalized,
        built,
        bodies,
        words,
        numbers,
        rows,
    )
}

#[unsafe(no_mangle)]
pub extern "C" fn katydidzinc_space_write_back(
    dt: f32,
    length_unit: f32,
    normalized: f32,
    built: u32,
    bodies: &[f32],
    words: &[u32],
    numbers: &mut [f32],
    rows: &[f32],
) -> u64
    ensures value { result ≡ number (run spatial write_back (lent dt length_unit normalized built bodies.now words.now numbers.old) rows.now).answer }
    ensures numbers_after { numbers.new ≡ (run spatial write_back (lent dt length_unit normalized built bodies.now words.now numbers.old) rows.now).after.numbers }
{
    spatial_capi::calls::katydidzinc_space_write_back(
        dt,
        length_unit,
        normalized,
        built,
        bodies,
        words,
        numbers,
        rows,
    )
}

#[unsafe(no_mangle)]
pub extern "C" fn katydidzinc_space_read_rows(
    dt: f32,
    length_unit: f32,
    normalized: f32,
    built: u32,
    bodies: &[f32],
    words: &[u32],
    numbers: &[f32],
    rows: &[f32],
    joint: u32,
    out: &mut [f32],
    ids: &mut [u32],
) -> u64
    ensures value { result ≡ rows_number (rows_read_at joint (lent dt length_unit normalized built bodies.now words.now numbers.now) rows.now) out.old ids.old }
    ensures out_after { out.new ≡ rows_out (rows_read_at joint (lent dt length_unit normalized built bodies.now words.now numbers.now) rows.now) out.old ids.old }
    ensures ids_after { ids.new ≡ ids_out (rows_read_at joint (lent dt length_unit normalized built bodies.now words.now numbers.now) rows.now) out.old ids.old }
{
    spatial_capi::calls::katydidzinc_space_read_rows(
        dt,
        length_unit,
        normalized,
        built,
        bodies,
        words,
        numbers,
        rows,
        joint,
        out,
        ids,
    )
}

#[unsafe(no_mangle)]
pub extern "C" fn katydidzinc_space_read_velocity(
    dt: f32,
    length_unit: f32,
    normalized: f32,
    built: u32,
    bodies: &[f32],
    words: &[u32],
    numbers: &[f32],
    body: u32,
    out: &mut [f32],
) -> u64
    ensures value { result ≡ velocity_number (run spatial (read_velocity body) (lent dt length_unit normalized built bodies.now words.now numbers.now) []).answer out.old }
    ensures out_after { out.new ≡ velocity_out (run spatial (read_velocity body) (lent dt length_unit normalized built bodies.now words.now numbers.now) []).answer out.old }
{
    spatial_capi::calls::katydidzinc_space_read_velocity(
        dt,
        length_unit,
        normalized,
        built,
        bodies,
        words,
        numbers,
        body,
        out,
    )
}
