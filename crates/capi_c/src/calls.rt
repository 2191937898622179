// The model's calls, as capi has them.
ghost use Rattle.std.specs.Prelude.{◌≡◌, [], cond};
ghost use Rattle.multibody.specs.Calls.{run};
ghost use Rattle.multibody.specs.Calls.Call.{load, place, build, warm_start, sweep, remove_bias, write_back, read_velocity, set_masks, further};
ghost use Rattle.model.specs.Planar.{planar};
ghost use Rattle.capi.specs.CallExports.{lent, pose_from, masks_from, warm_of, number, marked_number, rows_read_at, rows_number, rows_out, ids_out, short_slice, swept_at, counts_out, room_for_counts, velocity_number, velocity_out};

#[unsafe(no_mangle)]
pub extern "C" fn katydidzinc_load(
    dt: f32,
    length_unit: f32,
    normalized: f32,
    built: u32,
    bodies: &[f32],
    words: &mut [u32],
    numbers: &[f32],
    rows: &[f32],
) -> u64
    ensures value { result ≡ marked_number (run planar load (lent dt length_unit normalized built bodies.now words.old numbers.now) rows.now) }
    ensures words_after { words.new ≡ (run planar load (lent dt length_unit normalized built bodies.now words.old numbers.now) rows.now).after.words }
{
    capi::calls::katydidzinc_load(
        dt,
        length_unit,
        normalized,
        built,
        bodies,
        words,
        numbers,
        rows,
    )
}

#[unsafe(no_mangle)]
pub extern "C" fn katydidzinc_set_masks(
    dt: f32,
    length_unit: f32,
    normalized: f32,
    built: u32,
    bodies: &[f32],
    words: &mut [u32],
    numbers: &[f32],
    rows: &[f32],
    joint: u32,
    locked: u32,
    limit: u32,
    motor: u32,
    coupled: u32,
) -> u64
    ensures value { result ≡ marked_number (run planar (set_masks joint (masks_from locked limit motor coupled)) (lent dt length_unit normalized built bodies.now words.old numbers.now) rows.now) }
    ensures words_after { words.new ≡ (run planar (set_masks joint (masks_from locked limit motor coupled)) (lent dt length_unit normalized built bodies.now words.old numbers.now) rows.now).after.words }
{
    capi::calls::katydidzinc_set_masks(
        dt,
        length_unit,
        normalized,
        built,
        bodies,
        words,
        numbers,
        rows,
        joint,
        locked,
        limit,
        motor,
        coupled,
    )
}

#[unsafe(no_mangle)]
pub extern "C" fn katydidzinc_place(
    dt: f32,
    length_unit: f32,
    normalized: f32,
    built: u32,
    bodies: &mut [f32],
    words: &[u32],
    numbers: &[f32],
    body: u32,
    re: f32,
    im: f32,
    x: f32,
    y: f32,
) -> u64
    ensures value { result ≡ number (run planar (place body (pose_from re im x y)) (lent dt length_unit normalized built bodies.old words.now numbers.now) []).answer }
    ensures bodies_after { bodies.new ≡ (run planar (place body (pose_from re im x y)) (lent dt length_unit normalized built bodies.old words.now numbers.now) []).after.bodies }
{
    capi::calls::katydidzinc_place(
        dt,
        length_unit,
        normalized,
        built,
        bodies,
        words,
        numbers,
        body,
        re,
        im,
        x,
        y,
    )
}

#[unsafe(no_mangle)]
pub extern "C" fn katydidzinc_build(
    dt: f32,
    length_unit: f32,
    normalized: f32,
    built: u32,
    bodies: &[f32],
    words: &[u32],
    numbers: &[f32],
    rows: &mut [f32],
    warm: u32,
    coefficient: f32,
    substep_id: u32,
) -> u64
    ensures value { result ≡ marked_number (run planar (build (warm_of warm coefficient) substep_id) (lent dt length_unit normalized built bodies.now words.now numbers.now) rows.old) }
    ensures rows_after { rows.new ≡ (run planar (build (warm_of warm coefficient) substep_id) (lent dt length_unit normalized built bodies.now words.now numbers.now) rows.old).rows }
{
    capi::calls::katydidzinc_build(
        dt,
        length_unit,
        normalized,
        built,
        bodies,
        words,
        numbers,
        rows,
        warm,
        coefficient,
        substep_id,
    )
}

#[unsafe(no_mangle)]
pub extern "C" fn katydidzinc_warm_start(
    dt: f32,
    length_unit: f32,
    normalized: f32,
    built: u32,
    bodies: &mut [f32],
    words: &[u32],
    numbers: &[f32],
    rows: &[f32],
) -> u64
    ensures value { result ≡ number (run planar warm_start (lent dt length_unit normalized built bodies.old words.now numbers.now) rows.now).answer }
    ensures bodies_after { bodies.new ≡ (run planar warm_start (lent dt length_unit normalized built bodies.old words.now numbers.now) rows.now).after.bodies }
{
    capi::calls::katydidzinc_warm_start(
        dt,
        length_unit,
        normalized,
        built,
        bodies,
        words,
        numbers,
        rows,
    )
}

// 128 bytes are lent for the counts, one a joint. Where there are fewer the answer says so, and nothing is done.
#[unsafe(no_mangle)]
pub extern "C" fn katydidzinc_sweep(
    dt: f32,
    length_unit: f32,
    normalized: f32,
    built: u32,
    bodies: &mut [f32],
    words: &[u32],
    numbers: &[f32],
    rows: &mut [f32],
    n: u32,
    counts: &mut [u8],
) -> u64
    ensures value { result ≡ cond (room_for_counts counts.old) (number (run planar (sweep n) (lent dt length_unit normalized built bodies.old words.now numbers.now) rows.old).answer) short_slice }
    ensures bodies_after { bodies.new ≡ cond (room_for_counts counts.old) (run planar (sweep n) (lent dt length_unit normalized built bodies.old words.now numbers.now) rows.old).after.bodies bodies.old }
    ensures rows_after { rows.new ≡ cond (room_for_counts counts.old) (run planar (sweep n) (lent dt length_unit normalized built bodies.old words.now numbers.now) rows.old).rows rows.old }
    ensures counts_after { counts.new ≡ cond (room_for_counts counts.old) (counts_out (swept_at n (lent dt length_unit normalized built bodies.old words.now numbers.now) rows.old) counts.old) counts.old }
{
    capi::calls::katydidzinc_sweep(
        dt,
        length_unit,
        normalized,
        built,
        bodies,
        words,
        numbers,
        rows,
        n,
        counts,
    )
}

#[unsafe(no_mangle)]
pub extern "C" fn katydidzinc_remove_bias(
    dt: f32,
    length_unit: f32,
    normalized: f32,
    built: u32,
    bodies: &[f32],
    words: &[u32],
    numbers: &[f32],
    rows: &mut [f32],
) -> u64
    ensures value { result ≡ number (run planar remove_bias (lent dt length_unit normalized built bodies.now words.now numbers.now) rows.old).answer }
    ensures rows_after { rows.new ≡ (run planar remove_bias (lent dt length_unit normalized built bodies.now words.now numbers.now) rows.old).rows }
{
    capi::calls::katydidzinc_remove_bias(
        dt,
        length_unit,
        normalized,
        built,
        bodies,
        words,
        numbers,
        rows,
    )
}

#[unsafe(no_mangle)]
pub extern "C" fn katydidzinc_write_back(
    dt: f32,
    length_unit: f32,
    normalized: f32,
    built: u32,
    bodies: &[f32],
    words: &[u32],
    numbers: &mut [f32],
    rows: &[f32],
) -> u64
    ensures value { result ≡ number (run planar write_back (lent dt length_unit normalized built bodies.now words.now numbers.old) rows.now).answer }
    ensures numbers_after { numbers.new ≡ (run planar write_back (lent dt length_unit normalized built bodies.now words.now numbers.old) rows.now).after.numbers }
{
    capi::calls::katydidzinc_write_back(
        dt,
        length_unit,
        normalized,
        built,
        bodies,
        words,
        numbers,
        rows,
    )
}

#[unsafe(no_mangle)]
pub extern "C" fn katydidzinc_read_rows(
    dt: f32,
    length_unit: f32,
    normalized: f32,
    built: u32,
    bodies: &[f32],
    words: &[u32],
    numbers: &[f32],
    rows: &[f32],
    joint: u32,
    out: &mut [f32],
    ids: &mut [u32],
) -> u64
    ensures value { result ≡ rows_number (rows_read_at joint (lent dt length_unit normalized built bodies.now words.now numbers.now) rows.now) out.old ids.old }
    ensures out_after { out.new ≡ rows_out (rows_read_at joint (lent dt length_unit normalized built bodies.now words.now numbers.now) rows.now) out.old ids.old }
    ensures ids_after { ids.new ≡ ids_out (rows_read_at joint (lent dt length_unit normalized built bodies.now words.now numbers.now) rows.now) out.old ids.old }
{
    capi::calls::katydidzinc_read_rows(
        dt,
        length_unit,
        normalized,
        built,
        bodies,
        words,
        numbers,
        rows,
        joint,
        out,
        ids,
    )
}

#[unsafe(no_mangle)]
pub extern "C" fn katydidzinc_read_velocity(
    dt: f32,
    length_unit: f32,
    normalized: f32,
    built: u32,
    bodies: &[f32],
    words: &[u32],
    numbers: &[f32],
    body: u32,
    out: &mut [f32],
) -> u64
    ensures value { result ≡ velocity_number (run planar (read_velocity body) (lent dt length_unit normalized built bodies.now words.now numbers.now) []).answer out.old }
    ensures out_after { out.new ≡ velocity_out (run planar (read_velocity body) (lent dt length_unit normalized built bodies.now words.now numbers.now) []).answer out.old }
{
    capi::calls::katydidzinc_read_velocity(
        dt,
        length_unit,
        normalized,
        built,
        bodies,
        words,
        numbers,
        body,
        out,
    )
}

// A motor table's bytes.
#[unsafe(no_mangle)]
pub extern "C" fn katydidzinc_set_targets(
    dt: f32,
    length_unit: f32,
    normalized: f32,
    built: u32,
    bodies: &[f32],
    words: &[u32],
    numbers: &mut [f32],
    table: &[u8],
) -> u64
    ensures value { result ≡ number (run planar (further table.now) (lent dt length_unit normalized built bodies.now words.now numbers.old) []).answer }
    ensures numbers_after { numbers.new ≡ (run planar (further table.now) (lent dt length_unit normalized built bodies.now words.now numbers.old) []).after.numbers }
{
    capi::calls::katydidzinc_set_targets(
        dt,
        length_unit,
        normalized,
        built,
        bodies,
        words,
        numbers,
        table,
    )
}
