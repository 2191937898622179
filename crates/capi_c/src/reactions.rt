// A joint's reaction and a row's residual, as capi has them.
ghost use Rattle.std.specs.Prelude.{◌≡◌};
ghost use Rattle.model.specs.SingleRecords.{row_if_there};
ghost use Rattle.model.specs.Reactions.{reaction_at, residual_at};
ghost use Rattle.capi.specs.ReactionExports.{first_rows, reaction_number, reaction_out};

// The reaction of a joint that has the first n rows of a slice.
#[unsafe(no_mangle)]
pub extern "C" fn katydidzinc_reaction(
    bodies: &[f32],
    words: &[u32],
    numbers: &[f32],
    joint: u32,
    rows: &[f32],
    n: u32,
    out: &mut [f32],
) -> u64
    ensures value { result ≡ reaction_number out.old }
    ensures out_after { out.new ≡ reaction_out out.old (reaction_at bodies.now words.now numbers.now (first_rows rows.now n) joint) }
{
    capi::reactions::katydidzinc_reaction(bodies, words, numbers, joint, rows, n, out)
}

// The residual of row k of a slice, a row of that joint.
#[unsafe(no_mangle)]
pub extern "C" fn katydidzinc_residual(
    bodies: &[f32],
    words: &[u32],
    joint: u32,
    rows: &[f32],
    k: u32,
) -> f32
    ensures { result ≡ residual_at bodies.now words.now (row_if_there rows.now k) joint }
{
    capi::reactions::katydidzinc_residual(bodies, words, joint, rows, k)
}
