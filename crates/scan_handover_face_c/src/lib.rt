// The scan's call of request a, near samples in runs, for C: each hands the call of crate scan_handover_face on, whose contract it has. A static library exports its own functions alone, and other crates stand on that one, so that it is none.
#![tactic(auto)]

ghost use Rattle.std.specs.Prelude.{◌≡◌};
ghost use Rattle.scan_handover_face.specs.Calls.{push_near_run_called};

// A run of near samples with its first index: 16 ignored, 18 taken, 19 the frame is full; values[0] is how many of them.
#[unsafe(no_mangle)]
pub extern "C" fn tmv_scan_push_near_run(
    state: &mut [u64],
    levels: &mut [f32],
    samples: &[f32],
    first: u64,
    values: &mut [u64],
) -> u32
    ensures number { result ≡ (push_near_run_called state.old levels.old samples.now first values.old).number }
    ensures words { state.new ≡ (push_near_run_called state.old levels.old samples.now first values.old).words }
    ensures levels { levels.new ≡ (push_near_run_called state.old levels.old samples.now first values.old).buffers }
    ensures values { values.new ≡ (push_near_run_called state.old levels.old samples.now first values.old).values }
{
    scan_handover_face::tmv_scan_push_near_run(state, levels, samples, first, values)
}
