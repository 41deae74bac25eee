//! The generator of draws.
ghost use Rattle.std.specs.Prelude.{◌≡◌, ◌<◌, ◌^◌};
ghost use Rattle.step_runs.specs.Generator.{next_state as stirred_state, drawn_from as drawn};

/// The state after a draw.
pub(crate) fn stirred(state: u64) -> u64
    ensures { result ≡ stirred_state state }
{
    state
        .wrapping_mul(6_364_136_223_846_793_005)
        .wrapping_add(1_442_695_040_888_963_407)
}

/// What a draw gives, from the state after it.
pub(crate) fn drawn_from(state: u64) -> u64
    ensures { result ≡ drawn state }
{
    state >> 33
}
