// The two units of a delay, kept apart by type, and the one conversion between them.
#![tactic(auto)]

ghost use Rattle.std.specs.Prelude.{◌≡◌, ◌*◌, ◌<◌, ◌^◌};
ghost use Rattle.units.specs.Units.{in_samples};

// Native samples.
#[derive(Clone, Copy)]
pub struct Samples(pub u64);

// Coarse bins: blocks of `decimation` native samples.
#[derive(Clone, Copy)]
pub struct Bins(pub u64);

impl Bins {
    // Converts the delay to native samples.
    pub fn in_samples(self, decimation: u64) -> Samples
        requires { self.0 * decimation < 2 ^ 64 }
        ensures { result ≡ in_samples decimation self }
    {
        Samples(self.0 * decimation)
    }
}
