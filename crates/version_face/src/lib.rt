// The version of the tree from which an archive was made, so that firmware can compare it with the header that it was compiled with.
#![tactic(auto)]

ghost use Rattle.std.specs.Prelude.{◌≡◌};
ghost use Rattle.version_face.specs.Version.{this_version};

// The version in CHANGELOG's first heading. tests/version.sh compares every place that states it with that one.
const MAJOR: u32 = 0;

const MINOR: u32 = 10;

const PATCH: u32 = 0;

#[unsafe(no_mangle)]
pub extern "C" fn tmv_version() -> u32
    ensures { result ≡ this_version }
{
    MAJOR * 10_000 + MINOR * 100 + PATCH
}
