// A block's level, far and near: the f64 sum of absolute values in order, divided by D, narrowed to f32.
ghost use Rattle.std.specs.Prelude.{◌≡◌, true, ◌≤◌};
ghost use Rattle.std.specs.Float.Ieee.Scale.{finite};
ghost use Rattle.scan.specs.Blocks;
ghost use Rattle.scan.specs.Blocks.{level_of};

use scan::Geometry;

// Of what is known to be finite no test for a NaN is due.
pub fn summed(sum: f64, sample: f32) -> f64
    requires { finite sample ≡ true }
    ensures { result ≡ Blocks.summed sum sample }
{
    sum + floats::bits::unsigned(sample as f64)
}

pub fn level_of(g: Geometry, sum: f64) -> f32
    requires { g.decimation ≤ 192 }
    ensures { result ≡ level_of g sum }
{
    floats::narrowed(sum / g.decimation as f64)
}
