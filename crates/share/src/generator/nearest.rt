//! A generator from plain numbers, each taken as the nearest one allowed.
ghost use Rattle.share.specs.Loads.{nearest_load};
ghost use Rattle.std.specs.Prelude.{◌≡◌};

use crate::generator::Generator;
use crate::load::Load;
use units::limits::{GENERATOR_KW, LEAST_INSTALLED, MOST_INSTALLED};

impl Generator {
    /// A number beyond its range is taken as the nearest one allowed.
    pub fn new(load: Load) -> Generator
        ensures { result.load ≡ nearest_load load.installed load.capacity load.actual }
    {
        let installed = load.installed.clamp(LEAST_INSTALLED, MOST_INSTALLED);
        Generator {
            load: Load {
                actual: load.actual.min(GENERATOR_KW),
                capacity: load.capacity.min(installed),
                installed,
            },
        }
    }

    pub fn load(&self) -> Load
        ensures { result ≡ self.now.load }
    {
        self.load
    }
}

/// The generator nearest to one with no power at all.
impl Default for Generator {
    ghost is_default = { λ g. g.load ≡ nearest_load 0 0 0 };

    fn default() -> Generator {
        Generator::new(Load::default())
    }
}
