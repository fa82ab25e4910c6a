//! A station's generators taken together.
ghost use Rattle.std.specs.Prelude.{◌≡◌, MatchOption};
ghost use Rattle.share.specs.Keys.{totals};
ghost use Rattle.share.specs.Loads.{Few, loads};

use crate::generator::Generator;
use crate::generators::Generators;
use crate::load::Load;
use units::limits::GENERATORS;

/// The sums over a station's generators.
fn load_of(each: &[Generator]) -> Load
    requires { Few each.now }
    ensures { result ≡ totals (loads each.now) }
{
    let mut sums = Load::default();
    for generator in each {
        let own = generator.load();
        sums.actual += own.actual;
        sums.capacity += own.capacity;
        sums.installed += own.installed;
    }
    sums
}

impl<'a> Generators<'a> {
    /// A station's generators, if there are 1 to 32 of them.
    pub fn of(each: &'a [Generator]) -> Option<Generators<'a>>
        ensures { MatchOption result (Few each.now → ⊥)
            (λ gs. Few each.now × (gs.each.now ≡ each.now)) }
    {
        if each.is_empty() || each.len() > GENERATORS {
            return None;
        }
        let load = load_of(each);
        Some(Generators { each, load })
    }

    pub fn each(&self) -> &'a [Generator]
        ensures { result.now ≡ self.now.each.now }
    {
        self.each
    }

    /// A station's actual, capacity and installed power are the sums over its generators.
    pub fn load(&self) -> Load
        ensures { result ≡ totals (loads self.now.each.now) }
    {
        self.load
    }
}
