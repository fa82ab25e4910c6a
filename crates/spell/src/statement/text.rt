//! Writes statements.
ghost use Rattle.std.specs.Prelude.{◌≡◌};
ghost use Rattle.spell.specs.Pages.{HasRoom, Writes, wrote};
ghost use Rattle.spell.specs.Statements.{station_text, generator_text, statement_text, stating};

use super::{STATEMENT_PAGE, Statement};
use crate::figures::{GeneratorLine, StationLine};
use crate::page::long_enough;
use crate::words::Word;
use crate::writer::Writer;
use units::fault::Fault;

impl StationLine {
    #[tactic(auto, unfolding(crate::specs::Statements::station_text))]
    fn write(&self, writer: &mut Writer)
        requires { HasRoom 119 writer.old }
        ensures { Writes (station_text self.now) 119 writer.old writer.new }
    {
        writer.fed_line(
            b"station",
            &[
                Word::Number(self.station),
                Word::Number(self.code),
                Word::Amount(self.charges),
                Word::Amount(self.due),
                Word::Number(self.cash),
            ],
        );
    }
}

impl GeneratorLine {
    #[tactic(auto, unfolding(crate::specs::Statements::generator_text))]
    fn write(&self, writer: &mut Writer)
        requires { HasRoom 80 writer.old }
        ensures { Writes (generator_text self.now) 80 writer.old writer.new }
    {
        writer.fed_line(
            b"generator",
            &[
                Word::Number(self.generator),
                Word::Amount(self.energy),
                Word::Amount(self.money),
            ],
        );
    }
}

impl Statement<'_> {
    /// Writes the station's line, and then each generator's.
    #[tactic(auto, using(crate::proofs::Laying::laying))]
    fn write_lines(&self, writer: &mut Writer)
        requires { writer.old.at ≡ 0 }
        ensures { Writes (statement_text self.now.station self.now.generators.now) STATEMENT_PAGE writer.old writer.new }
    {
        self.station.write(writer);
        for g in self.generators {
            g.write(writer);
        }
    }

    /// Writes `(station t code charges due cash)`, then `(generator g energy money)` for each generator, each with a
    /// line feed, to the front of the page, and answers the length. What stands behind is kept. A page under 4,096
    /// bytes is refused and stays as it was.
    #[tactic(auto, using(crate::proofs::Laying::onto_page))]
    pub fn write(&self, page: &mut [u8]) -> Result<usize, Fault>
        ensures { wrote result page.new ≡ stating self.now.station self.now.generators.now page.old }
    {
        long_enough(page, STATEMENT_PAGE)?;
        let mut writer = Writer::new(page);
        self.write_lines(&mut writer);
        Ok(writer.place())
    }
}
