//! Runs the writers on a few pages.
#![tactic(auto)]

#[cfg(test)]
mod tests {
    use spell::answers::{ANSWER_PAGE, write_answer};
    use spell::calls::{LINE_PAGE, spell_call};
    use spell::figures::{GeneratorLine, StationLine};
    use spell::statement::{STATEMENT_PAGE, Statement};
    use std::test::Fail;
    use units::call::Call;
    use units::fault::Fault;

    #[test]
    fn spells_calls(rt: HostRuntime) -> Result<(), Fail> {
        let mut page = vec![in rt.alloc(); b'.'; LINE_PAGE]?;
        let call = Call::Revise {
            station: 0,
            number: 1,
            notice: 91,
            values: &[1000, 0],
        };
        assert!(rt; matches!(spell_call(call, page.as_mut_slice()), Ok(24)));
        assert!(rt; page.as_slice().starts_with(b"(revise 0 1 91 (1000 0))."));
        let call = Call::Pay {
            station: 0,
            amount: 10_000_000_000_000,
        };
        let answer = spell_call(call, page.as_mut_slice());
        assert!(rt; matches!(answer, Err(Fault::BadArgument { position: 2 })));
        assert!(rt; page.as_slice().starts_with(b"(revise 0 1 91 (1000 0))."));
        Ok(())
    }

    #[test]
    fn writes_answers(rt: HostRuntime) {
        let mut page = [b'.'; ANSWER_PAGE];
        let fault = Fault::DrawAboveDue {
            station: 0,
            available: 2750,
        };
        assert!(rt; matches!(write_answer(&Err(fault), &mut page), Ok(17)));
        assert!(rt; page.starts_with(b"(no 3 21 0 2750)\n."));
        assert!(rt; matches!(write_answer(&Ok(()), &mut page), Ok(5)));
        assert!(rt; page.starts_with(b"(ok)\n 21 0 2750)\n."));
    }

    #[test]
    fn writes_statements(rt: HostRuntime) -> Result<(), Fail> {
        let mut page = vec![in rt.alloc(); b'.'; STATEMENT_PAGE]?;
        let generators = [GeneratorLine {
            generator: 7,
            energy: -1,
            money: i64::MIN,
        }];
        let statement = Statement {
            station: StationLine {
                station: 0,
                code: 10,
                charges: 1250,
                due: -2750,
                cash: 4000,
            },
            generators: &generators,
        };
        assert!(rt; matches!(statement.write(page.as_mut_slice()), Ok(69)));
        assert!(rt;
            page.as_slice().starts_with(
                b"(station 0 10 1250 -2750 4000)\n(generator 7 -1 -9223372036854775808)\n.",
            )
        );
        Ok(())
    }
}
