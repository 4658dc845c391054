// The methodologies by number.
ghost use Rattle.std.specs.Prelude.{◌≡◌};
ghost use Rattle.method.specs.Methods.{known, method_refusal};

use crate::capped::Capped;
use crate::numbered::Numbered;
use crate::similar::SimilarDays;
use refusal::Refuse;

#[derive(Clone, Copy, PartialEq, Eq, Debug)]
pub enum MethodFault {
    // there is no methodology of this number
    Unknown = 21,
}

impl Refuse for MethodFault {
    ghost refusal = { method_refusal };

    fn number(&self) -> u8 {
        *self as u8
    }
}

// The methodology of a number, which is 1 to 5.
impl TryFrom<u8> for Numbered {
    type Error = MethodFault;

    ghost try_from_gives = { λ number r. r ≡ known number };

    fn try_from(number: u8) -> Result<Numbered, MethodFault> {
        match number {
            1 => Ok(Numbered::Capped(Capped::AllDays)),
            2 => Ok(Numbered::Capped(Capped::BusinessDays)),
            3 => Ok(Numbered::Capped(Capped::NonBusinessDays)),
            4 => Ok(Numbered::Capped(Capped::Composite)),
            5 => Ok(Numbered::SimilarDays(SimilarDays)),
            _ => Err(MethodFault::Unknown),
        }
    }
}

#[cfg(test)]
mod tests {
    use super::*;
    use crate::methodology::Methodology;
    use calendar::DayKind;
    use std::process::Abort;
    use std::test::Fail;

    // Served, matched by business days and by others, days wanted, the least, test days; a tuple, so that a row is a line.
    type Row = (bool, bool, bool, u8, u8, u8);

    fn row_of(number: u8, kind: DayKind) -> Result<Row, MethodFault> {
        let method = Numbered::try_from(number)?;
        let business = method.matches(kind, DayKind::Business);
        let other = method.matches(kind, DayKind::NonBusiness);
        Ok((
            method.serves(kind),
            business,
            other,
            method.wanted(kind),
            method.minimum(kind),
            method.test_days(),
        ))
    }

    // The rows of the methodologies 1 to 5.
    fn check_rows(rt: &impl Abort, kind: DayKind, rows: [Row; 5]) -> Result<(), Fail> {
        for (number, row) in (1..=5).zip(rows) {
            assert_eq!(rt; row_of(number, kind)?, row);
        }
        Ok(())
    }

    #[test]
    fn settings_of_business_days(rt: HostRuntime) -> Result<(), Fail> {
        check_rows(
            &rt,
            DayKind::Business,
            [
                (true, true, true, 10, 5, 50),
                (true, true, false, 10, 5, 50),
                (false, false, true, 4, 4, 20),
                (true, true, false, 10, 5, 50),
                (true, true, false, 10, 10, 50),
            ],
        )
    }

    #[test]
    fn settings_of_other_days(rt: HostRuntime) -> Result<(), Fail> {
        check_rows(
            &rt,
            DayKind::NonBusiness,
            [
                (true, true, true, 10, 5, 50),
                (false, true, false, 10, 5, 50),
                (true, false, true, 4, 4, 20),
                (true, false, true, 4, 4, 50),
                (true, false, true, 10, 10, 50),
            ],
        )
    }

    #[test]
    fn unknown_numbers(rt: HostRuntime) {
        assert!(rt; Numbered::try_from(0).is_err() && Numbered::try_from(6).is_err());
    }
}
