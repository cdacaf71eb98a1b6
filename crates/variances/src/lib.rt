//! The variances, each a statistic of any series.
#![tactic(auto)]

pub mod avar;
pub mod name;

#[cfg(test)]
mod tests {
    use super::avar::Avar;
    use series::fault::Cause;
    use series::packed::Packed;
    use statistics::part::part;
    use statistics::read_out::read_out;
    use statistics::total::grow;
    use std::test::Fail;

    // 108, 50, 220, 468, 329
    const FIVE_DAYS: [u8; 20] = [
        108, 0, 0, 0, 50, 0, 0, 0, 220, 0, 0, 0, 212, 1, 0, 0, 73, 1, 0, 0,
    ];

    #[test]
    fn five_days(rt: HostRuntime) -> Result<(), Fail> {
        let s = Packed::new(&FIVE_DAYS)?;
        assert_eq!(rt; part::<Avar, Packed>(&s, 1, 1)?, (207_837, 6));
        assert_eq!(rt; part::<Avar, Packed>(&s, 2, 1)?, (9, 8));
        assert_eq!(rt; read_out::<Avar, Packed>(&s, 2)?, 4608);
        match part::<Avar, Packed>(&s, 3, 1) {
            Ok(_) => Err(Fail::new("too few samples")),
            Err(fault) => {
                assert_eq!(rt; fault.cause, Cause::TooFewSamples);
                Ok(())
            },
        }
    }

    #[test]
    fn totals_at_their_limits(rt: HostRuntime) {
        assert_eq!(rt; grow(0, -4_294_967_295), Some(18_446_744_065_119_617_025));
        assert_eq!(rt; grow(0, 4_294_967_296), None);
        assert_eq!(rt;
            grow(18_446_744_073_709_551_614, 1),
            Some(18_446_744_073_709_551_615)
        );
        assert_eq!(rt; grow(18_446_744_073_709_551_615, -1), None);
    }
}
