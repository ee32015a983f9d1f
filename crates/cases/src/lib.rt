// Tests of what a scenario cannot show: windows and banks whose number stands in their type.
#![tactic(auto)]

#[cfg(test)]
mod sides {
    use banks::bank::{Bank, de_energise_all};
    use cylinders::cylinder::Cylinder;
    use cylinders::scale::Scale;
    use drives::drive::Drive;
    use drives::target::Target;
    use hoists::hoist::{Hoist, HoistMake};
    use pairs::pair::Pair;
    use std::process::Abort;
    use std::test::Fail;
    use windows::window::Window;

    fn short_hoist() -> Hoist {
        Hoist::new(HoistMake::new(0, 10, 1))
    }

    // Whether each drive of a bank has power, by its number.
    fn check_power<B: Bank>(rt: &impl Abort, bank: &B, powered: &[bool]) {
        assert_eq!(rt; usize::from(bank.count()), powered.len());
        for (number, expected) in (0..=u8::MAX).zip(powered) {
            assert_eq!(rt; bank.held_at(number).powered, *expected);
        }
    }

    #[test]
    fn the_first_bank_is_numbered_first(rt: HostRuntime) {
        let left = Pair::new(short_hoist(), Cylinder::new(Scale::new(1)));
        let mut bank = Pair::new(left, Window::new(0, 5, short_hoist()));
        bank.energise_at(1);
        bank.energise_at(2);
        bank.energise_at(3);
        bank.energise_at(255);
        check_power(&rt, &bank, &[false, true, true]);
        assert!(rt;
            bank.take_at(
                1,
                Target {
                    mode: 8,
                    value: 16_000,
                },
            )
            .is_ok()
        );
        assert!(rt; bank.refusal_at(2, Target { mode: 8, value: 6 }).is_some());
        assert!(rt; !bank.knows_at(3, 0));
        de_energise_all(&mut bank);
        check_power(&rt, &bank, &[false, false, false]);
    }

    #[test]
    fn a_window_over_a_window_refuses_deeper(rt: HostRuntime) -> Result<(), Fail> {
        let mut drive = Window::new(0, 30, Window::new(0, 20, short_hoist()));
        drive.energise();
        for (value, code) in [(31, 0x0003), (21, 0x0103), (11, 0x0202)] {
            let Err(refusal) = drive.take(Target { mode: 8, value }) else {
                return Err(Fail::new("taken"));
            };
            assert_eq!(rt; refusal.code(), code);
        }
        assert!(rt; drive.take(Target { mode: 8, value: 10 }).is_ok());
        Ok(())
    }
}
