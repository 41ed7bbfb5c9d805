//! The set of the keys that are held, by their codes: 1 to 767.
#![tactic(auto)]

mod display;
mod iter;
mod part;
mod set;

pub use iter::Codes;
pub use set::Keys;

#[cfg(test)]
mod tests {
    use super::*;
    use events::Event;
    use parts::{Part, Verdict};
    use std::test::Fail;

    #[test]
    fn only_key_codes_are_held(rt: HostRuntime) {
        let mut keys = Keys::new();
        for code in [0, 768, 65535] {
            keys.set(code, true);
            assert!(rt; !keys.contains(code));
        }
        for code in [1, 63, 64, 767] {
            keys.set(code, true);
            assert!(rt; keys.contains(code));
        }
        assert_eq!(rt; keys.count_differences(&Keys::new()), 4);
    }

    #[test]
    fn pops_ascending(rt: HostRuntime) {
        let mut keys = Keys::new();
        keys.set(767, true);
        keys.set(64, true);
        keys.set(1, true);
        keys.set(64, false);
        assert_eq!(rt; keys.pop_first(), Some(1));
        assert_eq!(rt; keys.pop_first(), Some(767));
        assert!(rt; keys.is_empty());
    }

    #[test]
    fn iterates_ascending(rt: HostRuntime) {
        let mut keys = Keys::new();
        for code in [128, 5] {
            keys.set(code, true);
        }
        let mut last = 0;
        for code in keys.iter() {
            assert!(rt; last < code);
            last = code;
        }
        assert_eq!(rt; last, 128);
    }

    #[test]
    fn judges_an_event(rt: HostRuntime) {
        let mut keys = Keys::new();
        keys.take(Event::key(31, 1));
        for (code, value, verdict) in [
            (31, 2, Verdict::Passing),
            (31, 3, Verdict::BadValue),
            (32, 2, Verdict::Same),
            (0, 1, Verdict::Stranger),
            (768, 1, Verdict::Stranger),
        ] {
            assert_eq!(rt; keys.verdict(Event::key(code, value)), verdict);
        }
    }

    #[test]
    fn goes_to_a_target(rt: HostRuntime) -> Result<(), Fail> {
        let mut keys = Keys::new();
        keys.set(31, true);
        let mut target = Keys::new();
        target.set(64, true);
        assert_eq!(rt; keys.distance(&target), 2);
        let release = keys.next(&target).ok_or("no event")?;
        assert_eq!(rt; (release.code, release.value), (31, 0));
        keys.take(release);
        let press = keys.next(&target).ok_or("no event")?;
        assert_eq!(rt; (press.code, press.value), (64, 1));
        Ok(())
    }
}
