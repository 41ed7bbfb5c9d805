ghost use Rattle.std.specs.Prelude.{◌≡◌, length, nat_le, nat_lt};
ghost use Rattle.std.specs.Option.{option_map};
ghost use Rattle.std.specs.Iterator.{at_most};
ghost use Rattle.recording.specs.Frames.{word, first_length, first_record, count_of, check_of, CutsRight};
ghost use Rattle.recording.specs.Iteration.{gives, GivesAll};

use events::Refusal;

// The number that two bytes write, the low one first.
fn word(low: u8, high: u8) -> usize
    ensures { result ≡ word low high }
{
    usize::from(u16::from_le_bytes([low, high]))
}

// The first record and what follows it; `None` where the recording ends or is broken there.
fn split_first_record(rest: &[u8]) -> Option<(&[u8], &[u8])>
    ensures { option_map (λ p. (p.0.now, p.1.now)) result ≡ first_record rest.now }
{
    let [low, high, body @ ..] = rest else {
        return None;
    };
    let length = word(*low, *high);
    if length == 0 {
        return None;
    }
    body.split_at_checked(length)
}

/// The length of the first record; `None` where the recording ends or is broken there. A promise beside `Records`, for a loop that goes by offsets.
pub fn first_length(rest: &[u8]) -> Option<usize>
    ensures { result ≡ first_length rest.now }
{
    split_first_record(rest).map(|(record, _)| record.len())
}

/// The records that are still to come, each a part of the recording; they end where it ends or is broken.
#[derive(Clone, Debug, Drop)]
pub struct Records<'a> {
    rest: &'a [u8],
}

impl<'a> Records<'a> {
    /// The records of a recording, one after another.
    #[tactic(auto, using(crate::proofs::Iteration::gives_all))]
    pub fn new(recording: &'a [u8]) -> Records<'a>
        ensures from { result.rest.now ≡ recording.now }
        ensures all { GivesAll result }
    {
        Records { rest: recording }
    }
}

/// Each time the first record that is left, without the length in front of it.
impl<'a> Iterator for Records<'a> {
    type Item = &'a [u8];

    ghost can_next = { λ _. Unit {0} };

    ghost next_gives = { gives };

    ghost remaining = { λ s. at_most (length s.rest.now) };

    fn next(&mut self) -> Option<&'a [u8]> {
        let (record, rest) = split_first_record(self.rest)?;
        self.rest = rest;
        Some(record)
    }
}

// Whether a recording may be as long as this.
fn is_short(recording: &[u8]) -> bool
    ensures { result ≡ nat_le (length recording.now) 65536 }
{
    recording.len() <= 65536
}

// Whether one more record may follow.
fn has_room(count: usize) -> bool
    ensures { result ≡ nat_lt count 1000 }
{
    count < 1000
}

// How many records there are; `None` where the recording is broken.
#[tactic(auto, using(crate::proofs::Iteration::counted_one, crate::proofs::Iteration::counted_full, crate::proofs::Iteration::counted_end, crate::proofs::Cuts::records_here))]
fn count(recording: &[u8]) -> Option<usize>
    ensures { result ≡ count_of recording.now }
{
    if !is_short(recording) {
        return None;
    }
    let mut records = Records::new(recording);
    let mut count = 0;
    // tried as `for _ in &mut records`: nothing is then known of what is left in `records`, which tells the end from a break
    while records.next().is_some() {
        if !has_room(count) {
            return None;
        }
        count += 1;
    }
    records.rest.is_empty().then_some(count)
}

/// How many records a recording has; refusal 8 where it is broken.
#[tactic(auto, using(crate::proofs::Cuts::cuts_right))]
pub fn check(recording: &[u8]) -> Result<usize, Refusal>
    ensures count { result ≡ check_of recording.now }
    ensures right { CutsRight }
{
    count(recording).ok_or(Refusal::BrokenRecording)
}
