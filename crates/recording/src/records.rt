ghost use Rattle.std.specs.Prelude.{◌≡◌};
ghost use Rattle.recording.specs.Commands.{call_of, command_of, DecodesRight};

use crate::{Command, Device, Place, Seat};
use events::Refusal;

/// What a record asks for; refusal 9 where its letter, its length, its device or its seat is wrong.
#[tactic(auto, using(crate::proofs::DecodeLaws::other_letter, crate::proofs::DecodeLaws::decodes_right))]
pub fn decode(record: &[u8]) -> Result<Command, Refusal>
    ensures command { result ≡ command_of «record».now }
    ensures right { DecodesRight }
{
    let [letter, rest @ ..] = record else {
        return Err(Refusal::BrokenRecord);
    };
    match char::from(*letter) {
        'K' => Ok(Command::Keys),
        'T' => Ok(Command::Touch),
        letter => decode_call(letter, rest),
    }
}

// What a record with one of the other letters asks for, from the bytes after its letter.
fn decode_call(letter: char, rest: &[u8]) -> Result<Command, Refusal>
    ensures { result ≡ call_of letter rest.now }
{
    let [device, seat, more @ ..] = rest else {
        return Err(Refusal::BrokenRecord);
    };
    // let-else for every ground on which a record is broken, a rule of the project: no `?` here
    let Ok(device) = Device::try_from(*device) else {
        return Err(Refusal::BrokenRecord);
    };
    let Ok(seat) = Seat::try_from(*seat) else {
        return Err(Refusal::BrokenRecord);
    };
    let place = Place { device, seat };
    match (letter, more) {
        ('O', [capacity]) => Ok(Command::Open {
            place,
            capacity: *capacity,
        }),
        ('C', []) => Ok(Command::Close(place)),
        ('G', []) => Ok(Command::Grab(place)),
        ('U', []) => Ok(Command::Release(place)),
        ('R', [count]) => Ok(Command::Read {
            place,
            count: *count,
        }),
        _ => Err(Refusal::BrokenRecord),
    }
}
