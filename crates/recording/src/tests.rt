use crate::{
    Command, Device, Place, Records, Seat, check as check_recording, decode, first_length,
};
use events::Refusal;
use std::alloc::{AllocError, Global};
use std::test::Fail;

// Adds a record of so many bytes, all `K`.
fn add(recording: &mut Vec<u8>, length: u16) -> Result<(), AllocError> {
    recording.extend_from_slice(&length.to_le_bytes())?;
    recording.resize(recording.len() + usize::from(length), b'K')
}

// A recording of this many records of one byte.
fn short_records(heap: Global, count: u16) -> Result<Vec<u8>, AllocError> {
    let mut recording = Vec::new(heap);
    for _ in 0..count {
        add(&mut recording, 1)?;
    }
    Ok(recording)
}

#[test]
fn counts_records(rt: HostRuntime) -> Result<(), Fail> {
    assert_eq!(rt; check_recording(&[]), Ok(0));
    assert_eq!(rt; check_recording(&[1, 0, b'K', 2, 0, b'K', 28]), Ok(2));
    assert_eq!(rt;
        check_recording(&short_records(rt.alloc(), 1000)?),
        Ok(1000)
    );
    let mut longest = Vec::new(rt.alloc());
    add(&mut longest, 65534)?;
    assert_eq!(rt; longest.len(), 65536);
    assert_eq!(rt; check_recording(&longest), Ok(1));
    Ok(())
}

#[test]
fn refuses_broken_recordings(rt: HostRuntime) -> Result<(), Fail> {
    let broken: Result<usize, Refusal> = Err(Refusal::BrokenRecording);
    assert_eq!(rt; check_recording(&[1]), broken);
    assert_eq!(rt; check_recording(&[0, 0]), broken);
    assert_eq!(rt; check_recording(&[1, 0, b'K', 2, 0, b'K']), broken);
    assert_eq!(rt; check_recording(&[0, 1, b'K', b'K']), broken);
    assert_eq!(rt; check_recording(&short_records(rt.alloc(), 1001)?), broken);
    let mut too_long = Vec::new(rt.alloc());
    add(&mut too_long, 65532)?;
    add(&mut too_long, 1)?;
    assert_eq!(rt; too_long.len(), 65537);
    assert_eq!(rt; check_recording(&too_long), broken);
    Ok(())
}

#[test]
fn finds_the_first_length(rt: HostRuntime) {
    assert_eq!(rt; first_length(&[2, 0, b'K', 28, 1]), Some(2));
    assert_eq!(rt; first_length(&[2, 0, b'K']), None);
    assert_eq!(rt; first_length(&[]), None);
}

#[test]
fn iterates_records(rt: HostRuntime) {
    let key: &[u8] = b"K";
    let typed: &[u8] = b"K\x1c";
    let mut whole = Records::new(&[1, 0, b'K', 2, 0, b'K', 28]);
    assert_eq!(rt; whole.next(), Some(key));
    assert_eq!(rt; whole.next(), Some(typed));
    assert_eq!(rt; whole.next(), None);
    let mut broken = Records::new(&[1, 0, b'K', 2, 0, b'K']);
    assert_eq!(rt; broken.next(), Some(key));
    assert_eq!(rt; broken.next(), None);
    assert_eq!(rt; broken.next(), None);
}

#[test]
fn decodes_records(rt: HostRuntime) {
    let place = Place {
        device: Device::Keyboard,
        seat: Seat::Second,
    };
    assert_eq!(rt; decode(b"K"), Ok(Command::Keys));
    assert_eq!(rt; decode(b"T\x01"), Ok(Command::Touch));
    let open = Command::Open {
        place,
        capacity: 64,
    };
    assert_eq!(rt; decode(b"O\x01\x01\x40"), Ok(open));
    assert_eq!(rt; decode(b"C\x01\x01"), Ok(Command::Close(place)));
    assert_eq!(rt; decode(b"G\x01\x01"), Ok(Command::Grab(place)));
    assert_eq!(rt; decode(b"U\x01\x01"), Ok(Command::Release(place)));
    let read = Command::Read {
        place: Place {
            device: Device::Panel,
            seat: Seat::First,
        },
        count: 0,
    };
    assert_eq!(rt; decode(b"R\x02\x00\x00"), Ok(read));
}

#[test]
fn prints_places(rt: HostRuntime) -> Result<(), Fail> {
    let place = Place {
        device: Device::Panel,
        seat: Seat::First,
    };
    assert_eq!(rt; place.to_string(rt.alloc())?.as_str(), "2.0");
    Ok(())
}

#[test]
fn refuses_broken_records(rt: HostRuntime) {
    let broken: [&[u8]; 14] = [
        b"",
        b"X",
        b"k",
        b"O",
        b"O\x01\x00",
        b"O\x01\x00\x04\x00",
        b"O\x00\x00\x04",
        b"O\x03\x00\x04",
        b"O\x01\x02\x04",
        b"C\x01\x00\x00",
        b"G\x01",
        b"U\x02\xff",
        b"R\x01\x00",
        b"Q\x01\x00\x04",
    ];
    for record in broken {
        assert_eq!(rt; decode(record), Err(Refusal::BrokenRecord));
    }
}
