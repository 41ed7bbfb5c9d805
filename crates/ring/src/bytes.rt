ghost use Rattle.ring.specs.Bytes.{closes_code, lost_byte};

use crate::RingItem;

/// Among the bytes of a keyboard every byte but the prefixes E0, E1 and F0 closes a group, and the mark is 00,
/// by which a keyboard itself says that it lost bytes.
impl RingItem for u8 {
    ghost closing = { closes_code };

    ghost lost = { lost_byte };

    fn closes(&self) -> bool {
        !matches!(*self, 0xe0 | 0xe1 | 0xf0)
    }

    fn mark(&self) -> u8 {
        0x00
    }
}
