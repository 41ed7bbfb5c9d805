use super::*;
use std::process::Abort;

// The keys by their names in Linux, with their published scan codes and their numbers in Linux.
static KEYS: [(&str, Table, u8, u16); 100] = [
    ("KEY_ESC", Table::Plain, 0x76, 1),
    ("KEY_1", Table::Plain, 0x16, 2),
    ("KEY_2", Table::Plain, 0x1E, 3),
    ("KEY_3", Table::Plain, 0x26, 4),
    ("KEY_4", Table::Plain, 0x25, 5),
    ("KEY_5", Table::Plain, 0x2E, 6),
    ("KEY_6", Table::Plain, 0x36, 7),
    ("KEY_7", Table::Plain, 0x3D, 8),
    ("KEY_8", Table::Plain, 0x3E, 9),
    ("KEY_9", Table::Plain, 0x46, 10),
    ("KEY_0", Table::Plain, 0x45, 11),
    ("KEY_MINUS", Table::Plain, 0x4E, 12),
    ("KEY_EQUAL", Table::Plain, 0x55, 13),
    ("KEY_BACKSPACE", Table::Plain, 0x66, 14),
    ("KEY_TAB", Table::Plain, 0x0D, 15),
    ("KEY_Q", Table::Plain, 0x15, 16),
    ("KEY_W", Table::Plain, 0x1D, 17),
    ("KEY_E", Table::Plain, 0x24, 18),
    ("KEY_R", Table::Plain, 0x2D, 19),
    ("KEY_T", Table::Plain, 0x2C, 20),
    ("KEY_Y", Table::Plain, 0x35, 21),
    ("KEY_U", Table::Plain, 0x3C, 22),
    ("KEY_I", Table::Plain, 0x43, 23),
    ("KEY_O", Table::Plain, 0x44, 24),
    ("KEY_P", Table::Plain, 0x4D, 25),
    ("KEY_LEFTBRACE", Table::Plain, 0x54, 26),
    ("KEY_RIGHTBRACE", Table::Plain, 0x5B, 27),
    ("KEY_ENTER", Table::Plain, 0x5A, 28),
    ("KEY_LEFTCTRL", Table::Plain, 0x14, 29),
    ("KEY_A", Table::Plain, 0x1C, 30),
    ("KEY_S", Table::Plain, 0x1B, 31),
    ("KEY_D", Table::Plain, 0x23, 32),
    ("KEY_F", Table::Plain, 0x2B, 33),
    ("KEY_G", Table::Plain, 0x34, 34),
    ("KEY_H", Table::Plain, 0x33, 35),
    ("KEY_J", Table::Plain, 0x3B, 36),
    ("KEY_K", Table::Plain, 0x42, 37),
    ("KEY_L", Table::Plain, 0x4B, 38),
    ("KEY_SEMICOLON", Table::Plain, 0x4C, 39),
    ("KEY_APOSTROPHE", Table::Plain, 0x52, 40),
    ("KEY_GRAVE", Table::Plain, 0x0E, 41),
    ("KEY_LEFTSHIFT", Table::Plain, 0x12, 42),
    ("KEY_BACKSLASH", Table::Plain, 0x5D, 43),
    ("KEY_Z", Table::Plain, 0x1A, 44),
    ("KEY_X", Table::Plain, 0x22, 45),
    ("KEY_C", Table::Plain, 0x21, 46),
    ("KEY_V", Table::Plain, 0x2A, 47),
    ("KEY_B", Table::Plain, 0x32, 48),
    ("KEY_N", Table::Plain, 0x31, 49),
    ("KEY_M", Table::Plain, 0x3A, 50),
    ("KEY_COMMA", Table::Plain, 0x41, 51),
    ("KEY_DOT", Table::Plain, 0x49, 52),
    ("KEY_SLASH", Table::Plain, 0x4A, 53),
    ("KEY_RIGHTSHIFT", Table::Plain, 0x59, 54),
    ("KEY_KPASTERISK", Table::Plain, 0x7C, 55),
    ("KEY_LEFTALT", Table::Plain, 0x11, 56),
    ("KEY_SPACE", Table::Plain, 0x29, 57),
    ("KEY_CAPSLOCK", Table::Plain, 0x58, 58),
    ("KEY_F1", Table::Plain, 0x05, 59),
    ("KEY_F2", Table::Plain, 0x06, 60),
    ("KEY_F3", Table::Plain, 0x04, 61),
    ("KEY_F4", Table::Plain, 0x0C, 62),
    ("KEY_F5", Table::Plain, 0x03, 63),
    ("KEY_F6", Table::Plain, 0x0B, 64),
    ("KEY_F7", Table::Plain, 0x83, 65),
    ("KEY_F8", Table::Plain, 0x0A, 66),
    ("KEY_F9", Table::Plain, 0x01, 67),
    ("KEY_F10", Table::Plain, 0x09, 68),
    ("KEY_NUMLOCK", Table::Plain, 0x77, 69),
    ("KEY_SCROLLLOCK", Table::Plain, 0x7E, 70),
    ("KEY_KP7", Table::Plain, 0x6C, 71),
    ("KEY_KP8", Table::Plain, 0x75, 72),
    ("KEY_KP9", Table::Plain, 0x7D, 73),
    ("KEY_KPMINUS", Table::Plain, 0x7B, 74),
    ("KEY_KP4", Table::Plain, 0x6B, 75),
    ("KEY_KP5", Table::Plain, 0x73, 76),
    ("KEY_KP6", Table::Plain, 0x74, 77),
    ("KEY_KPPLUS", Table::Plain, 0x79, 78),
    ("KEY_KP1", Table::Plain, 0x69, 79),
    ("KEY_KP2", Table::Plain, 0x72, 80),
    ("KEY_KP3", Table::Plain, 0x7A, 81),
    ("KEY_KP0", Table::Plain, 0x70, 82),
    ("KEY_KPDOT", Table::Plain, 0x71, 83),
    ("KEY_F11", Table::Plain, 0x78, 87),
    ("KEY_F12", Table::Plain, 0x07, 88),
    ("KEY_KPENTER", Table::Extended, 0x5A, 96),
    ("KEY_RIGHTCTRL", Table::Extended, 0x14, 97),
    ("KEY_KPSLASH", Table::Extended, 0x4A, 98),
    ("KEY_SYSRQ", Table::Extended, 0x7C, 99),
    ("KEY_RIGHTALT", Table::Extended, 0x11, 100),
    ("KEY_HOME", Table::Extended, 0x6C, 102),
    ("KEY_UP", Table::Extended, 0x75, 103),
    ("KEY_PAGEUP", Table::Extended, 0x7D, 104),
    ("KEY_LEFT", Table::Extended, 0x6B, 105),
    ("KEY_RIGHT", Table::Extended, 0x74, 106),
    ("KEY_END", Table::Extended, 0x69, 107),
    ("KEY_DOWN", Table::Extended, 0x72, 108),
    ("KEY_PAGEDOWN", Table::Extended, 0x7A, 109),
    ("KEY_INSERT", Table::Extended, 0x70, 110),
    ("KEY_DELETE", Table::Extended, 0x71, 111),
];

// Whether the scan code is one of these.
fn is_published(table: Table, code: u8) -> bool {
    KEYS.iter()
        .any(|&(_, in_table, at, _)| in_table == table && at == code)
}

#[test]
fn every_published_scan_code_stands_for_its_key(rt: HostRuntime) {
    for &(name, table, code, number) in &KEYS {
        assert_eq!(rt; key(table, code), Some(number), "{}", name);
    }
}

// That the table's other scan codes stand for no key.
fn check_others(rt: &impl Abort, table: Table) {
    for code in 0..=255 {
        if !is_published(table, code) {
            assert_eq!(rt; key(table, code), None, "{}", code);
        }
    }
}

#[test]
fn every_other_scan_code_stands_for_no_key(rt: HostRuntime) {
    check_others(&rt, Table::Plain);
    check_others(&rt, Table::Extended);
}
