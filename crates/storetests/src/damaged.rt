use imagefile::check;

// The file of three entries: edition 1, hand 3, Wills; edition 0, hand 0, no text; edition 2, hand 9, Tithes & maps.
const FILE: [u8; 64] = [
    0, 1, 0, 3, 0, 0, 0, 1, 0, 0, 0, 3, 0, 0, 0, 46, 0, 5, 0, 0, 0, 0, 0, 0, 0, 0, 0, 0, 0, 51, 0,
    0, 0, 0, 0, 2, 0, 0, 0, 9, 0, 0, 0, 51, 0, 13, 87, 105, 108, 108, 115, 84, 105, 116, 104, 101,
    115, 32, 38, 32, 109, 97, 112, 115,
];

// What the check answers for the file with all bits of byte i turned: a refusal's number, or 0 where it is accepted,
// which keeps the table short.
const TURNED: [u8; 64] = [
    21, 21, 22, 22, 24, 24, 24, 24, 24, 0, 0, 0, 26, 26, 26, 26, 25, 25, 24, 24, 24, 24, 24, 0, 0,
    0, 26, 26, 26, 26, 25, 25, 24, 24, 24, 24, 24, 0, 0, 0, 26, 26, 26, 26, 25, 25, 0, 0, 0, 0, 0,
    0, 0, 0, 0, 0, 0, 0, 0, 0, 0, 0, 0, 0,
];

// The number of the refusal that the check gives, if it gives one.
fn verdict(file: &[u8]) -> Option<u8> {
    check(file).err().map(|fault| fault.refusal().number())
}

// The number that the rules ask for where the file is cut: no head, not all rows, not all bodies.
fn expected_cut(length: usize) -> Option<u8> {
    match length {
        0..=3 => Some(20),
        4..=45 => Some(23),
        46..=63 => Some(27),
        _ => None,
    }
}

#[test]
fn every_truncated_length(rt: HostRuntime) {
    for length in 0..=FILE.len() {
        assert_eq!(rt; verdict(&FILE[..length]), expected_cut(length));
    }
}

#[test]
fn every_byte_turned(rt: HostRuntime) {
    for (i, turned) in TURNED.iter().enumerate() {
        let mut file = FILE;
        file[i] ^= 0xff;
        assert_eq!(rt; verdict(&file).unwrap_or(0), *turned);
    }
}
