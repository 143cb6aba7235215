use super::numbers::number;
use imagefile::Reader;
use imagerestore::restore_file;
use imagesave::write_table;
use imagewriter::Rows;
use slots::SlotStore;
use tables::{Readable, Stamp, Store};

// The file of one entry: text A, edition 1, hand 3.
const ONE_ENTRY: [u8; 19] = [
    0, 1, 0, 1, 0, 0, 0, 1, 0, 0, 0, 3, 0, 0, 0, 0x12, 0, 1, 0x41,
];

#[test]
fn one_entry_is_written_as_the_format_says(rt: HostRuntime) {
    let mut store = SlotStore::new(1).expect(&rt, "no store");
    let stamp = Stamp {
        edition: 1,
        hand: 3,
    };
    assert_eq!(rt; number(store.put(0, b"A", stamp)), None);
    let mut buf = [0xeeu8; 120];
    assert_eq!(rt; number(write_table(&store, &mut buf[..113])), Some(28));
    assert_eq!(rt; buf[0], 0xee);
    assert_eq!(rt; write_table(&store, &mut buf).ok(), Some(19));
    assert_eq!(rt; &buf[..19], ONE_ENTRY.as_slice());
    assert_eq!(rt; buf[19], 0xee);
}

#[test]
fn the_writer_refuses_in_order(rt: HostRuntime) {
    let mut buf = [0u8; 114];
    assert_eq!(rt; number(Rows::begin(&mut buf, 129)), Some(22));
    assert_eq!(rt; number(Rows::begin(&mut buf, 2)), Some(28));
    let rows = Rows::begin(&mut buf, 1).expect(&rt, "no writer");
    let (mut rows, refusal) = rows.turn().err().expect(&rt, "turned early");
    assert_eq!(rt; refusal.number(), 30);
    assert_eq!(rt; number(rows.row(&mut buf, 2, 1, 97)), Some(24));
    assert_eq!(rt; number(rows.row(&mut buf, 1, 1, 97)), Some(25));
    assert_eq!(rt; number(rows.row(&mut buf, 1, 1, 3)), None);
    assert_eq!(rt; number(rows.row(&mut buf, 1, 1, 3)), Some(29));
    let bodies = rows.turn().ok().expect(&rt, "not turned");
    let (mut bodies, refusal) = bodies.finish().err().expect(&rt, "finished early");
    assert_eq!(rt; refusal.number(), 30);
    assert_eq!(rt; number(bodies.body(&mut buf, b"ab")), Some(31));
    assert_eq!(rt; number(bodies.body(&mut buf, b"abc")), None);
    assert_eq!(rt; number(bodies.body(&mut buf, b"abc")), Some(29));
    assert_eq!(rt; bodies.finish().ok(), Some(21));
}

#[test]
fn a_refused_file_shows_and_restores_nothing(rt: HostRuntime) {
    let mut file = ONE_ENTRY;
    assert_eq!(rt; Reader::new(&file).count(), 1);
    file[7] = 4;
    assert_eq!(rt; Reader::new(&file).count(), 0);
    let mut store = SlotStore::new(2).expect(&rt, "no store");
    let fault = restore_file(&file, &mut store).expect_err(&rt, "restored");
    assert_eq!(rt; fault.refusal().number(), 24);
    assert_eq!(rt; fault.row(), Some(0));
    let fault = restore_file(&ONE_ENTRY, &mut store).expect_err(&rt, "restored");
    assert_eq!(rt; fault.refusal().number(), 15);
}
