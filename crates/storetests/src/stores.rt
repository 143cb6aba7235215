use super::numbers::number;
use compare::{Comparison, compare_tables};
use pages::PageStore;
use slots::SlotStore;
use std::process::Abort;
use tables::{LONGEST_TEXT, MOST_ENTRIES, Readable, Stamp, Store};

// Puts one text into every entry.
fn fill_all<S: Store>(rt: &impl Abort, store: &mut S, text: &[u8], stamp: Stamp) {
    for e in 0..store.count() {
        assert_eq!(rt; number(store.put(e, text, stamp)), None);
    }
}

#[test]
fn full_page_store_takes_new_texts(rt: HostRuntime) {
    let mut pages = PageStore::new(MOST_ENTRIES).expect(&rt, "no page store");
    let mut slots = SlotStore::new(MOST_ENTRIES).expect(&rt, "no slot store");
    for turn in 0..3u8 {
        let text = [turn; LONGEST_TEXT];
        let stamp = Stamp {
            edition: 0,
            hand: u32::from(turn) + 1,
        };
        fill_all(&rt, &mut pages, &text, stamp);
        fill_all(&rt, &mut slots, &text, stamp);
        assert_eq!(rt; compare_tables(&pages, &slots), Comparison::Same);
    }
    let stamp = Stamp {
        edition: 0,
        hand: 9,
    };
    fill_all(&rt, &mut pages, &[9; 17], stamp);
    assert_eq!(rt; compare_tables(&pages, &slots), Comparison::Entry(0));
}

#[test]
fn refusals_of_a_store(rt: HostRuntime) {
    assert_eq!(rt; number(PageStore::new(129)), Some(22));
    assert_eq!(rt; number(SlotStore::new(129)), Some(22));
    let mut store = PageStore::new(2).expect(&rt, "no store");
    let stamp = Stamp {
        edition: 1,
        hand: 2,
    };
    assert_eq!(rt; number(store.put(2, &[0; 97], stamp)), Some(2));
    assert_eq!(rt; number(store.put(1, &[0; 97], stamp)), Some(11));
    assert_eq!(rt; number(store.put(1, b"register", stamp)), None);
    let mut short = [7u8; 7];
    assert_eq!(rt; number(store.text(1, &mut short)), Some(9));
    assert_eq!(rt; short, [7; 7]);
    let mut wide = [7u8; 9];
    assert_eq!(rt; number(store.text(1, &mut wide)), None);
    assert_eq!(rt; &wide, b"register\x07");
    assert_eq!(rt; number(Stamp::new(3, 2)), Some(24));
    assert_eq!(rt; number(Stamp::new(0, 4_000_000_001)), Some(24));
}
