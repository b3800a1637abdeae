// Slots as another crate meets them: the memory's own, and one that owns its words.
use super::*;

#[derive(Drop)]
struct Owned {
    weight: u32,
    sheet: [u32; SHEET_WORDS],
}

impl Slot for Owned {
    ghost boat = { λ o. o.weight };

    ghost words = { λ o. o.sheet };

    fn weight(&self) -> u32 {
        self.weight
    }

    fn sheet(&self) -> &[u32] {
        &self.sheet
    }
}

// What any slot weighs, and its sheet.
fn read<S: Slot>(slot: &S) -> (u32, &[u32]) {
    (slot.weight(), slot.sheet())
}

// The sheet of a view that ends here, which only a slot of lent memory can hand on.
fn handed_on<'a, S: LentSlot<'a> + Copy>(view: S) -> (u32, &'a [u32]) {
    (view.weight(), view.sheet())
}

// The memory's words are their own places here, so that each answer says where it was read.
#[test]
fn every_slot_is_read_where_it_stands(rt: HostRuntime) {
    let mut mem = [0; REGISTER_WORDS];
    for (word, place) in mem.iter_mut().zip(0..) {
        *word = place;
    }
    let hull = Hull::of(&mem, 3);
    let desk = Desk::of(&mem, 7);
    assert_eq!(rt; read(&hull), (284, &mem[285..377]));
    assert_eq!(rt; handed_on(hull), (284, &mem[285..377]));
    assert_eq!(rt; read(&desk), (2180, &mem[2181..2273]));
    assert_eq!(rt; handed_on(desk), (2180, &mem[2181..2273]));
    let owned = Owned {
        weight: 350,
        sheet: [6; SHEET_WORDS],
    };
    assert_eq!(rt; read(&owned), (350, [6; SHEET_WORDS].as_slice()));
}
