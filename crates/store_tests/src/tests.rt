use super::model::*;
use hold::Hold;
use std::process::Abort;
use store::promises::settle_to_one;
use store::slices::{Chip, Memory};
use store::traits::{Card, Store};
use tray::Tray;

// The model of N bytes, once a pile has done as it does.
fn modelled<C: Card + Drop, const N: usize>(rt: &impl Abort, pile: C, random: u32) -> [u8; N] {
    let mut card = pile;
    let mut model = [0; N];
    let mut buffer = [0; N];
    assert!(rt; holds_up(&mut card, &mut model, random, &mut buffer));
    model
}

// The trays lie from 1,024 on and have 19 sectors and 84 bytes: more sectors than a hold keeps, and a short last one.

#[test]
fn memory_and_chip(rt: HostRuntime) {
    let mut bytes = [0; 1300];
    let model: [u8; 1300] = modelled(&rt, Memory::new(&mut bytes), 1);
    assert!(rt; lies_in(&bytes, 0, &model));
    let mut buffer = [0; 1300];
    let mut chip = Chip::new(&bytes);
    chip.settle();
    assert!(rt; chip.length() == 1300);
    assert!(rt; reads(&mut chip, &model, 0, &mut buffer));
    assert!(rt; reads(&mut chip, &model, 1, &mut buffer));
}

#[test]
fn hold_over_tray(rt: HostRuntime) {
    let mut bytes = [0; 12_000];
    let pile = Hold::new(Tray::new(Memory::new(&mut bytes), 1024, 9_812));
    let model: [u8; 9_812] = modelled(&rt, pile, 2);
    assert!(rt; lies_in(&bytes, 1024, &model));
}

#[test]
fn tray_over_hold(rt: HostRuntime) {
    let mut bytes = [0; 12_000];
    let pile = Tray::new(Hold::new(Memory::new(&mut bytes)), 1024, 9_812);
    let model: [u8; 9_812] = modelled(&rt, pile, 3);
    assert!(rt; lies_in(&bytes, 1024, &model));
}

#[test]
fn hold_over_hold_over_tray(rt: HostRuntime) {
    let mut bytes = [0; 12_000];
    let pile = Hold::new(Hold::new(Tray::new(Memory::new(&mut bytes), 1024, 9_812)));
    let model: [u8; 9_812] = modelled(&rt, pile, 4);
    assert!(rt; lies_in(&bytes, 1024, &model));
}

// A tray of a tray: the inner one ends inside a sector, and the outer one with it.
#[test]
fn tray_over_tray_over_hold(rt: HostRuntime) {
    let mut bytes = [0; 12_000];
    let pile = Tray::new(
        Tray::new(Hold::new(Memory::new(&mut bytes)), 1024, 9_812),
        512,
        9_300,
    );
    let model: [u8; 9_300] = modelled(&rt, pile, 5);
    assert!(rt; lies_in(&bytes, 1536, &model));
}

#[test]
fn trays_that_do_not_fit(rt: HostRuntime) {
    for (from, len) in [
        (511, 10),
        (256, 0),
        (512, 1489),
        (2048, 1),
        (4_294_967_040, 4_294_967_295),
    ] {
        let mut bytes = [0; 2000];
        let mut pile = Tray::new(Memory::new(&mut bytes), from, len);
        assert!(rt; holds_up(&mut pile, &mut [], 6, &mut []));
        assert!(rt; all(&bytes, 0));
    }
}

#[test]
fn kept_until_settled(rt: HostRuntime) {
    let mut bytes = [0; 12_000];
    let mut pile = Hold::new(Memory::new(&mut bytes));
    for sector in 0..23 {
        assert!(rt; !pile.keeps(sector + 1));
        assert!(rt; pile.write(512 * sector + 500, &[9; 20]).is_ok());
        assert!(rt; pile.keeps(sector + 1));
    }
    pile.settle();
    for sector in 0..24 {
        assert!(rt; !pile.keeps(sector));
    }
}

#[test]
fn handed_out(rt: HostRuntime) {
    let mut bytes = [0; 3000];
    let mut model = [0; 2000];
    let mut pile = Hold::new(Tray::new(Memory::new(&mut bytes), 512, 2000));
    assert!(rt;
        writes(
            &mut pile,
            &mut model,
            1990,
            &[1, 2, 3, 4, 5, 6, 7, 8, 9, 10],
        )
    );
    let mut lowest = pile.into_below().into_below();
    settle_to_one(&mut lowest);
    assert!(rt; lies_in(&bytes, 512, &model));
}

#[test]
fn written_then_read(rt: HostRuntime) {
    let mut bytes = [0; 1026];
    let mut model = [0; 1026];
    let mut pile = Hold::new(Memory::new(&mut bytes));
    assert!(rt; all_echo(&mut pile, &mut model));
    pile.settle();
    assert!(rt; lies_in(&bytes, 0, &model));
}
