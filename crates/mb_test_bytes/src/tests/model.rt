//! Calls that take memory succeed if there is memory.

use mb_model::{Bytes, Event, Items};
use std::test::Fail;

/// Whether the event is the command of the test.
fn is_pin(event: &Event) -> bool {
    match event {
        Event::Order { text, draw } => text.as_slice() == b"pin".as_slice() && draw[0] == 7,
        _ => false,
    }
}

#[test]
fn copies_are_the_same(rt: HostRuntime) -> Result<(), Fail> {
    let text = Bytes::copy(rt.alloc(), b"pin")?;
    assert!(rt; text.as_slice() == b"pin".as_slice());
    let event = Event::Order {
        text,
        draw: [7; 32],
    };
    let copied = event.copy(rt.alloc())?;
    assert!(rt; is_pin(&copied));
    Ok(())
}

const ITEMS: &[u64] = &[10, 20, 30];

#[test]
fn lists_are_edited(rt: HostRuntime) -> Result<(), Fail> {
    let mut items = Items::new(rt.alloc());
    for item in ITEMS {
        items.push(*item)?;
    }
    assert!(rt; items.as_slice() == ITEMS);
    Ok(())
}
