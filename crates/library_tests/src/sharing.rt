//! Types take no memory where they are carried in clones. What values of them take is in the files
//! of `cases/data`.

use dbus_types::{SigType, parse_signature};
use refusing_alloc::Refusing;
use std::alloc::{Allocator, Global};
use std::test::*;

fn are_cloned<A: Allocator + Copy>(types: &[SigType<A>]) -> bool {
    for ty in types {
        if ty.clone().is_err() {
            return false;
        }
    }
    true
}

// How many allocations clones of types ask for.
fn growths_of_clones(alloc: Global) -> Option<u64> {
    let heap = Refusing::none(alloc);
    match parse_signature(&heap, b"a{sv}(ua(yv))aai") {
        Ok(types) => {
            heap.refuse_from_nth(1);
            if are_cloned(&types) {
                Some(heap.growths())
            } else {
                None
            }
        }
        Err(_) => None,
    }
}

#[test]
fn clones_of_types_take_no_memory(rt: HostRuntime) {
    assert!(rt; growths_of_clones(rt.alloc()) == Some(0));
}
