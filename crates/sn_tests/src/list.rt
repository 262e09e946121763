use sn_list::{Boxed, Seq};

#[test]
fn lists_hold_what_was_put(rt: HostRuntime) {
    let mut list = Seq::from_slice(rt.alloc(), &[1, 2]).expect(&rt, "memory");
    list.extend_from_slice(&[3]).expect(&rt, "memory");
    assert!(rt; list.push(4).is_ok());
    assert!(rt; list.len() == 4);
    assert!(rt; *list.at(3) == 4);
    assert!(rt; list.as_slice() == [1, 2, 3, 4].as_slice());
}

#[test]
fn lists_of_vecs_are_equal(rt: HostRuntime) {
    let list = Seq::from_slice(rt.alloc(), &[1, 2, 3, 4]).expect(&rt, "memory");
    let other = Seq::from_slice(rt.alloc(), &[1, 2, 3, 4]).expect(&rt, "memory");
    assert!(rt; Seq::from_vec(list.into_vec()) == other);
}

#[test]
fn boxes_hold_what_was_put(rt: HostRuntime) {
    let boxed = Boxed::new(rt.alloc(), 7).expect(&rt, "memory");
    assert!(rt; *boxed.get() == 7);
    assert!(rt; boxed.into_inner() == 7);
}
