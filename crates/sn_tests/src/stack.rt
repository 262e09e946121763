use sn_list::Seq;
use sn_stack::{Stack, append};

#[test]
fn what_came_last_is_on_top(rt: HostRuntime) {
    let mut stack = Stack::new(rt.alloc());
    assert!(rt; stack.push(1).is_ok());
    assert!(rt; stack.push(2).is_ok());
    assert!(rt; stack.pop() == Some(2));
    assert!(rt; stack.pop() == Some(1));
    assert!(rt; stack.pop().is_none());
}

#[test]
fn a_list_gets_longer(rt: HostRuntime) {
    let mut list = Seq::new(rt.alloc());
    assert!(rt; append(&mut list, 5).is_ok());
    assert!(rt; *list.at(0) == 5);
}
