use crate::Label;

#[test]
fn a_name_begins_with_a_letter_or_a_digit(rt: HostRuntime) {
    let alloc = rt.alloc();
    let name = Label::of(alloc, b"p1.a").expect(&rt, "memory");
    assert_eq!(rt; name.expect(&rt, "a name").len(), 4);
    assert!(rt; Label::of(alloc, b".a").expect(&rt, "memory").is_none());
}
