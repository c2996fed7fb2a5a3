// Lines of a session answered.
use etp_command::ListOrder;
use etp_desk::Opened;
use etp_filing::{
    answer_file, answer_withdrawal, closes_body, has_free_name, open_file, take_line,
};
use etp_reply::{Desk, Outcome, respond, respond_at_end};
use etp_text::Text;

#[test]
fn a_file_is_read_accepted_and_taken_out(rt: HostRuntime) {
    let alloc = rt.alloc();
    let mut opened = Opened::start(alloc, ListOrder::Four).expect(&rt, "memory");
    let filing = open_file(alloc, &opened, Some(b"p"), 7).expect(&rt, "memory");
    assert!(rt; has_free_name(&filing));
    let filing = take_line(filing, Some(b"proof 4 3")).expect(&rt, "memory");
    let filing = take_line(filing, Some(b"lemma x")).expect(&rt, "memory");
    let filing = take_line(filing, Some(b"step 0 > . x * x")).expect(&rt, "memory");
    assert!(rt; closes_body(Some(b" end ")));
    let mut text = Text::empty(alloc);
    let refused = answer_file(alloc, &mut text, &mut opened, filing, true).expect(&rt, "memory");
    assert!(rt; !refused);
    assert!(rt; text.as_slice() == b"accepted p: implies 4 3\n".as_slice());
    text.clear();
    let refused = answer_withdrawal(alloc, &mut text, &mut opened, b"p", 12).expect(&rt, "memory");
    assert!(rt; !refused);
    assert!(rt; text.as_slice() == b"withdrawn p\n".as_slice());
}

#[test]
fn a_query_is_answered(rt: HostRuntime) {
    let alloc = rt.alloc();
    let mut desk = Desk::start();
    let mut text = Text::empty(alloc);
    let outcome = respond(alloc, &mut text, &mut desk, Some(b"law 43"), 1).expect(&rt, "memory");
    assert!(rt; matches!(&outcome, Outcome::Replied(false)));
    assert!(rt; text.as_slice() == "43 x ◇ y = y ◇ x\n".as_bytes());
}

#[test]
fn nothing_is_open_at_the_end(rt: HostRuntime) {
    let alloc = rt.alloc();
    let mut desk = Desk::start();
    let mut text = Text::empty(alloc);
    let refused = respond_at_end(alloc, &mut text, &mut desk).expect(&rt, "memory");
    assert!(rt; !refused);
}
