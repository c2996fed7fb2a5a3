use crate::Opened;
use etp_command::ListOrder;

#[test]
fn a_session_opens_its_laws(rt: HostRuntime) {
    let alloc = rt.alloc();
    let opened = Opened::start(alloc, ListOrder::Four).expect(&rt, "memory");
    assert_eq!(rt; opened.laws.count(), 4694);
    assert_eq!(rt; opened.ledger.count(), 0);
}
