// What other words than a session ask.
use etp_command::ListOrder;
use etp_demo::write_demo;
use etp_gen::{Generator, append_file_name, generate};
use etp_io::MemorySink;
use etp_laws::Laws;
use etp_tasks::list_laws;
use etp_text::Text;

#[test]
fn the_list_begins_with_the_first_laws(rt: HostRuntime) {
    let failing = Vec::from_slice(rt.alloc(), &[2]).expect(&rt, "memory");
    let mut sink = MemorySink::of(rt.alloc(), 10000, 30, failing).expect(&rt, "memory");
    assert!(rt; list_laws(rt.alloc(), ListOrder::Four, &mut sink) == 4);
    assert!(rt; sink.taken() == "1 x = x\n2 x = y\n3 x = x ◇ x\n".as_bytes());
}

#[test]
fn the_first_file_of_seed_7(rt: HostRuntime) {
    let alloc = rt.alloc();
    let laws = Laws::build(alloc).expect(&rt, "memory");
    let text = generate(alloc, &laws, 1, 7).expect(&rt, "memory");
    let lines =
        "file g1\nproof 600 581\nlemma w\nstep 0 > . x ◇ (y ◇ (y ◇ (y ◇ y)))\nend\ncounts\n";
    assert!(rt; text.as_slice() == lines.as_bytes());
}

#[test]
fn a_generator_gives_the_files_and_their_names(rt: HostRuntime) {
    let alloc = rt.alloc();
    let laws = Laws::build(alloc).expect(&rt, "memory");
    let mut generator = Generator::start(7);
    let file = generator.next_file(alloc, &laws).expect(&rt, "memory");
    assert_eq!(rt; file.hypothesis, 600);
    assert_eq!(rt; file.goal, 581);
    let mut name = Text::empty(alloc);
    append_file_name(&mut name, 1).expect(&rt, "memory");
    assert!(rt; name.as_slice() == b"g1".as_slice());
}

#[test]
fn the_summary_of_the_first_file_of_seed_7(rt: HostRuntime) {
    let alloc = rt.alloc();
    let failing = Vec::new(alloc);
    let mut sink = MemorySink::of(alloc, 4096, 4096, failing).expect(&rt, "memory");
    assert!(rt; write_demo(alloc, 1, 7, &mut sink) == 0);
    let text = "files 1\n\
        implied 4696 refuted 0 open 22028940\n\
        withdrawn g1\n\
        implied 4694 refuted 0 open 22028942\n\
        classes 4694\n";
    assert!(rt; sink.taken() == text.as_bytes());
}
