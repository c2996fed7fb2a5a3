use super::{Matrix, Numbers};
use std::rt::HostRuntime;

#[test]
fn numbers_are_pushed_and_read(rt: HostRuntime) {
    let mut numbers = Numbers::empty(rt.alloc());
    assert!(rt; numbers.push(7).is_ok());
    assert!(rt; numbers.push(4694).is_ok());
    assert_eq!(rt; numbers.len(), 2);
    assert_eq!(rt; numbers.get(1), Some(&4694));
    assert!(rt; numbers.as_slice() == [7, 4694].as_slice());
}

#[test]
fn a_matrix_starts_and_grows_with_ample_memory(rt: HostRuntime) {
    match Matrix::start(rt.alloc(), 2, 65) {
        Ok(mut matrix) => {
            matrix.set(1, 64);
            assert!(rt; matrix.grow(3, 200).is_ok());
            assert!(rt; matrix.get(1, 64));
            assert!(rt; !matrix.get(2, 199));
            assert_eq!(rt; matrix.count_row(1), 1);
        }
        Err(_) => assert!(rt; false),
    }
}
