use crate::{FiniteBody, FiniteReader};

#[test]
fn a_proof_that_cancels_is_read(rt: HostRuntime) {
    let mut reader = FiniteReader::start(rt.alloc(), 4694).expect(&rt, "memory");
    reader.push(Some(b"proof 29 14")).expect(&rt, "memory");
    reader
        .push(Some(b"cancel 0 x x * y ; y * x"))
        .expect(&rt, "memory");
    match reader.finish(true) {
        Ok(FiniteBody::Proof(proof)) => {
            assert!(rt; proof.hypothesis == 29 && proof.goal == 14 && proof.lemmas.len() == 1)
        }
        Ok(_) | Err(_) => assert!(rt; false),
    }
}
