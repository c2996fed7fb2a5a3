// Files in whole sessions: each wrong one is refused for its first offence, and models refute.
use super::{PROOF, is_right, plain, served};
use std::alloc::{AllocError, Global};

// Whether a file with these lines is refused for this reason.
fn is_refused(alloc: Global, body: &str, why: &str) -> Result<bool, AllocError> {
    let input = format!(in alloc; "file q\n{body}\nend\n")?;
    let output = format!(in alloc; "refused 1: q: {why}\n")?;
    is_right(alloc, &plain(input.as_str(), output.as_str(), 1))
}

#[test]
fn wrong_proofs_are_refused_for_their_first_offence(rt: HostRuntime) {
    let cases = [
        (
            "proof 4 3\nlemma x\nstep 1 > . x * x",
            "reference lemma 1 step 1 line 1",
        ),
        (
            "proof 4 43\nlemma x\nstep 0 > . x * x",
            "goal differs found 3",
        ),
        (
            "proof 4 3\nlemma x\nstep 0 > l x * x",
            "no place lemma 1 step 1",
        ),
        (
            "proof 4 3\nlemma x * y\nstep 0 > l (x * x) * x",
            "outside changed lemma 1 step 1",
        ),
        ("proof 4 4695\nlemma x", "unknown law 4695 in line 1"),
        ("proof 4 3", "unfinished at 2"),
        ("proof 4 3\nlemma x +", "bad line 2"),
        ("proof 4 3\nlemma x * y", "goal differs found trivial"),
        ("# c\nproof 4 3\nlemma x", "goal differs found 1"),
        ("proof2 4 3\ncite zz\nlemma x", "cite missing 1"),
    ];
    for (body, why) in cases {
        assert!(rt;
            is_refused(rt.alloc(), body, why).expect(&rt, "memory"),
            "{body}"
        );
    }
}

#[test]
fn wrong_linear_magmas_are_refused_for_their_first_offence(rt: HostRuntime) {
    let cases = [
        (
            "linear mod 0 0 0 0\nholds 1\nfails 2",
            "coefficient modulus value 0",
        ),
        (
            "linear mod 3 3 0 0\nholds 3\nfails 43",
            "coefficient a value 3",
        ),
        (
            "linear int 1 1 0\nholds 3\nfails 4",
            "holds fails law 3 x=1 left 1 right 2",
        ),
        (
            "linear mod 1 0 0 0\nholds 4\nfails 43",
            "fails holds law 43",
        ),
    ];
    for (body, why) in cases {
        assert!(rt;
            is_refused(rt.alloc(), body, why).expect(&rt, "memory"),
            "{body}"
        );
    }
}

#[test]
fn wrong_rule_systems_are_refused_for_their_first_offence(rt: HostRuntime) {
    let claims = "holds 168\nfails 3 4 43 4512";
    let unjoinable = "rules\nweight 1 1 1\nrule (x * y) * (y * z) -> y";
    let wide =
        "rules\nweight 1 13 1\nrule (x*x)*((x*x)*((x*x)*((x*x)*((x*x)*((x*x)*y))))) -> y\nrule (x*x)*((x*x)*y) -> (((((((((((y*y)*y)*y)*y)*y)*y)*y)*y)*y)*y)*y)*y";
    let idempotent = "rules\nweight 1 1 1\nrule x * x -> x";
    let cases = [
        ("rules\nweight 1 1 1", "holds 1", "bad line 3"),
        ("rules\nweight 0 1 1\nrule x * x -> x", claims, "weight a"),
        ("rules\nweight 1 1 256\nrule x * x -> x", claims, "weight c"),
        (
            "rules\nweight 1 1 1\nrule x * y -> y * x",
            claims,
            "not decreasing rule 1 constant",
        ),
        (
            "rules\nweight 1 1 1\nrule x * x -> y",
            claims,
            "not decreasing rule 1 variable y",
        ),
        (
            unjoinable,
            claims,
            "unjoinable 1 l 1: x ◇ y and x ◇ ((x ◇ y) ◇ z)",
        ),
        (wide, claims, "term limit pair 1 . 2"),
        (
            idempotent,
            "holds 3 43\nfails 4",
            "holds fails law 43: x ◇ y and y ◇ x",
        ),
        (idempotent, "holds 1\nfails 4 3", "fails holds law 3: x"),
    ];
    for (system, claims, why) in cases {
        let body = format!(in rt.alloc(); "{system}\n{claims}").expect(&rt, "memory");
        assert!(rt;
            is_refused(rt.alloc(), body.as_str(), why).expect(&rt, "memory"),
            "{system}"
        );
    }
}

#[test]
fn wrong_matrix_linear_magmas_are_refused_for_their_first_offence(rt: HostRuntime) {
    let cases = [
        ("matrix 2 5", "bad line 1"),
        (
            "matrix 2 2\na 0 2\na 1 1\nb 1 1\nb 1 0\nc 0 0\nholds 3 14\nfails 43 4512",
            "matrix entry a row 0 column 1 value 2",
        ),
        (
            "matrix 2 2\na 0 1\na 1 1\nb 1 1\nb 1 0\nc 0 0\nholds 43\nfails 3",
            "holds fails law 43 x=e0 left 0,1 right 1,1",
        ),
    ];
    for (body, why) in cases {
        assert!(rt;
            is_refused(rt.alloc(), body, why).expect(&rt, "memory"),
            "{body}"
        );
    }
}

#[test]
fn wrong_tables_are_refused_for_their_first_offence(rt: HostRuntime) {
    let cases = [
        (
            "table 2\nrow 0 0\nrow 1 1\nholds 5\nfails 43",
            "holds fails law 5 x=0 y=1 left 0 right 1",
        ),
        (
            "table 2\nrow 0 0\nrow 1 1\nholds 4\nfails 3",
            "fails holds law 3 looked at 2",
        ),
        (
            "table 2\nrow 0 2\nrow 1 1\nholds 4\nfails 43",
            "entry row 0 column 1 value 2",
        ),
        ("table 2\nrow 0\nrow 1 1\nholds 4\nfails 43", "bad line 2"),
    ];
    for (body, why) in cases {
        assert!(rt;
            is_refused(rt.alloc(), body, why).expect(&rt, "memory"),
            "{body}"
        );
    }
}

#[test]
fn a_table_refutes_and_its_refutation_moves_along_proofs(rt: HostRuntime) {
    let input =
        "file t1\ntable 2\nrow 0 0\nrow 1 1\nholds 4\nfails 43\nend\ncounts\nfile p1\nproof 4 3\nlemma x\nstep 0 > . x * x\nend\ncounts\nask 3 43\nwithdraw p1\ncounts\nask 3 43\nfiles\n";
    let output =
        "accepted t1: refutes 1 1\nimplied 4694 refuted 2 open 22028940\naccepted p1: implies 4 3\nimplied 4696 refuted 3 open 22028937\n3 43 refuted\nwithdrawn p1\nimplied 4694 refuted 2 open 22028940\n3 43 open\nt1 table 1 1\nfiles 1\n";
    let case = plain(input, output, 0);
    assert!(rt; is_right(rt.alloc(), &case).expect(&rt, "memory"));
}

#[test]
fn a_linear_magma_refutes(rt: HostRuntime) {
    let input =
        "file l\nlinear mod 3 2 2 0\nholds 3 43\nfails 4512\nend\nask 43 4512\nprofile l\nfile m\nlinear int 1 1 0\nholds 43 4512\nfails 3\nend\nfiles\n";
    let output =
        "accepted l: refutes 2 1\n43 4512 refuted\nrefused 7: not a table l\naccepted m: refutes 2 1\nl linear 2 1\nm linear 2 1\nfiles 2\n";
    let case = plain(input, output, 1);
    assert!(rt; is_right(rt.alloc(), &case).expect(&rt, "memory"));
}

#[test]
fn a_matrix_linear_magma_refutes(rt: HostRuntime) {
    let input =
        "file m\nmatrix 2 2\na 0 1\na 1 1\nb 1 1\nb 1 0\nc 0 0\nholds 3 14\nfails 43 4512\nend\nask 3 43\nfiles\n";
    let output = "accepted m: refutes 2 2\n3 43 refuted\nm matrix 2 2\nfiles 1\n";
    let case = plain(input, output, 0);
    assert!(rt; is_right(rt.alloc(), &case).expect(&rt, "memory"));
}

const TABLE: &str = "file t1\ntable 2\nrow 0 0\nrow 1 1\nholds 4\nfails 43\nend\n";

// A file with a table of 17 rows of zeros.
fn large_table(alloc: Global) -> Result<String, AllocError> {
    let mut text = String::new(alloc);
    text.push_str("file k\ntable 17\n")?;
    for _ in 0..17 {
        text.push_str("row 0 0 0 0 0 0 0 0 0 0 0 0 0 0 0 0 0\n")?;
    }
    text.push_str("holds 46\nfails 3\nend\n")?;
    Ok(text)
}

#[test]
fn a_name_without_a_table_or_with_a_large_one_has_no_profile(rt: HostRuntime) {
    let large = large_table(rt.alloc()).expect(&rt, "memory");
    let input = format!(in rt.alloc();
        "{TABLE}profile none\n{PROOF}profile p1\n{large}profile k\nprofile\nprofile t1 t1\nprofile .t\n"
    ).expect(&rt, "memory");
    let output =
        "accepted t1: refutes 1 1\nrefused 8: no such name none\naccepted p1: implies 4 3\nrefused 14: not a table p1\naccepted k: refutes 1 1\nrefused 37: profile size 17\nrefused 38: bad line\nrefused 39: bad line\nrefused 40: bad line\n";
    let case = plain(input.as_str(), output, 1);
    assert!(rt; is_right(rt.alloc(), &case).expect(&rt, "memory"));
}

#[test]
fn the_profile_of_a_table_is_written(rt: HostRuntime) {
    let input = format!(in rt.alloc(); "{TABLE}profile t1\n").expect(&rt, "memory");
    let (status, sink) = served(rt.alloc(), &plain(input.as_str(), "", 0)).expect(&rt, "memory");
    assert!(rt; status == 0);
    let front =
        "accepted t1: refutes 1 1\nprofile t1 1214: 1 3 4 8 9 10 11 12 23 24 25 26 27 38 42 47 ";
    assert!(rt; sink.taken().starts_with(front.as_bytes()));
}

#[test]
fn a_rule_system_refutes(rt: HostRuntime) {
    let input =
        "file as\nrules\nweight 2 1 1\nrule (x * y) * z -> x * (y * z)\nholds 4512\nfails 3 43\nend\nwhy 4512 43\nfiles\n";
    let output =
        "accepted as: refutes 1 2\n4512 43 refuted\nholds 4512 fails 43 as\nfails 43 left x ◇ y right y ◇ x\nas rules 1 2\nfiles 1\n";
    assert!(rt; is_right(rt.alloc(), &plain(input, output, 0)).expect(&rt, "memory"));
}
