// Where the source or the sink fails: the status, and the prefix of the text that was written before.
use crate::calls::{Outside, THREE, THREE_SUMS, ends_with};
use std::test::Fail;

#[test]
fn each_failing_read_ends_the_call(rt: HostRuntime) -> Result<(), Fail> {
    // Eleven pieces of at most 16 bytes, and the end.
    for call in 1..=13 {
        let outside = Outside {
            source_piece: 16,
            source_fails: call,
            sink_piece: 99,
            sink_fails: 0,
        };
        let (status, text) = if call <= 12 {
            (5, "read\n")
        } else {
            (0, THREE_SUMS)
        };
        assert!(rt;
            ends_with(rt.alloc(), &["run"], THREE, &outside, status, text)?,
            "at call {call}"
        );
    }
    Ok(())
}

#[test]
fn each_failing_write_leaves_a_prefix(rt: HostRuntime) -> Result<(), Fail> {
    for (call, status, text) in [
        (1, 6, ""),
        (2, 6, "i64?"),
        (3, 6, "i64?\n11\n"),
        (4, 6, "i64?\n11\nnull"),
        (5, 0, THREE_SUMS),
    ] {
        let outside = Outside {
            source_piece: 99,
            source_fails: 0,
            sink_piece: 4,
            sink_fails: call,
        };
        assert!(rt;
            ends_with(rt.alloc(), &["run"], THREE, &outside, status, text)?,
            "at call {call}"
        );
    }
    Ok(())
}

#[test]
fn a_failing_sink_cuts_a_summary(rt: HostRuntime) -> Result<(), Fail> {
    let outside = Outside {
        source_piece: 1,
        source_fails: 0,
        sink_piece: 4,
        sink_fails: 2,
    };
    assert!(rt; ends_with(rt.alloc(), &["gen", "10"], "", &outside, 6, "rows")?);
    Ok(())
}

#[test]
fn a_failing_source_is_not_read(rt: HostRuntime) -> Result<(), Fail> {
    let outside = Outside {
        source_piece: 1,
        source_fails: 1,
        sink_piece: 99,
        sink_fails: 0,
    };
    assert!(rt;
        ends_with(
            rt.alloc(),
            &["gen", "1"],
            "",
            &outside,
            0,
            "rows 1\nnulls 0\nsum 0\n"
        )?
    );
    Ok(())
}
