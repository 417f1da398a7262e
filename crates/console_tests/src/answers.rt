use console::{AnswerLine, Places};
use std::alloc::{AllocError, Global};
use std::test::Fail;

fn line(heap: Global, answer: AnswerLine) -> Result<String, AllocError> {
    format!(in heap; "{answer}")
}

#[test]
fn counts_are_written(rt: HostRuntime) -> Result<(), Fail> {
    let heap = rt.alloc();
    let loaded = |states, components| AnswerLine::Loaded { states, components };
    assert_eq!(rt; line(heap, loaded(3, 2))?.as_str(), "L 3 2");
    assert_eq!(rt;
        line(heap, loaded(0, u64::MAX))?.as_str(),
        "L 0 18446744073709551615"
    );
    assert_eq!(rt;
        line(heap, AnswerLine::Swept { sweeps: 4 })?.as_str(),
        "S 4"
    );
    assert_eq!(rt; line(heap, AnswerLine::Closed)?.as_str(), "C");
    Ok(())
}

#[test]
fn bounds_are_written(rt: HostRuntime) -> Result<(), Fail> {
    let heap = rt.alloc();
    let refined = |steps, lo, hi| AnswerLine::Refined { steps, lo, hi };
    let quoted = |lower, upper, mark| AnswerLine::Quoted { lower, upper, mark };
    assert_eq!(rt;
        line(heap, refined(1, 8_388_608, 8_388_608))?.as_str(),
        "R 1 8388608 8388608"
    );
    assert_eq!(rt;
        line(heap, refined(1, -4_194_304, 0))?.as_str(),
        "R 1 -4194304 0"
    );
    assert_eq!(rt;
        line(heap, refined(0, i64::MIN, i64::MAX))?.as_str(),
        "R 0 -9223372036854775808 9223372036854775807"
    );
    assert_eq!(rt;
        line(heap, quoted(-1_048_576, -1_048_576, true))?.as_str(),
        "Q -1048576 -1048576 1"
    );
    assert_eq!(rt;
        line(heap, quoted(i64::MIN, i64::MAX, false))?.as_str(),
        "Q -9223372036854775808 9223372036854775807 0"
    );
    Ok(())
}

#[test]
fn lists_are_written(rt: HostRuntime) -> Result<(), Fail> {
    let heap = rt.alloc();
    let refused = |number, places| AnswerLine::Refused { number, places };
    let branch = Places::InTable {
        state: 0,
        choice: 1,
        branch: 2,
    };
    assert_eq!(rt;
        line(heap, AnswerLine::Planned { choices: &[] })?.as_str(),
        "P"
    );
    assert_eq!(rt;
        line(
            heap,
            AnswerLine::Planned {
                choices: &[0, 1, 15]
            }
        )?
        .as_str(),
        "P 0 1 15"
    );
    assert_eq!(rt; line(heap, refused(34, Places::Nowhere))?.as_str(), "E 34");
    assert_eq!(rt; line(heap, refused(35, Places::At(2)))?.as_str(), "E 35 2");
    assert_eq!(rt; line(heap, refused(18, branch))?.as_str(), "E 18 0 1 2");
    Ok(())
}
