// The worked examples: a grammar of sums, its commands, and answers in words.
use crate::fault::Fault;
use crate::rules::{Notation, Rule};
use crate::said::Spelled;
use crate::shown;
use crate::source::Source;
use std::alloc::Global;
use std::test::Fail;

fn sums(heap: Global) -> Result<Notation, Fault> {
    let mut notation = Notation::new(heap);
    for line in ["sum = sum + one", "sum = one", "one = x", "one = ( sum )"] {
        notation.add(heap, line)?;
    }
    Ok(notation)
}

#[test]
fn sums_are_spelled(rt: HostRuntime) -> Result<(), Fail> {
    let heap = rt.alloc();
    let notation = sums(heap)?;
    let codes = notation.codes(heap)?;
    let spelled = Spelled {
        notation: &notation,
        codes: codes.as_slice(),
    };
    let bytes = spelled.load(heap)?;
    assert_eq!(rt;
        bytes.as_slice(),
        [
            1, 5, 0, 1, 33, 1, 3, 33, 0, 34, 1, 1, 34, 2, 1, 1, 2, 3, 2, 33, 3,
        ]
        .as_slice()
    );
    let bytes = spelled.text(heap, 2, "x + ( x )")?;
    assert_eq!(rt; bytes.as_slice(), [2, 1, 0, 2, 1, 3].as_slice());
    Ok(())
}

#[test]
fn readings_have_brackets(rt: HostRuntime) -> Result<(), Fail> {
    let heap = rt.alloc();
    let notation = sums(heap)?;
    let text = notation.reading(heap, &[3, 2, 3, 2, 4, 1, 0])?;
    assert_eq!(rt; text.as_str(), "sum[sum[one[x]] + one[( sum[one[x]] )]]");
    assert!(rt; notation.reading(heap, &[1]).is_err());
    Ok(())
}

#[test]
fn rules_past_those_of_a_grammar_are_not_told(rt: HostRuntime) -> Result<(), Fail> {
    let heap = rt.alloc();
    let mut notation = Notation::new(heap);
    notation.add(heap, "s = a")?;
    for _ in 0..63 {
        notation.rules.push(Rule {
            left: 0,
            right: Vec::new(heap),
        })?;
    }
    assert!(rt; notation.reading(heap, &[64]).is_err());
    assert_eq!(rt; notation.reading(heap, &[63])?.as_str(), "s[]");
    Ok(())
}

#[test]
fn refusals_are_told(rt: HostRuntime) -> Result<(), Fail> {
    let heap = rt.alloc();
    let notation = sums(heap)?;
    let codes = notation.codes(heap)?;
    let spelled = Spelled {
        notation: &notation,
        codes: codes.as_slice(),
    };
    assert_eq!(rt;
        spelled.clash(heap, 1, 64, 0)?.as_str(),
        "before + : sum = sum + one, or go on"
    );
    assert_eq!(rt;
        spelled.clash(heap, 2, 3, 24)?.as_str(),
        "before the end : sum = one, or one = x"
    );
    assert_eq!(rt;
        notation.useless(heap, 2)?.as_str(),
        "one comes to nothing, or is never reached"
    );
    assert_eq!(rt;
        shown::wrong_at(heap, "x + ) x", 2)?.as_str(),
        "x + ) : no text goes on with )"
    );
    assert_eq!(rt;
        shown::wrong_at(heap, "x +", 2)?.as_str(),
        "x + : more would have to come"
    );
    Ok(())
}

#[test]
fn faults_lose_no_rule(rt: HostRuntime) -> Result<(), Fail> {
    let heap = rt.alloc();
    let mut notation = sums(heap)?;
    assert!(rt; matches!(notation.add(heap, "a b = c"), Err(Fault::LeftSide)));
    assert!(rt; matches!(notation.add(heap, "a = b = c"), Err(Fault::SecondEquals)));
    let spelled = Spelled {
        notation: &notation,
        codes: &[],
    };
    assert!(rt; matches!(spelled.text(heap, 2, "x * x"), Err(Fault::Unknown(_))));
    for _ in 0..59 {
        notation.add(heap, "one = x x")?;
    }
    assert!(rt; matches!(notation.add(heap, "one = x"), Err(Fault::Rules)));
    assert_eq!(rt; notation.rules.len(), 63);
    Ok(())
}

#[test]
fn rows_are_shown(rt: HostRuntime) -> Result<(), Fail> {
    let heap = rt.alloc();
    assert_eq!(rt;
        shown::row_text(heap, &[1, 64, 0])?.as_str(),
        "shows 1 64 0"
    );
    assert_eq!(rt; shown::row_text(heap, &[])?.as_str(), "shows");
    Ok(())
}

#[test]
fn words_name_a_source(rt: HostRuntime) -> Result<(), Fail> {
    assert!(rt; matches!(Source::named(&rt, "it", None), Ok(Source::Input)));
    assert!(rt; matches!(Source::named(&rt, "it", Some("--help")), Ok(Source::Help)));
    assert!(rt;
        matches!(
            Source::named(&rt, "it", Some("/dev/null")),
            Ok(Source::File(_))
        )
    );
    assert!(rt; Source::named(&rt, "it", Some("no/file")).is_err());
    Ok(())
}
