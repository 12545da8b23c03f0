use crate::refusal::{Broken, Refusal, first};

/// An option ends with its line, so no source has one on the line of a name that is used.
#[test]
fn options_before_unknown_names(rt: HostRuntime) {
    let unknown = Refusal {
        rule: Broken::UnknownName,
        line: 2,
    };
    let option = Refusal {
        rule: Broken::BadOption,
        line: 2,
    };
    assert_eq!(rt; first(&[unknown, option]), Some(option));
    assert_eq!(rt; first(&[option, unknown]), Some(option));
}
