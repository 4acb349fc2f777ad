//! A test of options in both forms.
use option_words::{read_options, value_of};
use std::test::Fail;

#[test]
fn options_in_both_forms(rt: HostRuntime) -> Result<(), Fail> {
    let options = ["seats", "journal", "store"];
    let words = ["--seats", "2", "--store=night.db"];
    let Some(matches) = read_options(rt.alloc(), "replay", &options, &words)? else {
        panic!(rt; "no options")
    };
    assert_eq!(rt; value_of(&matches, "seats"), Some("2"));
    assert_eq!(rt; value_of(&matches, "store"), Some("night.db"));
    assert_eq!(rt; value_of(&matches, "journal"), None);
    Ok(())
}
