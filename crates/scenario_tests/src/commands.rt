//! The table of commands: a form names each of its words by its kind.
use lock_script::{WordKind, command_rows};
use std::test::Fail;

/// Whether `name` is how a form calls a word of `kind`.
fn is_name_of(kind: WordKind, name: &str) -> bool {
    match kind {
        WordKind::FreeName => name == "NAME",
        WordKind::CallerName => name == "NAME" || name == "BY",
        WordKind::OpenName => name == "NAME" || name == "OTHER",
        WordKind::Number => name == "DB",
        WordKind::CounterIndex => name == "INDEX",
        WordKind::FreeObjectName => name == "OBJECT",
        WordKind::FreeTag | WordKind::TagWord => name == "TAG",
        WordKind::ModeName => name == "MODE",
        WordKind::OwnerWord => name == "[session]",
    }
}

#[test]
fn a_form_names_each_word_by_its_kind(rt: HostRuntime) -> Result<(), Fail> {
    for row in command_rows() {
        let mut names = row.form.split(' ');
        for kind in row.kinds {
            let name = names.next().unwrap_or("");
            assert!(rt; is_name_of(*kind, name), "{} of {}", name, row.verb);
        }
        assert!(rt; names.next().is_none(), "{}", row.verb);
    }
    Ok(())
}
