//! The SQL commands that lock nothing, with what a script has in place of each.

/// SQL commands that take no lock on a table, each with the line of a script that does in its place what the
/// command does.
pub static OTHERS: [(&str, &str); 7] = [
    ("COMMIT", "commit NAME"),
    ("ROLLBACK", "abort NAME"),
    ("SAVEPOINT", "begin NAME"),
    ("RELEASE SAVEPOINT", "subcommit NAME"),
    (
        "ROLLBACK TO SAVEPOINT",
        "subabort NAME, and then begin NAME",
    ),
    ("GRANT", "nothing here: it locks no table"),
    ("REVOKE", "nothing here: it locks no table"),
];
