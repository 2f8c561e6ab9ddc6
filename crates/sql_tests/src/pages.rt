//! The tables of SQL statements of docs/POSTGRESQL.md, compared with the table of forms.

use crate::named_modes::{longest_work, modes_of, named_in};
use crate::page_forms::{
    FORMS_1, FORMS_2, FORMS_3, FORMS_4, FORMS_5, FORMS_6, FORMS_7, PageForms, forms_of_named_modes,
};
use crate::page_rows::{PAGE_1, PAGE_2, PAGE_3, PAGE_4, PAGE_5, PAGE_6, PAGE_7};
use modes_core::{Mode, ModeSet, conflicts};
use sql_locks::{Form, FormRow, all_rows};
use std::process::Abort;

/// Whether `told` are the modes of `forms`, but for further modes that keep nobody else waiting, and for
/// those of `apart`.
fn are_modes_of(told: ModeSet, forms: &[Form], apart: &[Mode]) -> bool {
    let modes = modes_of(forms);
    for mode in Mode::ALL {
        if modes.has(mode) && !told.has(mode) {
            return false;
        }
        if told.has(mode) && !says_no_more(mode, modes) && !is_among(mode, apart) {
            return false;
        }
    }
    true
}

/// Whether `mode` keeps nobody waiting whom none of `modes` keeps waiting.
fn says_no_more(mode: Mode, modes: ModeSet) -> bool {
    for other in Mode::ALL {
        if conflicts(mode).has(other) && !conflicts(other).meets(modes) {
            return false;
        }
    }
    true
}

/// Whether `mode` is one of `modes`.
fn is_among(mode: Mode, modes: &[Mode]) -> bool {
    modes.iter().any(|other| other.is_same(mode))
}

/// Whether the row `sql` of docs/POSTGRESQL.md, which says `locks` and `work`, is right for the forms `its`.
fn tells_of(its: &PageForms, sql: &str, locks: &str, work: &str) -> bool {
    its.sql == sql
        && are_modes_of(named_in(locks), its.forms, its.apart)
        && work.contains(longest_work(its.forms))
}

/// A row of the tables of docs/POSTGRESQL.md: its statements, what the row says of locks, and of work.
type PageRow = (&'static str, &'static str, &'static str);

/// The statements of the first of `rows` that is wrong for the forms at its place among `forms`.
fn first_bad(rows: &[PageRow], forms: &[PageForms]) -> Option<&'static str> {
    for (place, (sql, locks, work)) in rows.iter().enumerate() {
        let is_well = match forms.get(place) {
            Some(its) => tells_of(its, *sql, *locks, *work),
            None => false,
        };
        if !is_well {
            return Some(*sql);
        }
    }
    None
}

/// Table 1 of docs/POSTGRESQL.md, and the forms of its rows.
fn table_1() -> (&'static [PageRow], &'static [PageForms]) {
    (&PAGE_1, &FORMS_1)
}

/// Table 2 of docs/POSTGRESQL.md, and the forms of its rows.
fn table_2() -> (&'static [PageRow], &'static [PageForms]) {
    (&PAGE_2, &FORMS_2)
}

/// Table 3 of docs/POSTGRESQL.md, and the forms of its rows.
fn table_3() -> (&'static [PageRow], &'static [PageForms]) {
    (&PAGE_3, &FORMS_3)
}

/// Table 4 of docs/POSTGRESQL.md, and the forms of its rows.
fn table_4() -> (&'static [PageRow], &'static [PageForms]) {
    (&PAGE_4, &FORMS_4)
}

/// Table 5 of docs/POSTGRESQL.md, and the forms of its rows.
fn table_5() -> (&'static [PageRow], &'static [PageForms]) {
    (&PAGE_5, &FORMS_5)
}

/// Table 6 of docs/POSTGRESQL.md, and the forms of its rows.
fn table_6() -> (&'static [PageRow], &'static [PageForms]) {
    (&PAGE_6, &FORMS_6)
}

/// Table 7 of docs/POSTGRESQL.md, and the forms of its rows.
fn table_7() -> (&'static [PageRow], &'static [PageForms]) {
    (&PAGE_7, &FORMS_7)
}

/// All tables of SQL statements of docs/POSTGRESQL.md, with the forms of their rows.
fn tables() -> [(&'static [PageRow], &'static [PageForms]); 7] {
    [
        table_1(),
        table_2(),
        table_3(),
        table_4(),
        table_5(),
        table_6(),
        table_7(),
    ]
}

/// The statement of the first of `rows` whose form is in no row of docs/POSTGRESQL.md, and is none whose mode
/// the statement itself names.
fn first_untold(rows: &'static [FormRow]) -> Option<&'static str> {
    for row in rows {
        if !is_told(row.form) {
            return Some(row.sql);
        }
    }
    None
}

/// Whether `form` is in a row of docs/POSTGRESQL.md, or is one whose mode the statement itself names.
fn is_told(form: Form) -> bool {
    for (_, forms) in tables() {
        if is_in(forms, form) {
            return true;
        }
    }
    has_form(forms_of_named_modes(), form)
}

/// Whether `form` is one of the forms of a row of `rows`.
fn is_in(rows: &[PageForms], form: Form) -> bool {
    rows.iter().any(|row| has_form(row.forms, form))
}

/// Whether `form` is one of `forms`.
pub fn has_form(forms: &[Form], form: Form) -> bool {
    forms.iter().any(|other| *other == form)
}

#[test]
fn the_page_tells_the_modes_and_the_longest_work_of_its_forms(rt: HostRuntime) {
    for (rows, forms) in tables() {
        let bad = first_bad(rows, forms).unwrap_or("");
        assert!(rt; bad == "", "{bad}: not as its forms");
        let (count, of_forms) = (rows.len(), forms.len());
        assert!(rt; count == of_forms, "forms of a row that is not there");
    }
}

#[test]
fn each_form_stands_in_the_page(rt: HostRuntime) {
    let untold = first_untold(all_rows()).unwrap_or("");
    assert!(rt; untold == "", "{untold} is in no row");
}
