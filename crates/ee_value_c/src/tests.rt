use crate::{
    ValueQuestion, ValueRow, ee_value_cents, ee_value_row, ee_value_row_into, ee_value_rows,
    ee_value_status_text, ee_value_version,
};

const NOTHING: ValueRow = ValueRow {
    payable_cents: 0,
    price_cents: 0,
    interest_cents: 0,
    value_cents: 0,
    status: 0,
    note: 0,
    next_accrual: 0,
    final_maturity: 0,
};

/// The numbers of a row, in the order of its fields.
fn numbers(row: &ValueRow) -> [u64; 8] {
    [
        row.payable_cents,
        row.price_cents,
        row.interest_cents,
        row.value_cents,
        u64::from(row.status),
        u64::from(row.note),
        u64::from(row.next_accrual),
        u64::from(row.final_maturity),
    ]
}

/// Whether a row describes a 50-dollar bond of May 2010 at 3.40 % and then 4.00 %, in November 2030.
fn is_extended(row: &ValueRow) -> bool {
    numbers(row) == [5100, 2500, 2600, 5100, 0, 0, 203012, 204005]
}

/// Whether a row refuses its value month.
fn is_of_bad_month(row: &ValueRow) -> bool {
    numbers(row) == [0, 0, 0, 0, 3, 0, 0, 0]
}

#[test]
fn pays_in_cents(rt: HostRuntime) {
    assert!(rt; ee_value_cents(50, 201005, 201505, 350, 350) == 2974);
    assert!(rt; ee_value_cents(50, 201005, 203011, 340, 400) == 5100);
    assert!(rt; ee_value_cents(50, 201005, 201105, 350, 350) == 2566);
    assert!(rt; ee_value_cents(50, 201005, 201104, 350, 350) == -7);
    assert!(rt; ee_value_cents(50, 201005, 201513, 350, 350) == -3);
    assert!(rt; ee_value_cents(51, 201005, 201505, 2001, 350) == -1);
    assert!(rt; ee_value_cents(50, 201005, 201505, 350, 2001) == -5);
}

#[test]
fn shows_rows(rt: HostRuntime) {
    assert!(rt; is_extended(&ee_value_row(50, 201005, 203011, 340, 400)));
    let mut row = NOTHING;
    assert!(rt; ee_value_row_into(50, 201005, 203011, 340, 400, &mut row) == 0);
    assert!(rt; is_extended(&row));
    assert!(rt; ee_value_row(50, 201005, 201104, 350, 350).payable_cents == 0);
}

#[test]
fn writes_rows(rt: HostRuntime) {
    let asked = ValueQuestion {
        dollars: 50,
        issued: 201005,
        month: 203011,
        rate: 340,
        extension: 400,
    };
    let refused = ValueQuestion { month: 0, ..asked };
    let mut rows = [NOTHING; 2];
    assert!(rt; ee_value_rows(&[asked, refused, asked], &mut rows) == 2);
    assert!(rt; is_extended(&rows[0]) && is_of_bad_month(&rows[1]));
}

#[test]
fn writes_texts(rt: HostRuntime) {
    let mut buffer = [120u8; 6];
    assert!(rt; ee_value_status_text(0, &mut buffer) == 4);
    assert!(rt; buffer == *b"done\0x");
    assert!(rt; ee_value_status_text(4, &mut buffer) == 28);
    assert!(rt; buffer == *b"the r\0");
    let mut whole = [120u8; 44];
    assert!(rt; ee_value_status_text(3, &mut whole) == 43);
    assert!(rt; whole == *b"the month is no month from 200505 to 219912\0");
    assert!(rt; ee_value_version() == 10000);
}
