//! Stores of version 1, which kept replies under a number alone: they become stores of version 2 as they are opened, with the
//! same rows, and each number is one of the first desk. Those that were made before extensions could be named have seven
//! tables.

use crate::answering::{assert_answers, has_rows, in_memory, refused};
use crate::comparing::{add, parts};
use crate::five_requests::FIVE;
use sqlite::{Alter, Connection, MemStore};
use std::alloc::Global;
use std::io::Eprint;
use std::process::Abort;

/// Makes the seven tables.
pub const SEVEN_TABLES: &str = "\
CREATE TABLE desk (id INTEGER NOT NULL PRIMARY KEY, version INTEGER NOT NULL, day INTEGER, last_day INTEGER) STRICT;
CREATE TABLE rates (period INTEGER NOT NULL PRIMARY KEY, rate INTEGER NOT NULL) STRICT;
CREATE TABLE bonds (letter INTEGER NOT NULL, number INTEGER NOT NULL, denom INTEGER NOT NULL, issued INTEGER NOT NULL, owner INTEGER NOT NULL, coowner INTEGER, ticket INTEGER, PRIMARY KEY (letter, number)) STRICT;
CREATE INDEX bonds_owner ON bonds (owner, letter, number);
CREATE TABLE tickets (ticket INTEGER NOT NULL PRIMARY KEY, day INTEGER NOT NULL, payee INTEGER NOT NULL, bonds INTEGER NOT NULL, total INTEGER NOT NULL) STRICT;
CREATE INDEX tickets_day ON tickets (day, ticket);
CREATE TABLE paid (ticket INTEGER NOT NULL, place INTEGER NOT NULL, letter INTEGER NOT NULL, number INTEGER NOT NULL, cents INTEGER NOT NULL, PRIMARY KEY (ticket, place), UNIQUE (letter, number)) STRICT;
CREATE TABLE batches (day INTEGER NOT NULL PRIMARY KEY, tickets INTEGER NOT NULL, bonds INTEGER NOT NULL, total INTEGER NOT NULL) STRICT;
CREATE TABLE replies (number INTEGER NOT NULL PRIMARY KEY, act TEXT NOT NULL, reply TEXT NOT NULL) STRICT;
";

/// Makes the table of extensions, the last of version 1.
pub const EXTENSIONS: &str =
    "CREATE TABLE extensions (period INTEGER NOT NULL PRIMARY KEY, rate INTEGER NOT NULL) STRICT;";

/// Makes the table of version 2 that is in the place of `replies`.
pub const ANSWERS: &str =
    "CREATE TABLE answers (desk INTEGER NOT NULL, number INTEGER NOT NULL, act TEXT NOT NULL, reply TEXT NOT NULL, PRIMARY KEY (desk, number)) STRICT;";

/// The rows of the five requests of a day.
const ROWS: &str = r#"INSERT INTO desk VALUES (1, 1, NULL, 15376);
INSERT INTO rates VALUES (60, 200), (66, 350);
INSERT INTO bonds VALUES (11, 2, 75, 65, 7, 8, 1), (12, 1, 50, 66, 7, NULL, 1), (13, 3, 10000, 69, 7, NULL, 1);
INSERT INTO tickets VALUES (1, 15376, 7, 3, 519622);
INSERT INTO paid VALUES (1, 1, 12, 1, 2588), (1, 2, 11, 2, 3834), (1, 3, 13, 3, 513200);
INSERT INTO batches VALUES (15376, 1, 3, 519622);
INSERT INTO replies VALUES (1, '{"act":"rates","rates":[{"from":"2010-05","rate":"2.00%"},{"from":"2010-11","rate":"3.50%"}]}', '{"new":2,"same":0}');
INSERT INTO replies VALUES (2, '{"act":"bonds","bonds":[{"denom":50,"issued":"2010-11","owner":7,"serial":"L1EE"},{"coowner":8,"denom":75,"issued":"2010-10","owner":7,"serial":"K2EE"},{"denom":10000,"issued":"2011-02","owner":7,"serial":"M3EE"}]}', '{"new":3,"same":0}');
INSERT INTO replies VALUES (3, '{"act":"open","day":"2012-02-06"}', '{"opened":"2012-02-06"}');
INSERT INTO replies VALUES (4, '{"act":"redeem","day":"2012-02-06","payee":7,"serials":["L1EE","K2EE","M3EE"]}', '{"day":"2012-02-06","lines":[{"paid":"25.88","serial":"L1EE"},{"paid":"38.34","serial":"K2EE"},{"paid":"5132.00","serial":"M3EE"}],"payee":7,"ticket":1,"total":"5196.22"}');
INSERT INTO replies VALUES (5, '{"act":"close","day":"2012-02-06"}', '{"bonds":3,"day":"2012-02-06","tickets":1,"total":"5196.22"}');
"#;

/// The rows of a sixth request, which enters an extension.
const EXTENDED_ROWS: &str = r#"INSERT INTO rates VALUES (72, 340);
INSERT INTO extensions VALUES (72, 400);
INSERT INTO replies VALUES (6, '{"act":"rates","rates":[{"extension":"4.00%","from":"2011-05","rate":"3.40%"}]}', '{"new":1,"same":0}');
"#;

/// An extension that is entered under a new number.
pub const NAMED: &str =
    r#"> POST /rates {"number":6,"rates":[{"from":"2011-05","rate":"3.40","extension":"4.00"}]}
200 {"new":1,"same":0}
"#;

/// What is shown of it, and of terms that have none.
pub const SHOWN: &str =
    r#"> POST /rates {"number":6,"rates":[{"from":"2011-05","rate":"3.40","extension":"4.00"}]}
200 {"new":1,"same":0}
> GET /value/50/2011-05/2031-04
200 {"denom":50,"final":"2041-05","interest":"23.90","issued":"2011-05","next":"2031-05","note":"","price":"25.00","rate":"3.40%","value":"48.90"}
> GET /value/50/2011-05/2031-11
200 {"denom":50,"final":"2041-05","interest":"26.00","issued":"2011-05","next":"2031-12","note":"","price":"25.00","rate":"4.00%","value":"51.00"}
> GET /value/50/2010-11/2012-02
200 {"denom":50,"final":"2040-11","interest":"0.88","issued":"2010-11","next":"2012-03","note":"P5","price":"25.00","rate":"3.50%","value":"25.88"}
"#;

/// A number that is used again at the first desk, and the same number at the second desk, where it is new, twice.
pub const OTHER: &str =
    r#"> POST /redeem {"number":4,"day":"2012-02-06","payee":7,"serials":["L1EE"]}
409 {"code":10,"refused":"NumberReused"}
> POST /redeem {"desk":1,"number":4,"day":"2012-02-06","payee":7,"serials":["L1EE","K2EE","M3EE"]}
409 {"code":42,"refused":"NoOpenDay"}
> POST /redeem {"desk":1,"number":4,"day":"2012-02-06","payee":7,"serials":["L1EE","K2EE","M3EE"]}
409 {"code":42,"refused":"NoOpenDay"}
> POST /redeem {"desk":0,"number":4,"day":"2012-02-06","payee":7,"serials":["L1EE","K2EE","M3EE"]}
200 {"day":"2012-02-06","lines":[{"paid":"25.88","serial":"L1EE"},{"paid":"38.34","serial":"K2EE"},{"paid":"5132.00","serial":"M3EE"}],"payee":7,"ticket":1,"total":"5196.22"}
"#;

/// A store of version 1 with the rows of a day.
#[derive(Clone, Copy, Debug, PartialEq, Eq)]
pub enum Earlier {
    /// Seven tables, and no table of extensions.
    Seven,
    /// With an empty one.
    Eight,
    /// With an extension in it.
    Extended,
}

/// The stores of version 1.
const EACH: [Earlier; 3] = [Earlier::Seven, Earlier::Eight, Earlier::Extended];

pub fn make_earlier<S: Alter>(rt: &impl Abort, conn: &mut Connection<S>, earlier: Earlier) {
    conn.execute_batch(SEVEN_TABLES).expect(rt, "seven tables");
    if earlier != Earlier::Seven {
        conn.execute_batch(EXTENSIONS).expect(rt, "extensions");
    }
    conn.execute_batch(ROWS).expect(rt, "rows");
    if earlier == Earlier::Extended {
        conn.execute_batch(EXTENDED_ROWS).expect(rt, "an extension");
    }
}

/// An earlier store in memory.
fn earlier_in_memory(rt: &impl Abort, alloc: Global, earlier: Earlier) -> Connection<MemStore> {
    let mut conn = in_memory(rt, alloc);
    make_earlier(rt, &mut conn, earlier);
    conn
}

/// The lines for the day's rates, and for all rows from the bonds to the batches.
const RATES: &str = "\
rates 60 200
rates 66 350
";

const PAYMENTS: &str = "\
bonds 11 2 75 65 7 8 1
bonds 12 1 50 66 7 - 1
bonds 13 3 10000 69 7 - 1
tickets 1 15376 7 3 519622
paid 1 1 12 1 2588
paid 1 2 11 2 3834
paid 1 3 13 3 513200
batches 15376 1 3 519622
";

/// The numbers of the day's requests, with their acts and replies.
const REPLIES: &str =
    r#"1 {"act":"rates","rates":[{"from":"2010-05","rate":"2.00%"},{"from":"2010-11","rate":"3.50%"}]} {"new":2,"same":0}
2 {"act":"bonds","bonds":[{"denom":50,"issued":"2010-11","owner":7,"serial":"L1EE"},{"coowner":8,"denom":75,"issued":"2010-10","owner":7,"serial":"K2EE"},{"denom":10000,"issued":"2011-02","owner":7,"serial":"M3EE"}]} {"new":3,"same":0}
3 {"act":"open","day":"2012-02-06"} {"opened":"2012-02-06"}
4 {"act":"redeem","day":"2012-02-06","payee":7,"serials":["L1EE","K2EE","M3EE"]} {"day":"2012-02-06","lines":[{"paid":"25.88","serial":"L1EE"},{"paid":"38.34","serial":"K2EE"},{"paid":"5132.00","serial":"M3EE"}],"payee":7,"ticket":1,"total":"5196.22"}
5 {"act":"close","day":"2012-02-06"} {"bonds":3,"day":"2012-02-06","tickets":1,"total":"5196.22"}
"#;

/// What an extension adds to them.
const NEW_RATE: &str = "rates 72 340\n";

const NEW_REPLY: &str =
    r#"6 {"act":"rates","rates":[{"extension":"4.00%","from":"2011-05","rate":"3.40%"}]} {"new":1,"same":0}"#;

const NEW_EXTENSION: &str = "extensions 72 400\n";

/// What the second desk adds.
const NEW_ANSWER: &str =
    r#"answers 1 4 {"act":"redeem","day":"2012-02-06","payee":7,"serials":["L1EE","K2EE","M3EE"]} {"code":42,"refused":"NoOpenDay"}"#;

/// Adds lines, each after that word.
fn add_lines(rt: &impl Abort, text: &mut String, word: &str, lines: &str) {
    for line in lines.lines() {
        add(rt, text, word);
        add(rt, text, line);
        add(rt, text, "\n");
    }
}

/// Adds the rates of a store with an extension, or without one, and the rows from the bonds to the batches.
fn add_rates_and_payments(rt: &impl Abort, text: &mut String, is_extended: bool) {
    add(rt, text, RATES);
    add(rt, text, if is_extended { NEW_RATE } else { "" });
    add(rt, text, PAYMENTS);
}

/// Adds the replies of a store with an extension, or without one.
fn add_replies(rt: &impl Abort, text: &mut String, is_extended: bool, word: &str) {
    add_lines(rt, text, word, REPLIES);
    add_lines(rt, text, word, if is_extended { NEW_REPLY } else { "" });
}

/// The lines for the extensions of an earlier store.
const fn extensions_before(earlier: Earlier) -> &'static str {
    match earlier {
        Earlier::Seven => "extensions is missing\n",
        Earlier::Eight => "",
        Earlier::Extended => NEW_EXTENSION,
    }
}

/// The lines for the rows of an earlier store, before it is opened.
pub fn rows_before(rt: &impl Abort, alloc: Global, earlier: Earlier) -> String {
    let is_extended = earlier == Earlier::Extended;
    let mut text = String::new(alloc);
    add(rt, &mut text, "desk 1 1 - 15376\n");
    add_rates_and_payments(rt, &mut text, is_extended);
    add_replies(rt, &mut text, is_extended, "replies ");
    add(rt, &mut text, extensions_before(earlier));
    add(rt, &mut text, "answers is missing\n");
    text
}

/// The rows that it has in version 2: with the extension or without it, and with the second desk's reply or without it.
pub fn rows_after(rt: &impl Abort, alloc: Global, is_extended: bool, has_other: bool) -> String {
    let mut text = String::new(alloc);
    add(rt, &mut text, "desk 1 2 - 15376\n");
    add_rates_and_payments(rt, &mut text, is_extended);
    add(rt, &mut text, "replies is missing\n");
    add(rt, &mut text, if is_extended { NEW_EXTENSION } else { "" });
    add_replies(rt, &mut text, is_extended, "answers 0 ");
    add_lines(rt, &mut text, "", if has_other { NEW_ANSWER } else { "" });
    text
}

/// The result of a talk over a store is the talk; its rows then are those of version 2.
fn goes_on(
    rt: &(impl Abort + Eprint),
    alloc: Global,
    conn: Connection<MemStore>,
    talk: &str,
    is_extended: bool,
    has_other: bool,
) -> Connection<MemStore> {
    let mut conn = assert_answers(rt, alloc, conn, talk, talk, "a talk");
    let rows = rows_after(rt, alloc, is_extended, has_other);
    has_rows(rt, alloc, &mut conn, rows.as_str(), talk);
    conn
}

/// An earlier store is opened, and opened again for each talk.
fn is_opened(rt: &(impl Abort + Eprint), alloc: Global, earlier: Earlier) {
    let is_extended = earlier == Earlier::Extended;
    let mut conn = earlier_in_memory(rt, alloc, earlier);
    let before = rows_before(rt, alloc, earlier);
    has_rows(rt, alloc, &mut conn, before.as_str(), "before");
    conn = goes_on(rt, alloc, conn, "", is_extended, false);
    conn = goes_on(rt, alloc, conn, FIVE, is_extended, false);
    conn = goes_on(rt, alloc, conn, OTHER, is_extended, true);
    conn = goes_on(rt, alloc, conn, FIVE, is_extended, true);
    conn = goes_on(rt, alloc, conn, OTHER, is_extended, true);
    conn = goes_on(rt, alloc, conn, NAMED, true, true);
    let _conn = goes_on(rt, alloc, conn, SHOWN, true, true);
}

/// It has its rows in version 2 once it is opened, and gives each number of the first desk its first reply, whatever the
/// second desk does under the same number; when it is opened again too.
#[test]
fn an_earlier_store_is_opened(rt: HostRuntime) {
    for earlier in EACH {
        is_opened(&rt, rt.alloc(), earlier);
    }
}

/// Changes to an earlier store, and why it is then refused: rows that represent no books, other versions, the
/// table of version 2 and other tables beside its own, one table missing, one created again after the others, and
/// a desk without its row.
const CHANGES: &str = r#"UPDATE paid SET cents = 2589 WHERE place = 1 => Unusable
UPDATE replies SET reply = '{"code":10,"refused":"NumberReused"}' WHERE number = 3 => Unusable
UPDATE replies SET act = '{"act":"open"}' WHERE number = 3 => Unusable
UPDATE replies SET number = 0 WHERE number = 3 => Unusable
UPDATE desk SET version = 0 => WrongVersion
UPDATE desk SET version = 2 => Unusable
UPDATE desk SET version = 3 => WrongVersion
CREATE TABLE answers (desk INTEGER NOT NULL, number INTEGER NOT NULL, act TEXT NOT NULL, reply TEXT NOT NULL, PRIMARY KEY (desk, number)) STRICT => Unusable
CREATE TABLE answers (note TEXT) => Unusable
CREATE VIEW answers AS SELECT number FROM replies => Unusable
CREATE TABLE notes (note TEXT) => Unusable
CREATE INDEX replies_act ON replies (act) => Unusable
CREATE TABLE notes (note TEXT); UPDATE desk SET version = 3 => WrongVersion
DROP TABLE batches => Unusable
DROP TABLE rates; CREATE TABLE rates (period INTEGER NOT NULL PRIMARY KEY, rate INTEGER NOT NULL) STRICT; INSERT INTO rates VALUES (60, 200), (66, 350) => Unusable
DELETE FROM desk => Unusable
"#;

/// Changes of one that has the table of extensions.
const EXTENSION_CHANGES: &str = "\
INSERT INTO extensions VALUES (75, 400) => Unusable
INSERT INTO extensions VALUES (60, 200) => Unusable
INSERT INTO extensions VALUES (60, 2001) => Unusable
";

/// Each change of an earlier store by itself: it is refused, and has all its rows then.
fn are_refused(rt: &(impl Abort + Eprint), alloc: Global, earlier: Earlier, changes: &str) {
    for case in changes.lines() {
        let (statements, fault) = parts(rt, case);
        let conn = earlier_in_memory(rt, alloc, earlier);
        let _conn = refused(rt, alloc, conn, statements, fault);
    }
}

#[test]
fn a_changed_earlier_store_is_refused(rt: HostRuntime) {
    for earlier in EACH {
        are_refused(&rt, rt.alloc(), earlier, CHANGES);
    }
    are_refused(&rt, rt.alloc(), Earlier::Eight, EXTENSION_CHANGES);
    are_refused(&rt, rt.alloc(), Earlier::Extended, EXTENSION_CHANGES);
}
