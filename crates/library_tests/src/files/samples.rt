//! Good files. In the tables `|` means a line feed and `^` a carriage return.

use crate::comparing::{Cases, bytes_of, compare, shown};
use ee_files::{FileFault, read_inventory, read_rates};
use std::alloc::Global;
use std::fmt::Debug;
use std::test::Fail;

pub const RATES: &str = "from,rate\n2010-05,2.00\n2010-11,3.50%\n";

pub const INVENTORY: &str =
    "serial,denom,issued,owner,coowner\nL1EE,50,2010-11,7,\nK-0002-EE,75,10/2010,7,8\nM3EE,10000,2011-02,7,\n";

/// The rows of `RATES`, as `Debug` shows them.
pub const TWO_RATES: &str =
    "[RateRow { from: IssueMonth { count: 60 }, rates: Rates { fixed: Rate { hundredths: 200 }, extension: Rate { hundredths: 200 } } }, RateRow { from: IssueMonth { count: 66 }, rates: Rates { fixed: Rate { hundredths: 350 }, extension: Rate { hundredths: 350 } } }]";

/// The bonds of `INVENTORY`, as `Debug` shows them.
pub const THREE_BONDS: &str =
    "[Bond { serial: Serial { letter: 12, number: 1 }, denom: Fifty, issued: IssueMonth { count: 66 }, owner: Customer { number: 7 }, coowner: None }, Bond { serial: Serial { letter: 11, number: 2 }, denom: SeventyFive, issued: IssueMonth { count: 65 }, owner: Customer { number: 7 }, coowner: Some(Customer { number: 8 }) }, Bond { serial: Serial { letter: 13, number: 3 }, denom: TenThousand, issued: IssueMonth { count: 69 }, owner: Customer { number: 7 }, coowner: None }]";

/// The rows that were read as `Debug` shows them, or the text of the fault.
pub fn rows_text<T: Debug + Drop>(
    alloc: Global,
    rows: Result<Vec<T>, FileFault>,
) -> Option<String> {
    match rows {
        Ok(rows) => shown(alloc, &rows),
        Err(fault) => fault.to_string(alloc).ok(),
    }
}

/// The result of a file of rates.
pub fn rates_text(alloc: Global, mut file: &[u8]) -> Option<String> {
    rows_text(alloc, read_rates(alloc, &mut file))
}

/// The result of an inventory.
pub fn bonds_text(alloc: Global, mut file: &[u8]) -> Option<String> {
    rows_text(alloc, read_inventory(alloc, &mut file))
}

/// `what` if the text is the known one, and otherwise the text.
pub fn named(alloc: Global, text: String, known: &str, what: &str) -> Option<String> {
    if text.as_str() == known {
        return String::from_str(alloc, what).ok();
    }
    Some(text)
}

/// Files of rates: the sample, files without rows, and the sample as spreadsheets write it: other line ends, no
/// last one, a byte order mark, quotes, empty lines and other spellings; and files with a column of extensions.
const RATE_FILES: &str = "\
from,rate|2010-05,2.00|2010-11,3.50%| => the sample
 => []
|^| => []
\u{feff} => []
from,rate => []
from,rate^| => []
from,rate^|2010-05,2.00^|2010-11,3.50%^| => the sample
from,rate^2010-05,2.00^2010-11,3.50%^ => the sample
from,rate|2010-05,2.00|2010-11,3.50% => the sample
\u{feff}from,rate|2010-05,2.00|2010-11,3.50%| => the sample
\"from\",\"rate\"|\"2010-05\",\"2.00\"|\"2010-11\",\"3.50%\"| => the sample
\u{feff}\"from\",\"rate\"^|\"2010-05\",2.00^|2010-11,\"3.50%\"^| => the sample
||from,rate||2010-05,2.00^|^|^|2010-11,3.50%|| => the sample
from,rate|05/2010,2|11/2010,03.5| => the sample
from,rate,extension|2010-05,2.00,|2010-11,3.50%,3.5| => the sample
from,rate,extension| => []
\"from\",\"rate\",\"extension\"^|2010-05,3.40,\"4%\"^| => [RateRow { from: IssueMonth { count: 60 }, rates: Rates { fixed: Rate { hundredths: 340 }, extension: Rate { hundredths: 400 } } }]
";

struct RateFileCases;

impl Cases for RateFileCases {
    fn answer(alloc: Global, case: &str) -> Option<String> {
        let text = rates_text(alloc, &bytes_of(alloc, case)?)?;
        named(alloc, text, TWO_RATES, "the sample")
    }
}

/// Inventories: the sample, files without rows, another header, and another spelling.
const BOND_FILES: &str = "\
serial,denom,issued,owner,coowner|L1EE,50,2010-11,7,|K-0002-EE,75,10/2010,7,8|M3EE,10000,2011-02,7,| => the sample
 => []
serial,denom,issued,owner,coowner| => []
serial,denom,issued,owner,owner| => row 1 code 70
serial,denom,issued,owner,coowner^|\"C-0012-EE\",\"100\",\"05/2010\",\"007\",\"9\"^| => [Bond { serial: Serial { letter: 3, number: 12 }, denom: Hundred, issued: IssueMonth { count: 60 }, owner: Customer { number: 7 }, coowner: Some(Customer { number: 9 }) }]
";

struct BondFileCases;

impl Cases for BondFileCases {
    fn answer(alloc: Global, case: &str) -> Option<String> {
        let text = bonds_text(alloc, &bytes_of(alloc, case)?)?;
        named(alloc, text, THREE_BONDS, "the sample")
    }
}

#[test]
fn files_give_their_rows(rt: HostRuntime) -> Result<(), Fail> {
    compare::<RateFileCases>(&rt, rt.alloc(), RATE_FILES)?;
    compare::<BondFileCases>(&rt, rt.alloc(), BOND_FILES)
}
