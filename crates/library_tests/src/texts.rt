//! The text of each act and of each shape of reply, and texts that are none. The expected texts are
//! written by hand from the rules for texts.

use crate::comparing::{Cases, assert_same, compare, shown};
use ee_desk_texts::{canonical, read_act, read_reply, reply_text};
use std::alloc::Global;
use std::fmt::Debug;
use std::test::Fail;

/// The canonical text of each act, and the act as `Debug` shows it.
const ACTS: &str =
    r#"{"act":"rates","rates":[{"from":"2010-05","rate":"2.00%"},{"from":"2010-11","rate":"3.50%"}]} => AddRates(Rows { items: [RateRow { from: IssueMonth { count: 60 }, rates: Rates { fixed: Rate { hundredths: 200 }, extension: Rate { hundredths: 200 } } }, RateRow { from: IssueMonth { count: 66 }, rates: Rates { fixed: Rate { hundredths: 350 }, extension: Rate { hundredths: 350 } } }] })
{"act":"rates","rates":[{"extension":"4.00%","from":"2010-05","rate":"3.40%"}]} => AddRates(Rows { items: [RateRow { from: IssueMonth { count: 60 }, rates: Rates { fixed: Rate { hundredths: 340 }, extension: Rate { hundredths: 400 } } }] })
{"act":"bonds","bonds":[{"denom":50,"issued":"2010-11","owner":7,"serial":"L1EE"},{"coowner":8,"denom":75,"issued":"2010-10","owner":7,"serial":"K2EE"},{"denom":10000,"issued":"2011-02","owner":7,"serial":"M3EE"}]} => AddBonds(Rows { items: [Bond { serial: Serial { letter: 12, number: 1 }, denom: Fifty, issued: IssueMonth { count: 66 }, owner: Customer { number: 7 }, coowner: None }, Bond { serial: Serial { letter: 11, number: 2 }, denom: SeventyFive, issued: IssueMonth { count: 65 }, owner: Customer { number: 7 }, coowner: Some(Customer { number: 8 }) }, Bond { serial: Serial { letter: 13, number: 3 }, denom: TenThousand, issued: IssueMonth { count: 69 }, owner: Customer { number: 7 }, coowner: None }] })
{"act":"open","day":"2012-02-06"} => OpenDay(Day { count: 15376 })
{"act":"redeem","day":"2012-02-06","payee":7,"serials":["L1EE","K2EE","M3EE"]} => Redeem { day: Day { count: 15376 }, payee: Customer { number: 7 }, serials: Rows { items: [Serial { letter: 12, number: 1 }, Serial { letter: 11, number: 2 }, Serial { letter: 13, number: 3 }] } }
{"act":"redeem","day":"2012-02-06","payee":999999999,"serials":[]} => Redeem { day: Day { count: 15376 }, payee: Customer { number: 999999999 }, serials: Rows { items: [] } }
{"act":"close","day":"2012-02-06"} => CloseDay(Day { count: 15376 })
"#;

/// A value as `Debug` prints it, and its text if that differs from the text that was read.
fn read_back<T: Debug>(alloc: Global, value: &T, text: &str, from: &str) -> Option<String> {
    if text == from {
        return shown(alloc, value);
    }
    format!(in alloc; "{value:?}, written {text}").ok()
}

struct ActCases;

impl Cases for ActCases {
    fn answer(alloc: Global, case: &str) -> Option<String> {
        let Some(act) = read_act(alloc, case).ok()? else {
            return String::from_str(alloc, "none").ok();
        };
        let text = canonical(alloc, &act).ok()?;
        read_back(alloc, &act, text.as_str(), case)
    }
}

#[test]
fn texts_of_acts(rt: HostRuntime) -> Result<(), Fail> {
    compare::<ActCases>(&rt, rt.alloc(), ACTS)
}

/// The text of each shape of reply and of each refusal, and the reply as `Debug` shows it.
const REPLIES: &str = r#"{"new":2,"same":0} => Added { new: 2, same: 0 }
{"opened":"2012-02-06"} => Opened(Day { count: 15376 })
{"day":"2012-02-06","lines":[{"paid":"25.88","serial":"L1EE"},{"paid":"38.34","serial":"K2EE"},{"paid":"5132.00","serial":"M3EE"}],"payee":7,"ticket":1,"total":"5196.22"} => Ticket(Ticket { ticket: 1, day: Day { count: 15376 }, payee: Customer { number: 7 }, lines: Rows { items: [Line { serial: Serial { letter: 12, number: 1 }, cents: Cents(2588) }, Line { serial: Serial { letter: 11, number: 2 }, cents: Cents(3834) }, Line { serial: Serial { letter: 13, number: 3 }, cents: Cents(513200) }] }, total: Cents(519622) })
{"day":"2012-02-06","lines":[],"payee":7,"ticket":1,"total":"0.00"} => Ticket(Ticket { ticket: 1, day: Day { count: 15376 }, payee: Customer { number: 7 }, lines: Rows { items: [] }, total: Cents(0) })
{"bonds":3,"day":"2012-02-06","tickets":1,"total":"5196.22"} => Batch(Batch { day: Day { count: 15376 }, tickets: 1, bonds: 3, total: Cents(519622) })
{"bonds":0,"day":"2012-02-07","tickets":0,"total":"0.00"} => Batch(Batch { day: Day { count: 15377 }, tickets: 0, bonds: 0, total: Cents(0) })
{"bonds":100000,"day":"2012-02-06","tickets":1000,"total":"184467440737095516.15"} => Batch(Batch { day: Day { count: 15376 }, tickets: 1000, bonds: 100000, total: Cents(18446744073709551615) })
{"code":10,"refused":"NumberReused"} => Refused(NumberReused)
{"code":11,"refused":"Empty"} => Refused(Empty)
{"code":12,"refused":"TooMany"} => Refused(TooMany)
{"code":13,"refused":"Repeated","serial":"C12EE"} => Refused(Repeated(Serial { letter: 3, number: 12 }))
{"code":14,"refused":"SameCoowner","serial":"L1EE"} => Refused(SameCoowner(Serial { letter: 12, number: 1 }))
{"code":20,"month":"2010-06","refused":"NotAnnouncementMonth"} => Refused(NotAnnouncementMonth(IssueMonth { count: 61 }))
{"code":21,"month":"2010-05","refused":"RateConflict"} => Refused(RateConflict(IssueMonth { count: 60 }))
{"code":22,"month":7,"refused":"RateUnsettled"} => Refused(RateUnsettled(Age { months: 7 }))
{"code":30,"refused":"NoRate","serial":"L1EE"} => Refused(NoRate(Serial { letter: 12, number: 1 }))
{"code":31,"refused":"SerialConflict","serial":"K2EE"} => Refused(SerialConflict(Serial { letter: 11, number: 2 }))
{"code":40,"refused":"DayOpen"} => Refused(DayOpen)
{"code":41,"refused":"DayNotLater"} => Refused(DayNotLater)
{"code":42,"refused":"NoOpenDay"} => Refused(NoOpenDay)
{"code":43,"refused":"DayIsOther"} => Refused(DayIsOther)
{"code":44,"refused":"DayFull"} => Refused(DayFull)
{"code":50,"refused":"UnknownSerial","serial":"L1EE"} => Refused(UnknownSerial(Serial { letter: 12, number: 1 }))
{"code":51,"refused":"NotPayee","serial":"N4EE"} => Refused(NotPayee(Serial { letter: 14, number: 4 }))
{"code":52,"refused":"AlreadyPaid","serial":"L1EE","ticket":1} => Refused(AlreadyPaid(Serial { letter: 12, number: 1 }, 1))
{"code":53,"refused":"NotIssued","serial":"L1EE"} => Refused(NotIssued(Serial { letter: 12, number: 1 }))
{"code":54,"refused":"NotEligible","serial":"L1EE"} => Refused(NotEligible(Serial { letter: 12, number: 1 }))
"#;

struct ReplyCases;

impl Cases for ReplyCases {
    fn answer(alloc: Global, case: &str) -> Option<String> {
        let Some(reply) = read_reply(alloc, case).ok()? else {
            return String::from_str(alloc, "none").ok();
        };
        let text = reply_text(alloc, &reply).ok()?;
        read_back(alloc, &reply, text.as_str(), case)
    }
}

#[test]
fn texts_of_replies(rt: HostRuntime) -> Result<(), Fail> {
    compare::<ReplyCases>(&rt, rt.alloc(), REPLIES)
}

/// Texts of no act, each on a line; the first is empty.
const NO_ACTS: &str = r#" => none
null => none
[] => none
{"day":"2012-02-06"} => none
{"act":"pay","day":"2012-02-06"} => none
{"act": "open","day":"2012-02-06"} => none
{"day":"2012-02-06","act":"open"} => none
{"act":"open","act":"open","day":"2012-02-06"} => none
{"act":"open","day":"2012-02-06","x":0} => none
{"act":"open","day":"2012-02-30"} => none
{"act":"open","day":"\u0032012-02-06"} => none
{"act":"redeem","day":"2012-02-06","payee":7,"serials":["L01EE"]} => none
{"act":"redeem","day":"2012-02-06","payee":7,"serials":["L-1-EE"]} => none
{"act":"redeem","day":"2012-02-06","payee":"7","serials":["L1EE"]} => none
{"act":"redeem","day":"2012-02-06","payee":7.0,"serials":["L1EE"]} => none
{"act":"redeem","day":"2012-02-06","payee":4294967303,"serials":["L1EE"]} => none
{"act":"redeem","day":"2012-02-06","payee":07,"serials":["L1EE"]} => none
{"act":"redeem","day":"2012-02-06","payee":7,"serials":["L1EE"]}} => none
{"act":"redeem","day":"2012-02-06","payee":7,"serials":["L1EE", "K2EE"]} => none
{"act":"rates","rates":[{"from":"2010-05","rate":"2.00"}]} => none
{"act":"rates","rates":[{"from":"05/2010","rate":"2.00%"}]} => none
{"act":"rates","rates":[{"from":"2010-05","rate":"2.00%","x":0}]} => none
{"act":"rates","rates":[{"extension":"3.40%","from":"2010-05","rate":"3.40%"}]} => none
{"act":"rates","rates":[{"extension":"4.00","from":"2010-05","rate":"3.40%"}]} => none
{"act":"rates","rates":[{"extension":"20.01%","from":"2010-05","rate":"3.40%"}]} => none
{"act":"rates","rates":[{"extension":null,"from":"2010-05","rate":"3.40%"}]} => none
{"act":"rates","rates":[{"extension":4,"from":"2010-05","rate":"3.40%"}]} => none
{"act":"rates","rates":[{"from":"2010-05","extension":"4.00%","rate":"3.40%"}]} => none
{"act":"rates","rates":[{"from":"2010-05","rate":"3.40%","extension":"4.00%"}]} => none
{"act":"bonds","bonds":[{"denom":51,"issued":"2010-11","owner":7,"serial":"L1EE"}]} => none
{"act":"bonds","bonds":[{"coowner":null,"denom":50,"issued":"2010-11","owner":7,"serial":"L1EE"}]} => none
"#;

#[test]
fn other_texts_are_of_no_act(rt: HostRuntime) -> Result<(), Fail> {
    let ended = ActCases::answer(rt.alloc(), "{\"act\":\"open\",\"day\":\"2012-02-06\"}\n").ok_or(
        "no answer",
    )?;
    assert_same(&rt, ended.as_str(), "none", "a line's end");
    compare::<ActCases>(&rt, rt.alloc(), NO_ACTS)
}

/// Texts of no reply, each on a line; the first is empty.
const NO_REPLIES: &str = r#" => none
{} => none
{"new":2, "same":0} => none
{"new":2,"same":0}  => none
{"same":0,"new":2} => none
{"new":2,"same":0,"x":0} => none
{"new":"2","same":0} => none
{"bonds":0,"day":"2012-02-07","tickets":0,"total":"00.00"} => none
{"bonds":0,"day":"2012-02-07","tickets":0,"total":"0.0"} => none
{"bonds":0,"day":"2012-02-07","tickets":0,"total":"184467440737095516.16"} => none
{"day":"2012-02-06","lines":[{"paid":"025.88","serial":"L1EE"}],"payee":7,"ticket":1,"total":"25.88"} => none
{"day":"2012-02-06","lines":[{"paid":"25.88","serial":"L-1-EE"}],"payee":7,"ticket":1,"total":"25.88"} => none
{"day":"2012-02-06","lines":[{"paid":"25.88","serial":"L1EE"}],"payee":07,"ticket":1,"total":"25.88"} => none
{"day":"2012-02-06","lines":[{"paid":"25.88","serial":"L1EE"}],"payee":7,"ticket":01,"total":"25.88"} => none
{"day":"2012-02-06","lines":[{"paid":"25.88","serial":"L1EE"}],"payee":7,"ticket":1,"total":"25.88"}x => none
{"code":11,"refused":"TooMany"} => none
{"code":30,"refused":"NoRate"} => none
{"code":51,"refused":"NotPayee","serial":"N04EE"} => none
{"code":52,"refused":"AlreadyPaid","serial":"L1EE"} => none
{"code":69,"fault":"NotFound"} => none
"#;

#[test]
fn other_texts_are_of_no_reply(rt: HostRuntime) -> Result<(), Fail> {
    compare::<ReplyCases>(&rt, rt.alloc(), NO_REPLIES)
}
