//! Tests of what messages ask for.

use crate::comparing::{Cases, add_times, compare, compare_refused, shown};
use ee_wire_calls::{WireFault, decode};
use std::alloc::Global;
use std::test::Fail;

/// What a message asks for, as `Debug` shows it; of a fault its code and its field or name.
fn call_text(alloc: Global, path: &str, method: &str, body: &str) -> Option<String> {
    match decode(alloc, path.as_bytes(), method.as_bytes(), body.as_bytes()) {
        Ok(call) => shown(alloc, &call),
        Err(fault) => fault_text(alloc, fault),
    }
}

fn fault_text(alloc: Global, fault: WireFault) -> Option<String> {
    let name = match fault {
        WireFault::BadField(field) => field.name(),
        _ => fault.name(),
    };
    format!(in alloc; "{} {name}", fault.code()).ok()
}

/// Messages `METHOD PATH BODY`.
struct CallCases;

impl Cases for CallCases {
    fn answer(alloc: Global, case: &str) -> Option<String> {
        let (method, rest) = case.split_once(' ')?;
        let (path, body) = rest.split_once(' ')?;
        call_text(alloc, path, method, body)
    }
}

/// What bodies ask for, or their first fault: bodies that are read, the last of a repeated key, desks, no JSON, no
/// object, the desk and then the number before all other fields, then the fields in the order of the table, and
/// then any other field. Another field of a row comes before later rows, and before other fields of the body.
const BODIES: &str =
    r#"POST /rates {"number":1,"rates":[{"from":"2010-11","rate":"3.50"}]} => Request(Request { desk: Desk { number: 0 }, number: Number { value: 1 }, act: AddRates(Rows { items: [RateRow { from: IssueMonth { count: 66 }, rates: Rates { fixed: Rate { hundredths: 350 }, extension: Rate { hundredths: 350 } } }] }) })
POST /rates {"rates":[{"rate":"2%","from":"05/2010"}],"number":1} => Request(Request { desk: Desk { number: 0 }, number: Number { value: 1 }, act: AddRates(Rows { items: [RateRow { from: IssueMonth { count: 60 }, rates: Rates { fixed: Rate { hundredths: 200 }, extension: Rate { hundredths: 200 } } }] }) })
POST /rates {"number":1,"rates":[{"from":"2010-05","rate":"3.40","extension":"4%"}]} => Request(Request { desk: Desk { number: 0 }, number: Number { value: 1 }, act: AddRates(Rows { items: [RateRow { from: IssueMonth { count: 60 }, rates: Rates { fixed: Rate { hundredths: 340 }, extension: Rate { hundredths: 400 } } }] }) })
POST /rates {"number":1,"rates":[{"extension":null,"from":"2010-11","rate":"3.50"}]} => Request(Request { desk: Desk { number: 0 }, number: Number { value: 1 }, act: AddRates(Rows { items: [RateRow { from: IssueMonth { count: 66 }, rates: Rates { fixed: Rate { hundredths: 350 }, extension: Rate { hundredths: 350 } } }] }) })
POST /rates {"number":1,"rates":[{"extension":"3.50%","from":"2010-11","rate":"3.50"}]} => Request(Request { desk: Desk { number: 0 }, number: Number { value: 1 }, act: AddRates(Rows { items: [RateRow { from: IssueMonth { count: 66 }, rates: Rates { fixed: Rate { hundredths: 350 }, extension: Rate { hundredths: 350 } } }] }) })
POST /rates {"number":1,"rates":[]} => Request(Request { desk: Desk { number: 0 }, number: Number { value: 1 }, act: AddRates(Rows { items: [] }) })
POST /bonds {"number":2,"bonds":[{"serial":"L1EE","denom":50,"issued":"2010-11","owner":7},{"coowner":8,"serial":"K-2-EE","denom":75,"issued":"2010-10","owner":7},{"coowner":null,"serial":"M3EE","denom":10000,"issued":"2011-02","owner":7}]} => Request(Request { desk: Desk { number: 0 }, number: Number { value: 2 }, act: AddBonds(Rows { items: [Bond { serial: Serial { letter: 12, number: 1 }, denom: Fifty, issued: IssueMonth { count: 66 }, owner: Customer { number: 7 }, coowner: None }, Bond { serial: Serial { letter: 11, number: 2 }, denom: SeventyFive, issued: IssueMonth { count: 65 }, owner: Customer { number: 7 }, coowner: Some(Customer { number: 8 }) }, Bond { serial: Serial { letter: 13, number: 3 }, denom: TenThousand, issued: IssueMonth { count: 69 }, owner: Customer { number: 7 }, coowner: None }] }) })
POST /day/open {"number":3,"day":"2012-02-06"} => Request(Request { desk: Desk { number: 0 }, number: Number { value: 3 }, act: OpenDay(Day { count: 15376 }) })
POST /redeem {"number":4,"day":"2012-02-06","payee":7,"serials":["L1EE","K2EE"]} => Request(Request { desk: Desk { number: 0 }, number: Number { value: 4 }, act: Redeem { day: Day { count: 15376 }, payee: Customer { number: 7 }, serials: Rows { items: [Serial { letter: 12, number: 1 }, Serial { letter: 11, number: 2 }] } } })
POST /day/close  {"number" : 9223372036854775807, "day":"2012-02-06"}  => Request(Request { desk: Desk { number: 0 }, number: Number { value: 9223372036854775807 }, act: CloseDay(Day { count: 15376 }) })
POST /day/open {"number":1,"number":2,"day":"x","day":"2012-02-06"} => Request(Request { desk: Desk { number: 0 }, number: Number { value: 2 }, act: OpenDay(Day { count: 15376 }) })
POST /day/open {"number":1,"desk":999,"day":"2012-02-06"} => Request(Request { desk: Desk { number: 999 }, number: Number { value: 1 }, act: OpenDay(Day { count: 15376 }) })
POST /day/open {"desk":0,"number":3,"day":"2012-02-06"} => Request(Request { desk: Desk { number: 0 }, number: Number { value: 3 }, act: OpenDay(Day { count: 15376 }) })
POST /day/open {"desk":null,"number":3,"day":"2012-02-06"} => Request(Request { desk: Desk { number: 0 }, number: Number { value: 3 }, act: OpenDay(Day { count: 15376 }) })
POST /day/open {"desk":1000,"number":3,"desk":7,"day":"2012-02-06"} => Request(Request { desk: Desk { number: 7 }, number: Number { value: 3 }, act: OpenDay(Day { count: 15376 }) })
POST /rates {"desk":1,"number":1,"rates":[]} => Request(Request { desk: Desk { number: 1 }, number: Number { value: 1 }, act: AddRates(Rows { items: [] }) })
POST /bonds {"desk":10,"number":2,"bonds":[]} => Request(Request { desk: Desk { number: 10 }, number: Number { value: 2 }, act: AddBonds(Rows { items: [] }) })
POST /redeem {"desk":100,"number":4,"day":"2012-02-06","payee":7,"serials":[]} => Request(Request { desk: Desk { number: 100 }, number: Number { value: 4 }, act: Redeem { day: Day { count: 15376 }, payee: Customer { number: 7 }, serials: Rows { items: [] } } })
POST /day/close {"desk":999,"number":9223372036854775807,"day":"2012-02-06"} => Request(Request { desk: Desk { number: 999 }, number: Number { value: 9223372036854775807 }, act: CloseDay(Day { count: 15376 }) })
POST /day/open  => 64 BadJson
POST /day/open { => 64 BadJson
POST /day/open {} {} => 64 BadJson
POST /day/open {'number':1} => 64 BadJson
POST /day/open [] => 65 body
POST /day/open null => 65 body
POST /day/open "number" => 65 body
POST /day/open {"desk":1000,"number":0,"day":"2012-02-06"} => 65 desk
POST /day/open {"desk":"1","number":1,"day":"2012-02-06"} => 65 desk
POST /day/open {"desk":-1,"number":1,"day":"2012-02-06"} => 65 desk
POST /day/open {"desk":-0,"number":1,"day":"2012-02-06"} => 65 desk
POST /day/open {"desk":1.0,"number":1,"day":"2012-02-06"} => 65 desk
POST /day/open {"desk":1e0,"number":1,"day":"2012-02-06"} => 65 desk
POST /day/open {"desk":true,"x":0} => 65 desk
POST /day/open {"desk":[],"number":1,"day":"2012-02-06"} => 65 desk
POST /day/open {"desk":7,"desk":1000,"number":1,"day":"2012-02-06"} => 65 desk
POST /day/open {"desk":18446744073709551616,"number":1,"day":"2012-02-06"} => 65 desk
POST /day/open {"desk":null,"number":0,"day":"2012-02-06"} => 65 number
POST /day/open {"desk":999} => 65 number
POST /day/close {"desk":1000,"number":1,"day":"2012-02-06"} => 65 desk
POST /redeem {"desk":1000,"number":1,"day":"2012-02-06","payee":7,"serials":[]} => 65 desk
POST /rates {"desk":1000,"number":1,"rates":[]} => 65 desk
POST /rates {"number":1,"rates":[{"desk":0,"from":"2010-11","rate":"3.50"}]} => 65 other
POST /bonds {"desk":1000,"number":1,"bonds":[]} => 65 desk
POST /bonds {"number":1,"bonds":[{"desk":0,"serial":"L1EE","denom":50,"issued":"2010-11","owner":7}]} => 65 other
POST /day/open {} => 65 number
POST /day/open {"number":0,"day":"x","y":1} => 65 number
POST /day/open {"number":9223372036854775808,"day":"2012-02-06"} => 65 number
POST /day/open {"number":1.0,"day":"2012-02-06"} => 65 number
POST /day/open {"number":1e0,"day":"2012-02-06"} => 65 number
POST /day/open {"number":-1,"day":"2012-02-06"} => 65 number
POST /day/open {"number":-0,"day":"2012-02-06"} => 65 number
POST /day/open {"number":"1","day":"2012-02-06"} => 65 number
POST /day/open {"number":{"number":1},"day":"2012-02-06"} => 65 number
POST /day/open {"number":1} => 65 day
POST /day/open {"number":1,"day":"2012-02-30","y":1} => 65 day
POST /day/close {"number":1,"day":"2005-04-30"} => 65 day
POST /day/open {"number":1,"day":"2012-02-06","y":1} => 65 other
POST /redeem {"number":1,"day":"2012-02-06","serials":[]} => 65 payee
POST /redeem {"number":1,"day":"2012-02-06","payee":1000000000,"serials":[]} => 65 payee
POST /redeem {"number":1,"day":"2012-02-06","payee":7} => 65 serials
POST /redeem {"number":1,"day":"2012-02-06","payee":7,"serials":["L1EE",7]} => 65 serials
POST /redeem {"number":1,"day":"2012-02-06","payee":7,"serials":["L1"]} => 65 serials
POST /rates {"number":1,"rates":{}} => 65 rates
POST /rates {"number":1,"rates":[[]]} => 65 rates
POST /rates {"number":1,"rates":[{"rate":"3.50"}]} => 65 from
POST /rates {"number":1,"rates":[{"from":"2100-01","rate":"3.50"}]} => 65 from
POST /rates {"number":1,"rates":[{"from":"2010-11","rate":"20.01"}]} => 65 rate
POST /rates {"number":1,"rates":[{"from":"2010-11","rate":3.5}]} => 65 rate
POST /rates {"number":1,"rates":[{"from":"2010-11","rate":"3.50","extension":""}]} => 65 extension
POST /rates {"number":1,"rates":[{"from":"2010-11","rate":"3.50","extension":"20.01"}]} => 65 extension
POST /rates {"number":1,"rates":[{"from":"2010-11","rate":"3.50","extension":4,"x":0}]} => 65 extension
POST /rates {"number":1,"rates":[{"from":"2010-11","rate":"x","extension":"x"}]} => 65 rate
POST /rates {"number":1,"rates":[{"from":"2010-11","rate":"3.50","extension":"4","x":0}]} => 65 other
POST /rates {"number":1,"rates":[{"from":"2010-11","rate":"3.50","x":0},{}],"y":1} => 65 other
POST /rates {"number":1,"rates":[{"from":"2010-11","rate":"3.50"},{}],"y":1} => 65 from
POST /bonds {"number":1,"bonds":[{}]} => 65 serial
POST /bonds {"number":1,"bonds":[7]} => 65 bonds
POST /bonds {"number":1,"bonds":[{"serial":"L1EE","denom":25}]} => 65 denom
POST /bonds {"number":1,"bonds":[{"serial":"L1EE","denom":"50"}]} => 65 denom
POST /bonds {"number":1,"bonds":[{"serial":"L1EE","denom":50,"issued":"2010"}]} => 65 issued
POST /bonds {"number":1,"bonds":[{"serial":"L1EE","denom":50,"issued":"2010-11","owner":0}]} => 65 owner
POST /bonds {"number":1,"bonds":[{"serial":"L1EE","denom":50,"issued":"2010-11","owner":7,"coowner":"8"}]} => 65 coowner
POST /bonds {"number":1,"bonds":[{"serial":"L1EE","denom":50,"issued":"2010-11","owner":7,"x":null}]} => 65 other
"#;

#[test]
fn bodies_are_read(rt: HostRuntime) -> Result<(), Fail> {
    compare::<CallCases>(&rt, rt.alloc(), BODIES)
}

/// What paths ask for, or the leftmost part at fault. The route is tested before the method, and the method
/// before the body.
const PATHS: &str = "\
GET /inventory/7/2012-02 { => Query(Inventory { customer: Customer { number: 7 }, month: Month { count: 81 } })
GET /ticket/1 { => Query(Ticket(1))
GET /ticket/9223372036854775807 { => Query(Ticket(9223372036854775807))
GET /batch/2012-02-06 { => Query(Batch(Day { count: 15376 }))
GET /value/50/2010-11/2012-02 { => Query(Value { denom: Fifty, issued: IssueMonth { count: 66 }, month: Month { count: 81 } })
GET /inventory/0/x { => 65 customer
GET /inventory/7/2012-13 { => 65 month
GET /ticket/0 { => 65 ticket
GET /ticket/9223372036854775808 { => 65 ticket
GET /ticket/00000000000000000001 { => 65 ticket
GET /ticket/+1 { => 65 ticket
GET /batch/2012-02-30 { => 65 day
GET /value/51/x/y { => 65 denom
GET /value/50/2100-01/y { => 65 issued
GET /value/50/2010-11/2200-01 { => 65 month
GET / { => 66 NoRoute
PUT /rate { => 66 NoRoute
POST /rates/ { => 66 NoRoute
GET /ticket/ { => 66 NoRoute
GET /ticket/1/2 { => 66 NoRoute
GET /inventory/7/02/2012 { => 66 NoRoute
GET /ticket/1?x { => 65 ticket
GET http://x/ticket/1 { => 66 NoRoute
GET /rates { => 67 BadMethod
PUT /rates { => 67 BadMethod
get /ticket/0 { => 67 BadMethod
POST /ticket/0 { => 67 BadMethod
HEAD /ticket/1 { => 67 BadMethod
";

#[test]
fn paths_are_read(rt: HostRuntime) -> Result<(), Fail> {
    compare::<CallCases>(&rt, rt.alloc(), PATHS)?;
    let no_text = decode(rt.alloc(), b"/\xff", b"GET", b"");
    assert!(rt; matches!(&no_text, Err(WireFault::NoRoute)));
    Ok(())
}

/// How many brackets a body opens and closes, and the result.
const DEPTHS: &str = "\
127 127 => 65 body
127 0 => 64 BadJson
128 0 => 64 BadJson
";

struct DepthCases;

impl Cases for DepthCases {
    fn answer(alloc: Global, case: &str) -> Option<String> {
        let (opened, closed) = case.split_once(' ')?;
        let (opened, closed) = (opened.parse().ok()?, closed.parse().ok()?);
        let mut body = String::new(alloc);
        add_times(&mut body, "[", opened)?;
        add_times(&mut body, "]", closed)?;
        call_text(alloc, "/day/open", "POST", body.as_str())
    }
}

#[test]
fn deep_bodies(rt: HostRuntime) -> Result<(), Fail> {
    compare::<DepthCases>(&rt, rt.alloc(), DEPTHS)
}

/// Messages, and what they ask for.
const SHORT: &str =
    r#"POST /rates {"number":1,"rates":[{"from":"2010-11","rate":"3.50"}]} => Request(Request { desk: Desk { number: 0 }, number: Number { value: 1 }, act: AddRates(Rows { items: [RateRow { from: IssueMonth { count: 66 }, rates: Rates { fixed: Rate { hundredths: 350 }, extension: Rate { hundredths: 350 } } }] }) })
POST /bonds {"number":2,"bonds":[{"serial":"L1EE","denom":50,"issued":"2010-11","owner":7},{"serial":"K2EE","denom":75,"issued":"2010-10","owner":7},{"serial":"M3EE","denom":10000,"issued":"2011-02","owner":7}]} => Request(Request { desk: Desk { number: 0 }, number: Number { value: 2 }, act: AddBonds(Rows { items: [Bond { serial: Serial { letter: 12, number: 1 }, denom: Fifty, issued: IssueMonth { count: 66 }, owner: Customer { number: 7 }, coowner: None }, Bond { serial: Serial { letter: 11, number: 2 }, denom: SeventyFive, issued: IssueMonth { count: 65 }, owner: Customer { number: 7 }, coowner: None }, Bond { serial: Serial { letter: 13, number: 3 }, denom: TenThousand, issued: IssueMonth { count: 69 }, owner: Customer { number: 7 }, coowner: None }] }) })
POST /day/open {"number":3,"day":"2012-02-06"} => Request(Request { desk: Desk { number: 0 }, number: Number { value: 3 }, act: OpenDay(Day { count: 15376 }) })
POST /redeem {"number":4,"day":"2012-02-06","payee":7,"serials":["L1EE","K2EE"]} => Request(Request { desk: Desk { number: 0 }, number: Number { value: 4 }, act: Redeem { day: Day { count: 15376 }, payee: Customer { number: 7 }, serials: Rows { items: [Serial { letter: 12, number: 1 }, Serial { letter: 11, number: 2 }] } } })
POST /day/close {"number":6,"day":"2012-02-06"} => Request(Request { desk: Desk { number: 0 }, number: Number { value: 6 }, act: CloseDay(Day { count: 15376 }) })
POST /day/open {"desk":"\u0033","number":1,"day":1} => 65 desk
POST /day/open {"number":"\u0033","day":1} => 65 number
"#;

/// With each allocation refused in turn: what a body asks for, or want of memory.
#[test]
fn refused_memory(rt: HostRuntime) -> Result<(), Fail> {
    compare_refused::<CallCases>(&rt, &rt, SHORT, "1 NoMemory")
}
