//! Days at the counter, as transcripts.

/// Rates, three bonds, one ticket and a closed day, with repeats and refused requests between and after.
pub const DAY: &str =
    r#"> POST /rates {"number":1,"rates":[{"from":"2010-05","rate":"2.00"},{"from":"2010-11","rate":"3.50"}]}
200 {"new":2,"same":0}
> POST /bonds {"number":2,"bonds":[{"serial":"L1EE","denom":50,"issued":"2010-11","owner":7},{"serial":"K2EE","denom":75,"issued":"2010-10","owner":7,"coowner":8},{"serial":"M3EE","denom":10000,"issued":"2011-02","owner":7}]}
200 {"new":3,"same":0}
> POST /day/open {"number":3,"day":"2012-02-06"}
200 {"opened":"2012-02-06"}
> GET /inventory/7/2012-02
200 Serial        Series  Denom Issued  Next    Final          Price       Interest   Rate          Value Note
K2EE          EE         75 10/2010 03/2012 10/2040        37.50           0.84  2.00%          38.34 P5
L1EE          EE         50 11/2010 03/2012 11/2040        25.00           0.88  3.50%          25.88 P5
M3EE          EE      10000 02/2011 03/2012 02/2041      5000.00         132.00  3.50%        5132.00 P5
Total                                                    5062.50         133.72               5196.22

> GET /inventory/8/2012-02
200 Serial        Series  Denom Issued  Next    Final          Price       Interest   Rate          Value Note
Total                                                       0.00           0.00                  0.00

> GET /batch/2012-02-06
404 {"code":69,"fault":"NotFound"}
> GET /ticket/1
404 {"code":69,"fault":"NotFound"}
> POST /redeem {"number":4,"day":"2012-02-06","payee":7,"serials":["L1EE","K2EE","M3EE"]}
200 {"day":"2012-02-06","lines":[{"paid":"25.88","serial":"L1EE"},{"paid":"38.34","serial":"K2EE"},{"paid":"5132.00","serial":"M3EE"}],"payee":7,"ticket":1,"total":"5196.22"}
> POST /redeem {"number":4,"day":"2012-02-06","payee":7,"serials":["L-0001-EE","K2EE","M3EE"]}
200 {"day":"2012-02-06","lines":[{"paid":"25.88","serial":"L1EE"},{"paid":"38.34","serial":"K2EE"},{"paid":"5132.00","serial":"M3EE"}],"payee":7,"ticket":1,"total":"5196.22"}
> POST /redeem {"number":4,"day":"2012-02-06","payee":7,"serials":["L1EE"]}
409 {"code":10,"refused":"NumberReused"}
> POST /redeem {"number":6,"day":"2012-02-06","payee":7,"serials":["L1EE"]}
409 {"code":52,"refused":"AlreadyPaid","serial":"L1EE","ticket":1}
> POST /day/close {"number":5,"day":"2012-02-06"}
200 {"bonds":3,"day":"2012-02-06","tickets":1,"total":"5196.22"}
> POST /redeem {"number":6,"day":"2012-02-06","payee":7,"serials":["L1EE"]}
409 {"code":52,"refused":"AlreadyPaid","serial":"L1EE","ticket":1}
> POST /redeem {"number":7,"day":"2012-02-06","payee":7,"serials":["L1EE"]}
409 {"code":42,"refused":"NoOpenDay"}
> POST /redeem {"number":4,"day":"2012-02-06","payee":7,"serials":["L1EE","K2EE","M3EE"]}
200 {"day":"2012-02-06","lines":[{"paid":"25.88","serial":"L1EE"},{"paid":"38.34","serial":"K2EE"},{"paid":"5132.00","serial":"M3EE"}],"payee":7,"ticket":1,"total":"5196.22"}
> POST /day/close {"number":5,"day":"2012-02-06"}
200 {"bonds":3,"day":"2012-02-06","tickets":1,"total":"5196.22"}
> POST /rates {"number":1,"rates":[{"from":"05/2010","rate":"2"},{"from":"2010-11","rate":"3.5%"}]}
200 {"new":2,"same":0}
> GET /ticket/1
200 {"day":"2012-02-06","lines":[{"paid":"25.88","serial":"L1EE"},{"paid":"38.34","serial":"K2EE"},{"paid":"5132.00","serial":"M3EE"}],"payee":7,"ticket":1,"total":"5196.22"}
> GET /batch/2012-02-06
200 {"bonds":3,"day":"2012-02-06","tickets":1,"total":"5196.22"}
> GET /ticket/2
404 {"code":69,"fault":"NotFound"}
> GET /inventory/7/2012-02
200 Serial        Series  Denom Issued  Next    Final          Price       Interest   Rate          Value Note
Total                                                       0.00           0.00                  0.00

> GET /value/50/2010-11/2012-02
200 {"denom":50,"final":"2040-11","interest":"0.88","issued":"2010-11","next":"2012-03","note":"P5","price":"25.00","rate":"3.50%","value":"25.88"}
> GET /value/50/2009-01/2012-02
409 {"code":30,"refused":"NoRate"}
"#;

/// Terms of two rates, from a file and in messages: what conflicts, what is the same, and a bond of 20 years and six
/// months that is paid by the extension.
pub const EXTENDED: &str = r#"+ 1 from,rate,extension|2010-05,3.40,4.00|2010-11,3.50,|
{"new":2,"same":0}
+ 2 from,rate|2010-05,3.40|
{"code":21,"month":"2010-05","refused":"RateConflict"}
+ 3 from,rate,extension|2010-11,3.50,3.50|
{"new":0,"same":1}
+ 4 from,rate,extension|2010-11,3.50,3.51|
{"code":21,"month":"2010-11","refused":"RateConflict"}
> POST /rates {"number":5,"rates":[{"from":"2011-05","rate":"3.40","extension":"4.00"},{"from":"2011-05","rate":"3.40"}]}
409 {"code":21,"month":"2011-05","refused":"RateConflict"}
> POST /rates {"number":1,"rates":[{"extension":"4%","from":"05/2010","rate":"3.4"},{"from":"2010-11","rate":"3.50","extension":null}]}
200 {"new":2,"same":0}
> POST /rates {"number":1,"rates":[{"from":"2010-05","rate":"3.40"},{"from":"2010-11","rate":"3.50"}]}
409 {"code":10,"refused":"NumberReused"}
> POST /bonds {"number":6,"bonds":[{"serial":"L1EE","denom":50,"issued":"2010-05","owner":7}]}
200 {"new":1,"same":0}
> POST /day/open {"number":7,"day":"2030-11-04"}
200 {"opened":"2030-11-04"}
> GET /inventory/7/2030-11
200 Serial        Series  Denom Issued  Next    Final          Price       Interest   Rate          Value Note
L1EE          EE         50 05/2010 12/2030 05/2040        25.00          26.00  4.00%          51.00
Total                                                      25.00          26.00                 51.00

> POST /redeem {"number":8,"day":"2030-11-04","payee":7,"serials":["L1EE"]}
200 {"day":"2030-11-04","lines":[{"paid":"51.00","serial":"L1EE"}],"payee":7,"ticket":1,"total":"51.00"}
> POST /day/close {"number":9,"day":"2030-11-04"}
200 {"bonds":1,"day":"2030-11-04","tickets":1,"total":"51.00"}
> GET /value/50/2010-05/2030-04
200 {"denom":50,"final":"2040-05","interest":"23.90","issued":"2010-05","next":"2030-05","note":"","price":"25.00","rate":"3.40%","value":"48.90"}
> GET /value/50/2010-05/2030-05
200 {"denom":50,"final":"2040-05","interest":"25.00","issued":"2010-05","next":"2030-06","note":"","price":"25.00","rate":"4.00%","value":"50.00"}
> GET /value/50/2010-05/2040-04
200 {"denom":50,"final":"2040-05","interest":"49.04","issued":"2010-05","next":"2040-05","note":"","price":"25.00","rate":"4.00%","value":"74.04"}
> GET /value/50/2010-05/2040-05
200 {"denom":50,"final":"2040-05","interest":"49.28","issued":"2010-05","next":"","note":"MA","price":"25.00","rate":"","value":"74.28"}
"#;

/// The day of the first desk up to its ticket, in parts. Then the second desk asks for that ticket under the same number,
/// asks again, and gives the number to another act; closes the day under the number that the first desk would have taken
/// next; and the last desk has the last number. Each number keeps its reply at its own desk.
pub const DESKS: [&str; 4] = [
    r#"> POST /rates {"number":1,"rates":[{"from":"2010-05","rate":"2.00"},{"from":"2010-11","rate":"3.50"}]}
200 {"new":2,"same":0}
> POST /bonds {"desk":0,"number":2,"bonds":[{"serial":"L1EE","denom":50,"issued":"2010-11","owner":7},{"serial":"K2EE","denom":75,"issued":"2010-10","owner":7,"coowner":8},{"serial":"M3EE","denom":10000,"issued":"2011-02","owner":7}]}
200 {"new":3,"same":0}
> POST /day/open {"desk":null,"number":3,"day":"2012-02-06"}
200 {"opened":"2012-02-06"}
> POST /redeem {"number":4,"day":"2012-02-06","payee":7,"serials":["L1EE","K2EE","M3EE"]}
200 {"day":"2012-02-06","lines":[{"paid":"25.88","serial":"L1EE"},{"paid":"38.34","serial":"K2EE"},{"paid":"5132.00","serial":"M3EE"}],"payee":7,"ticket":1,"total":"5196.22"}
"#,
    r#"> POST /redeem {"desk":1,"number":4,"day":"2012-02-06","payee":7,"serials":["L1EE","K2EE","M3EE"]}
409 {"code":52,"refused":"AlreadyPaid","serial":"L1EE","ticket":1}
> POST /redeem {"desk":1,"number":4,"day":"2012-02-06","payee":7,"serials":["L1EE","K2EE","M3EE"]}
409 {"code":52,"refused":"AlreadyPaid","serial":"L1EE","ticket":1}
> POST /redeem {"desk":1,"number":4,"day":"2012-02-06","payee":7,"serials":["K2EE"]}
409 {"code":10,"refused":"NumberReused"}
> POST /redeem {"desk":0,"number":4,"day":"2012-02-06","payee":7,"serials":["L1EE","K2EE","M3EE"]}
200 {"day":"2012-02-06","lines":[{"paid":"25.88","serial":"L1EE"},{"paid":"38.34","serial":"K2EE"},{"paid":"5132.00","serial":"M3EE"}],"payee":7,"ticket":1,"total":"5196.22"}
"#,
    r#"> POST /day/close {"desk":1,"number":5,"day":"2012-02-06"}
200 {"bonds":3,"day":"2012-02-06","tickets":1,"total":"5196.22"}
> POST /day/close {"number":5,"day":"2012-02-06"}
409 {"code":42,"refused":"NoOpenDay"}
> POST /day/close {"desk":1,"number":5,"day":"2012-02-06"}
200 {"bonds":3,"day":"2012-02-06","tickets":1,"total":"5196.22"}
> POST /day/open {"desk":999,"number":9223372036854775807,"day":"2012-02-07"}
200 {"opened":"2012-02-07"}
"#,
    r#"> POST /day/open {"desk":998,"number":9223372036854775807,"day":"2012-02-07"}
409 {"code":40,"refused":"DayOpen"}
> POST /day/close {"desk":999,"number":9223372036854775807,"day":"2012-02-07"}
409 {"code":10,"refused":"NumberReused"}
> POST /day/open {"desk":999,"number":9223372036854775807,"day":"2012-02-07"}
200 {"opened":"2012-02-07"}
> POST /redeem {"desk":1,"number":4,"day":"2012-02-06","payee":7,"serials":["L1EE","K2EE","M3EE"]}
409 {"code":52,"refused":"AlreadyPaid","serial":"L1EE","ticket":1}
> POST /day/close {"desk":0,"number":5,"day":"2012-02-06"}
409 {"code":42,"refused":"NoOpenDay"}
> POST /day/close {"desk":1,"number":5,"day":"2012-02-06"}
200 {"bonds":3,"day":"2012-02-06","tickets":1,"total":"5196.22"}
> GET /ticket/1
200 {"day":"2012-02-06","lines":[{"paid":"25.88","serial":"L1EE"},{"paid":"38.34","serial":"K2EE"},{"paid":"5132.00","serial":"M3EE"}],"payee":7,"ticket":1,"total":"5196.22"}
> GET /batch/2012-02-06
200 {"bonds":3,"day":"2012-02-06","tickets":1,"total":"5196.22"}
"#,
];

/// A file of rates is imported at each desk, as a request of its own.
pub const IMPORTED: &str = r#"+ 1/1 from,rate|2010-05,2.00|2010-11,3.50%|
{"new":2,"same":0}
+ 1/1 from,rate|2010-05,2.00|2010-11,3.50%|
{"new":2,"same":0}
+ 1 from,rate|2010-05,2.00|2010-11,3.50%|
{"new":0,"same":2}
+ 0/1 from,rate|2010-05,2.00|2010-11,3.50%|
{"new":0,"same":2}
+ 1/1 from,rate|2010-05,2.00|
{"code":10,"refused":"NumberReused"}
+ 999/9223372036854775807 from,rate|2010-05,2.00|
{"new":0,"same":1}
> POST /rates {"desk":1,"number":1,"rates":[{"from":"2010-05","rate":"2.00"},{"from":"2010-11","rate":"3.50"}]}
200 {"new":2,"same":0}
+ 2/1 from,rate|2010-05,3.00|
{"code":21,"month":"2010-05","refused":"RateConflict"}
+ 3/1 serial,denom,issued,owner,coowner|L1EE,50,2010-11,7,|
{"new":1,"same":0}
+ 4/1 serial,denom,issued,owner,coowner|L1EE,50,2010-11,7,|
{"new":0,"same":1}
"#;

/// Rates, three bonds and an open day.
pub const BEGUN: &str =
    r#"> POST /rates {"number":1,"rates":[{"from":"2010-05","rate":"2.00"},{"from":"2010-11","rate":"3.50"}]}
200 {"new":2,"same":0}
> POST /bonds {"number":2,"bonds":[{"serial":"L1EE","denom":50,"issued":"2010-11","owner":7},{"serial":"K2EE","denom":75,"issued":"2010-10","owner":7,"coowner":8},{"serial":"M3EE","denom":10000,"issued":"2011-02","owner":7}]}
200 {"new":3,"same":0}
> POST /day/open {"number":3,"day":"2012-02-06"}
200 {"opened":"2012-02-06"}
"#;

/// A ticket is whole or nothing; a bond is paid under each spelling of its serial, once. A day without
/// tickets closes with zeros.
pub const TICKETS: &str =
    r#"> POST /bonds {"number":10,"bonds":[{"serial":"N4EE","denom":100,"issued":"2010-11","owner":9}]}
200 {"new":1,"same":0}
> POST /redeem {"number":11,"day":"2012-02-06","payee":7,"serials":["L1EE","N4EE"]}
409 {"code":51,"refused":"NotPayee","serial":"N4EE"}
> POST /redeem {"number":12,"day":"2012-02-06","payee":7,"serials":["C0012EE","C-12-EE"]}
409 {"code":13,"refused":"Repeated","serial":"C12EE"}
> POST /redeem {"number":13,"day":"2012-02-06","payee":8,"serials":["K-0002-EE"]}
200 {"day":"2012-02-06","lines":[{"paid":"38.34","serial":"K2EE"}],"payee":8,"ticket":1,"total":"38.34"}
> POST /redeem {"number":14,"day":"2012-02-06","payee":7,"serials":["L1EE"]}
200 {"day":"2012-02-06","lines":[{"paid":"25.88","serial":"L1EE"}],"payee":7,"ticket":2,"total":"25.88"}
> POST /redeem {"number":15,"day":"2012-02-06","payee":7,"serials":["L-01-EE"]}
409 {"code":52,"refused":"AlreadyPaid","serial":"L1EE","ticket":2}
> POST /redeem {"number":16,"day":"2012-02-06","payee":7,"serials":["M3EE","K2EE"]}
409 {"code":52,"refused":"AlreadyPaid","serial":"K2EE","ticket":1}
> POST /day/close {"number":17,"day":"2012-02-06"}
200 {"bonds":2,"day":"2012-02-06","tickets":2,"total":"64.22"}
> POST /day/open {"number":18,"day":"2012-02-07"}
200 {"opened":"2012-02-07"}
> POST /day/close {"number":19,"day":"2012-02-07"}
200 {"bonds":0,"day":"2012-02-07","tickets":0,"total":"0.00"}
> POST /day/open {"number":20,"day":"2012-02-07"}
409 {"code":41,"refused":"DayNotLater"}
> GET /batch/2012-02-07
200 {"bonds":0,"day":"2012-02-07","tickets":0,"total":"0.00"}
"#;

/// Redemptions with other acts between: rates and bonds of another period, a refused one, a day that closes and the next
/// one that opens. Tickets are numbered on over the days, and each batch has its own day's.
pub const TURNS: &str =
    r#"> POST /redeem {"number":4,"day":"2012-02-06","payee":7,"serials":["L1EE"]}
200 {"day":"2012-02-06","lines":[{"paid":"25.88","serial":"L1EE"}],"payee":7,"ticket":1,"total":"25.88"}
+ 5 from,rate|2009-05,0.00|
{"new":1,"same":0}
> POST /bonds {"number":6,"bonds":[{"serial":"N4EE","denom":100,"issued":"2009-06","owner":7},{"serial":"P5EE","denom":50,"issued":"2010-11","owner":7}]}
200 {"new":2,"same":0}
> POST /redeem {"number":7,"day":"2012-02-06","payee":7,"serials":["K2EE","N4EE"]}
200 {"day":"2012-02-06","lines":[{"paid":"38.34","serial":"K2EE"},{"paid":"50.00","serial":"N4EE"}],"payee":7,"ticket":2,"total":"88.34"}
> POST /redeem {"number":8,"day":"2012-02-06","payee":7,"serials":["L1EE"]}
409 {"code":52,"refused":"AlreadyPaid","serial":"L1EE","ticket":1}
> POST /redeem {"number":4,"day":"2012-02-06","payee":7,"serials":["L1EE"]}
200 {"day":"2012-02-06","lines":[{"paid":"25.88","serial":"L1EE"}],"payee":7,"ticket":1,"total":"25.88"}
> POST /redeem {"number":9,"day":"2012-02-06","payee":7,"serials":["M3EE"]}
200 {"day":"2012-02-06","lines":[{"paid":"5132.00","serial":"M3EE"}],"payee":7,"ticket":3,"total":"5132.00"}
> POST /day/close {"number":10,"day":"2012-02-06"}
200 {"bonds":4,"day":"2012-02-06","tickets":3,"total":"5246.22"}
> POST /redeem {"number":11,"day":"2012-02-06","payee":7,"serials":["P5EE"]}
409 {"code":42,"refused":"NoOpenDay"}
> POST /day/open {"number":12,"day":"2012-02-07"}
200 {"opened":"2012-02-07"}
> POST /redeem {"number":13,"day":"2012-02-07","payee":7,"serials":["M3EE"]}
409 {"code":52,"refused":"AlreadyPaid","serial":"M3EE","ticket":3}
> POST /redeem {"number":14,"day":"2012-02-07","payee":7,"serials":["P5EE"]}
200 {"day":"2012-02-07","lines":[{"paid":"25.88","serial":"P5EE"}],"payee":7,"ticket":4,"total":"25.88"}
> POST /day/close {"number":15,"day":"2012-02-07"}
200 {"bonds":1,"day":"2012-02-07","tickets":1,"total":"25.88"}
"#;

/// The last desk, number, customer, serial number, rate, extension and day; and the first ones.
pub const LAST: &str =
    r#"> POST /rates {"number":1,"rates":[{"from":"2005-05","rate":"20.00","extension":"20.00"},{"from":"2099-11","rate":"0.00"}]}
200 {"new":2,"same":0}
> POST /bonds {"number":2,"bonds":[{"serial":"Z9999999999EE","denom":10000,"issued":"2005-05","owner":999999999,"coowner":1},{"serial":"A1EE","denom":10000,"issued":"2099-12","owner":1,"coowner":999999999}]}
200 {"new":2,"same":0}
> POST /day/open {"number":3,"day":"2199-12-31"}
200 {"opened":"2199-12-31"}
> POST /redeem {"desk":999,"number":9223372036854775807,"day":"2199-12-31","payee":999999999,"serials":["Z9999999999EE","A1EE"]}
200 {"day":"2199-12-31","lines":[{"paid":"1522468.00","serial":"Z9999999999EE"},{"paid":"10000.00","serial":"A1EE"}],"payee":999999999,"ticket":1,"total":"1532468.00"}
> POST /redeem {"desk":999,"number":9223372036854775807,"day":"2199-12-31","payee":1,"serials":["Z9999999999EE","A1EE"]}
409 {"code":10,"refused":"NumberReused"}
> POST /day/close {"number":4,"day":"2199-12-31"}
200 {"bonds":2,"day":"2199-12-31","tickets":1,"total":"1532468.00"}
> POST /day/open {"number":5,"day":"2199-12-31"}
409 {"code":41,"refused":"DayNotLater"}
> GET /value/10000/2005-05/2199-12
200 {"denom":10000,"final":"2035-05","interest":"1517468.00","issued":"2005-05","next":"","note":"MA","price":"5000.00","rate":"","value":"1522468.00"}
> GET /ticket/9223372036854775807
404 {"code":69,"fault":"NotFound"}
"#;

/// One teller sends a bond as number 4 and again as number 6, another one sends another bond as number 7:
/// the three merges of the two.
pub const MERGES: [&str; 3] = [
    r#"> POST /redeem {"number":4,"day":"2012-02-06","payee":7,"serials":["L1EE"]}
200 {"day":"2012-02-06","lines":[{"paid":"25.88","serial":"L1EE"}],"payee":7,"ticket":1,"total":"25.88"}
> POST /redeem {"number":6,"day":"2012-02-06","payee":7,"serials":["L1EE"]}
409 {"code":52,"refused":"AlreadyPaid","serial":"L1EE","ticket":1}
> POST /redeem {"number":7,"day":"2012-02-06","payee":7,"serials":["K2EE"]}
200 {"day":"2012-02-06","lines":[{"paid":"38.34","serial":"K2EE"}],"payee":7,"ticket":2,"total":"38.34"}
"#,
    r#"> POST /redeem {"number":4,"day":"2012-02-06","payee":7,"serials":["L1EE"]}
200 {"day":"2012-02-06","lines":[{"paid":"25.88","serial":"L1EE"}],"payee":7,"ticket":1,"total":"25.88"}
> POST /redeem {"number":7,"day":"2012-02-06","payee":7,"serials":["K2EE"]}
200 {"day":"2012-02-06","lines":[{"paid":"38.34","serial":"K2EE"}],"payee":7,"ticket":2,"total":"38.34"}
> POST /redeem {"number":6,"day":"2012-02-06","payee":7,"serials":["L1EE"]}
409 {"code":52,"refused":"AlreadyPaid","serial":"L1EE","ticket":1}
"#,
    r#"> POST /redeem {"number":7,"day":"2012-02-06","payee":7,"serials":["K2EE"]}
200 {"day":"2012-02-06","lines":[{"paid":"38.34","serial":"K2EE"}],"payee":7,"ticket":1,"total":"38.34"}
> POST /redeem {"number":4,"day":"2012-02-06","payee":7,"serials":["L1EE"]}
200 {"day":"2012-02-06","lines":[{"paid":"25.88","serial":"L1EE"}],"payee":7,"ticket":2,"total":"25.88"}
> POST /redeem {"number":6,"day":"2012-02-06","payee":7,"serials":["L1EE"]}
409 {"code":52,"refused":"AlreadyPaid","serial":"L1EE","ticket":2}
"#,
];

/// What a keeper shows after the first of these days.
pub const SHOWN: &str = r#"> GET /ticket/1
200 {"day":"2012-02-06","lines":[{"paid":"25.88","serial":"L1EE"},{"paid":"38.34","serial":"K2EE"},{"paid":"5132.00","serial":"M3EE"}],"payee":7,"ticket":1,"total":"5196.22"}
> GET /batch/2012-02-06
200 {"bonds":3,"day":"2012-02-06","tickets":1,"total":"5196.22"}
> GET /inventory/7/2012-02
200 Serial        Series  Denom Issued  Next    Final          Price       Interest   Rate          Value Note
Total                                                       0.00           0.00                  0.00

> GET /value/50/2010-11/2012-02
200 {"denom":50,"final":"2040-11","interest":"0.88","issued":"2010-11","next":"2012-03","note":"P5","price":"25.00","rate":"3.50%","value":"25.88"}
- 7 1000
Ok(0) serial,denom,issued,owner,coowner

"#;

/// The reply to a ticket is lost after 200 bytes: there is one ticket, its number gives the whole reply, and the
/// day closes with it.
pub const LOST: &str =
    r#"% 200 POST /redeem {"number":4,"day":"2012-02-06","payee":7,"serials":["L1EE","K2EE","M3EE"]}
0 WriteFailed 200 {"day":"2012-02-06","lines":[{"paid":"25.88","serial":"L1EE"},{"paid":"38.34","serial":"K2EE"},{"paid":"5132.00","serial":"M3EE"
> GET /ticket/1
200 {"day":"2012-02-06","lines":[{"paid":"25.88","serial":"L1EE"},{"paid":"38.34","serial":"K2EE"},{"paid":"5132.00","serial":"M3EE"}],"payee":7,"ticket":1,"total":"5196.22"}
> POST /redeem {"number":4,"day":"2012-02-06","payee":7,"serials":["L1EE","K2EE","M3EE"]}
200 {"day":"2012-02-06","lines":[{"paid":"25.88","serial":"L1EE"},{"paid":"38.34","serial":"K2EE"},{"paid":"5132.00","serial":"M3EE"}],"payee":7,"ticket":1,"total":"5196.22"}
> GET /ticket/2
404 {"code":69,"fault":"NotFound"}
> POST /day/close {"number":5,"day":"2012-02-06"}
200 {"bonds":3,"day":"2012-02-06","tickets":1,"total":"5196.22"}
"#;

/// Three requests of one serial each, in each order, and the closing of the day.
pub const ORDERS: [&str; 6] = [
    r#"> POST /redeem {"number":4,"day":"2012-02-06","payee":7,"serials":["L1EE"]}
200 {"day":"2012-02-06","lines":[{"paid":"25.88","serial":"L1EE"}],"payee":7,"ticket":1,"total":"25.88"}
> POST /redeem {"number":5,"day":"2012-02-06","payee":7,"serials":["K2EE"]}
200 {"day":"2012-02-06","lines":[{"paid":"38.34","serial":"K2EE"}],"payee":7,"ticket":2,"total":"38.34"}
> POST /redeem {"number":6,"day":"2012-02-06","payee":7,"serials":["M3EE"]}
200 {"day":"2012-02-06","lines":[{"paid":"5132.00","serial":"M3EE"}],"payee":7,"ticket":3,"total":"5132.00"}
> POST /day/close {"number":9,"day":"2012-02-06"}
200 {"bonds":3,"day":"2012-02-06","tickets":3,"total":"5196.22"}
"#,
    r#"> POST /redeem {"number":4,"day":"2012-02-06","payee":7,"serials":["L1EE"]}
200 {"day":"2012-02-06","lines":[{"paid":"25.88","serial":"L1EE"}],"payee":7,"ticket":1,"total":"25.88"}
> POST /redeem {"number":6,"day":"2012-02-06","payee":7,"serials":["M3EE"]}
200 {"day":"2012-02-06","lines":[{"paid":"5132.00","serial":"M3EE"}],"payee":7,"ticket":2,"total":"5132.00"}
> POST /redeem {"number":5,"day":"2012-02-06","payee":7,"serials":["K2EE"]}
200 {"day":"2012-02-06","lines":[{"paid":"38.34","serial":"K2EE"}],"payee":7,"ticket":3,"total":"38.34"}
> POST /day/close {"number":9,"day":"2012-02-06"}
200 {"bonds":3,"day":"2012-02-06","tickets":3,"total":"5196.22"}
"#,
    r#"> POST /redeem {"number":5,"day":"2012-02-06","payee":7,"serials":["K2EE"]}
200 {"day":"2012-02-06","lines":[{"paid":"38.34","serial":"K2EE"}],"payee":7,"ticket":1,"total":"38.34"}
> POST /redeem {"number":4,"day":"2012-02-06","payee":7,"serials":["L1EE"]}
200 {"day":"2012-02-06","lines":[{"paid":"25.88","serial":"L1EE"}],"payee":7,"ticket":2,"total":"25.88"}
> POST /redeem {"number":6,"day":"2012-02-06","payee":7,"serials":["M3EE"]}
200 {"day":"2012-02-06","lines":[{"paid":"5132.00","serial":"M3EE"}],"payee":7,"ticket":3,"total":"5132.00"}
> POST /day/close {"number":9,"day":"2012-02-06"}
200 {"bonds":3,"day":"2012-02-06","tickets":3,"total":"5196.22"}
"#,
    r#"> POST /redeem {"number":5,"day":"2012-02-06","payee":7,"serials":["K2EE"]}
200 {"day":"2012-02-06","lines":[{"paid":"38.34","serial":"K2EE"}],"payee":7,"ticket":1,"total":"38.34"}
> POST /redeem {"number":6,"day":"2012-02-06","payee":7,"serials":["M3EE"]}
200 {"day":"2012-02-06","lines":[{"paid":"5132.00","serial":"M3EE"}],"payee":7,"ticket":2,"total":"5132.00"}
> POST /redeem {"number":4,"day":"2012-02-06","payee":7,"serials":["L1EE"]}
200 {"day":"2012-02-06","lines":[{"paid":"25.88","serial":"L1EE"}],"payee":7,"ticket":3,"total":"25.88"}
> POST /day/close {"number":9,"day":"2012-02-06"}
200 {"bonds":3,"day":"2012-02-06","tickets":3,"total":"5196.22"}
"#,
    r#"> POST /redeem {"number":6,"day":"2012-02-06","payee":7,"serials":["M3EE"]}
200 {"day":"2012-02-06","lines":[{"paid":"5132.00","serial":"M3EE"}],"payee":7,"ticket":1,"total":"5132.00"}
> POST /redeem {"number":4,"day":"2012-02-06","payee":7,"serials":["L1EE"]}
200 {"day":"2012-02-06","lines":[{"paid":"25.88","serial":"L1EE"}],"payee":7,"ticket":2,"total":"25.88"}
> POST /redeem {"number":5,"day":"2012-02-06","payee":7,"serials":["K2EE"]}
200 {"day":"2012-02-06","lines":[{"paid":"38.34","serial":"K2EE"}],"payee":7,"ticket":3,"total":"38.34"}
> POST /day/close {"number":9,"day":"2012-02-06"}
200 {"bonds":3,"day":"2012-02-06","tickets":3,"total":"5196.22"}
"#,
    r#"> POST /redeem {"number":6,"day":"2012-02-06","payee":7,"serials":["M3EE"]}
200 {"day":"2012-02-06","lines":[{"paid":"5132.00","serial":"M3EE"}],"payee":7,"ticket":1,"total":"5132.00"}
> POST /redeem {"number":5,"day":"2012-02-06","payee":7,"serials":["K2EE"]}
200 {"day":"2012-02-06","lines":[{"paid":"38.34","serial":"K2EE"}],"payee":7,"ticket":2,"total":"38.34"}
> POST /redeem {"number":4,"day":"2012-02-06","payee":7,"serials":["L1EE"]}
200 {"day":"2012-02-06","lines":[{"paid":"25.88","serial":"L1EE"}],"payee":7,"ticket":3,"total":"25.88"}
> POST /day/close {"number":9,"day":"2012-02-06"}
200 {"bonds":3,"day":"2012-02-06","tickets":3,"total":"5196.22"}
"#,
];
